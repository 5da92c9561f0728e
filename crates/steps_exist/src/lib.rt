//! That every statement text has a step, and every script a run.
//!
//! The laws are the contracts here, over `Step`, the mover and `Run` of `db_model`, and there is no code: a relation tells something only
//! where there is what it relates. Whatever a text says, a sound state has a step of it: it spells a statement or there is the place of
//! its first wrong token, the statement is refused or it isn't, and what it prints and leaves is there (`specs/Exist.antt`).
#![tactic(auto)]

mod laws;

pub use laws::{every_script_has_a_run, every_state_moves_on, every_text_has_a_step};
