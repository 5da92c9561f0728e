//! That a state stays sound in every step, and in a whole run.
//!
//! The laws are the contracts here, over `Step`, the mover and `Run` of `db_model`, and there is no code. `state_laws` and `change_laws` say it
//! of each event.
#![tactic(auto)]

mod laws;

pub use laws::{moves_keep_states_sound, runs_keep_states_sound, steps_keep_states_sound};
