//! Alike states step alike: what no statement tells apart stays so.
//!
//! The laws are the contracts here, and there is no code. Over two states that no statement tells apart (`AreAlikeStates` of `db_model`), of
//! which one is sound, a statement text that asks the mover for nothing is refused for the same cause or in neither, prints the same bytes, and
//! leaves states that no statement tells apart (`specs/Steps.antt`); so whole scripts print the same over both (`specs/Runs.antt`). A moveout
//! of all goes alike, too, where it isn't refused: whether it is, the numbers of files decide. One step of the mover does what the storage
//! decides, and no law here speaks of it.
#![tactic(auto)]

mod laws;

pub use laws::{alike_runs_go_through, alike_runs_print_alike, alike_states_step_alike};
