//! That a state stays sound in a DELETE and in an UPDATE.
//!
//! The laws are the contracts here, one for each of the two statements (`IsSound` of `db_model`), and there is no code.
//! `set_columns_are_there` says that what an UPDATE sets are columns of its table.
#![tactic(auto)]

mod laws;

pub use laws::{deletes_are_sound, set_columns_are_there, updates_are_sound};
