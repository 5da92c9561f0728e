//! That a database stays sound: its names are each used once, its rows fit and have closed epochs, and each table has an up-to-date
//! projection with all its columns.
//!
//! The laws are the contracts here, for what each event makes of a database (`IsSoundDatabase` of `db_model`), and there is no code.
#![tactic(auto)]

mod laws;

pub use laws::{
    added_columns_are_sound, commits_are_sound, created_tables_are_sound, moveouts_are_sound,
};
