//! Rows by the values of some of their columns.
//!
//! A key is the list of a row's values in given columns. `KeyTable` holds keys in the order in which they came, and `find` tells
//! the first place of a row's key: two keys are the same where all their values are, NULL with NULL. It looks the key up where
//! the row stands, by a number that its values give, and takes no memory. What it promises is stated in `specs/Keys.antt`. `NumberTable` is
//! the same for keys that are one number each (`specs/Numbers.antt`).
#![tactic(auto)]

mod compare;
mod numbers;
mod table;

pub use compare::{has_null, is_key_of, key_of};
pub use numbers::NumberTable;
pub use table::KeyTable;
