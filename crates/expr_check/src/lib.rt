//! Which bound expressions are typed, and which are narrow.
//!
//! `kind_of` finds the kind of an expression, or None where it is not typed (`kind_of` of sql_bound's `specs/Kinds.antt`), and
//! `is_narrow` whether every number in it has a static bound of at most 2^127 - 1 (`is_narrow` of `specs/Bounds.antt`).
#![tactic(auto)]

mod kinds;
mod narrow;

pub use kinds::{Places, is_condition, kind_of};
pub use narrow::is_narrow;
