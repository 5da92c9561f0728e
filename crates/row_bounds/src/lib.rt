//! Bounds that conditions set to the values of a row.
//!
//! A row on which all conditions are true lies within the bounds that `bounds_of` finds in them (`within` of `specs/Bounds.antt`), and its
//! columns from a place on within those of `bounds_from`. Each bound that a condition sets by itself, since it compares a column with a constant, is among them
//! (`IsSet` of `specs/Setting.antt`). So what holds no value of a bound, as `Bound::misses` tells of a block by its
//! least and greatest value, need not be read. That a row lies within the bounds doesn't say that the conditions are true on it. An end of a
//! comparison by `<` or `>` is out of its bound: of numbers, days and truth values; of texts, which have no next one, it is in it.
//!
//! Beside it stand the same comparisons over a lane of numbers (`compare_lanes`, and `mask_of` for eight at once).
#![tactic(auto)]

mod bound;
mod finding;
mod hull;
mod lanes;
mod laws;
mod shifting;
#[cfg(test)]
mod tests;

pub use bound::Bound;
pub use finding::bounds_of;
pub use lanes::{compare_lanes, mask_of};
pub use laws::a_front_lies_within;
pub use shifting::bounds_from;
