//! The least row in which two bags of stamped rows differ.
//!
//! Rows stand in the order of `stamped_cmp` of `specs/Differences.antt`: by their values, then by the epoch that inserted them, then by
//! the one that deleted them. `least_difference` sorts both lists and goes over them at once; it answers what `IsLeastDifference` says, or
//! that the two are one bag.
#![tactic(auto)]

mod difference;
mod ordering;
mod ranks;
mod walk;

pub use difference::{Difference, least_difference};
