//! Writing the containers of a projection anew without the rows that were deleted at or before a mark.
//!
//! `purge_one` rewrites each container that has such a mark at its level, gives the others a delete vector of all their marks, and takes
//! the rows in memory to disk. The entry that it answers holds exactly the rows that are retained from the mark on, as `Purges` of
//! `specs/Purging.antt` says. A container that doesn't store all columns stores no more of them afterwards.
#![tactic(auto)]

mod each;
mod entry;
mod gone;
mod job;
mod one;
mod rows;

pub use gone::has_gone;
pub use job::{Purged, purge_one};
