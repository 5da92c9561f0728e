//! Merging four containers of a level into one of the next.
//!
//! `begin` reads the rows of the four oldest, drops those that were deleted at or before a mark and brings the others into the order of a
//! container; each `advance` makes the files of one column; `install` answers the entry of the projection in which the new container
//! stands in the place of the oldest input, deleted as its rows are by then, with all that was in memory on disk. From the mark on the
//! entry holds what the projection stores, as `KeepsFrom` of `merge_rows` says. Containers may come behind the others and rows may be
//! deleted between the calls; nothing that was written is touched.
#![tactic(auto)]

mod entry;
mod inputs;
mod job;

pub use job::{MergeJob, Merged, begin};
