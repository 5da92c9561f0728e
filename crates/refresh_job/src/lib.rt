//! Making a stale projection out of an up-to-date one.
//!
//! `begin` reads of the source's containers the columns that the new projection has, drops the rows that were deleted at or before a mark and
//! brings the others into the order of a container; each `advance` makes the files of one column; `install` reads no file and answers
//! the entry that holds the source's rows of then: those that were read, deleted as they are by then, and behind them those that are in the
//! source's memory. From the mark on the entry holds what the source stores, as `RefreshesFrom` of `specs/Job.antt` says.
#![tactic(auto)]

mod entry;
mod job;
mod rows;

pub use job::{RefreshJob, Refreshed, begin};
