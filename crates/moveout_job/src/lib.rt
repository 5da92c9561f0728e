//! Moving a projection out of memory.
//!
//! `moveout` writes the rows of a projection that aren't on disk as one container, and for each container with marks that came since a
//! delete vector with all its marks. No file of before is touched: the entry that it answers lists the new ones, with numbers that
//! were free, and holds exactly the rows that the projection stores, as `KeepsStored` of `specs/OnDisk.antt` says.
//! `save_memory` does the same for a job that writes some of the containers anew: those are left out.
#![tactic(auto)]

mod entry;
mod job;
mod marks;
mod others;
mod remarking;

pub use job::{MovedOut, moveout};
pub use others::{Saved, save_memory};
pub use remarking::{Remarked, mark_one};
