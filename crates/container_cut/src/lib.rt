//! Cutting the containers of a projection at an epoch.
//!
//! Where a container has later rows it is read, and what is left of it is written under new numbers; where it has later marks alone it
//! gets another delete vector; and one that has nothing later stays. What `cut_containers` answers holds, over the new files, exactly the
//! rows up to the epoch without the later deletes, as `CutsContainers` of `specs/Cutting.antt` says. No file of a number that was drawn
//! before is touched. One container at a time is in memory.
#![tactic(auto)]

mod containers;
mod rows;

pub use containers::{CutContainers, cut_containers};
