//! The files of delete vectors.
//!
//! `read` gives the delete vector that an entry lists for a container, as `HoldsVector` says it, and blames its file only where that
//! holds none that the container could have: it is absent or spells no vector, a position isn't one of the container's, or the
//! greatest epoch isn't the entry's. `write` makes the file of a vector.
#![tactic(auto)]

mod fitting;
mod reading;
mod writing;

pub use fitting::greatest_epoch;
pub use reading::read;
pub use writing::write;
