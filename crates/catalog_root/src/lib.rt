//! Which catalogue a disk opens to, committing a new one, and removing what is no longer listed.
//!
//! Version v of the catalogue has its body in file 4v + 1 and its gate in file 4v + 2, and data number n is file 4n.
//! A gate is open where its file is exactly the byte 86. A disk opens to the body of its greatest open gate: `open`
//! answers what `Opens` of `specs/Root.antt` says, `commit` makes a new version the one that the disk opens to, and
//! `clean` removes the files of `IsUnlisted` of `specs/Listed.antt`, and `clean_after` of these those that a commit made so.
#![tactic(auto)]

mod cleaning;
mod committing;
mod found;
mod gates;
mod listing;
mod names;
mod opening;

pub use cleaning::{clean, clean_after};
pub use committing::commit;
pub use found::Found;
pub use listing::{file_numbers, vector_numbers};
pub use opening::open;
