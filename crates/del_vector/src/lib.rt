//! Delete vectors: which positions of a container are deleted, and in which epoch.
//!
//! A `DelVector` is seen as its marks, in ascending order of their positions (`specs/Marks.antt`). It has one spelling as bytes
//! (`specs/Spelling.antt`), from which it is read again; bytes that spell none are answered as None.
#![tactic(auto)]

mod gaps;
mod laws;
mod mark;
mod merging;
mod vector;

pub use laws::{no_later_mark, one_vector};
pub use mark::Mark;
pub use vector::DelVector;
