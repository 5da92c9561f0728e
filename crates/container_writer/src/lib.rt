//! Rows with their epochs, deleted ones too, as one container with its delete vector.
//!
//! `write_stamped` takes rows where they stand, brings references to them into the order of a container and makes the files of its
//! columns, each from a copy of that column's values alone, and of its delete vector where a row is deleted. What it wrote holds
//! exactly these rows, as `HoldsBag` of `specs/Writing.antt` says, and no file below the numbers that it was given is touched.
//! `write_vector` gives a container another delete vector in a file of its own.
#![tactic(auto)]

mod columns;
mod marking;
mod order;
mod ordering;
mod packing;
mod ranks;
mod refs;
mod values;
mod vectors;
mod writing;

pub use ranks::{Rank, number_rank, order_columns, rank_alone, rank_of};
pub use refs::StampedRef;
pub use vectors::write_vector;
pub use writing::{Written, write_stamped};
