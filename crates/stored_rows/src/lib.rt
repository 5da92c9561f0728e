//! The rows of a projection: what its files and its delete vectors hold, and what is kept of it in memory.
//!
//! The definitions are `specs/Held.antt` (the rows of the files that a catalogue lists) and `specs/Stored.antt` (the same with the
//! rows and marks that aren't on disk); the laws are the contracts here, and there is no code. Projections, jobs and what a
//! folder reopens to are stated in these words. A cut leaves rows as they are of which nothing is later (`specs/Early.antt`),
//! and leaves no others.
#![tactic(auto)]

mod cutting;
mod laws;

pub use cutting::{a_cut_is_made_once, a_cut_leaves_earlier_rows};
pub use laws::{
    a_cut_sees_no_memory, one_list_of_rows, other_files_may_change, what_is_read_is_stored,
};
