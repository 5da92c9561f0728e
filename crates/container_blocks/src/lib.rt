//! A container read block by block.
//!
//! A block holds 1,024 rows, the last one those that are left, and all columns of a container have the same blocks: block b
//! holds the rows `rows_in b` of `specs/Blocks.antt`. `index` reads the index of a column, which says for each of its blocks
//! the least and the greatest value. `block` reads the values of one block of a column and `epochs` the insert epochs of its
//! rows, at which `look_at_epochs` only looks: where the container holds rows, these are the values of the rows of that block (`AreBlock`, `AreEpochs`). Of a column
//! that the container doesn't store both are made in memory, of its default. A file is blamed only where the container holds no rows.
//! Each block that is read of a file is a step of the caller's `Steps`, and by no other call are values of a file read here; `uncounted` has the same calls
//! for a caller that counts none.
#![tactic(auto)]

mod defaults;
mod laws;
mod reading;
mod stamps;
pub mod uncounted;

pub use common_laws::Steps;
pub use laws::{blocks_are_all_rows, values_lie_between};
pub use reading::{block, index};
pub use stamps::{epochs, look_at_epochs};
