//! The rows of a projection that are in memory.
//!
//! A `WriteStore` is seen as its rows in the order in which they came, each with its epochs (`specs/Memory.antt`). Room is made
//! first, by `reserve`; then rows join, and rows are deleted, without memory. A moveout copies the rows up to an epoch by
//! `take_upto`, and when they stand on the disk `drop_upto` drops them here. Where the table gets a column, `with_value` makes the wider
//! rows beside these, so that putting them in their place takes no memory.
#![tactic(auto)]

mod held;
mod rows;
mod store;

pub use held::{Held, Inserted};
pub use store::WriteStore;
