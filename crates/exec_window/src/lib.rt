//! The values of a window function over rows.
//!
//! `window_values` gives for each row what `sql_bound` defines a window to be worth on it, counted over all rows. The rows are sorted once,
//! by partition, keys, all their columns and their places, and then walked: forward for the numbers of each row and for what its partition
//! adds up to so far, and back for what peers share. Two numbers of each row, made once, mostly tell the sort which of two comes first.
#![tactic(auto)]

mod compare;
mod fault;
mod leads;
mod settle;
mod tuples;
mod values;
mod walk;

pub use fault::WindowFault;
pub use values::window_values;
