//! Laws of the columns that a query uses.
//!
//! A query prints the same over rows that have, in the columns that it uses, what the rows of its FROM items have, in any order
//! (`used_columns_decide`). So it may read any projection that has these columns (`a_projection_shows_the_table`), and make rows of
//! the table's width of what it reads, with NULL in the columns that it doesn't use (`placed_rows_are_seen`).
//!
//! It prints the same, too, with and without rows of its FROM items on which, whatever rows of the others stand before and behind them, no
//! tuple meets all conditions (`enough_rows_decide`); so such rows need not be read.
#![tactic(auto)]

mod bounds;
mod laws;

pub use bounds::enough_rows_decide;
pub use laws::{a_projection_shows_the_table, placed_rows_are_seen, used_columns_decide};
