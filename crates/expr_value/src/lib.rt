//! What bound expressions are worth.
//!
//! `value_of` finds the value of a narrow expression over a row, or over the keys and aggregates of a group (`value_of` of
//! sql_bound's `specs/Values.antt`). It takes no memory: a text is lent, never copied. `is_true` and `are_true` ask for
//! conditions, and `items_of` makes an output row.
#![tactic(auto)]

mod laws;
mod rows;
mod sight;
mod value;
mod worth;

pub use laws::{null_joins_nothing, one_part_settles, value_bounded};
pub use rows::{are_true, is_true, items_at, items_of};
pub use sight::Sight;
pub use value::value_of;
pub use worth::Worth;
