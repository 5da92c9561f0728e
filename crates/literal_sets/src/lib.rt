//! Conditions that compare a column with many literals, looked up.
//!
//! `x IN (a, b, ..)` says that `x = a` or `x = b` and so on. A `LiteralSet` is made of such a condition once: it holds the column and a table
//! of the literals. `has` then looks a row's value up there, and is true on exactly the rows on which the condition is (`IsSetOf` in
//! `specs/Sets.antt`).
#![tactic(auto)]

mod part;
mod set;

pub use set::LiteralSet;
