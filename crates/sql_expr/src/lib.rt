//! The readers of expressions, which call one another.
//!
//! `expr` and `grouped_expr` read what `sql_tree` calls Expr and GroupedExpr, `literal` and `reference` its Literal and
//! Reference: each promises `Gives` of its reader on lists. An item that begins with COUNT or SUM is read in two parts,
//! `item_tally` and, where no OVER follows, `tally_expr`: no token is read twice. Time is linear in the tokens: chains and lists are loops, and
//! the recursion is no deeper than the parentheses, of which 32 may nest.
//! Where a reader stops it drops what it holds by name: a drop left to the exits is proved at each of them anew.
#![tactic(auto)]

mod chains;
mod expressions;
mod leaves;
mod level;
mod predicates;
mod primaries;
mod sums;

pub use expressions::{expr, grouped_expr, item_tally, tally_expr};
pub use leaves::{literal, reference};
