//! Bound trees, and what queries mean.
//!
//! A bound tree names columns by their places: `Expr` is an expression, and `BoundQuery` a query over the rows of its FROM
//! items. `specs/Values.antt` says what an expression is worth, `specs/Kinds.antt` and `specs/Bounds.antt` which expressions
//! are typed and narrow, `specs/Used.antt` which columns a query uses, `specs/Outputs.antt` which rows it puts out, and
//! `specs/Printed.antt` in which order they are printed.
#![tactic(auto)]

mod expr;
mod query;

pub use expr::{BoundTerm, Expr, Kind};
pub use query::{Aggregate, Assigned, BoundQuery, BoundWindow, FromItem};
