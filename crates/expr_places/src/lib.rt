//! Which columns an expression looks at.
//!
//! `looks_between` tells whether all columns of an expression stand in a range (`looks_only` of `specs/Places.antt`). Its value is
//! then the same over all rows that agree in that range (`columns_decide`), so it can be found before a tuple is whole. `is_used` tells
//! whether a query looks at a column.
#![tactic(auto)]

mod laws;
mod places;
mod used;

pub use laws::columns_decide;
pub use places::looks_between;
pub use used::is_used;
