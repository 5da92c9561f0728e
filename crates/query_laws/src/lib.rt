//! Laws of what a query prints.
//!
//! The order in which the rows of the FROM items come changes neither what is printed nor whether a sum passes what a result holds
//! (`order_of_rows_is_free`); a query without conditions prints every tuple once; and NULL joins nothing. Crates that run queries
//! cite the definitions (`specs/Bounded.antt`, `Scopes.antt`) and the lemmas below the laws (`proofs/`).
#![tactic(auto)]

mod laws;

pub use laws::{bare_query_prints_all, null_joins_nothing, order_of_rows_is_free};
