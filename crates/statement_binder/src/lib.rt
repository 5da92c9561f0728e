//! The bound tree of a query, or why it is refused.
//!
//! `bind_query` binds a query over its FROM items, with joins, groups and aggregates. It gives `bound_query`, or refuses by
//! `query_refusal`, of `sql_binding`'s `specs/Queries.antt`.
#![tactic(auto)]

mod bounds;
mod group_trees;
mod items;
mod keep;
mod kinds;
mod narrowness;
mod queries;
mod row_trees;
mod scope;
mod sources;
mod types;
mod windows;

pub use kinds::column_kinds;
pub use narrowness::{are_narrow, is_narrow_query};
pub use queries::{bind_named, bind_query, check_trees};
pub use row_trees::bind_row;
pub use scope::Scope;
pub use types::is_typed_query;
