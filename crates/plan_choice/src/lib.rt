//! Which projection of a table a query reads, and how its FROM items are joined and its rows grouped.
//!
//! `choose` answers the place of the projection that `chosen_for` of db_model's `specs/Choice.antt` says: of those that are up to date
//! and have the columns that the query uses, first those that are sorted first by a column with a constant bound; among these, or
//! among all where there is none, the one of the fewest columns, and of these the one of the least name. `join_method` and `group_method`
//! answer the methods of `specs/Methods.antt`: the second FROM item is joined by Merge where a member of the condition equates the columns by
//! which the two projections are sorted first, and rows are grouped in one pass where the projection of the only item is sorted first by the
//! GROUP BY columns.
#![tactic(auto)]

mod bounding;
mod choosing;
mod covering;
mod methods;

pub use choosing::choose;
pub use covering::covers_query;
pub use exec_group::GroupMethod;
pub use exec_join::JoinMethod;
pub use methods::{group_method, join_method};
