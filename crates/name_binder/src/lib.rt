//! Names of a statement: what is in sight, what a name stands for, and which name is refused.
//!
//! The columns that the FROM items bring into sight (`sight`), the first table, column or twice-named name that a query is refused
//! for (`check_tables`, `check_names`), the names of its output columns and the places by which it is ordered. The definitions are
//! those of `sql_binding`: `unknown_table` and `name_refusal` of its `specs/Queries.antt`.
#![tactic(auto)]

mod fault;
mod groups;
mod keys;
mod look;
mod names;
mod naming;
mod outputs;
mod seen;
mod sources;
mod view;
mod walk;

pub use fault::{BindFault, Found};
pub use groups::is_grouped;
pub use keys::bind_order;
pub use names::{check_columns, check_names, check_tables, check_twice, find_tables};
pub use naming::Naming;
pub use outputs::output_names;
pub use seen::{SeenColumn, place_of};
pub use sources::{item_name, sight};
