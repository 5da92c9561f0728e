//! Queries over the tables of a store.
//!
//! `select` answers a bound query over what a `TableStore` has on its disk and in memory. Of each FROM item's table it reads the projection
//! that the choice says (`plan_choice`), and of this only the columns that the query uses. Where the session's own view is asked for, it takes
//! out the rows that the session deletes, and puts its pending rows behind the others. The rows of the first FROM item go to the run of the
//! query as their batches come (`specs/Feeding.antt`), and are not held; those of the others are. Rows that lie out of the bounds of the conditions
//! are passed over, and blocks of them unread (`Suffice` of `specs/Reading.antt`); each block that is read is a step of the caller's count, of no
//! more than `Counts` of `specs/Counting.antt` says; `uncounted` has the same for a caller that counts none. What it answers is what the query
//! prints over the tables of the database that the store stands for (`CanRead` and `source_rows` of `specs/Reading.antt`); for a query bound over a
//! state these are the rows that it reads there (`bound_queries_read_their_tables`).
#![tactic(auto)]

mod answering;
mod fault;
mod feeding;
mod gathering;
mod laws;
mod lessening;
mod methods;
mod pending;
mod places;
mod sources;
pub mod uncounted;

pub use answering::select;
pub use fault::SelectFault;
pub use laws::bound_queries_read_their_tables;
