//! Queries, run over the rows of their FROM items.
//!
//! `printed` gives what `sql_bound` defines a query to print. The rows of each FROM item behind the first stand in a table under the
//! columns that a condition equates with columns of the items before it, so that only rows that can join are put together; a row that
//! the conditions on it alone refuse isn't there. Each condition is tested as soon as a tuple has the columns at which it looks, and
//! where it isn't true no row is joined to the tuple (`false_refuses`); one that asks for many literals looks the value up (`literal_sets`). Each tuple that is kept goes at once to its group, or becomes
//! an output row, of which few more are held than a LIMIT asks for; one that stands behind as many by the keys of ORDER BY isn't even
//! made.
//! The tuples of a query with windows are held in the columns that it uses, and the windows' values stand beside them at the end.
//! A `Run` is the same where the rows of the first FROM item come one by one, and are not held: `HasTaken` in `specs/Runs.antt` says
//! what came. They may come in columns: where the query has no other item, no row is made of them, and an output row only of those that don't
//! stand behind the bar by the first key of ORDER BY. Where each other item is joined by one column of numbers, the tuples are made in columns, too, of the rows' places
//! (`IsNumbered` in `specs/Joining.antt`); elsewhere no row is made of one that joins none of the next item's. Rows that are found by a number
//! are found by hash, or those of the second item by `JoinMethod::Merge` in the order of the numbers; texts, days and several equated
//! columns go by hash. Groups are found by the `GroupMethod`. What a run prints is the same by each method.
#![tactic(auto)]

mod bar;
mod collected;
mod columned;
mod equated;
mod fault;
mod filter;
mod gather;
mod joining;
mod lane;
mod laws;
mod numbered;
mod output;
mod past;
mod printing;
mod ready;
mod run;
mod seen;
mod side;
mod walk;
mod windows;

pub use fault::QueryFault;
pub use laws::false_refuses;
pub use printing::printed;
pub use run::Run;
