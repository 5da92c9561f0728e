//! What the tables of two databases tell, in memory: compared, and in the order of epochs.
//!
//! `difference_at` finds the least row in which a table differs from another one up to an epoch (`IsLeastIn` of `specs/Told.antt`). `Ordered` has what a table tells by the epochs that inserted and deleted it, where the rows
//! stand (`AreInserts`, `AreDeletes` of `specs/Keyed.antt`); an epoch costs what it changed.
#![tactic(auto)]

mod cuts;
mod epochs;
mod gaps;
mod ordered;
mod told;

pub use cuts::difference_at;
pub use epochs::Keyed;
pub use gaps::{first_gap, first_too_many};
pub use ordered::{Ordered, asked_rows, copied_rows, order_all};
pub use told::Told;
