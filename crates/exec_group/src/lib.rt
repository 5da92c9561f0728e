//! Groups, over rows that come one after another.
//!
//! `Groups` takes row by row, or the rows at places of columns: first the group of each, then one aggregate after another, and none of
//! them is made (`specs/Columns.antt`). Keys of one number are held and found as numbers (`specs/NumberKeys.antt`): by hash, or by `GroupMethod::Sorted`
//! in a row, as long as each is greater than the one before it (`specs/Rising.antt`); other keys by hash. A key of words
//! is looked up once for all rows in which these words stand (`specs/Codes.antt`); a sum takes the numbers of an expression as a lane, one
//! operation for all rows after another. Of each group it holds the key and what each aggregate keeps, and
//! of the rows nothing. What it gives back are the groups and the aggregates that `sql_bound` defines for all rows that it took, in the
//! order in which their keys were first met:
//! `HoldsGroups` in `specs/Groups.antt` says what it stands for, and `AreGroups` what comes out.
#![tactic(auto)]

mod accumulator;
mod argument;
mod cells;
mod codes;
mod columns;
mod fault;
mod groups;
mod held_keys;
mod kept;
mod lanes;
mod met_numbers;
mod method;
mod number_keys;
mod numbers;
mod runs;
mod total;

pub use accumulator::Accumulator;
pub use argument::argument_of;
pub use cells::{row_at, worth_at};
pub use fault::GroupFault;
pub use groups::{Grouped, Groups};
pub use method::GroupMethod;
