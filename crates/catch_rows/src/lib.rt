//! What a table tells in two stores, but for what both hold in the same files.
//!
//! `rests_of` answers the rows with their epochs that a table has in each of two stores, from a mark on. Rows of containers that both list
//! alike and whose files are the same on both disks are left out of both (`SharesRows` of `specs/Sharing.antt`): these files are compared, and
//! no row of them is made.
#![tactic(auto)]

mod alike;
mod faults;
mod held;
mod histories;
mod pairs;
mod telling;

pub use faults::{ahead_fault, behind_fault};
pub use histories::Rests;
pub use telling::rests_of;
