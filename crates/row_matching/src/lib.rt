//! The rows that a DELETE and an UPDATE match.
//!
//! `match_rows` answers the rows of a table that a session sees and on which a condition is true: the committed ones, each with its insert
//! epoch, and the session's pending ones. Over a disk for which the store stands for a database they are those of `AreMatches` of
//! `specs/Matching.antt`, and `matches_are_the_matched_rows` says that these are what db_model's events and refusals of both statements are
//! stated in. The projection that is read is scanned batch by batch, and blocks of rows that can't match are passed over: held are the rows
//! that match and one batch. `rows_left` answers the pending rows that both leave as they are. `table_history` answers the rows of a table
//! that are retained from a mark on, with their epochs.
#![tactic(auto)]

mod history;
mod keeping;
mod laws;
mod matching;
mod sifting;
mod sources;

pub use history::{retain, table_history};
pub use laws::{alike_changes_match_alike, matches_are_the_matched_rows};
pub use matching::{Matched, match_rows, rows_left};
pub use sources::{Source, source_of};
