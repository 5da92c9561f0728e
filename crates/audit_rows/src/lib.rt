//! The second pass of an audit: the first stored row that isn't good. And what is judged of a projection's rows.
//!
//! Rows are judged cut at the epoch up to which every up-to-date projection has all its rows on disk, and from the ancient history mark on
//! (`judged_in` of `audit_model/specs/Rows.antt`). `judge_rows` answers what `JudgesRows` of `audit_model/specs/Judging.antt` says; of a
//! container one block is in memory at a time. `judged_rows` gives what is judged of a projection, in chosen columns.
#![tactic(auto)]

mod blocks;
mod collecting;
mod fitting;
mod judged;
mod judging;
mod searching;

pub use collecting::judged_rows;
pub use judging::judge_rows;
