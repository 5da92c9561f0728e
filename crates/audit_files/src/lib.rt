//! The first pass of an audit: the first file that a catalogue lists and that is absent or isn't its spelling.
//!
//! The files are judged in the order of `files` of `audit_model/specs/Listed.antt`: containers as they are listed, of each the index before
//! the body, column by column, then the epochs, last the delete vector. `judge_files` answers what `JudgesFiles` of
//! `audit_model/specs/Judging.antt` says. Of a column one block is in memory at a time.
#![tactic(auto)]

mod columns;
mod containers;
mod judging;
mod stored;

pub use judging::judge_files;
