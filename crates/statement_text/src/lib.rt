//! What statements print that aren't refused.
//!
//! Each text is the one of db_model's `specs/Printing.antt` and `specs/Answers.antt`: fixed words, a word with a number, the list of a
//! query's rows, and the lines of EXPLAIN, which name for each FROM item the projection that the choice picks among those of a catalogue's
//! tables. The one error is that memory ran out.
#![tactic(auto)]

mod explaining;
mod lines;
mod printing;
mod words;

pub use explaining::explain;
pub use lines::{
    commit_text, copy_text, deleted_text, epoch_text, insert_text, lge_text, mark_text,
    updated_text,
};
pub use printing::listing;
pub use words::{
    column_added_text, mergeout_text, moveout_text, projection_created_text,
    projection_dropped_text, purge_text, refresh_text, rollback_text, start_refresh_text,
    table_created_text, table_dropped_text,
};
