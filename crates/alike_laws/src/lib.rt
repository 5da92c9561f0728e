//! What sessions have changed, up to the order of the rows: a session knows its pending deletes, and what an UPDATE makes of them, as a bag.
//!
//! The laws are the contracts here, and there is no code: over alike changes (`AreAlikeChanges` of `db_model`) the same statements are
//! refused, and a commit makes the same database but for the order of rows (`IsReordered` of `specs/Reordered.antt`). Other crates' proofs
//! cite `proofs/Changes.antt`: what each event makes of alike changes is alike.
#![tactic(auto)]

mod laws;

pub use laws::{alike_changes_are_sound, alike_changes_commit_alike, alike_sessions_lock_alike};
