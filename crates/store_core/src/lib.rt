//! A running store: its tables, its eight sessions, and the events that change them.
//!
//! A `Store` is seen as its tables with what its sessions have changed (`Running` of `specs/Running.antt`); over a disk it is a state of
//! db_model (`IsState`). Each event says which states it may make of that, that where memory was short the store is the state as before,
//! and that whatever a crash left at any moment of it reopens to the database before the event or to one after it, cut at its last good
//! epoch (`Does` of `specs/Events.antt`). A statement of several jobs may have done some of them then (`JobsOf` of `specs/Jobs.antt`).
//! Whether a statement is refused is looked at above, before its event. A file that a fault names is one of the store's projections, and bad in
//! what the disk holds when the event returns, whatever it holds (`NamesHeld` of `specs/Named.antt`).
//!
//! The mover's job in flight (`Mover` of `specs/Running.antt`) counts its steps. Of a merge or a refresh each step writes the files of one column, under
//! numbers that aren't drawn before its last one (`HasWork`, and `works` of `Store::step_mover`); until then nothing lists them, and an event that writes
//! gives them up: the last step then makes all of them.
#![tactic(auto)]

mod laws;
mod store;

pub use laws::{
    all_moved_reach_the_last_epoch, all_rollbacks_stand, changed_rows_stand,
    frames_are_of_the_state, given_changes_stand, pending_rows_stand,
    planned_projections_have_places, refreshes_may_be_asked_for, rollbacks_stand, sessions_stand,
};
pub use row_matching::{Matched, matches_are_the_matched_rows};
pub use store::Store;
pub use store_query::SelectFault;
