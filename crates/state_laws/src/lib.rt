//! That a state stays sound: its database is, each session's changes fit, what two sessions hold goes together, and what the mover is asked
//! for isn't up to date.
//!
//! The laws are the contracts here, one for each event of the sessions (`IsSound` of `db_model`), and there is no code.
#![tactic(auto)]

mod laws;

pub use laws::{
    a_new_column_is_sound, a_new_projection_is_sound, a_new_table_is_sound, an_event_may_draw,
    changes_may_be_dropped, commits_of_a_session_are_sound, inserted_rows_fit, loaded_rows_fit,
    marks_up_to_the_last_good_epoch_are_sound, pending_rows_are_sound, projections_may_be_dropped,
    refreshed_states_are_sound, risen_states_are_sound, sessions_may_change, tables_may_be_dropped,
};
