//! Which projection the tuple mover moves out of memory, and that this is what the mover of db_model chooses; which merge comes next.
//!
//! `first_behind` looks at a catalogue's projections and takes no memory: it finds the one that `first_behind` of db_model's
//! `specs/Mover.antt` says, since a database has behind what its catalogue has (`a_catalogue_has_what_is_behind`).
//! `moveouts_go_by_names` says that the moveout of a place is that of the projection's name, and `jobs_go_by_names` says it of each job.
//! `next_merge` finds the merge of `specs/Merging.antt`, and `next_stale` the projection that a refresh takes.
#![tactic(auto)]

mod first;
mod laws;
mod merging;

pub use first::{Place, first_behind, projection_at};
pub use laws::{a_catalogue_has_what_is_behind, jobs_go_by_names, moveouts_go_by_names};
pub use merging::{Merge, next_merge, next_stale};
