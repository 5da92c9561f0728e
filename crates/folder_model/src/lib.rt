//! What a folder reopens to, and what a store stands for over it.
//!
//! The definitions are `specs/Reopening.antt` (the database of a folder: its tables cut at the one epoch up to which every up-to-date
//! projection has all its rows on disk) and `specs/Standing.antt` (the database of a catalogue with its projections, over the
//! contents of a disk and all that a crash may leave of them); the laws are the contracts here, and there is no code.
#![tactic(auto)]

mod laws;

pub use laws::{
    a_commit_reopens, commits_stand, deletes_stand, every_image_reopens, inserts_stand,
    last_good_is_reached, moving_files_reopen, other_files_move, undone_commits_stand,
};
