//! A folder cut at the epoch up to which every up-to-date projection has all its rows on disk.
//!
//! After a stop the files may hold rows and deletes that are later than that epoch. `IsCutRoot` of `specs/Cut.antt` says that a new
//! catalogue, over new files, has exactly what is up to it; the laws here say that the folder reopens by it to the same database, and
//! that the projections that are then read stand for that database. There is no code.
#![tactic(auto)]

mod laws;

pub use laws::{
    a_cut_reopens, a_loaded_cut_is_the_database, a_loaded_folder_is_the_database,
    a_valid_mark_is_reached, nothing_later_needs_no_cut, other_files_stay,
};
