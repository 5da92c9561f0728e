//! Laws of folders: what a folder leaves open of the database that it reopens to, no statement tells.
//!
//! A folder says nothing of the order of a table's rows, nor of rows that were deleted up to the ancient history mark: it reopens to
//! several databases (`Reopens` of `folder_model/specs/Reopening.antt`). The laws here say that these are the sound ones that are alike to
//! one of them, and that the next run prints one text over them, whichever is taken, and whatever the mover does in between (`specs/OneText.antt`). There is no code.
#![tactic(auto)]

mod laws;

pub use laws::{
    alike_databases_reopen, one_folder_has_one_text, one_folder_has_one_text_with_the_mover,
    one_folder_reopens_alike,
};
