//! Cutting a catalogue at the epoch up to which every up-to-date projection has all its rows on disk.
//!
//! `cut_projection` cuts the containers of one projection and `cut_catalogue` those of all: what it answers is, over the new files,
//! `IsCutRoot` of `cut_model/specs/Cut.antt`. No file of a number that was drawn before is touched, so until the new catalogue is
//! committed a folder is what it was.
#![tactic(auto)]

mod catalogues;
mod projections;

pub use catalogues::cut_catalogue;
pub use projections::{Cut, cut_projection};
