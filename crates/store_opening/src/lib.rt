//! Opening a folder as its tables.
//!
//! A folder reopens to the database of `Reopens` of `folder_model/specs/Reopening.antt`: its tables, cut at the one epoch up to which every
//! up-to-date projection has all its rows on disk. `open` answers a `TableStore` that stands for it. Where files hold later rows or
//! deletes it writes the cut containers under new numbers and commits a catalogue that lists them; whatever a crash leaves of that, the
//! folder reopens to the same database. No row is read but of containers that are cut. Where a file is blamed, none was removed: `IsLeftAlone` of
//! `specs/Opening.antt`.
#![tactic(auto)]

mod laws;
mod loading;
mod missing;
mod opening;

pub use laws::reopening_folders_are_unblamed;
pub use opening::open;
