//! The catch-up of two folders as one call over words, a sink and two disks.
//!
//! `link` opens both folders, makes the three calls of `buddy_link::Link`, and prints how far it came or why it is refused (`catch_text`). Its
//! promise is `LinkEnds` of `specs/Ends.antt`, over folders that reopen: by its status what was printed, and what the folder behind then is.
//! Whatever a crash leaves of that folder at any moment reopens to the state that it had, or to one of the other folder's; the folder ahead
//! stays what it is.
#![tactic(auto)]

mod linking;
mod status;

pub use linking::link;
pub use status::LinkStatus;
