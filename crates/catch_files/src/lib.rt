//! The containers that two folders hold in the same files.
//!
//! `parted` goes over the containers that two catalogues list of a projection, and takes out those that both list alike and whose files hold
//! the same bytes on both disks (`AreParted` of `specs/Parting.antt`): these hold the same rows. Files are read piece by piece.
#![tactic(auto)]

mod bytes;
mod files;
mod parting;

pub use parting::{Others, parted};
