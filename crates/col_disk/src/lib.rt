//! The disk that a store stands on: names, each a number, and the bytes that each holds.
//!
//! `Disk` is the trait that the store's crates are written over. Its meaning, where a disk tells it, is one finite
//! map from names to bytes, and each call says exactly what it answers of that map and what it makes of it, after a
//! fault too. `MemDisk` keeps the map in memory and fails where it is told to; `DirDisk` keeps one file a name in a
//! folder and tells nothing. What a piece of work may have changed is said by `Moved` of specs/Moved.antt: the names
//! that it may have written, and those that it may have removed.
#![tactic(auto)]

mod did;
mod dir;
mod disk;
mod folder;
mod held;
mod memory;
mod opened;
mod whole;

pub use common_laws::Blob;
pub use did::Did;
pub use dir::DirDisk;
pub use disk::{Disk, DiskFault, StoreFault};
pub use memory::{Keep, MemDisk};
pub use whole::read_whole;
