//! Disks in memory, made from others.

use crate::fault::Fault;
use crate::hex::put_hex;
use col_disk::{Disk, Keep, MemDisk};
use std::alloc::Global;

/// The most numbers of files that a stop is looked at with.
const MOST_NAMES: usize = 1000;

/// Another disk of the same files, all of them synced.
pub fn copied(alloc: Global, disk: &mut MemDisk) -> Result<MemDisk, Fault> {
    let names = disk.names(alloc)?;
    let mut copy = MemDisk::new(alloc);
    for name in names.as_slice() {
        let bytes = Vec::from_slice(alloc, disk.bytes(*name).unwrap_or(b""))?;
        copy = copy.with(*name, bytes.as_slice())?;
    }
    Ok(copy)
}

/// The same with another file of this number.
pub fn with_file(
    alloc: Global,
    disk: &mut MemDisk,
    name: u64,
    bytes: &[u8],
) -> Result<MemDisk, Fault> {
    Ok(copied(alloc, disk)?.with(name, bytes)?)
}

/// The disk after a crash that takes all that wasn't synced.
pub fn without_unsynced(alloc: Global, disk: &MemDisk) -> Result<MemDisk, Fault> {
    let mut picks = Vec::new(alloc);
    for _ in 0..MOST_NAMES {
        if let Some(left) = disk.crash(picks.as_slice())? {
            return Ok(left);
        }
        picks.push(Keep::Absent)?;
    }
    Err(Fault::Disk)
}

/// A line of the numbers of the files.
pub fn names_of(alloc: Global, disk: &mut MemDisk) -> Result<String, Fault> {
    let names = disk.names(alloc)?;
    let mut text = String::from_str(alloc, "files")?;
    for name in names.as_slice() {
        let name = *name;
        text.push_str(format!(in alloc; " {name}")?.as_str())?;
    }
    text.push_str("\n")?;
    Ok(text)
}

/// A line for each file: its number and its bytes.
pub fn all_bytes(alloc: Global, disk: &mut MemDisk) -> Result<String, Fault> {
    let names = disk.names(alloc)?;
    let mut text = String::new(alloc);
    for name in names.as_slice() {
        let number = *name;
        text.push_str(format!(in alloc; "{number} ")?.as_str())?;
        put_hex(&mut text, disk.bytes(number).unwrap_or(b""))?;
        text.push_str("\n")?;
    }
    Ok(text)
}
