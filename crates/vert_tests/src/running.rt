//! One run over a script in memory.

use col_disk::MemDisk;
use col_io::{MemFiles, MemSink};
use std::alloc::{AllocError, Global};
use vert_cli::{Status, run};

/// What fails, and how much the sink takes at once.
#[derive(Drop)]
pub struct Trouble<'a> {
    pub reads: &'a [u64],
    pub writes: &'a [u64],
    pub most: usize,
}

/// Nothing fails.
pub const NONE: Trouble<'static> = Trouble {
    reads: &[],
    writes: &[],
    most: 65_536,
};

/// These words, the program's name first.
pub fn words(alloc: Global, all: &[&str]) -> Result<Vec<String>, AllocError> {
    let mut words = Vec::new(alloc);
    for word in all {
        words.push(String::from_str(alloc, word)?)?;
    }
    Ok(words)
}

/// `vert DIR s.sql` over this disk, where these bytes are the file `s.sql`: the status and the sink.
pub fn ran_on(
    alloc: Global,
    script: &[u8],
    trouble: &Trouble,
    disk: &mut MemDisk,
) -> Result<(Status, MemSink), AllocError> {
    let words = words(alloc, &["vert", "DIR", "s.sql"])?;
    let mut files = MemFiles::new(alloc, Vec::from_slice(alloc, trouble.reads)?);
    files.put(alloc, "s.sql", Vec::from_slice(alloc, script)?)?;
    let mut out = MemSink::new(alloc, trouble.most, Vec::from_slice(alloc, trouble.writes)?);
    let status = run(alloc, words.as_slice(), &mut files, &mut out, disk);
    Ok((status, out))
}

/// The same over an empty disk.
pub fn ran(
    alloc: Global,
    script: &[u8],
    trouble: &Trouble,
) -> Result<(Status, MemSink), AllocError> {
    ran_on(alloc, script, trouble, &mut MemDisk::new(alloc))
}
