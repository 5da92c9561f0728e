ghost use Rattle.std.specs.Prelude.{◌≡◌, None, IfOk, IsTrue, ◌↔◌};
ghost use Rattle.col_io.specs.Files.{HasAtMost};

use crate::reading::{Files, FilesFault, Got};
use std::alloc::{AllocError, Global};
use std::io::{Error, ErrorKind, Read};

/// The files of the machine, by their paths. They tell no content.
#[derive(Drop)]
pub struct StdFiles<R> {
    rt: R,
    faults: u64,
}

impl<R: std::rt::Files + Clone + Drop> StdFiles<R> {
    /// The files that the runtime reaches. It touches none of them yet.
    pub fn new(rt: &R) -> Result<StdFiles<R>, AllocError>
        ensures content { IfOk result (λ f. ⟦<StdFiles<R> as Files>⟧.content f ≡ None) }
        ensures faults { IfOk result (λ f. ⟦<StdFiles<R> as Files>⟧.faults f ≡ 0) }
    {
        Ok(StdFiles {
            rt: rt.clone()?,
            faults: 0,
        })
    }

    /// How many reads have failed.
    pub fn faults(&self) -> u64
        ensures { result ≡ ⟦<StdFiles<R> as Files>⟧.faults self.now }
    {
        self.faults
    }
}

// Whether the error says that nothing has the name. A name that no file can have counts as absent: one too
// long, one with a NUL, and one that goes through a file as if it were a folder.
fn says_absent(error: &Error) -> bool {
    matches!(
        error.kind(),
        ErrorKind::NotFound
            | ErrorKind::NotADirectory
            | ErrorKind::InvalidFilename
            | ErrorKind::InvalidInput
    )
}

fn fault_of(error: &Error) -> FilesFault {
    match error.kind() {
        ErrorKind::OutOfMemory => FilesFault::Memory,
        _ => FilesFault::Failed,
    }
}

// What an open file holds: it reads at most `max` bytes and one more.
fn read_within<F: Read + Drop>(alloc: Global, file: F, max: usize) -> Result<Got, FilesFault>
    ensures { IfOk result (HasAtMost max) }
{
    let mut bytes = Vec::new(alloc);
    let limit = (max as u64).saturating_add(1);
    match file.take(limit).read_to_end(&mut bytes) {
        Ok(_) if bytes.len() > max => Ok(Got::TooLong),
        Ok(_) => Ok(Got::Whole(bytes)),
        Err(error) => Err(fault_of(&error)),
    }
}

// What the path holds.
fn read_path<R: std::rt::Files>(
    rt: &R,
    alloc: Global,
    name: &str,
    max: usize,
) -> Result<Got, FilesFault>
    ensures { IfOk result (HasAtMost max) }
{
    match std::fs::open(rt, name) {
        Ok(file) => read_within(alloc, file, max),
        Err(error) if says_absent(&error) => Ok(Got::Absent),
        Err(error) => Err(fault_of(&error)),
    }
}

impl<R: std::rt::Files + Clone + Drop> Files for StdFiles<R> {
    ghost content = { λ f. None };

    ghost faults = { λ f. f.faults };

    fn read(&mut self, alloc: Global, name: &str, max: usize) -> Result<Got, FilesFault> {
        match read_path(&self.rt, alloc, name, max) {
            Ok(got) => Ok(got),
            Err(fault) => {
                self.faults = self.faults.saturating_add(1);
                Err(fault)
            }
        }
    }
}
