//! The files of a generated run.

ghost use Rattle.std.specs.Prelude.{◌≡◌, Some};
ghost use Rattle.generated_load.specs.Load.{generated_files};

use crate::lines::load;
use col_io::{Files, FilesFault, Got};
use std::alloc::{AllocError, Global};

/// The load of so many lines from a seed, under the name `@gen`; every other name is absent. A read makes the load, and fails for want of
/// memory alone.
#[derive(Debug, Clone, Copy)]
pub struct Generated {
    lines: u32,
    seed: u64,
}

impl Generated {
    pub fn new(lines: u32, seed: u64) -> Generated
        ensures content { ⟦<Generated as Files>⟧.content result ≡ Some (generated_files lines seed) }
        ensures faults { ⟦<Generated as Files>⟧.faults result ≡ 0 }
    {
        Generated { lines, seed }
    }
}

impl Files for Generated {
    ghost content = { λ g. Some (generated_files g.lines g.seed) };

    ghost faults = { λ g. 0 };

    fn read(&mut self, alloc: Global, name: &str, max: usize) -> Result<Got, FilesFault> {
        if name != "@gen" {
            return Ok(Got::Absent);
        }
        match load(alloc, self.lines, self.seed) {
            Ok(bytes) if bytes.len() > max => Ok(Got::TooLong),
            Ok(bytes) => Ok(Got::Whole(bytes)),
            Err(AllocError) => Err(FilesFault::Memory),
        }
    }
}
