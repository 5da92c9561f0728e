ghost use Rattle.std.specs.Prelude.{◌≡◌, ℕ, List, Some, None, OnOk, OnErr, Option};
ghost use Rattle.std.specs.Option.{option_map, option_copied};
ghost use Rattle.std.specs.BTreeMap.{get_by_text};
ghost use Rattle.std.specs.Map.{update};
ghost use Rattle.std.specs.Str.{bytes_eq};
ghost use Rattle.col_io.specs.Files.{bytes_at};

use crate::reading::{Files, FilesFault, Got};
use common_laws::Blob;
use std::alloc::{AllocError, Global};
use std::collections::BTreeMap;

/// Files in memory, for tests: a map from names to bytes, and the numbers of the reads that fail. The first
/// read has the number 0.
#[derive(Drop)]
pub struct MemFiles {
    files: BTreeMap<String, Blob>,
    failing: Vec<u64>,
    calls: u64,
    faults: u64,
}

impl MemFiles {
    /// No files.
    pub fn new(alloc: Global, failing: Vec<u64>) -> MemFiles
        ensures content { ⟦<MemFiles as Files>⟧.content result ≡ Some (λ name. None) }
        ensures faults { ⟦<MemFiles as Files>⟧.faults result ≡ 0 }
    {
        MemFiles {
            files: BTreeMap::new(alloc),
            failing,
            calls: 0,
            faults: 0,
        }
    }

    /// Puts these bytes under the name, in place of any that are there. Other names keep theirs.
    pub fn put(&mut self, alloc: Global, name: &str, bytes: Vec<u8>) -> Result<(), AllocError>
        ensures ok { OnOk result (⟦<MemFiles as Files>⟧.content self.new
            ≡ option_map (λ map. update bytes_eq map name.now (Some bytes.items)) (⟦<MemFiles as Files>⟧.content self.old)) }
        ensures err { OnErr result (⟦<MemFiles as Files>⟧.content self.new ≡ ⟦<MemFiles as Files>⟧.content self.old) }
        ensures faults { ⟦<MemFiles as Files>⟧.faults self.new ≡ ⟦<MemFiles as Files>⟧.faults self.old }
    {
        let key = String::from_str(alloc, name)?;
        match self.files.insert(key, Blob::new(bytes)) {
            Ok(_) => Ok(()),
            Err(_) => Err(AllocError),
        }
    }

    /// The bytes under the name.
    pub fn get(&self, name: &str) -> Option<&Blob>
        ensures { bytes_at (⟦<MemFiles as Files>⟧.content self.now) name.now ≡ Some (option_copied result) }
    {
        self.files.get(name)
    }

    /// How many reads have failed.
    pub fn faults(&self) -> u64
        ensures { result ≡ ⟦<MemFiles as Files>⟧.faults self.now }
    {
        self.faults
    }

    // Whether the next read is one that is to fail.
    fn fails_now(&self) -> bool {
        self.failing.as_slice().contains(&self.calls)
    }
}

impl Files for MemFiles {
    ghost content = { λ f. Some (get_by_text f.files) };

    ghost faults = { λ f. f.faults };

    fn read(&mut self, alloc: Global, name: &str, max: usize) -> Result<Got, FilesFault> {
        let fails = self.fails_now();
        self.calls = self.calls.saturating_add(1);
        if fails {
            self.faults = self.faults.saturating_add(1);
            return Err(FilesFault::Failed);
        }
        let Some(held) = self.files.get(name) else {
            return Ok(Got::Absent);
        };
        if held.as_slice().len() > max {
            return Ok(Got::TooLong);
        }
        match Vec::from_slice(alloc, held.as_slice()) {
            Ok(bytes) => Ok(Got::Whole(bytes)),
            Err(AllocError) => Err(FilesFault::Memory),
        }
    }
}
