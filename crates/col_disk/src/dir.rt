ghost use Rattle.std.specs.Prelude.{◌≡◌, ◌≤◌, None, Err};
ghost use Rattle.std.proofs.lemmas.Option.{none-some};
ghost use Rattle.col_disk.specs.Crashes.{Remembers, Settles};
ghost use Rattle.common_laws.specs.Causes.{Rose};

use crate::folder::Folder;
use crate::{Disk, DiskFault};
use std::alloc::{AllocError, Global};
use std::fs::File;
use std::rt::Files;

/// A disk over a folder of the machine, which tells nothing of its contents.
///
/// The file of a name is called by its number in decimal. Every other entry of the folder is left alone and never
/// told of: another spelling (`08`, `+8`), a number of 2^64 and more, a subfolder. The folder is made at the first
/// call where it is absent, and each folder in which one was made is synced. Before the first change and at the first
/// sync, each file that an earlier process left is synced; where that fails it is tried again at the next such call.
/// Once a write, a removal or a sync has failed, every sync is a fault.
///
/// Since it tells no contents, that it does what `Disk` says of contents and of crashes is not proved but argued here,
/// from what the operating system promises:
///
/// - **A write** opens the file, which cuts it to nothing, writes the bytes in place and syncs the file. A crash before
///   the next good `sync` finds the name absent, if its entry was new, or the file with any part of the old bytes or the
///   new: `Disk` lets a name written since then be absent or hold anything. A write that failed may have done any part
///   of this, and counts as written.
/// - **A removal** takes the entry away. A crash before the next good `sync` finds the name absent or with what it held.
/// - **No other name changes**: a name is one entry and one file of its own. The first call locks the folder (`flock`) until the disk is
///   dropped, and fails where another disk holds that lock; where the file system has no locks, or another program writes
///   without asking for one, or entries are links to one file, the folder is not a disk. What stands under a name and is no file, as a pipe, is
///   not there for reading, and a write of it fails.
/// - **Memory is answered only before anything is changed**: paths are made before a file is opened, and what the machine
///   answers of the change itself is `Failed`.
/// - **A good sync** has synced the folder, if an entry may have come or gone since the last one; each file was synced as
///   it was written, and what an earlier process left before the first change. So the contents are all that a crash can
///   leave. It never succeeds after a write, a removal or a sync that failed, since a machine tells a failed sync once
///   and may then forget the bytes.
/// - **Reading and listing change nothing**, but that the first call makes the folder. Files that were read stay open, with their length and
///   what was read ahead of what was asked for, and what was listed is kept, until a file is written or removed or a read fails: no other
///   program writes into the folder, so that is what it holds.
///
/// It takes from the operating system that a file's sync answers Ok only after the file's bytes and length last, that a
/// folder's sync answers Ok only after its entries last, that a crash leaves of a file or an entry that wasn't touched
/// what it was, and that the drive doesn't lose what it told to have kept.
#[derive(Drop)]
pub struct DirDisk<R: Files<File = File> + Clone + Drop> {
    folder: Folder<R>,
    faults: u64,
    changed: bool,
}

impl<R: Files<File = File> + Clone + Drop> DirDisk<R> {
    /// The disk over the folder at this path. It touches nothing yet.
    pub fn at(rt: &R, alloc: Global, path: &str) -> Result<DirDisk<R>, AllocError> {
        Ok(DirDisk {
            folder: Folder::new(rt, alloc, path)?,
            faults: 0,
            changed: false,
        })
    }

    /// Whether a call failed because another disk, of this program or another, stands over the folder.
    pub fn is_taken(&self) -> bool {
        self.folder.is_taken()
    }

    // counts a fault, and hands it on
    fn count(&mut self, fault: DiskFault) -> DiskFault
        ensures same { result ≡ fault }
        ensures later { self.old.faults ≤ self.new.faults }
        ensures rose { Rose self.old.faults self.new.faults }
        ensures remembered { self.new.changed ≡ self.old.changed }
    {
        self.faults = self.faults.saturating_add(1);
        fault
    }

    // the same after a write or a removal: a failure is remembered
    fn count_change(&mut self, fault: DiskFault) -> DiskFault
        ensures same { result ≡ fault }
        ensures later { self.old.faults ≤ self.new.faults }
        ensures rose { Rose self.old.faults self.new.faults }
        ensures remembered { Remembers self.old.changed self.new.changed (Err fault) }
    {
        if fault == DiskFault::Failed {
            self.folder.break_off();
            self.changed = true;
        }
        self.count(fault)
    }

    // the same after a sync: once something was written or removed, want of memory is a failure, too
    fn count_sync(&mut self, fault: DiskFault) -> DiskFault
        ensures settles { Settles None (λ c. ⊥) self.old.changed (Err result) }
        ensures later { self.old.faults ≤ self.new.faults }
        ensures rose { Rose self.old.faults self.new.faults }
        ensures remembered { self.new.changed ≡ self.old.changed }
    {
        if fault == DiskFault::Memory && !self.changed {
            return self.count(DiskFault::Memory);
        }
        self.folder.break_off();
        self.count(DiskFault::Failed)
    }
}

impl<R: Files<File = File> + Clone + Drop> Disk for DirDisk<R> {
    ghost holds = { λ d. None };

    ghost faults = { λ d. d.faults };

    ghost clock = { λ d. 0 };

    ghost since = { λ d t c. ⊥ };

    ghost changed = { λ d. d.changed };

    ghost laws = { record { shows = λ d m told. none-some m told; reaches = λ d t u c le within is. is } };

    fn size(&mut self, name: u64) -> Result<Option<u64>, DiskFault> {
        match self.folder.size(name) {
            Ok(size) => Ok(size),
            Err(fault) => Err(self.count(fault)),
        }
    }

    fn read(
        &mut self,
        alloc: Global,
        name: u64,
        at: u64,
        len: usize,
    ) -> Result<Option<Vec<u8>>, DiskFault> {
        match self.folder.read(alloc, name, at, len) {
            Ok(bytes) => Ok(bytes),
            Err(fault) => Err(self.count(fault)),
        }
    }

    fn write(&mut self, name: u64, bytes: &[u8]) -> Result<(), DiskFault> {
        match self.folder.write(name, bytes) {
            Ok(()) => {
                self.changed = true;
                Ok(())
            }
            Err(fault) => Err(self.count_change(fault)),
        }
    }

    fn remove(&mut self, name: u64) -> Result<(), DiskFault> {
        match self.folder.remove(name) {
            Ok(()) => {
                self.changed = true;
                Ok(())
            }
            Err(fault) => Err(self.count_change(fault)),
        }
    }

    fn names(&mut self, alloc: Global) -> Result<Vec<u64>, DiskFault> {
        match self.folder.names(alloc) {
            Ok(names) => Ok(names),
            Err(fault) => Err(self.count(fault)),
        }
    }

    fn sync(&mut self) -> Result<(), DiskFault> {
        match self.folder.sync() {
            Ok(()) => Ok(()),
            Err(fault) => Err(self.count_sync(fault)),
        }
    }
}
