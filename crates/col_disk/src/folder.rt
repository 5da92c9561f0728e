ghost use Rattle.std.specs.Prelude.{◌≡◌, ◌++◌, ◌∷◌, ◌↔◌, IsTrue, IfOk, string_bytes};
ghost use Rattle.std.specs.Fmt.{decimal};
ghost use Rattle.col_disk.specs.Folder.{IsNumberOf};

use crate::DiskFault;
use crate::opened::OpenedFiles;
use std::alloc::{AllocError, Global};
use std::fs::{DirEntry, File, OpenFile, TryLockError};
use std::io::{ErrorKind, Write};
use std::path::Path;
use std::rt::Files;
use std::{fs, io};

/// A folder with one file a name.
#[derive(Drop)]
pub(crate) struct Folder<R: Files<File = File> + Clone + Drop> {
    rt: (R, Global),
    path: String,
    // the folder, made and locked
    held: Option<File>,
    // another disk held the lock
    is_taken: bool,
    // how many folders of the path, from the last one up, were absent before they were made
    absent: usize,
    // the files that were read last; none behind a write, a removal or a failed read
    opened: OpenedFiles<File>,
    // what was listed last; nothing behind a write, a removal or a failed read
    listed: Option<Vec<u64>>,
    // what an earlier process left has been synced
    is_settled: bool,
    // an entry may have come or gone since the last sync
    is_changed: bool,
    // a write, a removal or a sync failed
    is_broken: bool,
}

impl<R: Files<File = File> + Clone + Drop> Folder<R> {
    pub(crate) fn new(rt: &R, alloc: Global, path: &str) -> Result<Folder<R>, AllocError> {
        Ok(Folder {
            rt: (rt.clone()?, alloc),
            path: String::from_str(alloc, path)?,
            held: None,
            is_taken: false,
            absent: 0,
            opened: OpenedFiles::new(alloc),
            listed: None,
            is_settled: false,
            is_changed: false,
            is_broken: false,
        })
    }

    pub(crate) fn size(&mut self, name: u64) -> Result<Option<u64>, DiskFault> {
        self.make()?;
        match self.opened.size(name) {
            Some(size) => Ok(Some(size)),
            None => {
                let path = self.path_of(name)?;
                self.size_at(path.as_str())
            }
        }
    }

    pub(crate) fn read(
        &mut self,
        alloc: Global,
        name: u64,
        at: u64,
        len: usize,
    ) -> Result<Option<Vec<u8>>, DiskFault> {
        self.make()?;
        if !self.open(name)? {
            return Ok(None);
        }
        match self.opened.read(alloc, name, at, len) {
            Ok(bytes) => Ok(bytes),
            Err(error) => {
                self.forget();
                Err(fault_of(&error))
            }
        }
    }

    // Opens the file of a name for reading, unless it is open; whether it is there. Where too many files are open on the machine, those
    // of this folder are closed first.
    fn open(&mut self, name: u64) -> Result<bool, DiskFault> {
        if self.opened.size(name).is_some() {
            return Ok(true);
        }
        let path = self.path_of(name)?;
        let Some(size) = self.size_at(path.as_str())? else {
            return Ok(false);
        };
        let file = match fs::open(&self.rt, path.as_str()) {
            Ok(file) => file,
            Err(_) => self.open_alone(path.as_str())?,
        };
        self.opened.keep(self.rt.1, name, file, size)?;
        Ok(true)
    }

    fn open_alone(&mut self, path: &str) -> Result<File, DiskFault> {
        self.opened.close();
        match fs::open(&self.rt, path) {
            Ok(file) => Ok(file),
            Err(error) => Err(fault_of(&error)),
        }
    }

    // What is known of the files goes.
    fn forget(&mut self) {
        self.opened.close();
        self.listed = None;
    }

    /// Replaces the file, and syncs it.
    pub(crate) fn write(&mut self, name: u64, bytes: &[u8]) -> Result<(), DiskFault> {
        self.settle()?;
        self.forget();
        let path = self.path_of(name)?;
        if self.is_of_another_kind(path.as_str())? {
            return Err(DiskFault::Failed);
        }
        self.is_changed = true;
        match self.replace(path.as_str(), bytes) {
            Ok(()) => Ok(()),
            Err(_) => Err(DiskFault::Failed),
        }
    }

    pub(crate) fn remove(&mut self, name: u64) -> Result<(), DiskFault> {
        self.settle()?;
        self.forget();
        let path = self.path_of(name)?;
        self.remove_at(path.as_str())
    }

    fn remove_at(&mut self, path: &str) -> Result<(), DiskFault> {
        if self.size_at(path)?.is_none() {
            return Ok(());
        }
        self.is_changed = true;
        match fs::remove_file(&self.rt, path) {
            Ok(()) => Ok(()),
            Err(_) => Err(DiskFault::Failed),
        }
    }

    /// The names, in ascending order.
    pub(crate) fn names(&mut self, alloc: Global) -> Result<Vec<u64>, DiskFault> {
        self.make()?;
        if let Some(names) = &self.listed {
            return Ok(Vec::from_slice(alloc, names.as_slice())?);
        }
        let names = self.list()?;
        let told = Vec::from_slice(alloc, names.as_slice())?;
        self.listed = Some(names);
        Ok(told)
    }

    fn list(&self) -> Result<Vec<u64>, DiskFault> {
        let listing = match fs::read_dir(&self.rt, self.path.as_str()) {
            Ok(listing) => listing,
            Err(error) => return Err(fault_of(&error)),
        };
        let mut names = Vec::new(self.rt.1);
        for entry in listing {
            if let Some(name) = self.name_of(entry)? {
                names.push(name)?;
            }
        }
        names.sort_unstable();
        Ok(names)
    }

    /// Makes what was written and removed outlast a crash: each file was synced as it was written, so it is left to
    /// sync the folder, whose entries came and went. It fails ever after a failure.
    pub(crate) fn sync(&mut self) -> Result<(), DiskFault> {
        if self.is_broken {
            return Err(DiskFault::Failed);
        }
        self.settle()?;
        if self.is_changed {
            match self.sync_file(self.path.as_str()) {
                Ok(()) => self.is_changed = false,
                Err(_) => return Err(DiskFault::Failed),
            }
        }
        Ok(())
    }

    /// Whether a call failed because another disk held the folder's lock.
    pub(crate) fn is_taken(&self) -> bool {
        self.is_taken
    }

    /// From here on no sync succeeds.
    pub(crate) fn break_off(&mut self) {
        self.is_broken = true;
    }

    // makes the folder and locks it, unless that has succeeded before
    fn make(&mut self) -> Result<(), DiskFault> {
        if self.held.is_some() {
            return Ok(());
        }
        match self.make_synced() {
            Ok(()) => {}
            Err(error) => return Err(fault_of(&error)),
        }
        self.held = Some(self.lock()?);
        Ok(())
    }

    // Where another disk holds the lock, it stands over these files. A file system without locks has none that another could hold.
    fn lock(&mut self) -> Result<File, DiskFault> {
        let folder = match fs::open(&self.rt, self.path.as_str()) {
            Ok(folder) => folder,
            Err(error) => return Err(fault_of(&error)),
        };
        match folder.try_lock() {
            Err(TryLockError::WouldBlock) => {
                self.is_taken = true;
                Err(DiskFault::Failed)
            }
            Ok(()) | Err(TryLockError::Error(_)) => Ok(folder),
        }
    }

    // Each folder in which one was made is synced, so that a power cut doesn't take the whole folder.
    fn make_synced(&mut self) -> io::Result<()> {
        self.absent = absent_in(&self.rt, self.path.as_str())?.max(self.absent);
        fs::create_dir_all(&self.rt, self.path.as_str())?;
        self.sync_holders()
    }

    fn sync_holders(&self) -> io::Result<()> {
        let mut left = self.absent;
        for holder in Path::new(self.path.as_str()).ancestors().skip(1) {
            if left == 0 {
                return Ok(());
            }
            self.sync_file(named(holder.as_str()))?;
            left -= 1;
        }
        Ok(())
    }

    // syncs what an earlier process left, unless that has succeeded before
    fn settle(&mut self) -> Result<(), DiskFault> {
        if self.is_settled {
            return Ok(());
        }
        let names = self.names(self.rt.1)?;
        for name in names.as_slice() {
            let path = self.path_of(*name)?;
            self.sync_in(path.as_str())?;
        }
        self.sync_in(self.path.as_str())?;
        self.is_settled = true;
        Ok(())
    }

    fn sync_in(&self, path: &str) -> Result<(), DiskFault> {
        match self.sync_file(path) {
            Ok(()) => Ok(()),
            Err(error) => Err(fault_of(&error)),
        }
    }

    // of a file or of the folder
    fn sync_file(&self, path: &str) -> io::Result<()> {
        fs::open(&self.rt, path)?.sync_all()
    }

    fn replace(&self, path: &str, bytes: &[u8]) -> io::Result<()> {
        let mut file = fs::create(&self.rt, path)?;
        file.write_all(bytes)?;
        file.sync_all()
    }

    // the length of the file; None where no file is there
    fn size_at(&self, path: &str) -> Result<Option<u64>, DiskFault> {
        match fs::metadata(&self.rt, path) {
            Ok(metadata) => Ok(if metadata.is_file() {
                Some(metadata.len())
            } else {
                None
            }),
            Err(error) if error.kind() == ErrorKind::NotFound => Ok(None),
            Err(error) => Err(fault_of(&error)),
        }
    }

    // Whether something stands there that is no file. The opening of a pipe would wait for its other end.
    fn is_of_another_kind(&self, path: &str) -> Result<bool, DiskFault> {
        match fs::metadata(&self.rt, path) {
            Ok(metadata) => Ok(!metadata.is_file()),
            Err(error) if error.kind() == ErrorKind::NotFound => Ok(false),
            Err(error) => Err(fault_of(&error)),
        }
    }

    // the name that an entry of the folder is the file of, if it is one's
    fn name_of(
        &self,
        entry: io::Result<DirEntry<(R, Global), Global>>,
    ) -> Result<Option<u64>, DiskFault> {
        let entry = match entry {
            Ok(entry) => entry,
            Err(error) if error.kind() == ErrorKind::InvalidFilename => return Ok(None),
            Err(error) => return Err(fault_of(&error)),
        };
        let Some(name) = number_of(self.rt.1, entry.file_name())? else {
            return Ok(None);
        };
        let path = self.path_of(name)?;
        match self.size_at(path.as_str())? {
            Some(_) => Ok(Some(name)),
            None => Ok(None),
        }
    }

    fn path_of(&self, name: u64) -> Result<String, AllocError>
        ensures { IfOk result (λ path. string_bytes path ≡ string_bytes self.now.path ++ 47 ∷ decimal name) }
    {
        let folder = self.path.as_str();
        format!(in self.rt.1; "{folder}/{name}")
    }
}

// how many folders of the path, from the last one up, are absent
fn absent_in(rt: &impl Files, path: &str) -> io::Result<usize> {
    let mut absent = 0usize;
    for folder in Path::new(path).ancestors() {
        if fs::exists(rt, named(folder.as_str()))? {
            return Ok(absent);
        }
        absent = absent.saturating_add(1);
    }
    Ok(absent)
}

// the empty path is the folder that the program runs in
fn named(path: &str) -> &str {
    if path.is_empty() { "." } else { path }
}

// the number that the text is the decimal spelling of: no sign, no leading zero, below 2^64
fn number_of(alloc: Global, text: &str) -> Result<Option<u64>, AllocError>
    ensures { IfOk result (IsNumberOf text.now) }
{
    match text.parse::<u64>() {
        Ok(number) => {
            if is_spelling(alloc, number, text)? {
                Ok(Some(number))
            } else {
                Ok(None)
            }
        }
        Err(_) => Ok(None),
    }
}

fn is_spelling(alloc: Global, number: u64, text: &str) -> Result<bool, AllocError>
    ensures { IfOk result (λ b. IsTrue b ↔ (text.now ≡ decimal number)) }
{
    let spelled = spelling(alloc, number)?;
    Ok(spelled.as_str() == text)
}

fn spelling(alloc: Global, number: u64) -> Result<String, AllocError>
    ensures { IfOk result (λ s. string_bytes s ≡ decimal number) }
{
    format!(in alloc; "{number}")
}

fn fault_of(error: &io::Error) -> DiskFault {
    if error.kind() == ErrorKind::OutOfMemory {
        DiskFault::Memory
    } else {
        DiskFault::Failed
    }
}
