//! Files that stay open between reads.

ghost use Rattle.std.specs.Prelude.{◌<◌, IfSome, length};

use std::alloc::{AllocError, Global};
use std::io;
use std::io::{Read, Seek, SeekFrom};

// The most files that stay open.
const MOST: usize = 128;

// How many bytes are read at once where the file has so many: of one that is read here and there, and at most of one that is read on.
const LEAST: u64 = 8_192;

const AHEAD: u64 = 65_536;

/// A file that is open for reading, its length, the bytes that were read last, from a place on, and how many were to be read then.
#[derive(Drop)]
struct Opened<F: Read + Seek + Drop> {
    name: u64,
    file: F,
    size: u64,
    at: u64,
    ahead: Vec<u8>,
    reach: u64,
}

/// The files that were read last.
#[derive(Drop)]
pub(crate) struct OpenedFiles<F: Read + Seek + Drop> {
    files: Vec<Opened<F>>,
}

impl<F: Read + Seek + Drop> Opened<F> {
    // at most `len` bytes from a place on: fewer only at the end
    fn read(&mut self, alloc: Global, at: u64, len: usize) -> io::Result<Vec<u8>> {
        let count = self.size.saturating_sub(at).min(len as u64);
        if count >= AHEAD {
            let mut bytes = vec![in alloc; 0u8; count as usize]?;
            self.fill(at, &mut bytes)?;
            return Ok(bytes);
        }
        if !self.has(at, count) {
            self.go_ahead(alloc, at, count)?;
        }
        Ok(Vec::from_slice(
            alloc,
            part_of(self.ahead.as_slice(), at.saturating_sub(self.at), count),
        )?)
    }

    fn has(&self, at: u64, count: u64) -> bool {
        let upto = self.at.saturating_add(self.ahead.len() as u64);
        self.at <= at && at <= upto && count <= upto - at
    }

    // what is read on from where the last bytes were is read further ahead each time
    fn reach_from(&self, at: u64) -> u64 {
        let upto = self.at.saturating_add(self.ahead.len() as u64);
        if self.at < at && at <= upto {
            self.reach.saturating_mul(4).min(AHEAD)
        } else {
            LEAST
        }
    }

    // nothing is known of what a failed read left, so what was read before goes first
    fn go_ahead(&mut self, alloc: Global, at: u64, count: u64) -> io::Result<()> {
        let reach = self.reach_from(at);
        let count = self.size.saturating_sub(at).min(reach.max(count));
        let mut bytes = vec![in alloc; 0u8; count as usize]?;
        self.fill(at, &mut bytes)?;
        self.at = at;
        self.ahead = bytes;
        self.reach = reach;
        Ok(())
    }

    fn fill(&mut self, at: u64, bytes: &mut [u8]) -> io::Result<()> {
        if bytes.is_empty() {
            return Ok(());
        }
        self.file.seek(SeekFrom::Start(at))?;
        self.file.read_exact(bytes)
    }
}

// at most so many of the bytes, from a place on
fn part_of(bytes: &[u8], at: u64, count: u64) -> &[u8] {
    let at = at.min(bytes.len() as u64) as usize;
    let rest = bytes.split_at(at).1;
    let count = count.min(rest.len() as u64) as usize;
    rest.split_at(count).0
}

impl<F: Read + Seek + Drop> OpenedFiles<F> {
    pub(crate) fn new(alloc: Global) -> OpenedFiles<F> {
        OpenedFiles {
            files: Vec::new(alloc),
        }
    }

    fn place_of(&self, name: u64) -> Option<usize>
        ensures { IfSome result (λ place. place < length self.now.files.items) }
    {
        self.files
            .as_slice()
            .iter()
            .position(|file| file.name == name)
    }

    /// The length of a file that is open.
    pub(crate) fn size(&self, name: u64) -> Option<u64> {
        match self.place_of(name) {
            Some(place) => Some(self.files[place].size),
            None => None,
        }
    }

    /// Takes a file of this length, which was just opened; where there are too many, the one goes that has been here longest.
    pub(crate) fn keep(
        &mut self,
        alloc: Global,
        name: u64,
        file: F,
        size: u64,
    ) -> Result<(), AllocError> {
        if self.files.len() >= MOST {
            self.files.remove(0);
        }
        self.files.push(Opened {
            name,
            file,
            size,
            at: 0,
            ahead: Vec::new(alloc),
            reach: LEAST,
        })?;
        Ok(())
    }

    /// At most `len` bytes of a file that is open, from a place on: fewer only at the end. None where it isn't open.
    pub(crate) fn read(
        &mut self,
        alloc: Global,
        name: u64,
        at: u64,
        len: usize,
    ) -> io::Result<Option<Vec<u8>>> {
        match self.place_of(name) {
            Some(place) => Ok(Some(self.files[place].read(alloc, at, len)?)),
            None => Ok(None),
        }
    }

    /// No file is open any more.
    pub(crate) fn close(&mut self) {
        self.files.clear();
    }
}
