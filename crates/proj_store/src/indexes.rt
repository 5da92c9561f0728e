//! The indexes of a projection's files that were read, each beside the bytes of its file: a file of the same bytes isn't parsed again.

ghost use Rattle.std.specs.Prelude.{◌≡◌, ◌≢◌, ◌≤◌, Err, length, IfOk, IfErr, IfSome};
ghost use Rattle.common_laws.specs.Causes.{HasCause};
ghost use Rattle.col_disk.specs.Moved.{Moved, NoName};
ghost use Rattle.col_file.specs.Column.{IsFile, IsNoFile};
ghost use Rattle.col_file.specs.Read.{Blames, SpellsIndex};
ghost use Rattle.pos_index.specs.Index.{index_spelling, Fits, IsIndex};
ghost use Rattle.pos_index.specs.declared.index.PosIndex.{PosIndex as Index};
ghost use Rattle.ros_container.specs.Encodings.{written_of};
ghost use Rattle.ros_container.specs.Held.{BlamesContainer};
ghost use Rattle.ros_container.specs.Readable.{IsReadable};
ghost use Rattle.container_blocks.specs.Blocks.{HasIndex, IsIndexOf};
ghost use Rattle.proj_store.specs.Kept.{IsParsed};

use catalog_types::{Container, Projection};
use col_disk::{Disk, StoreFault, read_whole};
use container_blocks::index;
use indexmap::IndexMap;
use pos_index::PosIndex;
use ros_container::{index_of, place_of};
use std::alloc::{AllocError, Global};
use std::cell::Cell;
use std::marker::Model;
use std::rc::Rc;

// So many bytes of files are kept at most.
const MOST_BYTES: usize = 4 << 20;

/// An index with several owners.
#[derive(Drop)]
pub struct SharedIndex {
    index: Rc<PosIndex>,
}

impl Model for SharedIndex {
    ghost use Rattle.pos_index.specs.declared.index.PosIndex.{PosIndex as Index};

    ghost Value = { Index };

    ghost view = { λ s. s.index.value };
}

impl SharedIndex {
    /// The index.
    pub fn get(&self) -> &PosIndex
        ensures { result.now ≡ self.now }
    {
        self.index.as_ref()
    }

    fn of(alloc: Global, index: PosIndex) -> Result<SharedIndex, AllocError>
        ensures { IfOk result (λ s. s ≡ index) }
    {
        match Rc::new(alloc, index) {
            Ok(index) => Ok(SharedIndex { index }),
            Err(_) => Err(AllocError),
        }
    }

    /// The same index, for one owner more.
    fn share(&self) -> Result<SharedIndex, AllocError>
        ensures { IfOk result (λ s. s ≡ self.now) }
    {
        Ok(SharedIndex {
            index: self.index.clone()?,
        })
    }
}

/// An index that was read, and the bytes of its file.
#[derive(Drop)]
struct Parsed {
    bytes: Vec<u8>,
    index: SharedIndex,
}

impl Model for Parsed {
    ghost use Rattle.proj_store.specs.Kept.{IsParsed, KeptIndex, kept};

    ghost Value = { KeptIndex };

    ghost view = { λ p. kept p.bytes.items p.index };

    ghost invariant = { λ p. IsParsed p.bytes.items p.index };
}

/// What was read, by the names of the files, and how many bytes it has.
#[derive(Drop)]
struct Known {
    bytes: usize,
    parsed: IndexMap<u64, Parsed>,
}

impl Known {
    fn none(alloc: Global) -> Known {
        Known {
            bytes: 0,
            parsed: IndexMap::new(alloc),
        }
    }

    /// The index of these bytes, where it is known.
    fn find(&self, name: u64, bytes: &[u8]) -> Result<Option<SharedIndex>, AllocError>
        ensures { IfOk result (λ o. IfSome o (IsParsed bytes.now)) }
    {
        match self.parsed.get(&name) {
            Some(parsed) => parsed.found(bytes),
            None => Ok(None),
        }
    }

    /// An index is known from now on. Those that were known are forgotten where they take too many bytes.
    fn keep(&mut self, alloc: Global, name: u64, parsed: Parsed) -> Result<(), AllocError> {
        let count = parsed.bytes.len();
        if self.bytes.saturating_add(count) > MOST_BYTES {
            self.bytes = 0;
            self.parsed = IndexMap::new(alloc);
        }
        if count > MOST_BYTES {
            return Ok(());
        }
        self.parsed.insert(name, parsed)?;
        self.bytes = self.bytes.saturating_add(count);
        Ok(())
    }
}

impl Parsed {
    /// The index, where these are the bytes of its file.
    fn found(&self, bytes: &[u8]) -> Result<Option<SharedIndex>, AllocError>
        ensures { IfOk result (λ o. IfSome o (IsParsed bytes.now)) }
    {
        if self.bytes.as_slice() == bytes {
            return Ok(Some(self.index.share()?));
        }
        Ok(None)
    }

    fn of(
        alloc: Global,
        bytes: Vec<u8>,
        index: PosIndex,
    ) -> Result<(Parsed, SharedIndex), AllocError>
        requires { IsParsed bytes.items index }
        ensures { IfOk result (λ x. x.1 ≡ index) }
    {
        let index = SharedIndex::of(alloc, index)?;
        let shared = index.share()?;
        Ok((Parsed { bytes, index }, shared))
    }
}

/// The index that was found, if it is of so many rows.
fn of_rows(index: SharedIndex, name: u64, rows: u64) -> Result<SharedIndex, StoreFault>
    ensures same { IfOk result (λ x. (x ≡ index) × (x.rows ≡ rows)) }
    ensures blamed { IfErr result (Blames name (index.rows ≡ rows → ⊥)) }
    ensures no_cause { result ≢ Err StoreFault.Disk }
{
    if index.get().rows == rows {
        Ok(index)
    } else {
        Err(StoreFault::Damaged(name))
    }
}

impl Known {
    /// The index that the bytes are, which is known from now on.
    fn parse(&mut self, alloc: Global, bytes: Vec<u8>, name: u64) -> Result<SharedIndex, StoreFault>
        ensures found { IfOk result (IsParsed bytes.items) }
        ensures blamed { IfErr result (Blames name ((x : Index) → IsParsed bytes.items x → ⊥)) }
        ensures no_cause { result ≢ Err StoreFault.Disk }
    {
        let index = match PosIndex::from_bytes(alloc, bytes.as_slice()) {
            Ok(Some(index)) => index,
            Ok(None) => return Err(StoreFault::Damaged(name)),
            Err(AllocError) => return Err(StoreFault::Memory),
        };
        match Parsed::of(alloc, bytes, index) {
            Ok((parsed, index)) => match self.keep(alloc, name, parsed) {
                Ok(()) | Err(AllocError) => Ok(index),
            },
            Err(AllocError) => Err(StoreFault::Memory),
        }
    }

    /// The index that the bytes are, parsed where it isn't known.
    fn index(&mut self, alloc: Global, bytes: Vec<u8>, name: u64) -> Result<SharedIndex, StoreFault>
        ensures found { IfOk result (IsParsed bytes.items) }
        ensures blamed { IfErr result (Blames name ((x : Index) → IsParsed bytes.items x → ⊥)) }
        ensures no_cause { result ≢ Err StoreFault.Disk }
    {
        match self.find(name, bytes.as_slice()) {
            Ok(Some(index)) => Ok(index),
            Ok(None) => self.parse(alloc, bytes, name),
            Err(AllocError) => Err(StoreFault::Memory),
        }
    }
}

/// The indexes of a projection's files that were read. What is known changes no answer: an index is found by all bytes of its file.
#[derive(Drop)]
pub struct Indexes {
    known: Cell<Known>,
}

impl Model for Indexes {
    ghost Value = { Unit {0} };

    ghost view = { λ i. tt };
}

impl Indexes {
    /// None is known. It takes no memory.
    pub fn none(alloc: Global) -> Indexes {
        Indexes {
            known: Cell::new(Known::none(alloc)),
        }
    }

    /// The index of so many rows that the bytes of a file are; its name is blamed where they are none.
    fn index_in(
        &self,
        alloc: Global,
        bytes: Vec<u8>,
        name: u64,
        rows: u64,
    ) -> Result<SharedIndex, StoreFault>
        ensures found { IfOk result (λ x. (x.rows ≡ rows) × IsParsed bytes.items x) }
        ensures blamed { IfErr result (Blames name (SpellsIndex rows bytes.items → ⊥)) }
        ensures no_cause { result ≢ Err StoreFault.Disk }
    {
        let mut known = self.known.replace(Known::none(alloc));
        let found = known.index(alloc, bytes, name);
        self.known.set(known);
        match found {
            Ok(index) => of_rows(index, name, rows),
            Err(fault) => Err(fault),
        }
    }

    /// The index of a file of a column of so many rows, as `col_file::read_index` reads it.
    fn read<D: Disk>(
        &self,
        alloc: Global,
        disk: &mut D,
        name: u64,
        rows: u64,
    ) -> Result<SharedIndex, StoreFault>
        ensures index { IfOk result (λ x. (x.rows ≡ rows) × IsIndex x × Fits x) }
        ensures found { IfOk result (λ x. IsFile name (index_spelling x) (D.holds disk.old)) }
        ensures blamed { IfErr result (Blames name (IsNoFile name (SpellsIndex rows) (D.holds disk.old))) }
        ensures kept { D.holds disk.new ≡ D.holds disk.old }
        ensures moved { Moved ⟦<D as Disk>⟧ NoName NoName disk.old disk.new }
        ensures cause { HasCause StoreFault.Disk (D.faults disk.old) (D.faults disk.new) result }
    {
        match read_whole(alloc, disk, name) {
            Ok(Some(bytes)) => self.index_in(alloc, bytes, name, rows),
            Ok(None) => Err(StoreFault::Damaged(name)),
            Err(fault) => Err(StoreFault::from(fault)),
        }
    }

    /// The index of a column of a container, as `container_blocks::index` reads it.
    pub fn index<D: Disk>(
        &self,
        alloc: Global,
        disk: &mut D,
        entry: &Container,
        shape: &Projection,
        column: usize,
    ) -> Result<SharedIndex, StoreFault>
        requires entry { IsReadable shape.now.columns entry.now }
        requires column { column ≤ length shape.now.columns }
        ensures index { IfOk result (IsIndexOf entry.now.rows) }
        ensures found { IfOk result (λ at. HasIndex (written_of shape.now) entry.now column at (D.holds disk.old)) }
        ensures blamed { IfErr result (BlamesContainer (written_of shape.now) entry.now (D.holds disk.old)) }
        ensures kept { D.holds disk.new ≡ D.holds disk.old }
        ensures moved { Moved ⟦<D as Disk>⟧ NoName NoName disk.old disk.new }
        ensures cause { HasCause StoreFault.Disk (D.faults disk.old) (D.faults disk.new) result }
    {
        match place_of(entry, shape, column) {
            Some(place) => self.read(alloc, disk, index_of(entry.base, place), entry.rows),
            None => match index(alloc, disk, entry, shape, column) {
                Ok(at) => match SharedIndex::of(alloc, at) {
                    Ok(at) => Ok(at),
                    Err(AllocError) => Err(StoreFault::Memory),
                },
                Err(fault) => Err(fault),
            },
        }
    }
}
