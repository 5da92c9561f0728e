//! A projection in memory, and its calls.

ghost use Rattle.std.specs.Prelude.{◌≡◌, ◌≤◌, ◌<◌, ◌-◌, [], Some, List, length, map, IfOk, IfErr, OnOk, IsSomeAnd};
ghost use Rattle.std.specs.List.{All, slice_get};
ghost use Rattle.common_laws.specs.Causes.{HasCause};
ghost use Rattle.common_laws.specs.Maps.{Contents};
ghost use Rattle.col_disk.specs.Moved.{Looks, Moved, NoName};
ghost use Rattle.col_value.specs.Order.{IsRow};
ghost use Rattle.col_value.specs.declared.row.Stamped.{Stamped as AStamped};
ghost use Rattle.row_history.specs.History.{visible, inserted_at};
ghost use Rattle.stored_rows.specs.Stored.{Stores, IsLoaded, with_rows, mark_in};
ghost use Rattle.write_store.specs.Memory.{stamp, AreHeldRows};
ghost use Rattle.proj_store.specs.Sound.{IsLoadable, IsSound};
ghost use Rattle.proj_store.specs.Reading.{BlamesLoad, BlamesRows, HasVectors};

mod columns;
mod deletes;

use crate::copies::{add_copies, visible_rows};
use crate::indexes::Indexes;
use crate::kept::Kept;
use crate::loading::load_each;
use crate::saved::saved_rows;
use catalog_types::Projection;
use col_disk::{Disk, StoreFault};
use col_value::{Row, Stamped};
pub use columns::ReadyColumn;
use del_vector::Mark;
pub use deletes::Marks;
use std::alloc::{AllocError, Global};
use std::marker::Model;
use write_store::{Held, WriteStore};

/// A projection: its entry in the catalogue, what is kept of each container, the rows that aren't on disk, and the indexes that were read.
#[derive(Drop)]
pub struct ProjStore {
    entry: Projection,
    kept: Vec<Kept>,
    unsaved: WriteStore,
    indexes: Indexes,
}

impl Model for ProjStore {
    ghost use Rattle.std.specs.Prelude.{map};
    ghost use Rattle.proj_store.specs.Loaded.{Loaded, beside_of, seen};
    ghost use Rattle.proj_store.specs.Sound.{IsSound};

    ghost Value = { Loaded };

    ghost view = { λ p. seen p.entry p.kept.items p.unsaved };

    ghost invariant = { λ p. IsSound p.entry (map beside_of p.kept.items) };
}

/// Rows of a commit, for which there is room.
#[derive(Drop)]
pub struct ReadyRows {
    rows: Vec<Row>,
}

impl Model for ReadyRows {
    ghost use Rattle.std.specs.Prelude.{List};
    ghost use Rattle.std.specs.List.{All};
    ghost use Rattle.col_value.specs.Order.{IsRow};
    ghost use Rattle.col_value.specs.declared.value.Value.{Value as Item};

    ghost Value = { List (List Item) };

    ghost view = { λ r. r.rows.items };

    ghost invariant = { λ r. All IsRow r.rows.items };
}

impl ReadyRows {
    /// Rows for which room was made before they came. It takes no memory.
    pub fn of(rows: Vec<Row>) -> ReadyRows
        requires { All IsRow rows.items }
        ensures { result ≡ rows.items }
    {
        ReadyRows { rows }
    }
}

impl ProjStore {
    /// The projection of an entry: its delete vectors are read, and nothing else. `Damaged` names a delete vector that is absent, is
    /// no spelling, has a position that its container lacks, or has another greatest epoch than the entry says.
    pub fn load<D: Disk>(
        alloc: Global,
        entry: Projection,
        disk: &mut D,
    ) -> Result<ProjStore, StoreFault>
        requires { IsLoadable entry }
        ensures entry { IfOk result (λ p. p.stored.entry ≡ entry) }
        ensures loaded { IfOk result (λ p. (m : Contents) → D.holds disk.old ≡ Some m → IsLoaded m p.stored) }
        ensures unsaved { IfOk result (λ p. p.stored.unsaved ≡ []) }
        ensures blamed { IfErr result (BlamesLoad entry.containers (D.holds disk.old)) }
        ensures looks { Looks ⟦<D as Disk>⟧ disk.old disk.new }
        ensures cause { HasCause StoreFault.Disk (D.faults disk.old) (D.faults disk.new) result }
    {
        let kept = match load_each(alloc, disk, entry.containers.as_slice()) {
            Ok(kept) => kept,
            Err(fault) => return Err(fault),
        };
        let unsaved = WriteStore::new(alloc);
        Ok(ProjStore {
            entry,
            kept,
            unsaved,
            indexes: Indexes::none(alloc),
        })
    }

    /// The projection of an entry that has no containers, without rows in memory. It takes no memory.
    pub fn bare(alloc: Global, entry: Projection) -> ProjStore
        requires none { entry.containers ≡ [] }
        requires sort { All (λ i. i < length entry.columns) entry.sort }
        ensures { result.stored ≡ record { entry = entry; beside = []; unsaved = [] } }
    {
        ProjStore {
            entry,
            kept: Vec::new(alloc),
            unsaved: WriteStore::new(alloc),
            indexes: Indexes::none(alloc),
        }
    }

    /// The entry in the catalogue. It takes no memory.
    pub fn entry(&self) -> &Projection
        ensures entry { result.now ≡ self.now.stored.entry }
        ensures sound { IsSound self.now.stored.entry self.now.stored.beside }
    {
        &self.entry
    }

    /// The indexes of its files that were read. It takes no memory.
    pub fn indexes(&self) -> &Indexes {
        &self.indexes
    }

    /// The rows that aren't on disk. It takes no memory.
    pub fn unsaved(&self) -> &[Held]
        ensures rows { map stamp result.now ≡ self.now.stored.unsaved }
        ensures valid { AreHeldRows result.now }
    {
        self.unsaved.rows()
    }

    /// The epoch that deletes a position of a container, if one does. It takes no memory.
    pub fn mark_at(&self, container: usize, position: u64) -> Option<u64>
        requires { container < length self.now.stored.beside }
        ensures { IsSomeAnd (slice_get self.now.stored.beside container) (λ b. result ≡ mark_in b position) }
    {
        self.kept[container].mark_at(position)
    }

    /// The delete vector of a container, as it stands on the disk. It takes no memory.
    pub fn vector(&self, container: usize) -> &[Mark]
        requires { container < length self.now.stored.beside }
        ensures { IsSomeAnd (slice_get self.now.stored.beside container) (λ b. result.now ≡ b.held) }
    {
        self.kept[container].held.marks()
    }

    /// The marks of a container that came since, in any order. It takes no memory.
    pub fn fresh_marks(&self, container: usize) -> &[Mark]
        requires { container < length self.now.stored.beside }
        ensures { IsSomeAnd (slice_get self.now.stored.beside container) (λ b. result.now ≡ b.fresh) }
    {
        self.kept[container].fresh.as_slice()
    }

    /// All rows with their epochs: those of the containers, one container after the other, and then those in memory. `Damaged` names
    /// a file of a container that holds no rows.
    pub fn stamped<D: Disk>(&self, alloc: Global, disk: &mut D) -> Result<Vec<Stamped>, StoreFault>
        ensures found { IfOk result (λ v. (m : Contents) → D.holds disk.old ≡ Some m → HasVectors m self.now.stored → Stores m self.now.stored v.items) }
        ensures blamed { IfErr result (BlamesRows self.now.stored.entry (D.holds disk.old)) }
        ensures kept { D.holds disk.new ≡ D.holds disk.old }
        ensures moved { Moved ⟦<D as Disk>⟧ NoName NoName disk.old disk.new }
        ensures cause { HasCause StoreFault.Disk (D.faults disk.old) (D.faults disk.new) result }
    {
        let mut rows = match saved_rows(alloc, disk, &self.entry, self.kept.as_slice()) {
            Ok(rows) => rows,
            Err(fault) => return Err(fault),
        };
        match add_copies(alloc, &mut rows, self.unsaved.rows()) {
            Ok(()) => Ok(rows),
            Err(AllocError) => Err(StoreFault::Memory),
        }
    }

    /// The rows that are visible at an epoch, in the order of `stamped`.
    pub fn visible<D: Disk>(
        &self,
        alloc: Global,
        disk: &mut D,
        epoch: u64,
    ) -> Result<Vec<Row>, StoreFault>
        ensures found { IfOk result (λ v. (m : Contents) → D.holds disk.old ≡ Some m → HasVectors m self.now.stored → (rows : List AStamped) × Stores m self.now.stored rows × (v.items ≡ visible epoch rows)) }
        ensures blamed { IfErr result (BlamesRows self.now.stored.entry (D.holds disk.old)) }
        ensures kept { D.holds disk.new ≡ D.holds disk.old }
        ensures moved { Moved ⟦<D as Disk>⟧ NoName NoName disk.old disk.new }
        ensures cause { HasCause StoreFault.Disk (D.faults disk.old) (D.faults disk.new) result }
    {
        let rows = match self.stamped(alloc, disk) {
            Ok(rows) => rows,
            Err(fault) => return Err(fault),
        };
        match visible_rows(alloc, rows, epoch) {
            Ok(rows) => Ok(rows),
            Err(AllocError) => Err(StoreFault::Memory),
        }
    }

    /// Makes room for so many rows of a commit; nothing else changes.
    pub fn make_room(&mut self, count: usize) -> Result<(), AllocError>
        ensures room { OnOk result (count ≤ self.new.spare) }
        ensures stored { self.new.stored ≡ self.old.stored }
        ensures rooms { self.new.rooms ≡ self.old.rooms }
    {
        self.unsaved.reserve(count)
    }

    /// Makes room for the rows of a commit; nothing else changes.
    pub fn prepare_rows(&mut self, rows: Vec<Row>) -> Result<ReadyRows, AllocError>
        requires { All IsRow rows.items }
        ensures rows { IfOk result (λ ready. ready ≡ rows.items) }
        ensures room { IfOk result (λ ready. length ready ≤ self.new.spare) }
        ensures stored { self.new.stored ≡ self.old.stored }
        ensures rooms { self.new.rooms ≡ self.old.rooms }
    {
        self.make_room(rows.len())?;
        Ok(ReadyRows { rows })
    }

    /// The rows of a commit join the others, with its epoch. It takes no memory.
    pub fn apply_rows(&mut self, ready: ReadyRows, epoch: u64)
        requires { length ready ≤ self.old.spare }
        ensures stored { self.new.stored ≡ with_rows (map (inserted_at epoch) ready) self.old.stored }
        ensures spare { self.new.spare ≡ self.old.spare - length ready }
        ensures rooms { self.new.rooms ≡ self.old.rooms }
    {
        let ReadyRows { rows } = ready;
        self.unsaved.append_all(rows, epoch);
    }
}
