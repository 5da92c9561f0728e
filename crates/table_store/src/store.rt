//! The store, and its calls.

ghost use Rattle.std.specs.Prelude.{◌≡◌, ◌≤◌, ◌<◌, ◌+◌, ◌^◌, ◌∷◌, ℕ, [], true, Some, List as Items, map, length, vec_len, vec_capacity, IfErr, IfOk, OnOk, OnErr, IsSomeAnd};
ghost use Rattle.std.specs.List.{All, insert, slice_get};
ghost use Rattle.common_laws.specs.Causes.{HasCause};
ghost use Rattle.common_laws.specs.Maps.{Contents};
ghost use Rattle.col_disk.specs.Moved.{Moved, NoName};
ghost use Rattle.col_disk.specs.declared.disk.DiskFault.TheVariants.{Memory};
ghost use Rattle.col_disk.specs.declared.disk.StoreFault.TheVariants.{Memory as no_memory};
ghost use Rattle.db_model.specs.Database.{Database, super_name};
ghost use Rattle.db_model.specs.State.{committed, has_changes};
ghost use Rattle.db_model.specs.Sound.{IsSoundDatabase, IsSoundSession};
ghost use Rattle.store_commit.specs.Seen.{Stands, seen};
ghost use Rattle.store_commit.specs.Making.{Makes};
ghost use Rattle.container_writer.specs.Writing.{DataFrom};
ghost use Rattle.catalog_types.specs.Valid.{IsValid};
ghost use Rattle.sound_laws.specs.Moves.{moved_at};
ghost use Rattle.table_store.specs.Held.{at_epoch, projections_of, IsHeld};
ghost use Rattle.table_store.specs.Drawing.{Draws, DrawsJob, DrawsOne};
ghost use Rattle.col_disk.specs.Faults.{IsUnblamed};
ghost use Rattle.table_store.specs.Faults.{BlamesHeld, BlamesStored, BlamesVectorsAt, IsReadable};
ghost use Rattle.table_store.specs.Moving.{IsFreshAt, IsRewritten};
ghost use Rattle.table_store.specs.Creating.{bare, created, dropped, first_entry, first_table, place_of, with_table};

use crate::committing::{apply_all, prepare_all};
use crate::creating::{first_entry, first_table, place_for, projection_name};
use crate::moving::entry_copy;
use crate::next::{with_entry_at, with_mark, with_table, without_table};
use crate::parts::Parts;
use catalog_root::{file_numbers, vector_numbers};
use catalog_types::Catalogue;
use col_disk::{Disk, DiskFault, StoreFault};
use col_value::{Column, List, Name};
use moveout_job::{MovedOut, moveout};
use proj_store::ProjStore;
use std::alloc::{AllocError, Global};
use std::marker::Model;
use store_commit::settle;
use stored_rows::what_is_read_is_stored;
use txn_core::Session;

mod columns;
mod draining;
mod installing;
mod projections;

// The last epoch that can be closed.
const MOST_EPOCHS: u64 = i64::MAX as u64;

// Numbers are drawn below this one.
const MOST_NUMBERS: u64 = 1 << 61;

/// The tables of a folder: the catalogue that it opens to, the newest closed epoch, and the projections of each table.
#[derive(Drop)]
pub struct TableStore {
    root: Catalogue,
    last: u64,
    tables: Vec<Parts>,
}

impl Model for TableStore {
    ghost use Rattle.store_commit.specs.Seen.{Seen};
    ghost use Rattle.table_store.specs.Held.{seen_of, IsHeld};

    ghost Value = { Seen };

    ghost view = { λ t. seen_of t.root t.last t.tables.items };

    ghost invariant = { λ t. IsHeld t.root t.tables.items };
}

/// A new table before it is committed: the catalogue with it, its place there, and its projection.
#[derive(Drop)]
struct Ready {
    catalogue: Catalogue,
    place: usize,
    parts: Parts,
}

fn prepare_table(
    alloc: Global,
    root: &Catalogue,
    last: u64,
    name: Name,
    columns: List<Column>,
) -> Result<Ready, AllocError>
    requires { IsValid root.now }
    ensures place { IfOk result (λ r. r.place ≡ place_of name (map (λ t. t.name) root.now.tables)) }
    ensures within { IfOk result (λ r. r.place ≤ length root.now.tables) }
    ensures catalogue { IfOk result (λ r. r.catalogue ≡ with_table last r.place (first_table name columns last) root.now) }
    ensures valid { IfOk result (λ r. IsValid r.catalogue) }
    ensures parts { IfOk result (λ r. projections_of r.parts ≡ bare (first_entry (super_name name) columns last) ∷ []) }
{
    let place = place_for(root.tables.as_slice(), &name);
    let projection = projection_name(alloc, &name)?;
    let parts = Parts::bare(
        alloc,
        first_entry(alloc, projection, columns.as_slice(), last)?,
    )?;
    let table = first_table(alloc, name, columns, last)?;
    let catalogue = with_table(alloc, root, last, place, table)?;
    Ok(Ready {
        catalogue,
        place,
        parts,
    })
}

/// The projections of a table take their place, for which there is room.
fn put_parts(tables: &mut Vec<Parts>, place: usize, parts: Parts)
    requires place { place ≤ length tables.old.items }
    requires room { vec_len tables.old < vec_capacity tables.old }
    ensures { tables.new.items ≡ insert tables.old.items place parts }
{
    match tables.insert(place, parts) {
        Ok(()) => {}
        Err(_) => {}
    }
}

/// A projection that was moved out, before it is committed: the catalogue with its new entry, the version of that, and the projection.
#[derive(Drop)]
struct Rewritten {
    catalogue: Catalogue,
    version: u64,
    store: ProjStore,
}

fn prepare_move<D: Disk>(
    alloc: Global,
    root: &Catalogue,
    last: u64,
    tables: &[Parts],
    table: usize,
    place: usize,
    disk: &mut D,
) -> Result<Rewritten, StoreFault>
    requires held { IsHeld root.now tables.now }
    requires fresh { IsFreshAt (map projections_of tables.now) table place }
    ensures moved_out { IfOk result (λ r. IsRewritten last root.now (map projections_of tables.now) table place r.version r.catalogue r.store.stored (D.holds disk.old) (D.holds disk.new)) }
    ensures valid { IfOk result (λ r. IsValid r.catalogue) }
    ensures version { IfOk result (λ r. r.version < r.catalogue.next) }
    ensures drawn { IfOk result (λ r. Draws root.now r.catalogue) }
    ensures job { IfOk result (λ r. DrawsJob table place (at_epoch last root.now) r.catalogue) }
    ensures unblamed { IfErr result (λ fault. (m n : Contents) → D.holds disk.old ≡ Some m → D.holds disk.new ≡ Some n → All (All (IsReadable m)) (map projections_of tables.now) → IsUnblamed fault) }
    ensures blamed { IfErr result (λ fault. (m : Contents) → D.holds disk.new ≡ Some m → BlamesVectorsAt (map projections_of tables.now) table place m fault) }
    ensures moved { Moved ⟦<D as Disk>⟧ (DataFrom root.now.next) NoName disk.old disk.new }
    ensures cause { HasCause StoreFault.Disk (D.faults disk.old) (D.faults disk.new) result }
{
    let store = &tables[table].as_slice()[place];
    let MovedOut { entry, next } = match moveout(alloc, store, last, root.next, disk) {
        Ok(out) => out,
        Err(fault) => return Err(StoreFault::from(fault)),
    };
    if next >= MOST_NUMBERS {
        return Err(StoreFault::Memory);
    }
    let copy = match entry_copy(alloc, &entry) {
        Ok(copy) => copy,
        Err(AllocError) => return Err(StoreFault::Memory),
    };
    let store = match ProjStore::load(alloc, copy, disk) {
        Ok(store) => store,
        Err(fault) => return Err(fault),
    };
    match with_entry_at(alloc, root, last, next, table, place, entry) {
        Ok(catalogue) => Ok(Rewritten {
            catalogue,
            version: next,
            store,
        }),
        Err(AllocError) => Err(StoreFault::Memory),
    }
}

/// The version that the disk opens to: a catalogue's next number comes behind its own.
fn version_of(root: &Catalogue) -> u64 {
    root.next.saturating_sub(1)
}

/// The numbers of the files of a table at a place.
fn files_of(alloc: Global, root: &Catalogue, table: usize) -> Vec<u64> {
    match root.tables.as_slice().get(table) {
        Some(table) => file_numbers(alloc, table.projections.as_slice()),
        None => Vec::new(alloc),
    }
}

/// The numbers of the delete vectors of a projection at a place.
fn vectors_of(alloc: Global, root: &Catalogue, table: usize, place: usize) -> Vec<u64> {
    match root.tables.as_slice().get(table) {
        Some(table) => match table.projections.as_slice().get(place) {
            Some(entry) => vector_numbers(alloc, entry),
            None => Vec::new(alloc),
        },
        None => Vec::new(alloc),
    }
}

impl TableStore {
    /// No tables, and nothing on the disk.
    pub fn empty(alloc: Global) -> TableStore
        ensures { result ≡ seen (record { last = 0; ahm = 0; next = 1; tables = [] }) [] }
    {
        TableStore {
            root: Catalogue {
                last: 0,
                ahm: 0,
                next: 1,
                tables: List::new(Vec::new(alloc)),
            },
            last: 0,
            tables: Vec::new(alloc),
        }
    }

    /// The tables of a catalogue, with the projections of each; no epoch after its last one is closed. It takes no memory.
    pub fn of(root: Catalogue, tables: Vec<Parts>) -> TableStore
        requires { IsHeld root tables.items }
        ensures { result ≡ seen root (map projections_of tables.items) }
    {
        TableStore {
            last: root.last,
            root,
            tables,
        }
    }

    /// The catalogue that the disk opens to, which is valid and lists each projection. It takes no memory.
    pub fn root(&self) -> &Catalogue
        ensures root { self.now.catalogue ≡ at_epoch self.now.catalogue.last result.now }
        ensures entries { map (λ ps. map (λ p. p.entry) ps) self.now.stores ≡ map (λ t. t.projections) result.now.tables }
        ensures valid { IsValid result.now }
    {
        &self.root
    }

    /// The newest closed epoch. It takes no memory.
    pub fn last(&self) -> u64
        ensures { result ≡ self.now.catalogue.last }
    {
        self.last
    }

    /// The projections of each table, in the catalogue's order. It takes no memory.
    pub fn tables(&self) -> &[Parts]
        ensures { map projections_of result.now ≡ self.now.stores }
    {
        self.tables.as_slice()
    }

    /// A table without rows joins the others, with its projection of all columns; it is there after a stop once this has answered Ok. A
    /// name or columns that a catalogue can't have are answered as want of memory.
    pub fn create_table<D: Disk>(
        &mut self,
        alloc: Global,
        name: Name,
        columns: List<Column>,
        disk: &mut D,
    ) -> Result<(), DiskFault>
        ensures made { (d : Database) → Stands ⟦<D as Disk>⟧ self.old disk.old d → IsSoundDatabase (created name columns d) → Makes ⟦<D as Disk>⟧ Memory self.old self.new disk.old disk.new result d (created name columns d) }
        ensures drawn { OnOk result (DrawsOne self.old.catalogue self.new.catalogue) }
        ensures same { OnErr result (self.new ≡ self.old) }
        ensures cause { HasCause DiskFault.Failed (D.faults disk.old) (D.faults disk.new) result }
    {
        let ready = match prepare_table(alloc, &self.root, self.last, name, columns) {
            Ok(ready) => ready,
            Err(AllocError) => return Err(DiskFault::Memory),
        };
        match self.tables.reserve(1) {
            Ok(()) => {}
            Err(AllocError) => return Err(DiskFault::Memory),
        }
        let Ready {
            catalogue,
            place,
            parts,
        } = ready;
        match settle(
            alloc,
            disk,
            version_of(&self.root),
            &[],
            self.root.next,
            &catalogue,
        ) {
            Ok(()) => {}
            Err(fault) => return Err(fault),
        }
        self.root = catalogue;
        put_parts(&mut self.tables, place, parts);
        Ok(())
    }

    /// The table at a place goes, with its projections and all their rows; it is gone after a stop once this has answered Ok.
    pub fn drop_table<D: Disk>(
        &mut self,
        alloc: Global,
        table: usize,
        disk: &mut D,
    ) -> Result<(), DiskFault>
        requires { table < length self.old.catalogue.tables }
        ensures made { (d : Database) (name : Items ℕ) → Stands ⟦<D as Disk>⟧ self.old disk.old d → IsSomeAnd (slice_get self.old.catalogue.tables table) (λ t. t.name ≡ name) → Makes ⟦<D as Disk>⟧ Memory self.old self.new disk.old disk.new result d (dropped name d) }
        ensures drawn { OnOk result (DrawsOne self.old.catalogue self.new.catalogue) }
        ensures same { OnErr result (self.new ≡ self.old) }
        ensures cause { HasCause DiskFault.Failed (D.faults disk.old) (D.faults disk.new) result }
    {
        let catalogue = match without_table(alloc, &self.root, self.last, table) {
            Ok(catalogue) => catalogue,
            Err(AllocError) => return Err(DiskFault::Memory),
        };
        let gone = files_of(alloc, &self.root, table);
        match settle(
            alloc,
            disk,
            version_of(&self.root),
            gone.as_slice(),
            self.root.next,
            &catalogue,
        ) {
            Ok(()) => {}
            Err(fault) => return Err(fault),
        }
        self.root = catalogue;
        self.tables.remove(table);
        Ok(())
    }

    /// The ancient history mark becomes a later epoch; it is there after a stop once this has answered Ok. An epoch that an up-to-date
    /// projection hasn't reached is answered as want of memory.
    pub fn raise_mark<D: Disk>(
        &mut self,
        alloc: Global,
        mark: u64,
        disk: &mut D,
    ) -> Result<(), DiskFault>
        ensures made { (d : Database) → Stands ⟦<D as Disk>⟧ self.old disk.old d → d.ahm ≤ mark → IsSoundDatabase (record d { ahm = mark }) → Makes ⟦<D as Disk>⟧ Memory self.old self.new disk.old disk.new result d (record d { ahm = mark }) }
        ensures drawn { OnOk result (DrawsOne self.old.catalogue self.new.catalogue) }
        ensures same { OnErr result (self.new ≡ self.old) }
        ensures cause { HasCause DiskFault.Failed (D.faults disk.old) (D.faults disk.new) result }
    {
        let catalogue = match with_mark(alloc, &self.root, self.last, mark) {
            Ok(catalogue) => catalogue,
            Err(AllocError) => return Err(DiskFault::Memory),
        };
        match settle(
            alloc,
            disk,
            version_of(&self.root),
            &[],
            self.root.next,
            &catalogue,
        ) {
            Ok(()) => {}
            Err(fault) => return Err(fault),
        }
        self.root = catalogue;
        Ok(())
    }

    /// Closes the next epoch with a session's changes: its pending rows join their tables, and its pending deletes are marked, in every
    /// projection that is up to date. Nothing is written. Where no epoch is left it is answered as want of memory. The pending rows go
    /// over to their tables; where it fails the session is as it was. `Damaged` names a file of a container that holds no rows.
    pub fn commit<D: Disk>(
        &mut self,
        alloc: Global,
        changes: &mut Session,
        disk: &mut D,
    ) -> Result<(), StoreFault>
        ensures made { (d : Database) → Stands ⟦<D as Disk>⟧ self.old disk.old d → IsSoundSession d changes.old → has_changes changes.old ≡ true → IsSoundDatabase (committed changes.old d)
            → Makes ⟦<D as Disk>⟧ no_memory self.old self.new disk.old disk.new result d (committed changes.old d) }
        ensures catalogue { OnOk result (self.new.catalogue ≡ at_epoch (self.old.catalogue.last + 1) self.old.catalogue) }
        ensures unblamed { IfErr result (λ fault. (d : Database) → Stands ⟦<D as Disk>⟧ self.old disk.old d → IsUnblamed fault) }
        ensures blamed { IfErr result (BlamesStored self.old.stores (D.holds disk.old)) }
        ensures unwritten { D.holds disk.new ≡ D.holds disk.old }
        ensures same { OnErr result (self.new ≡ self.old) }
        ensures kept { OnErr result (changes.new ≡ changes.old) }
        ensures cause { HasCause StoreFault.Disk (D.faults disk.old) (D.faults disk.new) result }
    {
        if self.last >= MOST_EPOCHS {
            return Err(StoreFault::Memory);
        }
        let entries = self.root.tables.as_slice();
        let ready = match prepare_all(alloc, disk, &mut self.tables, entries, changes) {
            Ok(ready) => ready,
            Err(fault) => return Err(fault),
        };
        let epoch = self.last + 1;
        apply_all(alloc, &mut self.tables, entries, ready, changes, epoch);
        self.last = epoch;
        Ok(())
    }

    /// All data of a projection goes to disk: its rows and marks in memory are written behind what it has there, and then a catalogue
    /// that lists them becomes the one that the disk opens to. `Damaged` names the delete vector of a container that was there, which has none;
    /// over a database no file is blamed. Numbers from 2^61 on are answered as want of memory.
    pub fn move_out<D: Disk>(
        &mut self,
        alloc: Global,
        table: usize,
        place: usize,
        disk: &mut D,
    ) -> Result<(), StoreFault>
        requires { IsFreshAt self.old.stores table place }
        ensures made { (d : Database) → Stands ⟦<D as Disk>⟧ self.old disk.old d → Makes ⟦<D as Disk>⟧ no_memory self.old self.new disk.old disk.new result d (moved_at table place d) }
        ensures drawn { OnOk result (Draws self.old.catalogue self.new.catalogue) }
        ensures job { OnOk result (DrawsJob table place self.old.catalogue self.new.catalogue) }
        ensures unblamed { IfErr result (λ fault. (d : Database) → Stands ⟦<D as Disk>⟧ self.old disk.old d → IsUnblamed fault) }
        ensures blamed { IfErr result (λ fault. (m : Contents) → D.holds disk.new ≡ Some m → BlamesVectorsAt self.old.stores table place m fault) }
        ensures named { IfErr result (λ fault. (m : Contents) → D.holds disk.new ≡ Some m → BlamesHeld self.old.stores (Some m) fault) }
        ensures same { OnErr result (self.new ≡ self.old) }
        ensures cause { HasCause StoreFault.Disk (D.faults disk.old) (D.faults disk.new) result }
    {
        what_is_read_is_stored();
        let ready = match prepare_move(
            alloc,
            &self.root,
            self.last,
            self.tables.as_slice(),
            table,
            place,
            disk,
        ) {
            Ok(ready) => ready,
            Err(fault) => return Err(fault),
        };
        let Rewritten {
            catalogue,
            version,
            store,
        } = ready;
        let gone = vectors_of(alloc, &self.root, table, place);
        match settle(
            alloc,
            disk,
            version_of(&self.root),
            gone.as_slice(),
            version,
            &catalogue,
        ) {
            Ok(()) => {}
            Err(fault) => return Err(StoreFault::from(fault)),
        }
        self.root = catalogue;
        self.tables[table].replace(place, store);
        Ok(())
    }
}
