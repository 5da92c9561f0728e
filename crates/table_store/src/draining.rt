//! All projections that are behind, moved out before one commit.

ghost use Rattle.std.specs.Prelude.{◌≡◌, ◌≤◌, ◌<◌, ◌+◌, ◌^◌, ◌*◌, ◌++◌, ◌∷◌, [], true, Some, length, map, IfErr, IfOk, IsSomeAnd};
ghost use Rattle.std.specs.List.{All, slice_get};
ghost use Rattle.common_laws.specs.Causes.{HasCause};
ghost use Rattle.common_laws.specs.Maps.{Contents};
ghost use Rattle.catalog_types.specs.Valid.{IsValid};
ghost use Rattle.col_disk.specs.Faults.{IsUnblamed};
ghost use Rattle.col_disk.specs.Moved.{Moved as Moves, NoName};
ghost use Rattle.container_writer.specs.Writing.{DataFrom};
ghost use Rattle.db_model.specs.Database.{Database, is_behind};
ghost use Rattle.db_model.specs.Sound.{IsSoundDatabase};
ghost use Rattle.folder_model.specs.Projections.{shape_of};
ghost use Rattle.folder_model.specs.Tables.{AreDatabase};
ghost use Rattle.moveout_job.specs.OnDisk.{IsListedBelow, IsMovedOut, KeepsStored};
ghost use Rattle.proj_store.specs.Reading.{BlamesLoad};
ghost use Rattle.stored_rows.specs.Stored.{IsLoaded};
ghost use Rattle.table_store.specs.Draining.{put_all, GoesOn, IsDraft, IsDraftOf, IsPlaced};
ghost use Rattle.table_store.specs.Faults.{BlamesVectors, IsReadable};
ghost use Rattle.table_store.specs.Held.{projections_of};
ghost use Rattle.table_store.specs.Moving.{with_entry_at, KeepsShapeAt};

use crate::moving::entry_copy;
use crate::next::into_entry_at;
use crate::parts::Parts;
use crate::store::TableStore;
use catalog_root::vector_numbers;
use catalog_types::{Catalogue, Projection};
use col_disk::{Disk, StoreFault};
use moveout_job::{MovedOut, moveout};
use proj_store::ProjStore;
use std::alloc::{AllocError, Global};
use stored_rows::what_is_read_is_stored;

// Numbers are drawn below this one.
const MOST_NUMBERS: u64 = 1 << 61;

/// A projection that was moved out, and its place.
#[derive(Drop)]
pub struct Moved {
    pub table: usize,
    pub place: usize,
    pub store: ProjStore,
}

/// The catalogue with the entries of what was moved out so far.
#[derive(Drop)]
pub struct Draft {
    pub root: Catalogue,
    pub moved: Vec<Moved>,
}

/// What a moveout of a projection wrote: its entry, the next number that is free, and the projection.
#[derive(Drop)]
struct Written {
    entry: Projection,
    next: u64,
    store: ProjStore,
}

/// Writes all data of a projection that is in memory, with numbers from `next` on, and reads it again. Numbers from 2^61 on are answered as
/// want of memory.
fn write_out<D: Disk>(
    alloc: Global,
    disk: &mut D,
    store: &ProjStore,
    last: u64,
    next: u64,
) -> Result<Written, StoreFault>
    ensures entry { IfOk result (λ w. IsMovedOut last next w.next store.now.stored.entry w.entry) }
    ensures rows { IfOk result (λ w. KeepsStored next store.now.stored w.entry (D.holds disk.old) (D.holds disk.new)) }
    ensures loaded { IfOk result (λ w. (m : Contents) → D.holds disk.new ≡ Some m → IsLoaded m w.store.stored) }
    ensures same { IfOk result (λ w. w.store.stored.entry ≡ w.entry) }
    ensures upto { IfOk result (λ w. w.next ≤ next + 2 * (length store.now.stored.entry.columns + 1) + 1 + length store.now.stored.entry.containers) }
    ensures count { IfOk result (λ w. length w.entry.containers ≤ length store.now.stored.entry.containers + 1) }
    ensures low { IfOk result (λ w. w.next < 2 ^ 62) }
    ensures unblamed { IfErr result (λ fault. (m n : Contents) → D.holds disk.old ≡ Some m → D.holds disk.new ≡ Some n → store.now.stored.entry.fresh ≡ true → IsReadable m store.now.stored → IsListedBelow next store.now.stored.entry → IsUnblamed fault) }
    ensures blamed { IfErr result (λ fault. (m : Contents) → D.holds disk.new ≡ Some m → BlamesLoad store.now.stored.entry.containers (Some m) fault) }
    ensures moved { Moves ⟦<D as Disk>⟧ (DataFrom next) NoName disk.old disk.new }
    ensures cause { HasCause StoreFault.Disk (D.faults disk.old) (D.faults disk.new) result }
{
    let MovedOut { entry, next } = match moveout(alloc, store, last, next, disk) {
        Ok(out) => out,
        Err(fault) => return Err(StoreFault::from(fault)),
    };
    if next >= MOST_NUMBERS {
        return Err(StoreFault::Memory);
    }
    let copy = match entry_copy(alloc, &entry) {
        Ok(copy) => copy,
        Err(AllocError) => return Err(StoreFault::Memory),
    };
    match ProjStore::load(alloc, copy, disk) {
        Ok(store) => Ok(Written { entry, next, store }),
        Err(fault) => Err(fault),
    }
}

/// Whether a projection is up to date and has data that isn't on disk.
fn is_behind(p: &Projection, last: u64) -> bool
    ensures { result ≡ is_behind last (shape_of p.now) }
{
    p.fresh && p.lge < last
}

/// The draft with one projection more that was moved out.
fn with_moved(
    alloc: Global,
    draft: Draft,
    last: u64,
    table: usize,
    place: usize,
    written: Written,
) -> Result<Draft, AllocError>
    requires valid { IsValid draft.root }
    requires shape { KeepsShapeAt draft.root table place written.entry }
    requires low { written.next < 2 ^ 62 }
    ensures root { IfOk result (λ d. d.root ≡ with_entry_at last written.next table place written.entry draft.root) }
    ensures valid { IfOk result (λ d. IsValid d.root) }
    ensures moved { IfOk result (λ d. d.moved.items ≡ draft.moved.items ++ (record { table = table; place = place; store = written.store }) ∷ []) }
{
    let Draft { root, moved } = draft;
    let Written { entry, next, store } = written;
    let root = into_entry_at(alloc, root, last, next, table, place, entry)?;
    let mut moved = moved;
    moved.push(Moved {
        table,
        place,
        store,
    })?;
    Ok(Draft { root, moved })
}

/// The projection at a place is moved out, where it is behind.
fn move_one<D: Disk>(
    alloc: Global,
    disk: &mut D,
    store: &TableStore,
    table: usize,
    place: usize,
    draft: Draft,
) -> Result<Draft, StoreFault>
    requires there { IsSomeAnd (slice_get store.now.stores table) (λ ps. place < length ps) }
    requires draft { IsDraft store.now table place draft }
    ensures draft { IfOk result (λ d. IsDraft store.now table (place + 1) d) }
    ensures goes_on { IfOk result (λ d. GoesOn store.now draft d (D.holds disk.old) (D.holds disk.new)) }
    ensures unblamed { IfErr result (λ fault. (m n : Contents) (d : Database) → D.holds disk.old ≡ Some m → D.holds disk.new ≡ Some n → IsDraftOf store.now draft m d → IsUnblamed fault) }
    ensures blamed { IfErr result (λ fault. (m : Contents) → D.holds disk.new ≡ Some m → BlamesVectors store.now.stores m fault) }
    ensures moved { Moves ⟦<D as Disk>⟧ (DataFrom store.now.catalogue.next) NoName disk.old disk.new }
    ensures cause { HasCause StoreFault.Disk (D.faults disk.old) (D.faults disk.new) result }
{
    what_is_read_is_stored();
    let _root = store.root();
    let last = store.last();
    let projection = &store.tables()[table].as_slice()[place];
    if !is_behind(projection.entry(), last) {
        return Ok(draft);
    }
    let written = match write_out(alloc, disk, projection, last, draft.root.next) {
        Ok(written) => written,
        Err(fault) => return Err(fault),
    };
    match with_moved(alloc, draft, last, table, place, written) {
        Ok(draft) => Ok(draft),
        Err(AllocError) => Err(StoreFault::Memory),
    }
}

/// The projections of the table at a place are moved out, as far as they are behind.
fn move_table<D: Disk>(
    alloc: Global,
    disk: &mut D,
    store: &TableStore,
    table: usize,
    draft: Draft,
) -> Result<Draft, StoreFault>
    requires there { table < length store.now.stores }
    requires draft { IsDraft store.now table 0 draft }
    ensures draft { IfOk result (λ d. IsDraft store.now (table + 1) 0 d) }
    ensures goes_on { IfOk result (λ d. GoesOn store.now draft d (D.holds disk.old) (D.holds disk.new)) }
    ensures unblamed { IfErr result (λ fault. (m n : Contents) (d : Database) → D.holds disk.old ≡ Some m → D.holds disk.new ≡ Some n → IsDraftOf store.now draft m d → IsUnblamed fault) }
    ensures blamed { IfErr result (λ fault. (m : Contents) → D.holds disk.new ≡ Some m → BlamesVectors store.now.stores m fault) }
    ensures moved { Moves ⟦<D as Disk>⟧ (DataFrom store.now.catalogue.next) NoName disk.old disk.new }
    ensures cause { HasCause StoreFault.Disk (D.faults disk.old) (D.faults disk.new) result }
{
    let count = store.tables()[table].as_slice().len();
    let mut draft = draft;
    for place in 0..count {
        draft = match move_one(alloc, disk, store, table, place, draft) {
            Ok(draft) => draft,
            Err(fault) => return Err(fault),
        };
    }
    Ok(draft)
}

/// All projections of a store are moved out, as far as they are behind: their data is on disk, and the draft has the catalogue that lists it.
pub fn drain<D: Disk>(alloc: Global, disk: &mut D, store: &TableStore) -> Result<Draft, StoreFault>
    ensures draft { IfOk result (λ d. IsDraft store.now (length store.now.stores) 0 d) }
    ensures goes_on { IfOk result (λ d. (m : Contents) (e : Database) → D.holds disk.old ≡ Some m → AreDatabase m store.now.catalogue store.now.stores e → IsSoundDatabase e → (n : Contents) × (D.holds disk.new ≡ Some n) × IsDraftOf store.now d n e) }
    ensures unblamed { IfErr result (λ fault. (m n : Contents) (e : Database) → D.holds disk.old ≡ Some m → D.holds disk.new ≡ Some n → AreDatabase m store.now.catalogue store.now.stores e → IsSoundDatabase e → IsUnblamed fault) }
    ensures blamed { IfErr result (λ fault. (m : Contents) → D.holds disk.new ≡ Some m → BlamesVectors store.now.stores m fault) }
    ensures moved { Moves ⟦<D as Disk>⟧ (DataFrom store.now.catalogue.next) NoName disk.old disk.new }
    ensures cause { HasCause StoreFault.Disk (D.faults disk.old) (D.faults disk.new) result }
{
    let root = match store.root().copy(alloc) {
        Ok(root) => root,
        Err(AllocError) => return Err(StoreFault::Memory),
    };
    let mut draft = Draft {
        root,
        moved: Vec::new(alloc),
    };
    for table in 0..store.tables().len() {
        draft = match move_table(alloc, disk, store, table, draft) {
            Ok(draft) => draft,
            Err(fault) => return Err(fault),
        };
    }
    Ok(draft)
}

fn add_numbers(out: &mut Vec<u64>, numbers: &[u64]) -> Result<(), AllocError> {
    for number in numbers {
        out.push(*number)?;
    }
    Ok(())
}

fn add_vectors(
    alloc: Global,
    out: &mut Vec<u64>,
    tables: &[Parts],
    moved: &[Moved],
) -> Result<(), AllocError> {
    for one in moved {
        if let Some(parts) = tables.get(one.table) {
            if let Some(store) = parts.as_slice().get(one.place) {
                add_numbers(out, vector_numbers(alloc, store.entry()).as_slice())?;
            }
        }
    }
    Ok(())
}

/// The numbers of the delete vectors of these projections, as they were, or none where memory is short.
pub fn vectors_before(alloc: Global, tables: &[Parts], moved: &[Moved]) -> Vec<u64> {
    let mut out = Vec::new(alloc);
    match add_vectors(alloc, &mut out, tables, moved) {
        Ok(()) => out,
        Err(AllocError) => Vec::new(alloc),
    }
}

/// The projections that were moved out take their places. It takes no memory.
pub fn put_all(tables: &mut Vec<Parts>, moved: Vec<Moved>)
    requires { All (IsPlaced (map projections_of tables.old.items)) moved.items }
    ensures { map projections_of tables.new.items ≡ put_all moved.items (map projections_of tables.old.items) }
{
    let mut rest = moved;
    rest.reverse();
    while let Some(one) = rest.pop() {
        let Moved {
            table,
            place,
            store,
        } = one;
        tables[table].replace(place, store);
    }
}
