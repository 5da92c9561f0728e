//! The refresh of a projection.

ghost use Rattle.std.specs.Prelude.{◌≡◌, ◌≤◌, ◌<◌, ◌+◌, ◌*◌, ◌^◌, [], true, false, length, Some, IfErr, IfOk, IfSome, IsTrue, OnErr, OnOk, IsSomeAnd};
ghost use Rattle.std.specs.List.{All, slice_get};
ghost use Rattle.common_laws.specs.Causes.{HasCause};
ghost use Rattle.common_laws.specs.Maps.{Contents};
ghost use Rattle.col_disk.specs.Faults.{IsUnblamed};
ghost use Rattle.col_disk.specs.Moved.{Moved, NoName};
ghost use Rattle.col_disk.specs.declared.disk.StoreFault.TheVariants.{Memory as no_memory};
ghost use Rattle.ros_container.specs.Encodings.{written_of};
ghost use Rattle.container_writer.specs.Writing.{DataFrom};
ghost use Rattle.container_draft.specs.Draft.{IsDraft};
ghost use Rattle.proj_store.specs.Reading.{HasVectors};
ghost use Rattle.proj_store.specs.Sound.{IsLoadable};
ghost use Rattle.moveout_job.specs.OnDisk.{HasVectorBelow, IsListedBelow};
ghost use Rattle.db_model.specs.Database.{Database};
ghost use Rattle.sound_laws.specs.Moves.{reached_at};
ghost use Rattle.store_commit.specs.Making.{Makes};
ghost use Rattle.store_commit.specs.Seen.{Stands};
ghost use Rattle.table_store.specs.Faults.{BlamesEntry, BlamesHeld, IsReadable};
ghost use Rattle.table_store.specs.Installing.{IsRenewal};
ghost use Rattle.table_jobs.specs.Jobs.{DrawsAnew, HasReached, OfProjection};
ghost use Rattle.table_jobs.specs.Sources.{ordinals_of, ArePlaces, IsMadeOf, IsPlaceOf};

use catalog_types::{ProjColumn, Projection};
use col_disk::{Disk, DiskFault, StoreFault};
use proj_store::ProjStore;
use refresh_job::{RefreshJob, Refreshed, begin};
use std::alloc::{AllocError, Global};
use table_store::TableStore;

// Numbers are drawn below this one.
const MOST_NUMBERS: u64 = 1 << 61;

/// The place of a column of the table among these.
fn place_of(columns: &[ProjColumn], ordinal: usize) -> Option<usize>
    ensures { IfSome result (λ k. IsPlaceOf (ordinals_of columns.now) k ordinal) }
{
    for place in 0..columns.len() {
        if columns[place].ordinal == ordinal {
            return Some(place);
        }
    }
    None
}

/// The same, where one that isn't there is answered as want of memory.
fn place_found(columns: &[ProjColumn], ordinal: usize) -> Result<usize, AllocError>
    ensures { IfOk result (λ k. IsPlaceOf (ordinals_of columns.now) k ordinal) }
{
    match place_of(columns, ordinal) {
        Some(place) => Ok(place),
        None => Err(AllocError),
    }
}

/// The places of some columns among a source's.
#[tactic(auto, using(crate::proofs::Placed::places_push))]
pub(crate) fn places_of(
    alloc: Global,
    source: &[ProjColumn],
    columns: &[ProjColumn],
) -> Result<Vec<usize>, AllocError>
    ensures { IfOk result (λ v. ArePlaces (ordinals_of source.now) v.items (ordinals_of columns.now)) }
{
    let mut out = Vec::with_capacity(alloc, columns.len())?;
    for column in columns {
        out.push(place_found(source, column.ordinal)?)?;
    }
    Ok(out)
}

/// Whether all of these columns are among a source's.
fn has_all(source: &[ProjColumn], columns: &[ProjColumn]) -> bool {
    for column in columns {
        if place_of(source, column.ordinal).is_none() {
            return false;
        }
    }
    true
}

/// Whether a projection is up to date and has all of these columns.
fn is_source(p: &ProjStore, columns: &[ProjColumn]) -> bool
    ensures { IsTrue result → p.now.stored.entry.fresh ≡ true }
{
    p.entry().fresh && has_all(p.entry().columns.as_slice(), columns)
}

/// The place of a projection that is up to date and has all of these columns. A sound store has one.
pub(crate) fn source_of(parts: &[ProjStore], columns: &[ProjColumn]) -> Option<usize>
    ensures place { IfSome result (λ k. k < length parts.now) }
    ensures fresh { IfSome result (λ k. IsSomeAnd (slice_get parts.now k) (λ p. p.stored.entry.fresh ≡ true)) }
{
    for place in 0..parts.len() {
        if is_source(&parts[place], columns) {
            return Some(place);
        }
    }
    None
}

/// Makes the files of all columns of a projection, and those of the epochs.
fn write_columns<D: Disk>(
    alloc: Global,
    shape: &Projection,
    job: &mut RefreshJob,
    disk: &mut D,
) -> Result<(), DiskFault>
    requires begun { job.old.draft.done ≡ 0 }
    requires numbers { job.old.draft.base + 2 * length shape.now.columns + 1 < 2 ^ 62 }
    ensures draft { OnOk result ((m n : Contents) → D.holds disk.old ≡ Some m → D.holds disk.new ≡ Some n → IsDraft m (written_of shape.now) job.old.draft → IsDraft n (written_of shape.now) job.new.draft) }
    ensures done { OnOk result (length shape.now.columns < job.new.draft.done) }
    ensures base { job.new.draft.base ≡ job.old.draft.base }
    ensures mark { job.new.mark ≡ job.old.mark }
    ensures via { job.new.via ≡ job.old.via }
    ensures rows { job.new.draft.rows ≡ job.old.draft.rows }
    ensures places { job.new.draft.places ≡ job.old.draft.places }
    ensures moved { Moved ⟦<D as Disk>⟧ (DataFrom job.old.draft.base) NoName disk.old disk.new }
    ensures cause { HasCause DiskFault.Failed (D.faults disk.old) (D.faults disk.new) result }
{
    for _ in 0..shape.columns.as_slice().len() + 1 {
        match job.advance(alloc, shape, disk) {
            Ok(()) => {}
            Err(fault) => return Err(fault),
        }
    }
    Ok(())
}

/// The entry of a projection without rows after a refresh out of an up-to-date one, from its begin to its end, with numbers from `next` on.
fn refresh_from<D: Disk>(
    alloc: Global,
    source: &ProjStore,
    shape: &Projection,
    last: u64,
    mark: u64,
    next: u64,
    disk: &mut D,
) -> Result<Refreshed, StoreFault>
    requires bare { shape.now.containers ≡ [] }
    requires columns { length shape.now.columns ≤ 64 }
    requires fresh { source.now.stored.entry.fresh ≡ true }
    ensures entry { IfOk result (λ r. IsRenewal shape.now r.entry) }
    ensures made { IfOk result (λ r. (m n : Contents) → D.holds disk.old ≡ Some m → D.holds disk.new ≡ Some n → IsListedBelow next source.now.stored.entry → HasVectors m source.now.stored → IsMadeOf mark m n source.now.stored r.entry) }
    ensures count { IfOk result (λ r. length r.entry.containers ≤ 2) }
    ensures next { IfOk result (λ r. next ≤ r.next) }
    ensures upto { IfOk result (λ r. r.next ≤ next + 262) }
    ensures reached { IfOk result (λ r. r.entry.lge ≡ last) }
    ensures loadable { IfOk result (λ r. All (λ i. i < length shape.now.columns) shape.now.sort → IsLoadable r.entry) }
    ensures unblamed { IfErr result (λ fault. (m : Contents) → D.holds disk.old ≡ Some m → IsListedBelow next source.now.stored.entry → IsReadable m source.now.stored → IsUnblamed fault) }
    ensures named { IfErr result (λ fault. (m : Contents) → D.holds disk.new ≡ Some m → IsListedBelow next source.now.stored.entry → BlamesEntry source.now.stored.entry (Some m) fault) }
    ensures vectors { IfOk result (λ r. (n : Contents) → D.holds disk.new ≡ Some n → All (HasVectorBelow r.next n) r.entry.containers) }
    ensures moved { Moved ⟦<D as Disk>⟧ (DataFrom next) NoName disk.old disk.new }
    ensures cause { HasCause StoreFault.Disk (D.faults disk.old) (D.faults disk.new) result }
{
    if next >= MOST_NUMBERS {
        return Err(StoreFault::Memory);
    }
    let columns = shape.columns.as_slice();
    let via = match places_of(alloc, source.entry().columns.as_slice(), columns) {
        Ok(via) => via,
        Err(AllocError) => return Err(StoreFault::Memory),
    };
    let mut job = match begin(alloc, source, shape, via, mark, next, disk) {
        Ok(job) => job,
        Err(fault) => return Err(fault),
    };
    match write_columns(alloc, shape, &mut job, disk) {
        Ok(()) => {}
        Err(fault) => return Err(StoreFault::from(fault)),
    }
    let after = next + 2 * (columns.len() as u64 + 1);
    match job.install(alloc, source, shape, last, after, disk) {
        Ok(refreshed) => Ok(refreshed),
        Err(fault) => Err(StoreFault::from(fault)),
    }
}

/// The projection at a place, which isn't up to date, gets the rows of its table from an up-to-date projection that has all columns, and is
/// on disk up to the newest closed epoch. Numbers from 2^61 on are answered as want of memory. `Damaged` names a file of a container of that one
/// that holds no rows.
pub fn refresh<D: Disk>(
    alloc: Global,
    store: &mut TableStore,
    table: usize,
    place: usize,
    disk: &mut D,
) -> Result<(), StoreFault>
    requires stale { OfProjection table place store.old.catalogue (λ p. p.fresh ≡ false) }
    ensures made { (d : Database) → Stands ⟦<D as Disk>⟧ store.old disk.old d → Makes ⟦<D as Disk>⟧ no_memory store.old store.new disk.old disk.new result d (reached_at d.last table place d) }
    ensures drawn { OnOk result (OfProjection table place store.old.catalogue (DrawsAnew table place 2 store.old.catalogue store.new.catalogue)) }
    ensures reached { OnOk result (OfProjection table place store.new.catalogue (HasReached store.new.catalogue.last)) }
    ensures unblamed { IfErr result (λ fault. (d : Database) → Stands ⟦<D as Disk>⟧ store.old disk.old d → IsUnblamed fault) }
    ensures named { IfErr result (λ fault. (m : Contents) → D.holds disk.new ≡ Some m → BlamesHeld store.old.stores (Some m) fault) }
    ensures same { OnErr result (store.new ≡ store.old) }
    ensures cause { HasCause StoreFault.Disk (D.faults disk.old) (D.faults disk.new) result }
{
    let root = store.root();
    let parts = store.tables()[table].as_slice();
    let shape = parts[place].entry();
    let from = match source_of(parts, shape.columns.as_slice()) {
        Some(from) => from,
        None => return Err(StoreFault::Memory),
    };
    let (last, mark) = (store.last(), root.ahm);
    // No store that stands for a database is there.
    if last < mark {
        return Err(StoreFault::Memory);
    }
    let refreshed = match refresh_from(alloc, &parts[from], shape, last, mark, root.next, disk) {
        Ok(refreshed) => refreshed,
        Err(fault) => return Err(fault),
    };
    store.install(alloc, table, place, refreshed.entry, refreshed.next, disk)
}
