//! A refresh, and its calls.

ghost use Rattle.std.specs.Prelude.{◌≡◌, ◌≤◌, ◌<◌, ◌+◌, ◌*◌, ◌^◌, [], length, map, sum_by, Some, IfOk, IfErr, IfSome, OnOk, OnErr};
ghost use Rattle.std.specs.List.{All};
ghost use Rattle.common_laws.specs.Causes.{HasCause};
ghost use Rattle.common_laws.specs.Maps.{Contents};
ghost use Rattle.catalog_types.specs.Numbers.{file_count};
ghost use Rattle.col_disk.specs.Moved.{Moved, NoName, Named, Either};
ghost use Rattle.ros_container.specs.Encodings.{written_of};
ghost use Rattle.moveout_job.specs.OnDisk.{HasVectorBelow, IsListedBelow};
ghost use Rattle.ros_container.specs.Files.{body_of, index_of};
ghost use Rattle.container_writer.specs.Writing.{listed, DataFrom, HoldsBag, AreNumbered};
ghost use Rattle.write_store.specs.Memory.{stamp};
ghost use Rattle.proj_store.specs.Reading.{BlamesRows, HasVectors};
ghost use Rattle.proj_store.specs.Sound.{IsLoadable};
ghost use Rattle.container_draft.specs.Draft.{IsDraft, one_more};
ghost use Rattle.container_draft.specs.Keeping.{dels_at};
ghost use Rattle.container_draft.specs.Reading.{deletes_in};
ghost use Rattle.refresh_job.specs.Job.{IsRefreshing, IsRefreshed, RefreshesFrom};
ghost use Rattle.refresh_job.specs.Rows.{wanted};

use crate::entry::refreshed_entry;
use crate::rows::{refs, wanted_rows};
use catalog_types::Projection;
use col_disk::{Disk, DiskFault, StoreFault};
use container_draft::{Draft, all_deletes, deletes_at, in_order, kept_places, rows_on};
use container_writer::{Written, write_stamped};
use proj_store::ProjStore;
use std::alloc::{AllocError, Global};
use std::marker::Model;
use write_store::Held;

// Numbers are drawn below this one.
const MOST_NUMBERS: u64 = 1 << 61;

/// The rows of a source's containers on their way into a stale projection: the mark at or before which deleted rows are dropped, the places of
/// their columns among the source's, and what is written.
#[derive(Drop)]
pub struct RefreshJob {
    mark: u64,
    via: Vec<usize>,
    draft: Draft,
}

impl Model for RefreshJob {
    ghost use Rattle.refresh_job.specs.Job.{Refreshing, seen};

    ghost Value = { Refreshing };

    ghost view = { λ j. seen j.mark j.via.items j.draft };
}

/// The entry of a projection after a refresh, and the next number that is free.
#[derive(Drop)]
pub struct Refreshed {
    pub entry: Projection,
    pub next: u64,
}

/// The rows of the source's containers that are retained from a mark on, with the columns of the new projection, as a draft.
fn drafted<D: Disk>(
    alloc: Global,
    source: &ProjStore,
    shape: &Projection,
    via: &[usize],
    mark: u64,
    base: u64,
    disk: &mut D,
) -> Result<Draft, StoreFault>
    requires { length via.now ≡ length shape.now.columns }
    ensures begun { IfOk result (λ d. (m : Contents) → D.holds disk.old ≡ Some m → IsRefreshing m source.now.stored (record { mark = mark; via = via.now; draft = d })) }
    ensures draft { IfOk result (λ d. (m : Contents) → IsDraft m (written_of shape.now) d) }
    ensures base { IfOk result (λ d. d.base ≡ base) }
    ensures done { IfOk result (λ d. d.done ≡ 0) }
    ensures blamed { IfErr result (BlamesRows source.now.stored.entry (D.holds disk.old)) }
    ensures kept { D.holds disk.new ≡ D.holds disk.old }
    ensures moved { Moved ⟦<D as Disk>⟧ NoName NoName disk.old disk.new }
    ensures cause { HasCause StoreFault.Disk (D.faults disk.old) (D.faults disk.new) result }
{
    let dels = match all_deletes(alloc, source) {
        Ok(dels) => dels,
        Err(AllocError) => return Err(StoreFault::Memory),
    };
    let kept = match kept_places(alloc, mark, dels.as_slice()) {
        Ok(kept) => kept,
        Err(AllocError) => return Err(StoreFault::Memory),
    };
    let rows = match rows_on(alloc, disk, source, via) {
        Ok(rows) => rows,
        Err(fault) => return Err(fault),
    };
    match in_order(shape, &rows, kept) {
        Ok(places) => Ok(Draft::new(rows, places, base)),
        Err(AllocError) => Err(StoreFault::Memory),
    }
}

/// Begins the refresh of a stale projection out of an up-to-date one, which has its columns at these places: of the containers of that these columns are
/// read, and the rows that are retained from the mark on are to be written in the order of a container, with numbers from `base` on. Where the
/// new projection has not so many columns, or one of the places isn't one of the source's, that is answered as want of memory: no store has such. `Damaged`
/// names a file of a container that holds no rows.
pub fn begin<D: Disk>(
    alloc: Global,
    source: &ProjStore,
    shape: &Projection,
    via: Vec<usize>,
    mark: u64,
    base: u64,
    disk: &mut D,
) -> Result<RefreshJob, StoreFault>
    ensures begun { IfOk result (λ r. (m : Contents) → D.holds disk.old ≡ Some m → HasVectors m source.now.stored → IsRefreshing m source.now.stored r) }
    ensures draft { IfOk result (λ r. (m : Contents) → IsDraft m (written_of shape.now) r.draft) }
    ensures mark { IfOk result (λ r. r.mark ≡ mark) }
    ensures via { IfOk result (λ r. r.via ≡ via.items) }
    ensures base { IfOk result (λ r. r.draft.base ≡ base) }
    ensures done { IfOk result (λ r. r.draft.done ≡ 0) }
    ensures blamed { IfErr result (BlamesRows source.now.stored.entry (D.holds disk.old)) }
    ensures kept { D.holds disk.new ≡ D.holds disk.old }
    ensures moved { Moved ⟦<D as Disk>⟧ NoName NoName disk.old disk.new }
    ensures cause { HasCause StoreFault.Disk (D.faults disk.old) (D.faults disk.new) result }
{
    if via.len() != shape.columns.as_slice().len() {
        return Err(StoreFault::Memory);
    }
    match drafted(alloc, source, shape, via.as_slice(), mark, base, disk) {
        Ok(draft) => Ok(RefreshJob { mark, via, draft }),
        Err(fault) => Err(fault),
    }
}

/// The deletes of the rows at some places of the source's containers.
fn deletes_now(
    alloc: Global,
    source: &ProjStore,
    places: &[usize],
) -> Result<Vec<Option<u64>>, AllocError>
    ensures { IfOk result (λ v. v.items ≡ dels_at (deletes_in source.now.stored.entry.containers source.now.stored.beside) places.now) }
{
    let dels = all_deletes(alloc, source)?;
    deletes_at(alloc, dels.as_slice(), places)
}

/// The rows in memory that are retained from a mark on, as a container of the new projection.
fn write_later<D: Disk>(
    alloc: Global,
    disk: &mut D,
    shape: &Projection,
    rows: &[Held],
    via: &[usize],
    mark: u64,
    next: u64,
) -> Result<Written, DiskFault>
    ensures held { IfOk result (λ w. (m : Contents) → D.holds disk.new ≡ Some m → HoldsBag m (written_of shape.now) (listed w.container) (wanted mark via.now (map stamp rows.now))) }
    ensures numbers { IfOk result (λ w. AreNumbered (length shape.now.columns) next w.next w.container) }
    ensures upto { IfOk result (λ w. w.next ≤ next + 2 * (length shape.now.columns + 1) + 1) }
    ensures level { IfOk result (λ w. IfSome w.container (λ k. k.level ≡ 0)) }
    ensures moved { Moved ⟦<D as Disk>⟧ (DataFrom next) NoName disk.old disk.new }
    ensures cause { HasCause DiskFault.Failed (D.faults disk.old) (D.faults disk.new) result }
{
    let later = match wanted_rows(alloc, rows, via, mark) {
        Ok(later) => later,
        Err(AllocError) => return Err(DiskFault::Memory),
    };
    let later = match refs(alloc, later.as_slice()) {
        Ok(later) => later,
        Err(AllocError) => return Err(DiskFault::Memory),
    };
    write_stamped(alloc, disk, shape, later, 0, next)
}

impl RefreshJob {
    /// Makes the files of the next column, or behind the columns those of the epochs.
    pub fn advance<D: Disk>(
        &mut self,
        alloc: Global,
        shape: &Projection,
        disk: &mut D,
    ) -> Result<(), DiskFault>
        requires numbers { self.old.draft.base + 2 * length shape.now.columns + 1 < 2 ^ 62 }
        requires column { self.old.draft.done ≤ length shape.now.columns }
        ensures draft { OnOk result ((m n : Contents) → D.holds disk.old ≡ Some m → D.holds disk.new ≡ Some n → IsDraft m (written_of shape.now) self.old.draft → IsDraft n (written_of shape.now) self.new.draft) }
        ensures done { OnOk result (self.new.draft ≡ one_more self.old.draft) }
        ensures mark { self.new.mark ≡ self.old.mark }
        ensures via { self.new.via ≡ self.old.via }
        ensures same { OnErr result (self.new ≡ self.old) }
        ensures moved { Moved ⟦<D as Disk>⟧ (Either (Named (body_of self.old.draft.base self.old.draft.done)) (Named (index_of self.old.draft.base self.old.draft.done))) NoName disk.old disk.new }
        ensures cause { HasCause DiskFault.Failed (D.faults disk.old) (D.faults disk.new) result }
    {
        self.draft.advance(alloc, shape, disk)
    }

    /// The entry of the projection, up to date up to the last epoch, with numbers from `next` on: the rows that were written, deleted
    /// as the source's are by now, and behind them those that are in its memory. Numbers from 2^61 on are answered as want of memory.
    pub fn install<D: Disk>(
        &self,
        alloc: Global,
        source: &ProjStore,
        old: &Projection,
        last: u64,
        next: u64,
        disk: &mut D,
    ) -> Result<Refreshed, DiskFault>
        requires bare { old.now.containers ≡ [] }
        requires numbers { self.now.draft.base + file_count (length old.now.columns) ≤ next }
        ensures entry { IfOk result (λ r. IsRefreshed last next r.next self.now old.now r.entry) }
        ensures refreshes { IfOk result (λ r. (m n : Contents) → D.holds disk.old ≡ Some m → D.holds disk.new ≡ Some n → HasVectors m source.now.stored → IsRefreshing m source.now.stored self.now → IsDraft m (written_of old.now) self.now.draft → length old.now.columns < self.now.draft.done → RefreshesFrom self.now.mark self.now.via m n source.now.stored r.entry) }
        ensures count { IfOk result (λ r. length r.entry.containers ≤ 2) }
        ensures levels { IfOk result (λ r. sum_by (λ k. 4 ^ k.level) r.entry.containers ≤ r.entry.born) }
        ensures below { IfOk result (λ r. IsListedBelow r.next r.entry) }
        ensures vectors { IfOk result (λ r. (n : Contents) → D.holds disk.new ≡ Some n → All (HasVectorBelow r.next n) r.entry.containers) }
        ensures next { IfOk result (λ r. next ≤ r.next) }
        ensures upto { IfOk result (λ r. r.next ≤ next + 2 * (length old.now.columns + 1) + 2) }
        ensures loadable { IfOk result (λ r. All (λ i. i < length old.now.columns) old.now.sort → IsLoadable r.entry) }
        ensures moved { Moved ⟦<D as Disk>⟧ (DataFrom next) NoName disk.old disk.new }
        ensures cause { HasCause DiskFault.Failed (D.faults disk.old) (D.faults disk.new) result }
    {
        if next >= MOST_NUMBERS {
            return Err(DiskFault::Memory);
        }
        let (via, mark, rows) = (self.via.as_slice(), self.mark, source.unsaved());
        let dels = match deletes_now(alloc, source, self.draft.places()) {
            Ok(dels) => dels,
            Err(AllocError) => return Err(DiskFault::Memory),
        };
        let dels = dels.as_slice();
        let first = match self.draft.finish(alloc, old, dels, 0, next, disk) {
            Ok(first) => first,
            Err(fault) => return Err(fault),
        };
        let later = match write_later(alloc, disk, old, rows, via, mark, first.next) {
            Ok(later) => later,
            Err(fault) => return Err(fault),
        };
        match refreshed_entry(alloc, old, first.container, later.container, last) {
            Ok(entry) => Ok(Refreshed {
                entry,
                next: later.next,
            }),
            Err(AllocError) => Err(DiskFault::Memory),
        }
    }
}
