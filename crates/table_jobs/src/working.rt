//! A mergeout that is made step by step.

ghost use Rattle.std.specs.Prelude.{◌≡◌, ◌≤◌, ◌<◌, ◌+◌, ◌*◌, ◌^◌, length, map, true, Some, IfErr, IfOk, IsSomeAnd, IsTrue, OnErr, OnOk};
ghost use Rattle.std.specs.List.{slice_get};
ghost use Rattle.common_laws.specs.Causes.{HasCause};
ghost use Rattle.common_laws.specs.Maps.{Contents};
ghost use Rattle.col_disk.specs.Moved.{Either, Moved, Named, NoName};
ghost use Rattle.catalog_types.specs.Numbers.{file_count};
ghost use Rattle.col_disk.specs.Faults.{IsUnblamed};
ghost use Rattle.col_disk.specs.declared.disk.StoreFault.TheVariants.{Memory as no_memory};
ghost use Rattle.ros_container.specs.Encodings.{written_of};
ghost use Rattle.ros_container.specs.Files.{body_of, index_of};
ghost use Rattle.container_writer.specs.Writing.{DataFrom};
ghost use Rattle.merge_rows.specs.Inputs.{KeepsFrom};
ghost use Rattle.proj_store.specs.Reading.{BlamesLoad, BlamesRows, HasVectors};
ghost use Rattle.proj_store.specs.Sound.{IsLoadable};
ghost use Rattle.container_cut.specs.Blamed.{BlamesProjection};
ghost use Rattle.container_draft.specs.Draft.{IsDraft};
ghost use Rattle.moveout_job.specs.OnDisk.{IsListedBelow};
ghost use Rattle.mergeout_job.specs.Oldest.{HasFour};
ghost use Rattle.db_model.specs.Database.{Database};
ghost use Rattle.store_commit.specs.Seen.{Stands};
ghost use Rattle.table_store.specs.Held.{projections_of};
ghost use Rattle.table_store.specs.Moving.{IsFreshAt};
ghost use Rattle.table_store.specs.Faults.{BlamesHeld};
ghost use Rattle.table_store.specs.Installing.{IsRenewal};
ghost use Rattle.table_jobs.specs.Jobs.{DrawsMerged, MakesRise, OfProjection};
ghost use Rattle.table_jobs.specs.Working.{GoesOn, IsOfStore, IsUnderWay, IsWhole, StaysWhile};

use catalog_types::Projection;
use col_disk::{Disk, DiskFault, StoreFault};
use col_value::orders_are_exact;
use del_vector::one_vector;
use mergeout_job::{MergeJob, Merged, begin};
use proj_store::ProjStore;
use std::alloc::{AllocError, Global};
use std::marker::Model;
use table_store::{Parts, TableStore, entry_copy};

// Numbers are drawn below this one.
const MOST_NUMBERS: u64 = 1 << 61;

/// A merge on its way: the place of its projection, the entry which that had when it began, and what is written.
#[derive(Drop)]
pub struct MergeWork {
    table: usize,
    place: usize,
    entry: Projection,
    base: u64,
    mark: u64,
    done: usize,
    job: MergeJob,
}

impl Model for MergeWork {
    ghost use Rattle.table_jobs.specs.Steady.{IsSteady};
    ghost use Rattle.table_jobs.specs.Working.{Working, working};

    ghost Value = { Working };

    ghost view = { λ w. working w.table w.place w.entry w.job };

    ghost invariant = { λ w. IsSteady w.base w.mark w.done w.entry w.job };
}

fn is_same(one: &Projection, other: &Projection) -> bool
    ensures { IsTrue result → one.now ≡ other.now }
{
    orders_are_exact();
    one == other
}

/// Whether the projection at a place of some has an entry.
fn has_entry(parts: &[ProjStore], place: usize, entry: &Projection) -> bool
    ensures { IsTrue result → IsSomeAnd (slice_get (projections_of parts.now) place) (λ p. p.entry ≡ entry.now) }
{
    match parts.get(place) {
        Some(p) => is_same(p.entry(), entry),
        None => false,
    }
}

/// Whether the projection at a place of the table at a place has it.
pub(crate) fn has_entry_at(tables: &[Parts], table: usize, place: usize, entry: &Projection) -> bool
    ensures { IsTrue result → IsSomeAnd (slice_get (map projections_of tables.now) table) (λ ps. IsSomeAnd (slice_get ps place) (λ p. p.entry ≡ entry.now)) }
{
    match tables.get(table) {
        Some(parts) => has_entry(parts.as_slice(), place, entry),
        None => false,
    }
}

impl MergeWork {
    /// Whether it is of a store still. It takes no memory.
    pub fn is_of(&self, store: &TableStore) -> bool
        ensures { IsTrue result → IsOfStore store.now self.now }
    {
        let root = store.root();
        self.entry.fresh
            && self.base == root.next
            && self.mark == root.ahm
            && has_entry_at(store.tables(), self.table, self.place, &self.entry)
    }

    /// Whether it merges the projection at a place of the table at a place. It takes no memory.
    pub fn is_at(&self, table: usize, place: usize) -> bool
        ensures { IsTrue result → (self.now.table ≡ table) × (self.now.place ≡ place) }
    {
        self.table == table && self.place == place
    }

    /// Whether the files of all columns and those of the epochs are there. It takes no memory.
    pub fn is_whole(&self) -> bool
        ensures { IsTrue result → IsWhole self.now }
    {
        self.done > self.entry.columns.as_slice().len()
    }

    /// Makes the files of the next column, or behind the columns those of the epochs. Where they are there, and numbers from 2^61 on, are
    /// answered as want of memory.
    fn write_next<D: Disk>(
        &mut self,
        alloc: Global,
        p: &ProjStore,
        disk: &mut D,
    ) -> Result<(), DiskFault>
        requires { p.now.stored.entry ≡ self.old.entry }
        ensures draft { OnOk result ((m n : Contents) → D.holds disk.old ≡ Some m → D.holds disk.new ≡ Some n → IsDraft m (written_of self.old.entry) self.old.job.draft → IsDraft n (written_of self.old.entry) self.new.job.draft) }
        ensures more { OnOk result (GoesOn self.old self.new) }
        ensures same { OnErr result (self.new ≡ self.old) }
        ensures moved { Moved ⟦<D as Disk>⟧ (Either (Named (body_of self.old.job.draft.base self.old.job.draft.done)) (Named (index_of self.old.job.draft.base self.old.job.draft.done))) NoName disk.old disk.new }
        ensures cause { HasCause DiskFault.Failed (D.faults disk.old) (D.faults disk.new) result }
    {
        if self.base >= MOST_NUMBERS {
            return Err(DiskFault::Memory);
        }
        if self.done > p.entry().columns.as_slice().len() {
            return Err(DiskFault::Memory);
        }
        match self.job.advance(alloc, p, disk) {
            Ok(()) => {}
            Err(fault) => return Err(fault),
        }
        self.done += 1;
        Ok(())
    }

    /// The entry of the projection after the merge, whose columns are there. Numbers from 2^61 on are answered as want of memory.
    fn end<D: Disk>(&self, alloc: Global, p: &ProjStore, disk: &mut D) -> Result<Merged, StoreFault>
        requires same { p.now.stored.entry ≡ self.now.entry }
        requires whole { IsWhole self.now }
        ensures entry { IfOk result (λ r. IsRenewal p.now.stored.entry r.entry) }
        ensures keeps { IfOk result (λ r. (m n : Contents) → D.holds disk.old ≡ Some m → D.holds disk.new ≡ Some n → IsListedBelow self.now.job.draft.base p.now.stored.entry → HasVectors m p.now.stored → IsUnderWay m self.now
            → KeepsFrom self.now.job.merge.mark m n p.now.stored r.entry) }
        ensures count { IfOk result (λ r. length r.entry.containers + 2 ≤ length p.now.stored.entry.containers) }
        ensures next { IfOk result (λ r. self.now.job.draft.base ≤ r.next) }
        ensures upto { IfOk result (λ r. r.next ≤ self.now.job.draft.base + length p.now.stored.entry.containers + 262) }
        ensures later { IfOk result (λ r. p.now.stored.entry.lge ≤ r.entry.lge) }
        ensures loadable { IfOk result (λ r. IsLoadable r.entry) }
        ensures blamed { IfErr result (BlamesRows p.now.stored.entry (D.holds disk.old)) }
        ensures loads { IfOk result (λ r. IsListedBelow self.now.job.draft.base p.now.stored.entry → (fault : StoreFault) → BlamesLoad r.entry.containers (D.holds disk.new) fault → BlamesProjection p.now.stored.entry (D.holds disk.old) fault) }
        ensures moved { Moved ⟦<D as Disk>⟧ (DataFrom (self.now.job.draft.base + file_count (length p.now.stored.entry.columns))) NoName disk.old disk.new }
        ensures cause { HasCause StoreFault.Disk (D.faults disk.old) (D.faults disk.new) result }
    {
        one_vector();
        if self.base >= MOST_NUMBERS {
            return Err(StoreFault::Memory);
        }
        let after = self.base + 2 * (p.entry().columns.as_slice().len() as u64 + 1);
        match self.job.install(alloc, p, after, disk) {
            Ok(merged) => Ok(merged),
            Err(fault) => Err(StoreFault::from(fault)),
        }
    }
}

/// Begins a merge of the four oldest containers of a level of the projection at a place: their rows are read and ordered, and nothing is written.
/// `Damaged` names a file of a container that holds no rows.
pub fn begin_merge<D: Disk>(
    alloc: Global,
    store: &TableStore,
    table: usize,
    place: usize,
    level: u32,
    disk: &mut D,
) -> Result<MergeWork, StoreFault>
    requires fresh { IsFreshAt store.now.stores table place }
    requires four { OfProjection table place store.now.catalogue (λ p. HasFour level p.containers) }
    ensures begun { IfOk result (λ w. (d : Database) (m : Contents) → Stands ⟦<D as Disk>⟧ store.now disk.old d → D.holds disk.old ≡ Some m → IsUnderWay m w) }
    ensures over { IfOk result (λ w. IsOfStore store.now w) }
    ensures place { IfOk result (λ w. (w.table ≡ table) × (w.place ≡ place)) }
    ensures none { IfOk result (λ w. w.job.draft.done ≡ 0) }
    ensures kept { D.holds disk.new ≡ D.holds disk.old }
    ensures moved { Moved ⟦<D as Disk>⟧ NoName NoName disk.old disk.new }
    ensures cause { HasCause StoreFault.Disk (D.faults disk.old) (D.faults disk.new) result }
{
    let root = store.root();
    let p = &store.tables()[table].as_slice()[place];
    let entry = match entry_copy(alloc, p.entry()) {
        Ok(entry) => entry,
        Err(AllocError) => return Err(StoreFault::Memory),
    };
    match begin(alloc, p, level, root.ahm, root.next, disk) {
        Ok(job) => Ok(MergeWork {
            table,
            place,
            entry,
            base: root.next,
            mark: root.ahm,
            done: 0,
            job,
        }),
        Err(fault) => Err(fault),
    }
}

/// A step of a merge: the files of its next column are made, or behind the columns those of the epochs. Where they are there, and numbers from
/// 2^61 on, are answered as want of memory.
pub fn advance_merge<D: Disk>(
    alloc: Global,
    store: &TableStore,
    work: &mut MergeWork,
    disk: &mut D,
) -> Result<(), DiskFault>
    requires { IsOfStore store.now work.old }
    ensures goes_on { OnOk result ((m n : Contents) → D.holds disk.old ≡ Some m → D.holds disk.new ≡ Some n → IsUnderWay m work.old → IsUnderWay n work.new) }
    ensures more { OnOk result (GoesOn work.old work.new) }
    ensures same { OnErr result (work.new ≡ work.old) }
    ensures stays { (d : Database) → Stands ⟦<D as Disk>⟧ store.now disk.old d → StaysWhile ⟦<D as Disk>⟧ store.now disk.old disk.new d }
    ensures moved { Moved ⟦<D as Disk>⟧ (Either (Named (body_of work.old.job.draft.base work.old.job.draft.done)) (Named (index_of work.old.job.draft.base work.old.job.draft.done))) NoName disk.old disk.new }
    ensures cause { HasCause DiskFault.Failed (D.faults disk.old) (D.faults disk.new) result }
{
    let _root = store.root();
    let p = &store.tables()[work.table].as_slice()[work.place];
    work.write_next(alloc, p, disk)
}

/// The last step of a merge: the four containers give way to the one that was written, and what is in memory goes to disk with it. Of the
/// files of the columns none is written again. Numbers from 2^61 on are answered as want of memory. `Damaged` names the delete vector of a
/// container that has none.
pub fn finish_merge<D: Disk>(
    alloc: Global,
    store: &mut TableStore,
    work: &MergeWork,
    disk: &mut D,
) -> Result<(), StoreFault>
    requires over { IsOfStore store.old work.now }
    requires whole { IsWhole work.now }
    ensures made { (d : Database) → Stands ⟦<D as Disk>⟧ store.old disk.old d → ((m : Contents) → D.holds disk.old ≡ Some m → IsUnderWay m work.now)
        → MakesRise ⟦<D as Disk>⟧ no_memory store.old store.new disk.old disk.new result d work.now.table work.now.place }
    ensures drawn { OnOk result (OfProjection work.now.table work.now.place store.old.catalogue (DrawsMerged work.now.table work.now.place store.old.catalogue store.new.catalogue)) }
    ensures unblamed { IfErr result (λ fault. (d : Database) → Stands ⟦<D as Disk>⟧ store.old disk.old d → ((m : Contents) → D.holds disk.old ≡ Some m → IsUnderWay m work.now) → IsUnblamed fault) }
    ensures named { IfErr result (λ fault. (m : Contents) → D.holds disk.new ≡ Some m → BlamesHeld store.old.stores (Some m) fault) }
    ensures same { OnErr result (store.new ≡ store.old) }
    ensures cause { HasCause StoreFault.Disk (D.faults disk.old) (D.faults disk.new) result }
{
    let _root = store.root();
    let p = &store.tables()[work.table].as_slice()[work.place];
    let merged = match work.end(alloc, p, disk) {
        Ok(merged) => merged,
        Err(fault) => return Err(fault),
    };
    if merged.entry.lge > store.last() {
        return Err(StoreFault::Memory);
    }
    store.install(
        alloc,
        work.table,
        work.place,
        merged.entry,
        merged.next,
        disk,
    )
}
