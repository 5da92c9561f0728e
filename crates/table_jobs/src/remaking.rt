//! A refresh that is made step by step.

ghost use Rattle.std.specs.Prelude.{◌≡◌, ◌≤◌, ◌<◌, ◌+◌, [], length, true, false, Some, IfErr, IfOk, IsTrue, OnErr, OnOk};
ghost use Rattle.std.specs.List.{All};
ghost use Rattle.common_laws.specs.Causes.{HasCause};
ghost use Rattle.common_laws.specs.Maps.{Contents};
ghost use Rattle.col_disk.specs.Faults.{IsUnblamed};
ghost use Rattle.col_disk.specs.Moved.{Either, Moved, Named, NoName};
ghost use Rattle.col_disk.specs.declared.disk.StoreFault.TheVariants.{Memory as no_memory};
ghost use Rattle.ros_container.specs.Encodings.{written_of};
ghost use Rattle.ros_container.specs.Files.{body_of, index_of};
ghost use Rattle.container_writer.specs.Writing.{DataFrom};
ghost use Rattle.container_draft.specs.Draft.{IsDraft};
ghost use Rattle.proj_store.specs.Reading.{HasVectors};
ghost use Rattle.proj_store.specs.Sound.{IsLoadable};
ghost use Rattle.moveout_job.specs.OnDisk.{HasVectorBelow};
ghost use Rattle.refresh_job.specs.Job.{IsRefreshing};
ghost use Rattle.folder_model.specs.Projections.{ordinals};
ghost use Rattle.db_model.specs.Database.{Database};
ghost use Rattle.sound_laws.specs.Moves.{reached_at};
ghost use Rattle.store_commit.specs.Making.{Makes};
ghost use Rattle.store_commit.specs.Seen.{Stands};
ghost use Rattle.table_store.specs.Faults.{BlamesHeld};
ghost use Rattle.table_store.specs.Installing.{IsRenewal};
ghost use Rattle.table_jobs.specs.Jobs.{DrawsAnew, HasReached, OfProjection};
ghost use Rattle.table_jobs.specs.Remaking.{IsBeingMade, IsMadeOn, IsMadeOver, IsWritten};
ghost use Rattle.table_jobs.specs.Sources.{ArePlaces, IsMadeOf};
ghost use Rattle.table_jobs.specs.Working.{StaysWhile};

use crate::refreshing::{places_of, source_of};
use crate::working::has_entry_at;
use catalog_types::Projection;
use col_disk::{Disk, DiskFault, StoreFault};
use del_vector::one_vector;
use proj_store::ProjStore;
use refresh_job::{RefreshJob, Refreshed, begin};
use std::alloc::{AllocError, Global};
use std::marker::Model;
use table_store::{TableStore, entry_copy};

// Numbers are drawn below this one.
const MOST_NUMBERS: u64 = 1 << 61;

/// A refresh on its way: the place of its projection and the entry of that, its source's, and what is written.
#[derive(Drop)]
pub struct RefreshWork {
    table: usize,
    place: usize,
    shape: Projection,
    from: usize,
    source: Projection,
    base: u64,
    mark: u64,
    done: usize,
    job: RefreshJob,
}

impl Model for RefreshWork {
    ghost use Rattle.table_jobs.specs.Remaking.{Remaking, remaking};
    ghost use Rattle.table_jobs.specs.Steady.{IsSteadyRemake};

    ghost Value = { Remaking };

    ghost view = { λ w. remaking w.table w.place w.shape w.from w.source w.job };

    ghost invariant = { λ w. IsSteadyRemake w.base w.mark w.done w.shape w.job };
}

impl RefreshWork {
    /// Whether it is of a store still. It takes no memory.
    pub fn is_of(&self, store: &TableStore) -> bool
        ensures { IsTrue result → IsMadeOver store.now self.now }
    {
        let root = store.root();
        !self.shape.fresh
            && self.source.fresh
            && self.base == root.next
            && self.mark == root.ahm
            && has_entry_at(store.tables(), self.table, self.place, &self.shape)
            && has_entry_at(store.tables(), self.table, self.from, &self.source)
    }

    /// Whether it refreshes the projection at a place of the table at a place. It takes no memory.
    pub fn is_at(&self, table: usize, place: usize) -> bool
        ensures { IsTrue result → (self.now.table ≡ table) × (self.now.place ≡ place) }
    {
        self.table == table && self.place == place
    }

    /// Whether the files of all columns and those of the epochs are there. It takes no memory.
    pub fn is_written(&self) -> bool
        ensures { IsTrue result → IsWritten self.now }
    {
        self.done > self.shape.columns.as_slice().len()
    }

    /// Makes the files of the next column, or behind the columns those of the epochs. Where they are there, and numbers from 2^61 on, are
    /// answered as want of memory.
    fn write_next<D: Disk>(&mut self, alloc: Global, disk: &mut D) -> Result<(), DiskFault>
        ensures draft { OnOk result ((m n : Contents) → D.holds disk.old ≡ Some m → D.holds disk.new ≡ Some n → IsDraft m (written_of self.old.shape) self.old.job.draft → IsDraft n (written_of self.old.shape) self.new.job.draft) }
        ensures more { OnOk result (IsMadeOn self.old self.new) }
        ensures same { OnErr result (self.new ≡ self.old) }
        ensures moved { Moved ⟦<D as Disk>⟧ (Either (Named (body_of self.old.job.draft.base self.old.job.draft.done)) (Named (index_of self.old.job.draft.base self.old.job.draft.done))) NoName disk.old disk.new }
        ensures cause { HasCause DiskFault.Failed (D.faults disk.old) (D.faults disk.new) result }
    {
        if self.base >= MOST_NUMBERS {
            return Err(DiskFault::Memory);
        }
        if self.done > self.shape.columns.as_slice().len() {
            return Err(DiskFault::Memory);
        }
        match self.job.advance(alloc, &self.shape, disk) {
            Ok(()) => {}
            Err(fault) => return Err(fault),
        }
        self.done += 1;
        Ok(())
    }

    /// The entry of the projection after the refresh, whose columns are there, up to date up to an epoch. Numbers from 2^61 on are answered as
    /// want of memory.
    fn end<D: Disk>(
        &self,
        alloc: Global,
        source: &ProjStore,
        last: u64,
        disk: &mut D,
    ) -> Result<Refreshed, DiskFault>
        requires { IsWritten self.now }
        ensures entry { IfOk result (λ r. IsRenewal self.now.shape r.entry) }
        ensures made { IfOk result (λ r. (m n : Contents) → D.holds disk.old ≡ Some m → D.holds disk.new ≡ Some n → HasVectors m source.now.stored → source.now.stored.entry ≡ self.now.source → IsBeingMade m self.now
            → IsMadeOf self.now.job.mark m n source.now.stored r.entry) }
        ensures count { IfOk result (λ r. length r.entry.containers ≤ 2) }
        ensures next { IfOk result (λ r. self.now.job.draft.base ≤ r.next) }
        ensures upto { IfOk result (λ r. r.next ≤ self.now.job.draft.base + 262) }
        ensures reached { IfOk result (λ r. r.entry.lge ≡ last) }
        ensures loadable { IfOk result (λ r. All (λ i. i < length self.now.shape.columns) self.now.shape.sort → IsLoadable r.entry) }
        ensures vectors { IfOk result (λ r. (n : Contents) → D.holds disk.new ≡ Some n → All (HasVectorBelow r.next n) r.entry.containers) }
        ensures moved { Moved ⟦<D as Disk>⟧ (DataFrom self.now.job.draft.base) NoName disk.old disk.new }
        ensures cause { HasCause DiskFault.Failed (D.faults disk.old) (D.faults disk.new) result }
    {
        one_vector();
        if self.base >= MOST_NUMBERS {
            return Err(DiskFault::Memory);
        }
        let after = self.base + 2 * (self.shape.columns.as_slice().len() as u64 + 1);
        match self
            .job
            .install(alloc, source, &self.shape, last, after, disk)
        {
            Ok(refreshed) => Ok(refreshed),
            Err(fault) => Err(fault),
        }
    }
}

/// The refresh of a projection without rows out of an up-to-date one of its table, with their places in a store.
fn begin_from<D: Disk>(
    alloc: Global,
    table: usize,
    place: usize,
    from: usize,
    shape: &Projection,
    source: &ProjStore,
    mark: u64,
    base: u64,
    disk: &mut D,
) -> Result<RefreshWork, StoreFault>
    requires bare { shape.now.containers ≡ [] }
    requires narrow { length shape.now.columns ≤ 64 }
    ensures table { IfOk result (λ w. w.table ≡ table) }
    ensures place { IfOk result (λ w. w.place ≡ place) }
    ensures from { IfOk result (λ w. w.from ≡ from) }
    ensures shape { IfOk result (λ w. w.shape ≡ shape.now) }
    ensures source { IfOk result (λ w. w.source ≡ source.now.stored.entry) }
    ensures columns { IfOk result (λ w. ArePlaces (ordinals w.source) w.job.via (ordinals w.shape)) }
    ensures mark { IfOk result (λ w. w.job.mark ≡ mark) }
    ensures base { IfOk result (λ w. w.job.draft.base ≡ base) }
    ensures none { IfOk result (λ w. w.job.draft.done ≡ 0) }
    ensures begun { IfOk result (λ w. (m : Contents) → D.holds disk.old ≡ Some m → HasVectors m source.now.stored → IsRefreshing m source.now.stored w.job) }
    ensures draft { IfOk result (λ w. (m : Contents) → IsDraft m (written_of w.shape) w.job.draft) }
    ensures kept { D.holds disk.new ≡ D.holds disk.old }
    ensures moved { Moved ⟦<D as Disk>⟧ NoName NoName disk.old disk.new }
    ensures cause { HasCause StoreFault.Disk (D.faults disk.old) (D.faults disk.new) result }
{
    let columns = shape.columns.as_slice();
    let via = match places_of(alloc, source.entry().columns.as_slice(), columns) {
        Ok(via) => via,
        Err(AllocError) => return Err(StoreFault::Memory),
    };
    let own = match entry_copy(alloc, shape) {
        Ok(own) => own,
        Err(AllocError) => return Err(StoreFault::Memory),
    };
    let of = match entry_copy(alloc, source.entry()) {
        Ok(of) => of,
        Err(AllocError) => return Err(StoreFault::Memory),
    };
    match begin(alloc, source, shape, via, mark, base, disk) {
        Ok(job) => Ok(RefreshWork {
            table,
            place,
            shape: own,
            from,
            source: of,
            base,
            mark,
            done: 0,
            job,
        }),
        Err(fault) => Err(fault),
    }
}

/// Begins the refresh of the projection at a place, which isn't up to date: the columns that it has are read of a projection that is and has them all,
/// their rows are ordered, and nothing is written. `Damaged` names a file of a container that holds no rows.
pub fn begin_refresh<D: Disk>(
    alloc: Global,
    store: &TableStore,
    table: usize,
    place: usize,
    disk: &mut D,
) -> Result<RefreshWork, StoreFault>
    requires stale { OfProjection table place store.now.catalogue (λ p. p.fresh ≡ false) }
    ensures begun { IfOk result (λ w. (d : Database) (m : Contents) → Stands ⟦<D as Disk>⟧ store.now disk.old d → D.holds disk.old ≡ Some m → IsBeingMade m w) }
    ensures over { IfOk result (λ w. IsMadeOver store.now w) }
    ensures place { IfOk result (λ w. (w.table ≡ table) × (w.place ≡ place)) }
    ensures none { IfOk result (λ w. w.job.draft.done ≡ 0) }
    ensures kept { D.holds disk.new ≡ D.holds disk.old }
    ensures moved { Moved ⟦<D as Disk>⟧ NoName NoName disk.old disk.new }
    ensures cause { HasCause StoreFault.Disk (D.faults disk.old) (D.faults disk.new) result }
{
    let root = store.root();
    let parts = store.tables()[table].as_slice();
    let shape = parts[place].entry();
    let from = match source_of(parts, shape.columns.as_slice()) {
        Some(from) => from,
        None => return Err(StoreFault::Memory),
    };
    match begin_from(
        alloc,
        table,
        place,
        from,
        shape,
        &parts[from],
        root.ahm,
        root.next,
        disk,
    ) {
        Ok(work) => Ok(work),
        Err(fault) => Err(fault),
    }
}

/// A step of a refresh: the files of its next column are made, or behind the columns those of the epochs. Where they are there, and numbers from
/// 2^61 on, are answered as want of memory.
pub fn advance_refresh<D: Disk>(
    alloc: Global,
    store: &TableStore,
    work: &mut RefreshWork,
    disk: &mut D,
) -> Result<(), DiskFault>
    requires { IsMadeOver store.now work.old }
    ensures goes_on { OnOk result ((m n : Contents) → D.holds disk.old ≡ Some m → D.holds disk.new ≡ Some n → IsBeingMade m work.old → IsBeingMade n work.new) }
    ensures more { OnOk result (IsMadeOn work.old work.new) }
    ensures same { OnErr result (work.new ≡ work.old) }
    ensures stays { (d : Database) → Stands ⟦<D as Disk>⟧ store.now disk.old d → StaysWhile ⟦<D as Disk>⟧ store.now disk.old disk.new d }
    ensures moved { Moved ⟦<D as Disk>⟧ (Either (Named (body_of work.old.job.draft.base work.old.job.draft.done)) (Named (index_of work.old.job.draft.base work.old.job.draft.done))) NoName disk.old disk.new }
    ensures cause { HasCause DiskFault.Failed (D.faults disk.old) (D.faults disk.new) result }
{
    let _root = store.root();
    work.write_next(alloc, disk)
}

/// The last step of a refresh: the container that was written becomes the projection's, deleted as its source's rows are by now, and behind it
/// those that are in the source's memory alone; it is on disk up to the newest closed epoch. Of the files of the columns none is written again, and no
/// column of the source is read. Numbers from 2^61 on are answered as want of memory. `Damaged` names the delete vector of a container that has none.
pub fn finish_refresh<D: Disk>(
    alloc: Global,
    store: &mut TableStore,
    work: &RefreshWork,
    disk: &mut D,
) -> Result<(), StoreFault>
    requires over { IsMadeOver store.old work.now }
    requires written { IsWritten work.now }
    ensures made { (d : Database) → Stands ⟦<D as Disk>⟧ store.old disk.old d → ((m : Contents) → D.holds disk.old ≡ Some m → IsBeingMade m work.now)
        → Makes ⟦<D as Disk>⟧ no_memory store.old store.new disk.old disk.new result d (reached_at d.last work.now.table work.now.place d) }
    ensures drawn { OnOk result (OfProjection work.now.table work.now.place store.old.catalogue (DrawsAnew work.now.table work.now.place 2 store.old.catalogue store.new.catalogue)) }
    ensures reached { OnOk result (OfProjection work.now.table work.now.place store.new.catalogue (HasReached store.new.catalogue.last)) }
    ensures unblamed { IfErr result (λ fault. (d : Database) → Stands ⟦<D as Disk>⟧ store.old disk.old d → ((m : Contents) → D.holds disk.old ≡ Some m → IsBeingMade m work.now) → IsUnblamed fault) }
    ensures named { IfErr result (λ fault. (m : Contents) → D.holds disk.new ≡ Some m → BlamesHeld store.old.stores (Some m) fault) }
    ensures same { OnErr result (store.new ≡ store.old) }
    ensures cause { HasCause StoreFault.Disk (D.faults disk.old) (D.faults disk.new) result }
{
    let root = store.root();
    let last = store.last();
    // No store that stands for a database is there.
    if last < root.ahm {
        return Err(StoreFault::Memory);
    }
    let source = &store.tables()[work.table].as_slice()[work.from];
    let refreshed = match work.end(alloc, source, last, disk) {
        Ok(refreshed) => refreshed,
        Err(fault) => return Err(StoreFault::from(fault)),
    };
    store.install(
        alloc,
        work.table,
        work.place,
        refreshed.entry,
        refreshed.next,
        disk,
    )
}
