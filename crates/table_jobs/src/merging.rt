//! Mergeout.

ghost use Rattle.std.specs.Prelude.{◌≡◌, ◌≤◌, ◌<◌, ◌+◌, ◌*◌, ◌^◌, length, Some, IfErr, IfOk, OnErr, OnOk};
ghost use Rattle.common_laws.specs.Causes.{HasCause};
ghost use Rattle.common_laws.specs.Maps.{Contents};
ghost use Rattle.col_disk.specs.Faults.{IsUnblamed};
ghost use Rattle.col_disk.specs.Moved.{Moved, NoName};
ghost use Rattle.col_disk.specs.declared.disk.StoreFault.TheVariants.{Memory as no_memory};
ghost use Rattle.ros_container.specs.Encodings.{written_of};
ghost use Rattle.container_writer.specs.Writing.{DataFrom};
ghost use Rattle.merge_rows.specs.Inputs.{KeepsFrom};
ghost use Rattle.proj_store.specs.Reading.{BlamesLoad, BlamesRows, HasVectors};
ghost use Rattle.proj_store.specs.Sound.{IsLoadable};
ghost use Rattle.container_cut.specs.Blamed.{BlamesProjection};
ghost use Rattle.container_draft.specs.Draft.{IsDraft};
ghost use Rattle.moveout_job.specs.OnDisk.{IsListedBelow};
ghost use Rattle.mergeout_job.specs.Oldest.{HasFour};
ghost use Rattle.db_model.specs.Database.{Database};
ghost use Rattle.store_commit.specs.Seen.{Stands};
ghost use Rattle.table_store.specs.Faults.{BlamesHeld};
ghost use Rattle.table_store.specs.Installing.{IsRenewal};
ghost use Rattle.table_store.specs.Moving.{IsFreshAt};
ghost use Rattle.table_jobs.specs.Blamed.{BlamesMerge};
ghost use Rattle.table_jobs.specs.Jobs.{DrawsMerged, MakesRise, OfProjection};

use col_disk::{Disk, DiskFault, StoreFault};
use mergeout_job::{MergeJob, Merged, begin};
use proj_store::ProjStore;
use std::alloc::Global;
use table_store::TableStore;

// Numbers are drawn below this one.
const MOST_NUMBERS: u64 = 1 << 61;

/// Makes the files of all columns, and those of the epochs.
fn write_columns<D: Disk>(
    alloc: Global,
    p: &ProjStore,
    job: &mut MergeJob,
    disk: &mut D,
) -> Result<(), DiskFault>
    requires begun { job.old.draft.done ≡ 0 }
    requires numbers { job.old.draft.base + 2 * length p.now.stored.entry.columns + 1 < 2 ^ 62 }
    ensures draft { OnOk result ((m n : Contents) → D.holds disk.old ≡ Some m → D.holds disk.new ≡ Some n → IsDraft m (written_of p.now.stored.entry) job.old.draft → IsDraft n (written_of p.now.stored.entry) job.new.draft) }
    ensures done { OnOk result (length p.now.stored.entry.columns < job.new.draft.done) }
    ensures base { job.new.draft.base ≡ job.old.draft.base }
    ensures merge { job.new.merge ≡ job.old.merge }
    ensures level { job.new.level ≡ job.old.level }
    ensures moved { Moved ⟦<D as Disk>⟧ (DataFrom job.old.draft.base) NoName disk.old disk.new }
    ensures cause { HasCause DiskFault.Failed (D.faults disk.old) (D.faults disk.new) result }
{
    for _ in 0..p.entry().columns.as_slice().len() + 1 {
        match job.advance(alloc, p, disk) {
            Ok(()) => {}
            Err(fault) => return Err(fault),
        }
    }
    Ok(())
}

/// The entry of a projection after a mergeout from its begin to its end, with numbers from `next` on.
fn merge_out<D: Disk>(
    alloc: Global,
    p: &ProjStore,
    level: u32,
    mark: u64,
    next: u64,
    disk: &mut D,
) -> Result<Merged, StoreFault>
    requires four { HasFour level p.now.stored.entry.containers }
    requires columns { length p.now.stored.entry.columns ≤ 64 }
    ensures entry { IfOk result (λ r. IsRenewal p.now.stored.entry r.entry) }
    ensures keeps { IfOk result (λ r. (m n : Contents) → D.holds disk.old ≡ Some m → D.holds disk.new ≡ Some n → IsListedBelow next p.now.stored.entry → HasVectors m p.now.stored → KeepsFrom mark m n p.now.stored r.entry) }
    ensures count { IfOk result (λ r. length r.entry.containers + 2 ≤ length p.now.stored.entry.containers) }
    ensures next { IfOk result (λ r. next ≤ r.next) }
    ensures upto { IfOk result (λ r. r.next ≤ next + length p.now.stored.entry.containers + 262) }
    ensures later { IfOk result (λ r. p.now.stored.entry.lge ≤ r.entry.lge) }
    ensures loadable { IfOk result (λ r. IsLoadable r.entry) }
    ensures blamed { IfErr result (BlamesRows p.now.stored.entry (D.holds disk.old)) }
    ensures loads { IfOk result (λ r. IsListedBelow next p.now.stored.entry → (fault : StoreFault) → BlamesLoad r.entry.containers (D.holds disk.new) fault → BlamesProjection p.now.stored.entry (D.holds disk.old) fault) }
    ensures moved { Moved ⟦<D as Disk>⟧ (DataFrom next) NoName disk.old disk.new }
    ensures cause { HasCause StoreFault.Disk (D.faults disk.old) (D.faults disk.new) result }
{
    if next >= MOST_NUMBERS {
        return Err(StoreFault::Memory);
    }
    let mut job = match begin(alloc, p, level, mark, next, disk) {
        Ok(job) => job,
        Err(fault) => return Err(fault),
    };
    match write_columns(alloc, p, &mut job, disk) {
        Ok(()) => {}
        Err(fault) => return Err(StoreFault::from(fault)),
    }
    let after = next + 2 * (p.entry().columns.as_slice().len() as u64 + 1);
    match job.install(alloc, p, after, disk) {
        Ok(merged) => Ok(merged),
        Err(fault) => Err(StoreFault::from(fault)),
    }
}

/// The four oldest containers of a level of the projection at a place give way to one a level up, without the rows that were deleted up to
/// the ancient history mark, and what is in memory goes to disk with it. Numbers from 2^61 on are answered as want of memory. `Damaged` names a
/// file of a container that holds no rows, or the delete vector of one that has none.
pub fn merge<D: Disk>(
    alloc: Global,
    store: &mut TableStore,
    table: usize,
    place: usize,
    level: u32,
    disk: &mut D,
) -> Result<(), StoreFault>
    requires fresh { IsFreshAt store.old.stores table place }
    requires four { OfProjection table place store.old.catalogue (λ p. HasFour level p.containers) }
    ensures made { (d : Database) → Stands ⟦<D as Disk>⟧ store.old disk.old d → MakesRise ⟦<D as Disk>⟧ no_memory store.old store.new disk.old disk.new result d table place }
    ensures drawn { OnOk result (OfProjection table place store.old.catalogue (DrawsMerged table place store.old.catalogue store.new.catalogue)) }
    ensures unblamed { IfErr result (λ fault. (d : Database) → Stands ⟦<D as Disk>⟧ store.old disk.old d → IsUnblamed fault) }
    ensures blamed { IfErr result (λ fault. OfProjection table place store.old.catalogue (BlamesMerge (D.holds disk.old) fault)) }
    ensures named { IfErr result (λ fault. (m : Contents) → D.holds disk.new ≡ Some m → BlamesHeld store.old.stores (Some m) fault) }
    ensures same { OnErr result (store.new ≡ store.old) }
    ensures cause { HasCause StoreFault.Disk (D.faults disk.old) (D.faults disk.new) result }
{
    let root = store.root();
    let p = &store.tables()[table].as_slice()[place];
    let merged = match merge_out(alloc, p, level, root.ahm, root.next, disk) {
        Ok(merged) => merged,
        Err(fault) => return Err(fault),
    };
    if merged.entry.lge > store.last() {
        return Err(StoreFault::Memory);
    }
    store.install(alloc, table, place, merged.entry, merged.next, disk)
}
