//! A mergeout, and its calls.

ghost use Rattle.std.specs.Prelude.{◌≡◌, ◌≤◌, ◌<◌, ◌+◌, ◌*◌, ◌^◌, ◌++◌, List, length, map, sum_by, Some, IfOk, IfErr, OnOk, OnErr};
ghost use Rattle.std.specs.List.{All};
ghost use Rattle.common_laws.specs.Causes.{HasCause};
ghost use Rattle.common_laws.specs.Maps.{Contents};
ghost use Rattle.catalog_types.specs.Numbers.{file_count};
ghost use Rattle.col_disk.specs.Moved.{Moved, NoName, Named, Either};
ghost use Rattle.ros_container.specs.Encodings.{written_of};
ghost use Rattle.ros_container.specs.Files.{body_of, index_of};
ghost use Rattle.container_writer.specs.Writing.{listed, DataFrom};
ghost use Rattle.merge_rows.specs.Inputs.{chosen, replaced, IsMerging, KeepsFrom};
ghost use Rattle.proj_store.specs.Reading.{BlamesRows, HasVectors};
ghost use Rattle.proj_store.specs.Sound.{IsLoadable};
ghost use Rattle.container_draft.specs.Draft.{IsDraft, one_more};
ghost use Rattle.container_draft.specs.Keeping.{dels_at};
ghost use Rattle.container_draft.specs.Reading.{deletes_in};
ghost use Rattle.moveout_job.specs.OnDisk.{IsKeptOrHasVector, IsListedBelow};
ghost use Rattle.mergeout_job.specs.Job.{Mergeout};
ghost use Rattle.mergeout_job.specs.Merged.{with_containers, IsMerged};
ghost use Rattle.mergeout_job.specs.Oldest.{AreFour, HasFour, oldest};

use crate::entry::{entry_with, merged};
use crate::inputs::oldest;
use catalog_types::{Container, Projection};
use col_disk::{Disk, DiskFault, StoreFault};
use container_draft::{Draft, chosen_deletes, chosen_rows, deletes_at, in_order, kept_places};
use moveout_job::save_memory;
use proj_store::ProjStore;
use ros_container::one_container;
use std::alloc::{AllocError, Global};
use std::marker::Model;

// Numbers are drawn below this one.
const MOST_NUMBERS: u64 = 1 << 61;

/// Four containers of a level on their way into one: which they are, the mark at or before which deleted rows are dropped, and what is
/// written.
#[derive(Drop)]
pub struct MergeJob {
    level: u32,
    inputs: Vec<bool>,
    mark: u64,
    draft: Draft,
}

impl Model for MergeJob {
    ghost use Rattle.mergeout_job.specs.Job.{Mergeout, seen};

    ghost Value = { Mergeout };

    ghost view = { λ j. seen j.level j.inputs.items j.mark j.draft };
}

/// The entry of a projection after a mergeout, and the next number that is free.
#[derive(Drop)]
pub struct Merged {
    pub entry: Projection,
    pub next: u64,
}

/// The rows of some containers that are retained from a mark on, as a draft.
fn drafted<D: Disk>(
    alloc: Global,
    p: &ProjStore,
    inputs: &[bool],
    mark: u64,
    base: u64,
    disk: &mut D,
) -> Result<Draft, StoreFault>
    requires within { length inputs.now ≤ length p.now.stored.entry.containers }
    requires some { 0 < length (chosen inputs.now p.now.stored.entry.containers) }
    ensures begun { IfOk result (λ d. (m : Contents) → D.holds disk.old ≡ Some m → HasVectors m p.now.stored → IsMerging m p.now.stored (record { inputs = inputs.now; mark = mark; places = d.places; rows = d.rows })) }
    ensures draft { IfOk result (λ d. (m : Contents) → D.holds disk.old ≡ Some m → HasVectors m p.now.stored → IsDraft m (written_of p.now.stored.entry) d) }
    ensures base { IfOk result (λ d. d.base ≡ base) }
    ensures done { IfOk result (λ d. d.done ≡ 0) }
    ensures blamed { IfErr result (BlamesRows p.now.stored.entry (D.holds disk.old)) }
    ensures kept { D.holds disk.new ≡ D.holds disk.old }
    ensures moved { Moved ⟦<D as Disk>⟧ NoName NoName disk.old disk.new }
    ensures cause { HasCause StoreFault.Disk (D.faults disk.old) (D.faults disk.new) result }
{
    let dels = match chosen_deletes(alloc, p, inputs) {
        Ok(dels) => dels,
        Err(AllocError) => return Err(StoreFault::Memory),
    };
    let kept = match kept_places(alloc, mark, dels.as_slice()) {
        Ok(kept) => kept,
        Err(AllocError) => return Err(StoreFault::Memory),
    };
    let rows = match chosen_rows(alloc, disk, p, inputs) {
        Ok(rows) => rows,
        Err(fault) => return Err(fault),
    };
    match in_order(p.entry(), &rows, kept) {
        Ok(places) => Ok(Draft::new(rows, places, base)),
        Err(AllocError) => Err(StoreFault::Memory),
    }
}

/// Begins the mergeout of the four oldest containers of a level: their rows are read, and those that are retained from the mark on are
/// to be written, in the order of a container, with numbers from `base` on. `Damaged` names a file of a container that holds no rows.
pub fn begin<D: Disk>(
    alloc: Global,
    p: &ProjStore,
    level: u32,
    mark: u64,
    base: u64,
    disk: &mut D,
) -> Result<MergeJob, StoreFault>
    requires { HasFour level p.now.stored.entry.containers }
    ensures begun { IfOk result (λ j. (m : Contents) → D.holds disk.old ≡ Some m → HasVectors m p.now.stored → IsMerging m p.now.stored j.merge) }
    ensures draft { IfOk result (λ j. (m : Contents) → D.holds disk.old ≡ Some m → HasVectors m p.now.stored → IsDraft m (written_of p.now.stored.entry) j.draft) }
    ensures inputs { IfOk result (λ j. j.merge.inputs ≡ oldest 4 level p.now.stored.entry.containers) }
    ensures four { IfOk result (λ j. AreFour level j.merge.inputs p.now.stored.entry.containers) }
    ensures level { IfOk result (λ j. j.level ≡ level) }
    ensures mark { IfOk result (λ j. j.merge.mark ≡ mark) }
    ensures same { IfOk result (λ j. j.draft.rows ≡ j.merge.rows) }
    ensures base { IfOk result (λ j. j.draft.base ≡ base) }
    ensures done { IfOk result (λ j. j.draft.done ≡ 0) }
    ensures blamed { IfErr result (BlamesRows p.now.stored.entry (D.holds disk.old)) }
    ensures kept { D.holds disk.new ≡ D.holds disk.old }
    ensures moved { Moved ⟦<D as Disk>⟧ NoName NoName disk.old disk.new }
    ensures cause { HasCause StoreFault.Disk (D.faults disk.old) (D.faults disk.new) result }
{
    let inputs = match oldest(alloc, p.entry().containers.as_slice(), level, 4) {
        Ok(inputs) => inputs,
        Err(AllocError) => return Err(StoreFault::Memory),
    };
    match drafted(alloc, p, inputs.as_slice(), mark, base, disk) {
        Ok(draft) => Ok(MergeJob {
            level,
            inputs,
            mark,
            draft,
        }),
        Err(fault) => Err(fault),
    }
}

/// The level above. Where there is none, that is answered as want of memory.
fn above(level: u32) -> Result<u32, AllocError>
    ensures { IfOk result (λ n. n ≡ level + 1) }
{
    match level.checked_add(1) {
        Some(above) => Ok(above),
        None => Err(AllocError),
    }
}

/// The deletes of the rows at some places of chosen containers.
fn deletes_now(
    alloc: Global,
    p: &ProjStore,
    inputs: &[bool],
    places: &[usize],
) -> Result<Vec<Option<u64>>, AllocError>
    ensures { IfOk result (λ v. v.items ≡ dels_at (deletes_in (chosen inputs.now p.now.stored.entry.containers) (chosen inputs.now p.now.stored.beside)) places.now) }
{
    let dels = chosen_deletes(alloc, p, inputs)?;
    deletes_at(alloc, dels.as_slice(), places)
}

/// The entry after a mergeout.
fn merged_entry(
    alloc: Global,
    old: &Projection,
    inputs: &[bool],
    made: Option<Container>,
    others: &[Container],
    memory: Option<Container>,
) -> Result<Projection, AllocError>
    ensures { IfOk result (λ e. e ≡ with_containers (replaced inputs.now (listed made) others.now ++ listed memory) (length (listed memory)) old.now) }
{
    let containers = merged(alloc, inputs, made, others, memory)?;
    entry_with(alloc, old, containers, &memory)
}

impl MergeJob {
    /// Makes the files of the next column, or behind the columns those of the epochs.
    pub fn advance<D: Disk>(
        &mut self,
        alloc: Global,
        p: &ProjStore,
        disk: &mut D,
    ) -> Result<(), DiskFault>
        requires numbers { self.old.draft.base + 2 * length p.now.stored.entry.columns + 1 < 2 ^ 62 }
        requires column { self.old.draft.done ≤ length p.now.stored.entry.columns }
        ensures draft { OnOk result ((m n : Contents) → D.holds disk.old ≡ Some m → D.holds disk.new ≡ Some n → IsDraft m (written_of p.now.stored.entry) self.old.draft → IsDraft n (written_of p.now.stored.entry) self.new.draft) }
        ensures done { OnOk result (self.new.draft ≡ one_more self.old.draft) }
        ensures merge { self.new.merge ≡ self.old.merge }
        ensures level { self.new.level ≡ self.old.level }
        ensures same { OnErr result (self.new ≡ self.old) }
        ensures moved { Moved ⟦<D as Disk>⟧ (Either (Named (body_of self.old.draft.base self.old.draft.done)) (Named (index_of self.old.draft.base self.old.draft.done))) NoName disk.old disk.new }
        ensures cause { HasCause DiskFault.Failed (D.faults disk.old) (D.faults disk.new) result }
    {
        self.draft.advance(alloc, p.entry(), disk)
    }

    /// The entry of the projection after the mergeout, with numbers from `next` on: the output stands in the place of the oldest input,
    /// and all that was in memory is on disk. Numbers from 2^61 on are answered as want of memory.
    pub fn install<D: Disk>(
        &self,
        alloc: Global,
        p: &ProjStore,
        next: u64,
        disk: &mut D,
    ) -> Result<Merged, DiskFault>
        requires four { AreFour self.now.level self.now.merge.inputs p.now.stored.entry.containers }
        requires numbers { self.now.draft.base + file_count (length p.now.stored.entry.columns) ≤ next }
        ensures entry { IfOk result (λ r. IsMerged next r.next self.now p.now.stored.entry r.entry) }
        ensures keeps { IfOk result (λ r. (m n : Contents) → D.holds disk.old ≡ Some m → D.holds disk.new ≡ Some n → IsListedBelow next p.now.stored.entry → IsMerging m p.now.stored self.now.merge → IsDraft m (written_of p.now.stored.entry) self.now.draft → length p.now.stored.entry.columns < self.now.draft.done → KeepsFrom self.now.merge.mark m n p.now.stored r.entry) }
        ensures vectors { IfOk result (λ r. (n : Contents) → D.holds disk.new ≡ Some n → All (IsKeptOrHasVector r.next n p.now.stored.entry.containers) r.entry.containers) }
        ensures count { IfOk result (λ r. length r.entry.containers + 2 ≤ length p.now.stored.entry.containers) }
        ensures levels { IfOk result (λ r. sum_by (λ k. 4 ^ k.level) p.now.stored.entry.containers ≤ p.now.stored.entry.born → sum_by (λ k. 4 ^ k.level) r.entry.containers ≤ r.entry.born) }
        ensures below { IfOk result (λ r. IsListedBelow next p.now.stored.entry → IsListedBelow r.next r.entry) }
        ensures next { IfOk result (λ r. next ≤ r.next) }
        ensures upto { IfOk result (λ r. r.next ≤ next + 2 * (length p.now.stored.entry.columns + 1) + 2 + length p.now.stored.entry.containers) }
        ensures loadable { IfOk result (λ r. IsLoadable r.entry) }
        ensures moved { Moved ⟦<D as Disk>⟧ (DataFrom next) NoName disk.old disk.new }
        ensures cause { HasCause DiskFault.Failed (D.faults disk.old) (D.faults disk.new) result }
    {
        one_container();
        if next >= MOST_NUMBERS {
            return Err(DiskFault::Memory);
        }
        let (inputs, places) = (self.inputs.as_slice(), self.draft.places());
        let level = match above(self.level) {
            Ok(level) => level,
            Err(AllocError) => return Err(DiskFault::Memory),
        };
        let dels = match deletes_now(alloc, p, inputs, places) {
            Ok(dels) => dels,
            Err(AllocError) => return Err(DiskFault::Memory),
        };
        let dels = dels.as_slice();
        let made = match self.draft.finish(alloc, p.entry(), dels, level, next, disk) {
            Ok(made) => made,
            Err(fault) => return Err(fault),
        };
        let saved = match save_memory(alloc, disk, p, inputs, made.next) {
            Ok(saved) => saved,
            Err(fault) => return Err(fault),
        };
        let others = saved.containers.as_slice();
        match merged_entry(
            alloc,
            p.entry(),
            inputs,
            made.container,
            others,
            saved.memory,
        ) {
            Ok(entry) => Ok(Merged {
                entry,
                next: saved.next,
            }),
            Err(AllocError) => Err(DiskFault::Memory),
        }
    }
}
