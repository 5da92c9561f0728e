//! One container without the rows that were deleted at or before a mark.

ghost use Rattle.std.specs.Prelude.{◌≡◌, ◌≤◌, ◌<◌, ◌+◌, ◌*◌, length, Some, map, IfOk, IfErr};
ghost use Rattle.std.specs.List.{All};
ghost use Rattle.common_laws.specs.Causes.{HasCause};
ghost use Rattle.common_laws.specs.Maps.{Contents};
ghost use Rattle.col_disk.specs.Moved.{Moved, NoName};
ghost use Rattle.container_writer.specs.Writing.{listed, DataFrom};
ghost use Rattle.container_cut.specs.Blamed.{BlamesOne};
ghost use Rattle.container_cut.specs.Fronts.{front_of};
ghost use Rattle.moveout_job.specs.OnDisk.{beside, KeepsOrHasVector};
ghost use Rattle.proj_store.specs.Sound.{HasVectorNumber};
ghost use Rattle.ros_container.specs.Encodings.{written_of};
ghost use Rattle.ros_container.specs.Readable.{IsReadable};
ghost use Rattle.purge_job.specs.Purging.{CanLoad, HoldsKept, PurgesOne};

use crate::rows::{are_later, kept_rows, refs};
use catalog_types::{Container, Projection, copy_proj_columns};
use col_disk::{Disk, StoreFault};
use col_value::{List, Stamped};
use container_writer::{Written, write_stamped};
use del_vector::Mark;
use moveout_job::mark_one;
use proj_store::deletes_of;
use ros_container::one_container;
use std::alloc::{AllocError, Global};

/// The projection of the columns that a container stores.
fn front_of(
    alloc: Global,
    shape: &Projection,
    container: &Container,
) -> Result<Projection, AllocError>
    requires { container.now.stored ≤ length shape.now.columns }
    ensures { IfOk result (λ p. p ≡ front_of container.now shape.now) }
{
    let stored = shape
        .columns
        .as_slice()
        .split_at(container.stored as usize)
        .0;
    let name = shape.name.copy(alloc)?;
    let columns = List::new(copy_proj_columns(alloc, stored)?);
    let sort = List::new(Vec::from_slice(alloc, shape.sort.as_slice())?);
    Ok(Projection {
        name,
        columns,
        sort,
        fresh: shape.fresh,
        lge: shape.lge,
        born: shape.born,
        containers: List::new(Vec::new(alloc)),
    })
}

/// The rows of a container that are retained from a mark on, with the columns that it stores alone.
fn read_kept<D: Disk>(
    alloc: Global,
    disk: &mut D,
    shape: &Projection,
    front: &Projection,
    container: &Container,
    held: &[Mark],
    fresh: &[Mark],
    mark: u64,
) -> Result<Vec<Stamped>, StoreFault>
    requires readable { IsReadable shape.now.columns container.now }
    requires front { front.now ≡ front_of container.now shape.now }
    requires held { All (λ e. e.position < container.now.rows) held.now }
    requires fresh { All (λ e. e.position < container.now.rows) fresh.now }
    ensures found { IfOk result (λ v. (m : Contents) → D.holds disk.old ≡ Some m → HoldsKept m (written_of front.now) mark container.now (beside held.now fresh.now) v.items) }
    ensures blamed { IfErr result (BlamesOne shape.now container.now (D.holds disk.old)) }
    ensures moved { Moved ⟦<D as Disk>⟧ NoName NoName disk.old disk.new }
    ensures cause { HasCause StoreFault.Disk (D.faults disk.old) (D.faults disk.new) result }
{
    let dels = match deletes_of(alloc, container.rows as usize, held, fresh) {
        Ok(dels) => dels,
        Err(AllocError) => return Err(StoreFault::Memory),
    };
    let rows = match ros_container::rows(alloc, disk, container, front) {
        Ok(rows) => rows,
        Err(fault) => return Err(fault),
    };
    match kept_rows(alloc, rows, dels.as_slice(), mark) {
        Ok(kept) => Ok(kept),
        Err(AllocError) => Err(StoreFault::Memory),
    }
}

/// What of a container is retained from a mark on, as another container, which stores the same columns.
fn rewrite<D: Disk>(
    alloc: Global,
    disk: &mut D,
    shape: &Projection,
    container: &Container,
    held: &[Mark],
    fresh: &[Mark],
    mark: u64,
    next: u64,
) -> Result<Written, StoreFault>
    requires readable { IsReadable shape.now.columns container.now }
    requires held { All (λ e. e.position < container.now.rows) held.now }
    requires fresh { All (λ e. e.position < container.now.rows) fresh.now }
    ensures purged { IfOk result (λ w. PurgesOne mark (written_of shape.now) next w.next container.now (beside held.now fresh.now) (listed w.container) (D.holds disk.old) (D.holds disk.new)) }
    ensures loads { IfOk result (λ w. All (CanLoad shape.now.columns) (listed w.container)) }
    ensures vector { IfOk result (λ w. (n : Contents) → D.holds disk.new ≡ Some n → All (KeepsOrHasVector w.next n container.now) (listed w.container)) }
    ensures level { IfOk result (λ w. All (λ k. k.level ≡ container.now.level) (listed w.container)) }
    ensures next { IfOk result (λ w. next ≤ w.next) }
    ensures upto { IfOk result (λ w. w.next ≤ next + 2 * (length shape.now.columns + 1) + 1) }
    ensures blamed { IfErr result (BlamesOne shape.now container.now (D.holds disk.old)) }
    ensures moved { Moved ⟦<D as Disk>⟧ (DataFrom next) NoName disk.old disk.new }
    ensures cause { HasCause StoreFault.Disk (D.faults disk.old) (D.faults disk.new) result }
{
    one_container();
    let front = match front_of(alloc, shape, container) {
        Ok(front) => front,
        Err(AllocError) => return Err(StoreFault::Memory),
    };
    let kept = match read_kept(alloc, disk, shape, &front, container, held, fresh, mark) {
        Ok(kept) => kept,
        Err(fault) => return Err(fault),
    };
    let rows = match refs(alloc, kept.as_slice()) {
        Ok(rows) => rows,
        Err(AllocError) => return Err(StoreFault::Memory),
    };
    match write_stamped(alloc, disk, &front, rows, container.level, next) {
        Ok(written) => Ok(written),
        Err(fault) => Err(StoreFault::from(fault)),
    }
}

/// A container all of whose marks are later than a mark, with a delete vector of all of them.
fn remark<D: Disk>(
    alloc: Global,
    disk: &mut D,
    shape: &Projection,
    container: &Container,
    held: &[Mark],
    fresh: &[Mark],
    mark: u64,
    next: u64,
) -> Result<Written, StoreFault>
    requires readable { IsReadable shape.now.columns container.now }
    requires vector { HasVectorNumber container.now }
    requires held { All (λ e. mark < e.epoch) held.now }
    requires fresh { All (λ e. mark < e.epoch) fresh.now }
    ensures purged { IfOk result (λ w. PurgesOne mark (written_of shape.now) next w.next container.now (beside held.now fresh.now) (listed w.container) (D.holds disk.old) (D.holds disk.new)) }
    ensures loads { IfOk result (λ w. All (CanLoad shape.now.columns) (listed w.container)) }
    ensures vector { IfOk result (λ w. (n : Contents) → D.holds disk.new ≡ Some n → All (KeepsOrHasVector w.next n container.now) (listed w.container)) }
    ensures level { IfOk result (λ w. All (λ k. k.level ≡ container.now.level) (listed w.container)) }
    ensures next { IfOk result (λ w. next ≤ w.next) }
    ensures upto { IfOk result (λ w. w.next ≤ next + 1) }
    ensures blamed { IfErr result (BlamesOne shape.now container.now (D.holds disk.old)) }
    ensures moved { Moved ⟦<D as Disk>⟧ (DataFrom next) NoName disk.old disk.new }
    ensures cause { HasCause StoreFault.Disk (D.faults disk.old) (D.faults disk.new) result }
{
    match mark_one(alloc, disk, container, held, fresh, next) {
        Ok(marked) => Ok(Written {
            container: Some(marked.entry),
            next: marked.next,
        }),
        Err(fault) => Err(StoreFault::from(fault)),
    }
}

/// What of a container is retained from a mark on, in another container at its level; where no row is gone it gets a delete vector of all
/// its marks, and where none is left there is no container.
pub fn purge_container<D: Disk>(
    alloc: Global,
    disk: &mut D,
    shape: &Projection,
    container: &Container,
    held: &[Mark],
    fresh: &[Mark],
    mark: u64,
    next: u64,
) -> Result<Written, StoreFault>
    requires readable { IsReadable shape.now.columns container.now }
    requires vector { HasVectorNumber container.now }
    requires held { All (λ e. e.position < container.now.rows) held.now }
    requires fresh { All (λ e. e.position < container.now.rows) fresh.now }
    ensures purged { IfOk result (λ w. PurgesOne mark (written_of shape.now) next w.next container.now (beside held.now fresh.now) (listed w.container) (D.holds disk.old) (D.holds disk.new)) }
    ensures loads { IfOk result (λ w. All (CanLoad shape.now.columns) (listed w.container)) }
    ensures vector { IfOk result (λ w. (n : Contents) → D.holds disk.new ≡ Some n → All (KeepsOrHasVector w.next n container.now) (listed w.container)) }
    ensures level { IfOk result (λ w. All (λ k. k.level ≡ container.now.level) (listed w.container)) }
    ensures next { IfOk result (λ w. next ≤ w.next) }
    ensures upto { IfOk result (λ w. w.next ≤ next + 2 * (length shape.now.columns + 1) + 1) }
    ensures blamed { IfErr result (BlamesOne shape.now container.now (D.holds disk.old)) }
    ensures moved { Moved ⟦<D as Disk>⟧ (DataFrom next) NoName disk.old disk.new }
    ensures cause { HasCause StoreFault.Disk (D.faults disk.old) (D.faults disk.new) result }
{
    if are_later(held, mark) && are_later(fresh, mark) {
        return remark(alloc, disk, shape, container, held, fresh, mark, next);
    }
    rewrite(alloc, disk, shape, container, held, fresh, mark, next)
}
