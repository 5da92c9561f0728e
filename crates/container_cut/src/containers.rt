//! Containers, cut one after the other.

ghost use Rattle.std.specs.Prelude.{◌≡◌, ◌≤◌, ◌<◌, ◌+◌, ◌++◌, ◌^◌, ◌∷◌, [], Some, length, IfOk, IfErr, OnOk};
ghost use Rattle.std.specs.List.{All};
ghost use Rattle.common_laws.specs.Causes.{HasCause};
ghost use Rattle.catalog_types.specs.Numbers.{container_count, number_count};
ghost use Rattle.common_laws.specs.Maps.{Contents};
ghost use Rattle.col_disk.specs.Moved.{Moved, NoName};
ghost use Rattle.del_vector.specs.Marks.{epoch_at};
ghost use Rattle.row_history.specs.History.{cut_rows};
ghost use Rattle.ros_container.specs.Encodings.{written_of};
ghost use Rattle.ros_container.specs.Held.{HoldsContainer};
ghost use Rattle.stored_rows.specs.Held.{HoldsVector, stamped_from};
ghost use Rattle.container_writer.specs.Writing.{listed, DataFrom};
ghost use Rattle.container_cut.specs.Listed.{IsBelow};
ghost use Rattle.container_cut.specs.Fronts.{front_of};
ghost use Rattle.container_cut.specs.Cutting.{Between, CutsContainers};
ghost use Rattle.container_cut.specs.Blamed.{BlamesOne, BlamesProjection};

use crate::rows::{refs, rows_upto};
use catalog_types::{Container, Projection, copy_proj_columns};
use col_disk::{Disk, StoreFault};
use col_value::{Asked, List};
use container_writer::{Written, write_stamped, write_vector};
use del_vector::DelVector;
use ros_container::one_container;
use std::alloc::{AllocError, Global};

// Numbers are drawn below this one.
const MOST_NUMBERS: u64 = 1 << 61;

/// The delete vector of a container.
fn vector_of<D: Disk>(
    alloc: Global,
    disk: &mut D,
    shape: &Projection,
    container: &Container,
    next: u64,
) -> Result<DelVector, StoreFault>
    requires numbers { next ≤ 2 ^ 62 }
    requires below { IsBelow next shape.now.columns container.now }
    ensures found { IfOk result (λ v. (m : Contents) → D.holds disk.old ≡ Some m → HoldsVector m container.now v.marks) }
    ensures within { IfOk result (λ v. All (λ e. e.position < container.now.rows) v.marks) }
    ensures blamed { IfErr result (BlamesOne shape.now container.now (D.holds disk.old)) }
    ensures kept { D.holds disk.new ≡ D.holds disk.old }
    ensures moved { Moved ⟦<D as Disk>⟧ NoName NoName disk.old disk.new }
    ensures cause { HasCause StoreFault.Disk (D.faults disk.old) (D.faults disk.new) result }
{
    vector_files::read(alloc, disk, container)
}

/// The rows of a container, with the columns that it stores alone.
fn rows_of<D: Disk>(
    alloc: Global,
    disk: &mut D,
    shape: &Projection,
    front: &Projection,
    container: &Container,
    next: u64,
) -> Result<Vec<Asked>, StoreFault>
    requires numbers { next ≤ 2 ^ 62 }
    requires below { IsBelow next shape.now.columns container.now }
    requires front { front.now ≡ front_of container.now shape.now }
    ensures found { IfOk result (λ v. (m : Contents) → D.holds disk.old ≡ Some m → HoldsContainer m (written_of front.now) container.now v.items) }
    ensures blamed { IfErr result (BlamesOne shape.now container.now (D.holds disk.old)) }
    ensures kept { D.holds disk.new ≡ D.holds disk.old }
    ensures moved { Moved ⟦<D as Disk>⟧ NoName NoName disk.old disk.new }
    ensures cause { HasCause StoreFault.Disk (D.faults disk.old) (D.faults disk.new) result }
{
    ros_container::rows(alloc, disk, container, front)
}

/// A container that has later marks, with the others in another delete vector.
fn cut_marks<D: Disk>(
    alloc: Global,
    disk: &mut D,
    shape: &Projection,
    container: &Container,
    epoch: u64,
    next: u64,
) -> Result<Written, StoreFault>
    requires numbers { next ≤ 2 ^ 62 }
    requires below { IsBelow next shape.now.columns container.now }
    requires inserted { container.now.greatest_epoch ≤ epoch }
    ensures cut { IfOk result (λ w. Between (CutsContainers (written_of shape.now) epoch (container.now ∷ []) (listed w.container)) (D.holds disk.old) (D.holds disk.new)) }
    ensures next { IfOk result (λ w. (next ≤ w.next) × (w.next ≤ 2 ^ 62)) }
    ensures below { IfOk result (λ w. All (IsBelow w.next shape.now.columns) (listed w.container)) }
    ensures few { IfOk result (λ w. w.next ≤ next + container_count container.now) }
    ensures blamed { IfErr result (BlamesOne shape.now container.now (D.holds disk.old)) }
    ensures moved { Moved ⟦<D as Disk>⟧ (DataFrom next) NoName disk.old disk.new }
    ensures cause { HasCause StoreFault.Disk (D.faults disk.old) (D.faults disk.new) result }
{
    if next >= MOST_NUMBERS {
        return Err(StoreFault::Memory);
    }
    let marks = match vector_of(alloc, disk, shape, container, next) {
        Ok(marks) => marks,
        Err(fault) => return Err(fault),
    };
    let left = match marks.cut(alloc, epoch) {
        Ok(left) => left,
        Err(AllocError) => return Err(StoreFault::Memory),
    };
    match write_vector(alloc, disk, *container, next, &left) {
        Ok(container) => Ok(Written {
            container: Some(container),
            next: next + 1,
        }),
        Err(fault) => Err(StoreFault::from(fault)),
    }
}

/// The projection of the columns that a container stores.
fn front_of(
    alloc: Global,
    shape: &Projection,
    container: &Container,
) -> Result<Projection, AllocError>
    requires { container.now.stored ≤ length shape.now.columns }
    ensures { IfOk result (λ p. p ≡ front_of container.now shape.now) }
{
    let stored = shape
        .columns
        .as_slice()
        .split_at(container.stored as usize)
        .0;
    let name = shape.name.copy(alloc)?;
    let columns = List::new(copy_proj_columns(alloc, stored)?);
    let sort = List::new(Vec::from_slice(alloc, shape.sort.as_slice())?);
    Ok(Projection {
        name,
        columns,
        sort,
        fresh: shape.fresh,
        lge: shape.lge,
        born: shape.born,
        containers: List::new(Vec::new(alloc)),
    })
}

/// How many numbers the files of a container have.
fn count_of(container: &Container) -> u64
    requires { container.now.stored ≤ 64 }
    ensures { result ≡ container_count container.now }
{
    let files = 2 * (container.stored + 1);
    match container.marks {
        Some(_) => files + 1,
        None => files,
    }
}

/// What was written, where it took no more numbers than there are.
fn within(written: Written, most: u64) -> Result<Written, StoreFault>
    ensures same { IfOk result (λ w. w ≡ written) }
    ensures few { IfOk result (λ w. w.next ≤ most) }
    ensures memory { IfErr result (λ fault. fault ≡ StoreFault.Memory) }
{
    let Written { container, next } = written;
    if next > most {
        return Err(StoreFault::Memory);
    }
    Ok(Written { container, next })
}

/// What is left of a container that has later rows, as another container, which stores the same columns and has no more numbers.
fn cut_inserts<D: Disk>(
    alloc: Global,
    disk: &mut D,
    shape: &Projection,
    container: &Container,
    epoch: u64,
    next: u64,
) -> Result<Written, StoreFault>
    requires numbers { next ≤ 2 ^ 62 }
    requires below { IsBelow next shape.now.columns container.now }
    ensures cut { IfOk result (λ w. Between (CutsContainers (written_of shape.now) epoch (container.now ∷ []) (listed w.container)) (D.holds disk.old) (D.holds disk.new)) }
    ensures next { IfOk result (λ w. (next ≤ w.next) × (w.next ≤ 2 ^ 62)) }
    ensures below { IfOk result (λ w. All (IsBelow w.next shape.now.columns) (listed w.container)) }
    ensures few { IfOk result (λ w. w.next ≤ next + container_count container.now) }
    ensures blamed { IfErr result (BlamesOne shape.now container.now (D.holds disk.old)) }
    ensures moved { Moved ⟦<D as Disk>⟧ (DataFrom next) NoName disk.old disk.new }
    ensures cause { HasCause StoreFault.Disk (D.faults disk.old) (D.faults disk.new) result }
{
    one_container();
    if container.stored > 64 || next >= MOST_NUMBERS {
        return Err(StoreFault::Memory);
    }
    let most = next + count_of(container);
    let front = match front_of(alloc, shape, container) {
        Ok(front) => front,
        Err(AllocError) => return Err(StoreFault::Memory),
    };
    let marks = match vector_of(alloc, disk, shape, container, next) {
        Ok(marks) => marks,
        Err(fault) => return Err(fault),
    };
    let rows = match rows_of(alloc, disk, shape, &front, container, next) {
        Ok(rows) => rows,
        Err(fault) => return Err(fault),
    };
    let left = match rows_upto(alloc, rows, &marks, epoch) {
        Ok(left) => left,
        Err(AllocError) => return Err(StoreFault::Memory),
    };
    let kept = match refs(alloc, left.as_slice()) {
        Ok(kept) => kept,
        Err(AllocError) => return Err(StoreFault::Memory),
    };
    match write_stamped(alloc, disk, &front, kept, container.level, next) {
        Ok(written) => within(written, most),
        Err(fault) => Err(StoreFault::from(fault)),
    }
}

/// A container up to an epoch: as it is where it has nothing later, or what is left of it.
fn cut_container<D: Disk>(
    alloc: Global,
    disk: &mut D,
    shape: &Projection,
    container: &Container,
    epoch: u64,
    next: u64,
) -> Result<Written, StoreFault>
    requires numbers { next ≤ 2 ^ 62 }
    requires below { IsBelow next shape.now.columns container.now }
    ensures cut { IfOk result (λ w. Between (CutsContainers (written_of shape.now) epoch (container.now ∷ []) (listed w.container)) (D.holds disk.old) (D.holds disk.new)) }
    ensures next { IfOk result (λ w. (next ≤ w.next) × (w.next ≤ 2 ^ 62)) }
    ensures below { IfOk result (λ w. All (IsBelow w.next shape.now.columns) (listed w.container)) }
    ensures few { IfOk result (λ w. w.next ≤ next + container_count container.now) }
    ensures blamed { IfErr result (BlamesOne shape.now container.now (D.holds disk.old)) }
    ensures moved { Moved ⟦<D as Disk>⟧ (DataFrom next) NoName disk.old disk.new }
    ensures cause { HasCause StoreFault.Disk (D.faults disk.old) (D.faults disk.new) result }
{
    if container.greatest_epoch > epoch {
        return cut_inserts(alloc, disk, shape, container, epoch, next);
    }
    if container.greatest_mark > epoch {
        return cut_marks(alloc, disk, shape, container, epoch, next);
    }
    Ok(Written {
        container: Some(*container),
        next,
    })
}

fn add(kept: &mut Vec<Container>, container: Option<Container>) -> Result<(), AllocError>
    ensures { OnOk result (kept.new.items ≡ kept.old.items ++ listed container) }
{
    match container {
        Some(container) => kept.push(container)?,
        None => {}
    }
    Ok(())
}

/// Containers, and the next number that is free.
#[derive(Drop)]
pub struct CutContainers {
    pub containers: Vec<Container>,
    pub next: u64,
}

/// The containers of a projection up to an epoch, with numbers from `next` on for what is written.
pub fn cut_containers<D: Disk>(
    alloc: Global,
    disk: &mut D,
    shape: &Projection,
    epoch: u64,
    next: u64,
) -> Result<CutContainers, StoreFault>
    requires numbers { next ≤ 2 ^ 62 }
    requires below { All (IsBelow next shape.now.columns) shape.now.containers }
    ensures cut { IfOk result (λ r. Between (CutsContainers (written_of shape.now) epoch shape.now.containers r.containers.items) (D.holds disk.old) (D.holds disk.new)) }
    ensures next { IfOk result (λ r. (next ≤ r.next) × (r.next ≤ 2 ^ 62)) }
    ensures below { IfOk result (λ r. All (IsBelow r.next shape.now.columns) r.containers.items) }
    ensures few { IfOk result (λ r. r.next ≤ next + number_count shape.now) }
    ensures count { IfOk result (λ r. length r.containers.items ≤ length shape.now.containers) }
    ensures blamed { IfErr result (BlamesProjection shape.now (D.holds disk.old)) }
    ensures moved { Moved ⟦<D as Disk>⟧ (DataFrom next) NoName disk.old disk.new }
    ensures cause { HasCause StoreFault.Disk (D.faults disk.old) (D.faults disk.new) result }
{
    let containers = shape.containers.as_slice();
    let mut kept = Vec::new(alloc);
    let mut free = next;
    for container in containers {
        let done = match cut_container(alloc, disk, shape, container, epoch, free) {
            Ok(done) => done,
            Err(fault) => return Err(fault),
        };
        let Written { container, next } = done;
        free = next;
        match add(&mut kept, container) {
            Ok(()) => {}
            Err(AllocError) => return Err(StoreFault::Memory),
        }
    }
    Ok(CutContainers {
        containers: kept,
        next: free,
    })
}
