//! The containers of a projection, each with a delete vector that has all its marks.

ghost use Rattle.std.specs.Prelude.{◌≡◌, ◌≤◌, ◌+◌, ◌++◌, [], ◌∷◌, length, Some, IfOk, OnOk};
ghost use Rattle.std.specs.List.{AllZip};
ghost use Rattle.common_laws.specs.Causes.{HasCause};
ghost use Rattle.common_laws.specs.Maps.{Contents};
ghost use Rattle.col_disk.specs.Moved.{Moved, NoName};
ghost use Rattle.ros_container.specs.Encodings.{written_of};
ghost use Rattle.container_writer.specs.Writing.{DataFrom};
ghost use Rattle.moveout_job.specs.OnDisk.{IsRemarked, KeepsOrHasVector, Remarks, RemarksEach, beside};

use crate::marks::vector_with;
use catalog_types::Container;
use col_disk::{Disk, DiskFault};
use container_writer::write_vector;
use del_vector::Mark;
use proj_store::ProjStore;
use std::alloc::{AllocError, Global};

// Numbers are drawn below this one.
const MOST_NUMBERS: u64 = 1 << 61;

/// The entry of a container, and the next number that is free.
#[derive(Clone, Copy, Debug, PartialEq, Eq)]
pub struct Remarked {
    pub entry: Container,
    pub next: u64,
}

/// Makes a delete vector of all marks of a container, where some came since its own was made.
pub fn mark_one<D: Disk>(
    alloc: Global,
    disk: &mut D,
    container: &Container,
    held: &[Mark],
    fresh: &[Mark],
    next: u64,
) -> Result<Remarked, DiskFault>
    ensures held { IfOk result (λ r. Remarks next r.next container.now (beside held.now fresh.now) r.entry (D.holds disk.old) (D.holds disk.new)) }
    ensures entry { IfOk result (λ r. IsRemarked next r.next container.now r.entry) }
    ensures vector { IfOk result (λ r. (n : Contents) → D.holds disk.new ≡ Some n → KeepsOrHasVector r.next n container.now r.entry) }
    ensures next { IfOk result (λ r. next ≤ r.next) }
    ensures upto { IfOk result (λ r. r.next ≤ next + 1) }
    ensures moved { Moved ⟦<D as Disk>⟧ (DataFrom next) NoName disk.old disk.new }
    ensures cause { HasCause DiskFault.Failed (D.faults disk.old) (D.faults disk.new) result }
{
    if fresh.is_empty() {
        return Ok(Remarked {
            entry: *container,
            next,
        });
    }
    if next >= MOST_NUMBERS {
        return Err(DiskFault::Memory);
    }
    let vector = match vector_with(alloc, held, fresh, container.rows) {
        Ok(vector) => vector,
        Err(AllocError) => return Err(DiskFault::Memory),
    };
    match write_vector(alloc, disk, *container, next, &vector) {
        Ok(entry) => Ok(Remarked {
            entry,
            next: next + 1,
        }),
        Err(fault) => Err(fault),
    }
}

/// The entries of some containers, and the next number that is free.
#[derive(Drop)]
pub struct AllRemarked {
    pub containers: Vec<Container>,
    pub next: u64,
}

pub fn add(containers: &mut Vec<Container>, container: Container) -> Result<(), AllocError>
    ensures { OnOk result (containers.new.items ≡ containers.old.items ++ container ∷ []) }
{
    containers.push(container)?;
    Ok(())
}

/// Makes the delete vectors of all containers that have marks which came since.
pub fn mark_each<D: Disk>(
    alloc: Global,
    disk: &mut D,
    p: &ProjStore,
    next: u64,
) -> Result<AllRemarked, DiskFault>
    ensures held { IfOk result (λ r. RemarksEach (written_of p.now.stored.entry) next r.next p.now.stored.entry.containers p.now.stored.beside r.containers.items (D.holds disk.old) (D.holds disk.new)) }
    ensures each { IfOk result (λ r. AllZip (IsRemarked next r.next) p.now.stored.entry.containers r.containers.items) }
    ensures vectors { IfOk result (λ r. (n : Contents) → D.holds disk.new ≡ Some n → AllZip (KeepsOrHasVector r.next n) p.now.stored.entry.containers r.containers.items) }
    ensures next { IfOk result (λ r. next ≤ r.next) }
    ensures upto { IfOk result (λ r. r.next ≤ next + length p.now.stored.entry.containers) }
    ensures moved { Moved ⟦<D as Disk>⟧ (DataFrom next) NoName disk.old disk.new }
    ensures cause { HasCause DiskFault.Failed (D.faults disk.old) (D.faults disk.new) result }
{
    let containers = p.entry().containers.as_slice();
    let mut out = Vec::new(alloc);
    let mut after = next;
    for (i, container) in containers.iter().enumerate() {
        let marked = match mark_one(alloc, disk, container, p.vector(i), p.fresh_marks(i), after) {
            Ok(marked) => marked,
            Err(fault) => return Err(fault),
        };
        after = marked.next;
        match add(&mut out, marked.entry) {
            Ok(()) => {}
            Err(AllocError) => return Err(DiskFault::Memory),
        }
    }
    Ok(AllRemarked {
        containers: out,
        next: after,
    })
}
