//! The containers of a projection but for some, each with a delete vector that has all its marks.

ghost use Rattle.std.specs.Prelude.{◌≡◌, ◌≤◌, ◌+◌, ◌*◌, ◌++◌, [], ◌∷◌, false, Some, length, slice_index_or, IfOk};
ghost use Rattle.std.specs.List.{AllZip};
ghost use Rattle.common_laws.specs.Causes.{HasCause};
ghost use Rattle.common_laws.specs.Maps.{Contents};
ghost use Rattle.col_disk.specs.Moved.{Moved, NoName};
ghost use Rattle.ros_container.specs.Encodings.{written_of};
ghost use Rattle.container_writer.specs.Writing.{listed, DataFrom, HoldsBag};
ghost use Rattle.merge_rows.specs.Inputs.{others};
ghost use Rattle.moveout_job.specs.OnDisk.{AreSaved, HaveVectors, IsRemarked, KeepsOrHasVector, RemarksIf, RemarksEach, SavesOthers, beside};

use crate::job::refs;
use crate::remarking::{AllRemarked, Remarked, add, mark_one};
use catalog_types::Container;
use col_disk::{Disk, DiskFault};
use container_writer::write_stamped;
use del_vector::Mark;
use proj_store::ProjStore;
use std::alloc::{AllocError, Global};

/// Whether the container at a place is left out.
fn is_left(left_out: &[bool], place: usize) -> bool
    ensures { result ≡ slice_index_or left_out.now place false }
{
    match left_out.get(place) {
        Some(left) => *left,
        None => false,
    }
}

/// Makes a delete vector of all marks of a container, unless it is left out.
fn mark_if<D: Disk>(
    alloc: Global,
    disk: &mut D,
    container: &Container,
    held: &[Mark],
    fresh: &[Mark],
    left_out: bool,
    next: u64,
) -> Result<Remarked, DiskFault>
    ensures held { IfOk result (λ r. RemarksIf left_out next r.next container.now (beside held.now fresh.now) r.entry (D.holds disk.old) (D.holds disk.new)) }
    ensures entry { IfOk result (λ r. IsRemarked next r.next container.now r.entry) }
    ensures vector { IfOk result (λ r. (n : Contents) → D.holds disk.new ≡ Some n → KeepsOrHasVector r.next n container.now r.entry) }
    ensures next { IfOk result (λ r. next ≤ r.next) }
    ensures upto { IfOk result (λ r. r.next ≤ next + 1) }
    ensures moved { Moved ⟦<D as Disk>⟧ (DataFrom next) NoName disk.old disk.new }
    ensures cause { HasCause DiskFault.Failed (D.faults disk.old) (D.faults disk.new) result }
{
    if left_out {
        return Ok(Remarked {
            entry: *container,
            next,
        });
    }
    mark_one(alloc, disk, container, held, fresh, next)
}

/// Makes the delete vectors of the containers that aren't left out and have marks which came since. Those that are left out keep their
/// entries, of which nothing is said.
pub fn mark_others<D: Disk>(
    alloc: Global,
    disk: &mut D,
    p: &ProjStore,
    left_out: &[bool],
    next: u64,
) -> Result<AllRemarked, DiskFault>
    ensures held { IfOk result (λ r. RemarksEach (written_of p.now.stored.entry) next r.next (others left_out.now p.now.stored.entry.containers) (others left_out.now p.now.stored.beside) (others left_out.now r.containers.items) (D.holds disk.old) (D.holds disk.new)) }
    ensures each { IfOk result (λ r. AllZip (IsRemarked next r.next) p.now.stored.entry.containers r.containers.items) }
    ensures vectors { IfOk result (λ r. (n : Contents) → D.holds disk.new ≡ Some n → AllZip (KeepsOrHasVector r.next n) p.now.stored.entry.containers r.containers.items) }
    ensures next { IfOk result (λ r. next ≤ r.next) }
    ensures upto { IfOk result (λ r. r.next ≤ next + length p.now.stored.entry.containers) }
    ensures moved { Moved ⟦<D as Disk>⟧ (DataFrom next) NoName disk.old disk.new }
    ensures cause { HasCause DiskFault.Failed (D.faults disk.old) (D.faults disk.new) result }
{
    let containers = p.entry().containers.as_slice();
    let mut out = Vec::new(alloc);
    let mut after = next;
    for (i, container) in containers.iter().enumerate() {
        let (held, fresh) = (p.vector(i), p.fresh_marks(i));
        let left = is_left(left_out, i);
        let marked = match mark_if(alloc, disk, container, held, fresh, left, after) {
            Ok(marked) => marked,
            Err(fault) => return Err(fault),
        };
        after = marked.next;
        match add(&mut out, marked.entry) {
            Ok(()) => {}
            Err(AllocError) => return Err(DiskFault::Memory),
        }
    }
    Ok(AllRemarked {
        containers: out,
        next: after,
    })
}

/// The containers of a projection with delete vectors of all their marks, what was made of the rows in memory, and the next number that is
/// free.
#[derive(Drop)]
pub struct Saved {
    pub containers: Vec<Container>,
    pub memory: Option<Container>,
    pub next: u64,
}

/// Takes the rows of a projection that aren't on disk there, as one container, and the marks that came since of each container which isn't
/// left out, with numbers from `next` on. Files that the projection lists already are not touched. Numbers from 2^61 on are answered as
/// want of memory.
pub fn save_memory<D: Disk>(
    alloc: Global,
    disk: &mut D,
    p: &ProjStore,
    left_out: &[bool],
    next: u64,
) -> Result<Saved, DiskFault>
    ensures others { IfOk result (λ r. SavesOthers next left_out.now p.now.stored r.containers.items (D.holds disk.old) (D.holds disk.new)) }
    ensures memory { IfOk result (λ r. (n : Contents) → D.holds disk.new ≡ Some n → HoldsBag n (written_of p.now.stored.entry) (listed r.memory) p.now.stored.unsaved) }
    ensures vectors { IfOk result (λ r. (n : Contents) → D.holds disk.new ≡ Some n → HaveVectors r.next n p.now.stored.entry.containers r.containers.items r.memory) }
    ensures saved { IfOk result (λ r. AreSaved next r.next (length p.now.stored.entry.columns) p.now.stored.entry.containers r.containers.items r.memory) }
    ensures upto { IfOk result (λ r. r.next ≤ next + 2 * (length p.now.stored.entry.columns + 1) + 1 + length p.now.stored.entry.containers) }
    ensures moved { Moved ⟦<D as Disk>⟧ (DataFrom next) NoName disk.old disk.new }
    ensures cause { HasCause DiskFault.Failed (D.faults disk.old) (D.faults disk.new) result }
{
    let rows = match refs(alloc, p.unsaved()) {
        Ok(rows) => rows,
        Err(AllocError) => return Err(DiskFault::Memory),
    };
    let marked = match mark_others(alloc, disk, p, left_out, next) {
        Ok(marked) => marked,
        Err(fault) => return Err(fault),
    };
    match write_stamped(alloc, disk, p.entry(), rows, 0, marked.next) {
        Ok(written) => Ok(Saved {
            containers: marked.containers,
            memory: written.container,
            next: written.next,
        }),
        Err(fault) => Err(fault),
    }
}
