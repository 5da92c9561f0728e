//! The move.

ghost use Rattle.std.specs.Prelude.{◌≡◌, ◌≤◌, ◌+◌, ◌*◌, map, length, Some, IfOk};
ghost use Rattle.std.specs.List.{All};
ghost use Rattle.common_laws.specs.Causes.{HasCause};
ghost use Rattle.common_laws.specs.Maps.{Contents};
ghost use Rattle.col_disk.specs.Moved.{Moved, NoName};
ghost use Rattle.proj_store.specs.Sound.{IsLoadable};
ghost use Rattle.write_store.specs.Memory.{stamp};
ghost use Rattle.container_writer.specs.Ordered.{stamped_of};
ghost use Rattle.container_writer.specs.Writing.{DataFrom};
ghost use Rattle.moveout_job.specs.OnDisk.{IsKeptOrHasVector, IsMovedOut, IsListedBelow, KeepsStored};

use crate::entry::moved_entry;
use crate::remarking::mark_each;
use catalog_types::Projection;
use col_disk::{Disk, DiskFault};
use container_writer::{StampedRef, write_stamped};
use proj_store::ProjStore;
use std::alloc::{AllocError, Global};
use write_store::Held;

/// The entry of a projection whose rows are all on disk, and the next number that is free.
#[derive(Drop)]
pub struct MovedOut {
    pub entry: Projection,
    pub next: u64,
}

/// The rows in memory where they stand.
pub fn refs(alloc: Global, rows: &[Held]) -> Result<Vec<StampedRef<'_>>, AllocError>
    ensures { IfOk result (λ v. map stamped_of v.items ≡ map stamp rows.now) }
{
    let mut out = Vec::with_capacity(alloc, rows.len())?;
    for held in rows {
        out.push(StampedRef {
            row: &held.inserted.row,
            ins: held.inserted.ins,
            del: held.del,
        })?;
    }
    Ok(out)
}

/// Writes all rows and marks of a projection that aren't on disk, with numbers from `next` on, and answers its entry with them, up to
/// an epoch. Files that it lists already are not touched. Numbers from 2^61 on are answered as want of memory.
pub fn moveout<D: Disk>(
    alloc: Global,
    p: &ProjStore,
    last: u64,
    next: u64,
    disk: &mut D,
) -> Result<MovedOut, DiskFault>
    ensures entry { IfOk result (λ r. IsMovedOut last next r.next p.now.stored.entry r.entry) }
    ensures held { IfOk result (λ r. KeepsStored next p.now.stored r.entry (D.holds disk.old) (D.holds disk.new)) }
    ensures vectors { IfOk result (λ r. (n : Contents) → D.holds disk.new ≡ Some n → All (IsKeptOrHasVector r.next n p.now.stored.entry.containers) r.entry.containers) }
    ensures below { IfOk result (λ r. IsListedBelow next p.now.stored.entry → IsListedBelow r.next r.entry) }
    ensures upto { IfOk result (λ r. r.next ≤ next + 2 * (length p.now.stored.entry.columns + 1) + 1 + length p.now.stored.entry.containers) }
    ensures count { IfOk result (λ r. length r.entry.containers ≤ length p.now.stored.entry.containers + 1) }
    ensures loadable { IfOk result (λ r. IsLoadable r.entry) }
    ensures moved { Moved ⟦<D as Disk>⟧ (DataFrom next) NoName disk.old disk.new }
    ensures cause { HasCause DiskFault.Failed (D.faults disk.old) (D.faults disk.new) result }
{
    let rows = match refs(alloc, p.unsaved()) {
        Ok(rows) => rows,
        Err(AllocError) => return Err(DiskFault::Memory),
    };
    let marked = match mark_each(alloc, disk, p, next) {
        Ok(marked) => marked,
        Err(fault) => return Err(fault),
    };
    let written = match write_stamped(alloc, disk, p.entry(), rows, 0, marked.next) {
        Ok(written) => written,
        Err(fault) => return Err(fault),
    };
    match moved_entry(alloc, p.entry(), marked.containers, written.container, last) {
        Ok(entry) => Ok(MovedOut {
            entry,
            next: written.next,
        }),
        Err(AllocError) => Err(DiskFault::Memory),
    }
}
