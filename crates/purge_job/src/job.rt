//! The purge.

ghost use Rattle.std.specs.Prelude.{◌≡◌, ◌≤◌, ◌+◌, ◌*◌, Some, length, IfOk, IfErr};
ghost use Rattle.common_laws.specs.Causes.{HasCause};
ghost use Rattle.common_laws.specs.Maps.{Contents};
ghost use Rattle.col_disk.specs.Moved.{Moved, NoName};
ghost use Rattle.container_cut.specs.Blamed.{BlamesProjection};
ghost use Rattle.container_writer.specs.Writing.{DataFrom};
ghost use Rattle.merge_rows.specs.Inputs.{KeepsFrom};
ghost use Rattle.moveout_job.specs.OnDisk.{IsListedBelow};
ghost use Rattle.proj_store.specs.Reading.{BlamesLoad};
ghost use Rattle.proj_store.specs.Sound.{IsLoadable};
ghost use Rattle.purge_job.specs.Purging.{IsPurged, Purges};

use crate::each::purge_each;
use crate::entry::purged_entry;
use crate::rows::memory_refs;
use catalog_types::Projection;
use col_disk::{Disk, StoreFault};
use container_writer::write_stamped;
use proj_store::ProjStore;
use std::alloc::{AllocError, Global};

/// The entry of a projection after a purge, and the next number that is free.
#[derive(Drop)]
pub struct Purged {
    pub entry: Projection,
    pub next: u64,
}

/// Writes a projection anew without the rows that were deleted at or before a mark, with numbers from `next` on, and answers its entry: each
/// container that has such a row gives way to one at its level, the others get delete vectors of all their marks, and what is in memory goes
/// to disk. Files that it lists already are not touched. Numbers from 2^61 on are answered as want of memory. `Damaged` names a file of a
/// container that holds no rows.
pub fn purge_one<D: Disk>(
    alloc: Global,
    p: &ProjStore,
    mark: u64,
    next: u64,
    disk: &mut D,
) -> Result<Purged, StoreFault>
    ensures entry { IfOk result (λ r. IsPurged next r.next p.now.stored.entry r.entry) }
    ensures purged { IfOk result (λ r. (m n : Contents) → D.holds disk.old ≡ Some m → D.holds disk.new ≡ Some n → IsListedBelow next p.now.stored.entry → Purges mark m n p.now.stored r.entry) }
    ensures keeps { IfOk result (λ r. (m n : Contents) → D.holds disk.old ≡ Some m → D.holds disk.new ≡ Some n → IsListedBelow next p.now.stored.entry → KeepsFrom mark m n p.now.stored r.entry) }
    ensures count { IfOk result (λ r. length r.entry.containers ≤ length p.now.stored.entry.containers + 1) }
    ensures next { IfOk result (λ r. next ≤ r.next) }
    ensures upto { IfOk result (λ r. r.next ≤ next + (length p.now.stored.entry.containers + 1) * (2 * length p.now.stored.entry.columns + 3)) }
    ensures later { IfOk result (λ r. p.now.stored.entry.lge ≤ r.entry.lge) }
    ensures loadable { IfOk result (λ r. IsLoadable r.entry) }
    ensures blamed { IfErr result (λ fault. IsListedBelow next p.now.stored.entry → BlamesProjection p.now.stored.entry (D.holds disk.old) fault) }
    ensures loads { IfOk result (λ r. IsListedBelow next p.now.stored.entry → (fault : StoreFault) → BlamesLoad r.entry.containers (D.holds disk.new) fault → BlamesProjection p.now.stored.entry (D.holds disk.old) fault) }
    ensures moved { Moved ⟦<D as Disk>⟧ (DataFrom next) NoName disk.old disk.new }
    ensures cause { HasCause StoreFault.Disk (D.faults disk.old) (D.faults disk.new) result }
{
    let shape = p.entry();
    let rows = match memory_refs(alloc, p.unsaved(), mark) {
        Ok(rows) => rows,
        Err(AllocError) => return Err(StoreFault::Memory),
    };
    let each = match purge_each(alloc, disk, p, mark, next) {
        Ok(each) => each,
        Err(fault) => return Err(fault),
    };
    let written = match write_stamped(alloc, disk, shape, rows, 0, each.next) {
        Ok(written) => written,
        Err(fault) => return Err(StoreFault::from(fault)),
    };
    match purged_entry(alloc, shape, each.containers, written.container) {
        Ok(entry) => Ok(Purged {
            entry,
            next: written.next,
        }),
        Err(AllocError) => Err(StoreFault::Memory),
    }
}
