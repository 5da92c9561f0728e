//! One block of a container as a batch.

ghost use Rattle.std.specs.Prelude.{◌≡◌, ◌≤◌, ◌<◌, ◌+◌, ◌*◌, length, IfOk, IfErr};
ghost use Rattle.common_laws.specs.Causes.{HasCause};
ghost use Rattle.col_disk.specs.Moved.{Moved, NoName};
ghost use Rattle.pos_index.specs.Index.{blocks};
ghost use Rattle.ros_container.specs.Encodings.{written_of};
ghost use Rattle.ros_container.specs.Held.{BlamesContainer};
ghost use Rattle.ros_container.specs.Readable.{IsReadable};
ghost use Rattle.stored_rows.specs.Stored.{Beside as Kept, mark_in};
ghost use Rattle.container_blocks.specs.Blocks.{IsIndexOf, HasIndex};
ghost use Rattle.exec_scan.specs.Counting.{block_cost};
ghost use Rattle.exec_scan.specs.Opened.{IsOpening, HasOpened};
ghost use Rattle.exec_scan.specs.Reading.{AreInserted, AreTold, OfBlock, ShowsRows};
ghost use Rattle.exec_scan.specs.Scanning.{AreOwn};

use crate::batch::Batch;
use crate::chosen::batch_alive;
use crate::columns::columns_alive;
use crate::opened::Opened;
use crate::shown::shown_rows;
use catalog_types::{Container, Projection};
use col_disk::{Disk, StoreFault};
use container_blocks::{Steps, epochs, look_at_epochs};
use pos_index::PosIndex;
use row_bounds::Bound;
use std::alloc::{AllocError, Global};
use std::sync::ledger::Ledger;

/// The epochs that inserted the rows of a block; none where all are up to the epoch that is asked for and they aren't told. They are looked at all the
/// same, so that a damaged file of theirs is blamed by each query that reads the block.
fn inserted<D: Disk, L: Ledger>(
    alloc: Global,
    disk: &mut D,
    entry: &Container,
    shape: &Projection,
    at: &PosIndex,
    k: usize,
    epoch: u64,
    stamps: bool,
    steps: &mut Steps<L>,
) -> Result<Vec<u64>, StoreFault>
    requires numbers { IsReadable shape.now.columns entry.now }
    requires index { IsIndexOf entry.now.rows at.now }
    requires block { k < blocks entry.now.rows }
    ensures found { IfOk result (λ v. HasIndex (written_of shape.now) entry.now (length shape.now.columns) at.now (D.holds disk.old) → OfBlock (AreInserted epoch v.items) (D.holds disk.old) (written_of shape.now) entry.now k) }
    ensures told { IfOk result (λ v. HasIndex (written_of shape.now) entry.now (length shape.now.columns) at.now (D.holds disk.old) → OfBlock (AreTold stamps v.items) (D.holds disk.old) (written_of shape.now) entry.now k) }
    ensures blamed { IfErr result (λ fault. HasIndex (written_of shape.now) entry.now (length shape.now.columns) at.now (D.holds disk.old) → BlamesContainer (written_of shape.now) entry.now (D.holds disk.old) fault) }
    ensures step { steps.new ≡ steps.old + 1 }
    ensures kept { D.holds disk.new ≡ D.holds disk.old }
    ensures moved { Moved ⟦<D as Disk>⟧ NoName NoName disk.old disk.new }
    ensures cause { HasCause StoreFault.Disk (D.faults disk.old) (D.faults disk.new) result }
{
    if !stamps && entry.greatest_epoch <= epoch {
        match look_at_epochs(alloc, disk, entry, at, shape, k, steps) {
            Ok(()) => {},
            Err(fault) => return Err(fault),
        }
        return Ok(Vec::new(alloc));
    }
    let inserted = match epochs(alloc, disk, entry, at, shape, k, steps) {
        Ok(inserted) => inserted,
        Err(fault) => return Err(fault),
    };
    Ok(inserted)
}

/// The rows of a block that are visible at an epoch, made for the table's columns, and their insert epochs, where these are told. Rows that
/// lie out of the bounds are passed over.
pub fn read_block<D: Disk, L: Ledger>(
    alloc: Global,
    disk: &mut D,
    entry: &Container,
    shape: &Projection,
    opened: &Opened,
    places: &[Option<usize>],
    bounds: &[Bound],
    k: usize,
    epoch: u64,
    stamps: bool,
    steps: &mut Steps<L>,
) -> Result<Batch, StoreFault>
    requires numbers { IsReadable shape.now.columns entry.now }
    requires own { AreOwn shape.now places.now }
    requires opening { IsOpening entry.now.rows places.now opened.now }
    requires block { k < blocks entry.now.rows }
    ensures found { IfOk result (λ shown. (b : Kept) → HasOpened (written_of shape.now) entry.now (length shape.now.columns) b places.now (D.holds disk.old) opened.now → OfBlock (ShowsRows epoch places.now bounds.now stamps (mark_in b) (1024 * k) shown) (D.holds disk.old) (written_of shape.now) entry.now k) }
    ensures blamed { IfErr result (λ fault. (b : Kept) → HasOpened (written_of shape.now) entry.now (length shape.now.columns) b places.now (D.holds disk.old) opened.now → BlamesContainer (written_of shape.now) entry.now (D.holds disk.old) fault) }
    ensures steps { steps.new ≤ steps.old + block_cost (length shape.now.columns) entry.now places.now }
    ensures kept { D.holds disk.new ≡ D.holds disk.old }
    ensures moved { Moved ⟦<D as Disk>⟧ NoName NoName disk.old disk.new }
    ensures cause { HasCause StoreFault.Disk (D.faults disk.old) (D.faults disk.new) result }
{
    let first = 1024 * k;
    let count = (entry.rows as usize - first).min(1024);
    let inserted = match inserted(
        alloc,
        disk,
        entry,
        shape,
        opened.epochs.get(),
        k,
        epoch,
        stamps,
        steps,
    ) {
        Ok(inserted) => inserted,
        Err(fault) => return Err(fault),
    };
    let mut shown = match shown_rows(
        alloc,
        epoch,
        inserted.as_slice(),
        opened.deletes.as_slice(),
        first,
        count,
    ) {
        Ok(shown) => shown,
        Err(AllocError) => return Err(StoreFault::Memory),
    };
    let alive = shown.as_mut_slice();
    let indexes = opened.indexes.as_slice();
    let columns = match columns_alive(
        alloc, disk, entry, shape, places, indexes, k, bounds, alive, steps,
    ) {
        Ok(columns) => columns,
        Err(fault) => return Err(fault),
    };
    match batch_alive(alloc, stamps, alive, columns, inserted.as_slice()) {
        Ok(batch) => Ok(batch),
        Err(AllocError) => Err(StoreFault::Memory),
    }
}
