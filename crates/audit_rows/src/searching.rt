//! The first row of a container that isn't good.

ghost use Rattle.std.specs.Prelude.{◌≡◌, ◌<◌, ◌+◌, ◌*◌, ◌^◌, length, IfOk, IfErr};
ghost use Rattle.std.specs.List.{All, range_with_len};
ghost use Rattle.common_laws.specs.Causes.{HasCause};
ghost use Rattle.col_disk.specs.Moved.{Moved, NoName};
ghost use Rattle.col_value.specs.Order.{IsValue};
ghost use Rattle.del_vector.specs.Marks.{epoch_at};
ghost use Rattle.pos_index.specs.Index.{blocks};
ghost use Rattle.ros_container.specs.Readable.{IsReadable};
ghost use Rattle.stored_rows.specs.Held.{stamped_from};
ghost use Rattle.audit_model.specs.Rows.{IsGoodIn};
ghost use Rattle.audit_rows.specs.Blocks.{block_rows, IsOpen, IsOf, BlamesHere};
ghost use Rattle.audit_rows.specs.Found.{FindsAt, FindsBlock, FindsRows, FindsRow};

use crate::blocks::{Loaded, Opened, load, open};
use crate::fitting::is_good;
use catalog_types::{Container, Projection, Table};
use col_disk::{Disk, StoreFault};
use del_vector::DelVector;
use pos_index::blocks_of;
use std::alloc::Global;
use stored_rows::one_list_of_rows;

/// The position of the first row of a block that isn't good, where the block's first row has this one.
fn bad_in_block(
    table: &Table,
    shape: &Projection,
    block: &Loaded,
    vector: &DelVector,
    first: u64,
    epoch: u64,
    mark: u64,
) -> Option<u64>
    requires room { first + length block.now.stamps.items < 2 ^ 64 }
    requires values { All (All IsValue) block.now.columns.items }
    requires wide { length block.now.columns.items ≡ length shape.now.columns }
    ensures { FindsAt (IsGoodIn epoch mark table.now shape.now) (stamped_from first (epoch_at vector.now.marks) (block_rows block.now)) first result }
{
    let stamps = block.stamps.as_slice();
    let columns = block.columns.as_slice();
    for i in 0..stamps.len() {
        let pos = first + i as u64;
        let del = vector.epoch_at(pos);
        if !is_good(table, shape, columns, i, stamps[i], del, epoch, mark) {
            return Some(pos);
        }
    }
    None
}

/// The position of the first row of block k that isn't good.
fn bad_in_loaded<D: Disk>(
    alloc: Global,
    disk: &mut D,
    table: &Table,
    shape: &Projection,
    container: &Container,
    columns: &[usize],
    opened: &Opened,
    k: usize,
    epoch: u64,
    mark: u64,
) -> Result<Option<u64>, StoreFault>
    requires readable { IsReadable shape.now.columns container.now }
    requires columns { columns.now ≡ range_with_len 0 (length shape.now.columns) }
    requires open { IsOpen container.now columns.now opened.now }
    requires block { k < blocks container.now.rows }
    ensures found { IfOk result (λ found. IsOf (D.holds disk.old) shape.now container.now columns.now opened.now → FindsBlock (D.holds disk.old) epoch mark table.now shape.now container.now (epoch_at opened.now.vector.marks) k found) }
    ensures blamed { IfErr result (λ fault. IsOf (D.holds disk.old) shape.now container.now columns.now opened.now → BlamesHere (D.holds disk.old) shape.now container.now fault) }
    ensures kept { D.holds disk.new ≡ D.holds disk.old }
    ensures moved { Moved ⟦<D as Disk>⟧ NoName NoName disk.old disk.new }
    ensures cause { HasCause StoreFault.Disk (D.faults disk.old) (D.faults disk.new) result }
{
    let block = match load(alloc, disk, shape, container, columns, opened, k) {
        Ok(block) => block,
        Err(fault) => return Err(fault),
    };
    let first = 1024 * k as u64;
    Ok(bad_in_block(table, shape, &block, &opened.vector, first, epoch, mark))
}

/// The position of the first row of an open container that isn't good.
fn bad_in_blocks<D: Disk>(
    alloc: Global,
    disk: &mut D,
    table: &Table,
    shape: &Projection,
    container: &Container,
    columns: &[usize],
    opened: &Opened,
    epoch: u64,
    mark: u64,
) -> Result<Option<u64>, StoreFault>
    requires readable { IsReadable shape.now.columns container.now }
    requires columns { columns.now ≡ range_with_len 0 (length shape.now.columns) }
    requires open { IsOpen container.now columns.now opened.now }
    ensures found { IfOk result (λ found. IsOf (D.holds disk.old) shape.now container.now columns.now opened.now → FindsRows (D.holds disk.old) epoch mark table.now shape.now container.now (epoch_at opened.now.vector.marks) found) }
    ensures blamed { IfErr result (λ fault. IsOf (D.holds disk.old) shape.now container.now columns.now opened.now → BlamesHere (D.holds disk.old) shape.now container.now fault) }
    ensures kept { D.holds disk.new ≡ D.holds disk.old }
    ensures moved { Moved ⟦<D as Disk>⟧ NoName NoName disk.old disk.new }
    ensures cause { HasCause StoreFault.Disk (D.faults disk.old) (D.faults disk.new) result }
{
    for k in 0..blocks_of(container.rows) as usize {
        match bad_in_loaded(
            alloc, disk, table, shape, container, columns, opened, k, epoch, mark,
        ) {
            Ok(None) => {}
            Ok(Some(pos)) => return Ok(Some(pos)),
            Err(fault) => return Err(fault),
        }
    }
    Ok(None)
}

/// The position of the first row of a container that isn't good. All columns are read, one block at a time.
pub fn bad_in_container<D: Disk>(
    alloc: Global,
    disk: &mut D,
    table: &Table,
    shape: &Projection,
    container: &Container,
    columns: &[usize],
    epoch: u64,
    mark: u64,
) -> Result<Option<u64>, StoreFault>
    requires readable { IsReadable shape.now.columns container.now }
    requires columns { columns.now ≡ range_with_len 0 (length shape.now.columns) }
    ensures found { IfOk result (FindsRow (D.holds disk.old) epoch mark table.now shape.now container.now) }
    ensures blamed { IfErr result (BlamesHere (D.holds disk.old) shape.now container.now) }
    ensures kept { D.holds disk.new ≡ D.holds disk.old }
    ensures moved { Moved ⟦<D as Disk>⟧ NoName NoName disk.old disk.new }
    ensures cause { HasCause StoreFault.Disk (D.faults disk.old) (D.faults disk.new) result }
{
    one_list_of_rows();
    let opened = match open(alloc, disk, shape, container, columns) {
        Ok(opened) => opened,
        Err(fault) => return Err(fault),
    };
    match bad_in_blocks(
        alloc, disk, table, shape, container, columns, &opened, epoch, mark,
    ) {
        Ok(found) => Ok(found),
        Err(fault) => Err(fault),
    }
}
