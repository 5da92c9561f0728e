//! What is judged of the rows of a projection.

ghost use Rattle.std.specs.Prelude.{◌≡◌, ◌<◌, ◌+◌, ◌*◌, ◌^◌, ◌++◌, ◌∷◌, [], Some, length, map, slice_index_or, IfOk, IfErr, OnOk, List};
ghost use Rattle.std.specs.List.{All};
ghost use Rattle.common_laws.specs.Causes.{HasCause};
ghost use Rattle.common_laws.specs.Maps.{Contents};
ghost use Rattle.col_disk.specs.Faults.{IsUnblamed};
ghost use Rattle.col_disk.specs.Moved.{Moved, NoName};
ghost use Rattle.col_value.specs.declared.row.Stamped.{Stamped as AStamped};
ghost use Rattle.col_value.specs.declared.value.Value.TheVariants.{Null};
ghost use Rattle.del_vector.specs.Marks.{epoch_at};
ghost use Rattle.row_history.specs.History.{on_columns, stamped};
ghost use Rattle.ros_container.specs.Readable.{IsReadable};
ghost use Rattle.stored_rows.specs.Held.{Holds, stamped_from};
ghost use Rattle.audit_model.specs.Rows.{judged_in};
ghost use Rattle.audit_rows.specs.Blocks.{asked_at, row_at, block_rows, IsOpen, IsOf, BlamesHere};
ghost use Rattle.audit_rows.specs.Adding.{AddsBlock, AddsRows, Adds};
ghost use Rattle.pos_index.specs.Index.{blocks};

use crate::blocks::{Loaded, Opened, load, open};
use crate::judged::judged_delete;
use block_codec::Block;
use catalog_types::{Container, Projection};
use col_disk::{Disk, StoreFault};
use col_value::{List as Items, Row, Stamped, Value};
use del_vector::DelVector;
use pos_index::blocks_of;
use std::alloc::{AllocError, Global};
use stored_rows::one_list_of_rows;

/// The value of a column at a place, or NULL where it has none there.
fn value_at(alloc: Global, column: &Block, i: usize) -> Result<Value, AllocError>
    ensures { IfOk result (λ v. v ≡ slice_index_or column.now i Null) }
{
    if i < column.len() {
        column.copy_at(alloc, i)
    } else {
        Ok(Value::Null)
    }
}

/// The values of columns at a place.
fn row_at(alloc: Global, columns: &[Block], i: usize) -> Result<Row, AllocError>
    ensures { IfOk result (λ row. row ≡ row_at columns.now i) }
{
    let mut row = Vec::with_capacity(alloc, columns.len())?;
    for column in columns {
        row.push(value_at(alloc, column, i)?)?;
    }
    Ok(Items::new(row))
}

/// Appends what is judged of the row of a block at a place.
fn add_row(
    alloc: Global,
    out: &mut Vec<Stamped>,
    columns: &[Block],
    i: usize,
    ins: u64,
    del: Option<u64>,
    epoch: u64,
    mark: u64,
) -> Result<(), AllocError>
    ensures { OnOk result (out.new.items ≡ out.old.items ++ judged_in epoch mark (stamped del (asked_at columns.now i ins) ∷ [])) }
{
    match judged_delete(ins, del, epoch, mark) {
        Some(del) => {
            let row = row_at(alloc, columns, i)?;
            out.push(Stamped { row, ins, del })?;
            Ok(())
        }
        None => Ok(()),
    }
}

/// Appends what is judged of the rows of a block, the first of which has this position.
fn add_block(
    alloc: Global,
    out: &mut Vec<Stamped>,
    block: &Loaded,
    vector: &DelVector,
    first: u64,
    epoch: u64,
    mark: u64,
) -> Result<(), AllocError>
    requires { first + length block.now.stamps.items < 2 ^ 64 }
    ensures { OnOk result (out.new.items ≡ out.old.items ++ judged_in epoch mark (stamped_from first (epoch_at vector.now.marks) (block_rows block.now))) }
{
    let stamps = block.stamps.as_slice();
    let columns = block.columns.as_slice();
    for i in 0..stamps.len() {
        let del = vector.epoch_at(first + i as u64);
        add_row(alloc, out, columns, i, stamps[i], del, epoch, mark)?;
    }
    Ok(())
}

/// Appends what is judged of the rows of block k.
fn add_loaded<D: Disk>(
    alloc: Global,
    disk: &mut D,
    shape: &Projection,
    container: &Container,
    columns: &[usize],
    opened: &Opened,
    k: usize,
    epoch: u64,
    mark: u64,
    out: &mut Vec<Stamped>,
) -> Result<(), StoreFault>
    requires readable { IsReadable shape.now.columns container.now }
    requires columns { All (λ c. c < length shape.now.columns) columns.now }
    requires open { IsOpen container.now columns.now opened.now }
    requires block { k < blocks container.now.rows }
    ensures found { OnOk result (IsOf (D.holds disk.old) shape.now container.now columns.now opened.now → AddsBlock (D.holds disk.old) shape.now container.now columns.now k (epoch_at opened.now.vector.marks) epoch mark out.old.items out.new.items) }
    ensures blamed { IfErr result (λ fault. IsOf (D.holds disk.old) shape.now container.now columns.now opened.now → BlamesHere (D.holds disk.old) shape.now container.now fault) }
    ensures kept { D.holds disk.new ≡ D.holds disk.old }
    ensures moved { Moved ⟦<D as Disk>⟧ NoName NoName disk.old disk.new }
    ensures cause { HasCause StoreFault.Disk (D.faults disk.old) (D.faults disk.new) result }
{
    let block = match load(alloc, disk, shape, container, columns, opened, k) {
        Ok(block) => block,
        Err(fault) => return Err(fault),
    };
    let first = 1024 * k as u64;
    match add_block(alloc, out, &block, &opened.vector, first, epoch, mark) {
        Ok(()) => Ok(()),
        Err(AllocError) => Err(StoreFault::Memory),
    }
}

/// Appends what is judged of the rows of all blocks.
fn add_blocks<D: Disk>(
    alloc: Global,
    disk: &mut D,
    shape: &Projection,
    container: &Container,
    columns: &[usize],
    opened: &Opened,
    epoch: u64,
    mark: u64,
    out: &mut Vec<Stamped>,
) -> Result<(), StoreFault>
    requires readable { IsReadable shape.now.columns container.now }
    requires columns { All (λ c. c < length shape.now.columns) columns.now }
    requires open { IsOpen container.now columns.now opened.now }
    ensures found { OnOk result (IsOf (D.holds disk.old) shape.now container.now columns.now opened.now → AddsRows (D.holds disk.old) shape.now container.now columns.now (epoch_at opened.now.vector.marks) epoch mark out.old.items out.new.items) }
    ensures blamed { IfErr result (λ fault. IsOf (D.holds disk.old) shape.now container.now columns.now opened.now → BlamesHere (D.holds disk.old) shape.now container.now fault) }
    ensures kept { D.holds disk.new ≡ D.holds disk.old }
    ensures moved { Moved ⟦<D as Disk>⟧ NoName NoName disk.old disk.new }
    ensures cause { HasCause StoreFault.Disk (D.faults disk.old) (D.faults disk.new) result }
{
    for k in 0..blocks_of(container.rows) as usize {
        match add_loaded(
            alloc, disk, shape, container, columns, opened, k, epoch, mark, out,
        ) {
            Ok(()) => {}
            Err(fault) => return Err(fault),
        }
    }
    Ok(())
}

/// Appends what is judged of a container's rows.
fn add_container<D: Disk>(
    alloc: Global,
    disk: &mut D,
    shape: &Projection,
    container: &Container,
    columns: &[usize],
    epoch: u64,
    mark: u64,
    out: &mut Vec<Stamped>,
) -> Result<(), StoreFault>
    requires readable { IsReadable shape.now.columns container.now }
    requires columns { All (λ c. c < length shape.now.columns) columns.now }
    ensures found { OnOk result (Adds (D.holds disk.old) shape.now container.now columns.now epoch mark out.old.items out.new.items) }
    ensures blamed { IfErr result (BlamesHere (D.holds disk.old) shape.now container.now) }
    ensures kept { D.holds disk.new ≡ D.holds disk.old }
    ensures moved { Moved ⟦<D as Disk>⟧ NoName NoName disk.old disk.new }
    ensures cause { HasCause StoreFault.Disk (D.faults disk.old) (D.faults disk.new) result }
{
    one_list_of_rows();
    let opened = match open(alloc, disk, shape, container, columns) {
        Ok(opened) => opened,
        Err(fault) => return Err(fault),
    };
    match add_blocks(
        alloc, disk, shape, container, columns, &opened, epoch, mark, out,
    ) {
        Ok(()) => Ok(()),
        Err(fault) => Err(fault),
    }
}

/// What is judged of a projection's rows at an epoch, from a mark on: in these of its columns, the oldest container first. No file is
/// blamed where the files hold rows. Of a container one block is in memory at a time beside what is answered.
pub fn judged_rows<D: Disk>(
    alloc: Global,
    disk: &mut D,
    shape: &Projection,
    columns: &[usize],
    epoch: u64,
    mark: u64,
) -> Result<Vec<Stamped>, StoreFault>
    requires readable { All (IsReadable shape.now.columns) shape.now.containers }
    requires columns { All (λ c. c < length shape.now.columns) columns.now }
    ensures found { IfOk result (λ v. (m : Contents) (held : List AStamped) → D.holds disk.old ≡ Some m → Holds m shape.now held → v.items ≡ map (on_columns columns.now) (judged_in epoch mark held)) }
    ensures unblamed { IfErr result (λ fault. (m : Contents) (held : List AStamped) → D.holds disk.old ≡ Some m → Holds m shape.now held → IsUnblamed fault) }
    ensures kept { D.holds disk.new ≡ D.holds disk.old }
    ensures moved { Moved ⟦<D as Disk>⟧ NoName NoName disk.old disk.new }
    ensures cause { HasCause StoreFault.Disk (D.faults disk.old) (D.faults disk.new) result }
{
    let containers = shape.containers.as_slice();
    let mut out = Vec::new(alloc);
    for container in containers {
        match add_container(
            alloc, disk, shape, container, columns, epoch, mark, &mut out,
        ) {
            Ok(()) => {}
            Err(fault) => return Err(fault),
        }
    }
    Ok(out)
}
