//! Reading a container by its columns.

ghost use Rattle.std.specs.Prelude.{◌≡◌, ◌≤◌, ◌<◌, ◌+◌, length, map, pos, replicate, slice_index_or, Some, IfOk, IfErr, IfSome, IfNone, OnOk};
ghost use Rattle.std.specs.List.{All, slice_get};
ghost use Rattle.common_laws.specs.Causes.{HasCause};
ghost use Rattle.common_laws.specs.Maps.{Contents};
ghost use Rattle.col_disk.specs.Moved.{Moved, NoName};
ghost use Rattle.col_file.specs.Held.{HoldsColumn, BlamesColumn, HoldsBlocks, HoldsNoBlocks, GoesOn};
ghost use Rattle.col_file.specs.Read.{Blames, IsNoPiece};
ghost use Rattle.col_value.specs.declared.kinds.Encoding.TheVariants.{Auto};
ghost use Rattle.col_value.specs.declared.value.Value.TheVariants.{Int, Null};
ghost use Rattle.pos_index.specs.Index.{IsIndex};
ghost use Rattle.ros_container.specs.Encodings.{written_of, default_at};
ghost use Rattle.ros_container.specs.Files.{body_of, index_of};
ghost use Rattle.ros_container.specs.Held.{BlamesContainer};
ghost use Rattle.ros_container.specs.Parts.{HasValues};
ghost use Rattle.ros_container.specs.Readable.{IsReadable, IsOfColumns};
ghost use Rattle.ros_container.specs.Rows.{AreWide, IsWithin, IsEpochOf};
ghost use Rattle.container_draft.specs.Lanes.{HasEach, HoldsOn};

use crate::column::Column;
use crate::lanes::Lanes;
use block_codec::Block;
use catalog_types::{Container, Projection};
use col_disk::{Disk, StoreFault};
use col_file::{one_column, read_index, read_values};
use col_value::{Encoding, Value};
use pos_index::PosIndex;
use ros_container::{body_of, default_of, encoding_of, epoch_of, index_of};
use std::alloc::{AllocError, Global};

// A block has at most so many values.
const BLOCK: u64 = 1024;

/// The values of block k join the others.
fn read_on<D: Disk>(
    alloc: Global,
    disk: &mut D,
    body: u64,
    at: &PosIndex,
    encoding: Encoding,
    k: usize,
    column: &mut Column,
) -> Result<(), StoreFault>
    requires { k < length at.now.entries }
    ensures found { IfSome (slice_get at.now.entries k) (λ e. OnOk result (GoesOn encoding body at.now.rows e (slice_get at.now.entries (k + 1)) (D.holds disk.old) column.old column.new)) }
    ensures blamed { IfSome (slice_get at.now.entries k) (λ e. IfErr result (Blames body (IsNoPiece encoding body at.now.rows e (slice_get at.now.entries (k + 1)) (D.holds disk.old)))) }
    ensures kept { D.holds disk.new ≡ D.holds disk.old }
    ensures moved { Moved ⟦<D as Disk>⟧ NoName NoName disk.old disk.new }
    ensures cause { HasCause StoreFault.Disk (D.faults disk.old) (D.faults disk.new) result }
{
    match read_values(alloc, disk, body, at, encoding, k) {
        Ok(block) => match column.push(block) {
            Ok(()) => Ok(()),
            Err(AllocError) => Err(StoreFault::Memory),
        },
        Err(fault) => Err(fault),
    }
}

/// The values of all blocks.
fn read_blocks<D: Disk>(
    alloc: Global,
    disk: &mut D,
    body: u64,
    at: &PosIndex,
    encoding: Encoding,
) -> Result<Column, StoreFault>
    requires { IsIndex at.now }
    ensures found { IfOk result (λ v. HoldsBlocks encoding body at.now (D.holds disk.old) v) }
    ensures long { IfOk result (λ v. length v ≡ at.now.rows) }
    ensures blamed { IfErr result (Blames body (HoldsNoBlocks encoding body at.now (D.holds disk.old))) }
    ensures kept { D.holds disk.new ≡ D.holds disk.old }
    ensures moved { Moved ⟦<D as Disk>⟧ NoName NoName disk.old disk.new }
    ensures cause { HasCause StoreFault.Disk (D.faults disk.old) (D.faults disk.new) result }
{
    let mut column = Column::new(alloc);
    for k in 0..at.entries.as_slice().len() {
        match read_on(alloc, disk, body, at, encoding, k, &mut column) {
            Ok(()) => {}
            Err(fault) => return Err(fault),
        }
    }
    Ok(column)
}

/// All values of a column of so many rows, as `col_file::read_column` reads them.
fn read_column<D: Disk>(
    alloc: Global,
    disk: &mut D,
    body: u64,
    index: u64,
    rows: u64,
    encoding: Encoding,
) -> Result<Column, StoreFault>
    ensures found { IfOk result (λ v. (m : Contents) → D.holds disk.old ≡ Some m → HoldsColumn encoding body index rows m v) }
    ensures long { IfOk result (λ v. length v ≡ rows) }
    ensures blamed { IfErr result (BlamesColumn encoding body index rows (D.holds disk.old)) }
    ensures kept { D.holds disk.new ≡ D.holds disk.old }
    ensures moved { Moved ⟦<D as Disk>⟧ NoName NoName disk.old disk.new }
    ensures cause { HasCause StoreFault.Disk (D.faults disk.old) (D.faults disk.new) result }
{
    match read_index(alloc, disk, index, rows) {
        Ok(at) => read_blocks(alloc, disk, body, &at, encoding),
        Err(fault) => Err(fault),
    }
}

fn repeated(alloc: Global, value: &Value, count: u64) -> Result<Vec<Value>, AllocError>
    ensures { IfOk result (λ v. v.items ≡ replicate count value.now) }
{
    let mut out = Vec::with_capacity(alloc, count as usize)?;
    for _ in 0..count {
        out.push(value.copy(alloc)?)?;
    }
    Ok(out)
}

/// A column that has the same value so many times.
fn constant(alloc: Global, value: &Value, count: u64) -> Result<Column, AllocError>
    ensures { IfOk result (λ c. c ≡ replicate count value.now) }
{
    let mut column = Column::new(alloc);
    let mut left = count;
    while left > 0 {
        let some = left.min(BLOCK);
        column.push(Block::of(repeated(alloc, value, some)?))?;
        left -= some;
    }
    Ok(column)
}

/// A column that a container doesn't store.
fn default_column(
    alloc: Global,
    entry: &Container,
    shape: &Projection,
    column: usize,
) -> Result<Column, AllocError>
    requires entry { IsOfColumns shape.now.columns entry.now }
    requires behind { entry.now.stored ≤ column }
    requires column { column < length shape.now.columns }
    ensures { IfOk result (λ c. c ≡ replicate entry.now.rows (default_at (written_of shape.now) column)) }
{
    let value = default_of(alloc, entry, shape, column)?;
    constant(alloc, &value, entry.rows)
}

/// One column of a container, whether it is stored or not.
fn read_one<D: Disk>(
    alloc: Global,
    disk: &mut D,
    entry: &Container,
    shape: &Projection,
    column: usize,
) -> Result<Column, StoreFault>
    requires entry { IsReadable shape.now.columns entry.now }
    requires column { column < length shape.now.columns }
    ensures found { IfOk result (λ v. (m : Contents) → D.holds disk.old ≡ Some m → HasValues m (written_of shape.now) entry.now column v) }
    ensures long { IfOk result (λ v. length v ≡ entry.now.rows) }
    ensures blamed { IfErr result (BlamesContainer (written_of shape.now) entry.now (D.holds disk.old)) }
    ensures kept { D.holds disk.new ≡ D.holds disk.old }
    ensures moved { Moved ⟦<D as Disk>⟧ NoName NoName disk.old disk.new }
    ensures cause { HasCause StoreFault.Disk (D.faults disk.old) (D.faults disk.new) result }
{
    if column as u64 >= entry.stored {
        return match default_column(alloc, entry, shape, column) {
            Ok(values) => Ok(values),
            Err(AllocError) => Err(StoreFault::Memory),
        };
    }
    let body = body_of(entry.base, column);
    let index = index_of(entry.base, column);
    let encoding = encoding_of(shape, column);
    read_column(alloc, disk, body, index, entry.rows, encoding)
}

/// The epochs of a container, as values.
fn read_epochs<D: Disk>(
    alloc: Global,
    disk: &mut D,
    entry: &Container,
    shape: &Projection,
) -> Result<Column, StoreFault>
    requires entry { IsReadable shape.now.columns entry.now }
    ensures found { IfOk result (λ v. (m : Contents) → D.holds disk.old ≡ Some m → HoldsColumn Auto (body_of entry.now.base entry.now.stored) (index_of entry.now.base entry.now.stored) entry.now.rows m v) }
    ensures long { IfOk result (λ v. length v ≡ entry.now.rows) }
    ensures blamed { IfErr result (BlamesContainer (written_of shape.now) entry.now (D.holds disk.old)) }
    ensures kept { D.holds disk.new ≡ D.holds disk.old }
    ensures moved { Moved ⟦<D as Disk>⟧ NoName NoName disk.old disk.new }
    ensures cause { HasCause StoreFault.Disk (D.faults disk.old) (D.faults disk.new) result }
{
    let place = entry.stored as usize;
    let body = body_of(entry.base, place);
    let index = index_of(entry.base, place);
    read_column(alloc, disk, body, index, entry.rows, Encoding::Auto)
}

/// The epoch that the value at a place is, if it is one of the entry's.
fn epoch_at(entry: &Container, values: &Column, place: usize) -> Option<u64>
    ensures found { IfSome result (λ e. (slice_index_or values.now place Null ≡ Int (pos e)) × IsWithin entry.now e) }
    ensures none { IfNone result (IsEpochOf entry.now (slice_index_or values.now place Null) → ⊥) }
{
    epoch_of(entry, values.cell(place).value())
}

/// The epochs that values are; None where some value is no epoch of the entry.
fn epochs_in(
    alloc: Global,
    entry: &Container,
    values: &Column,
) -> Result<Option<Vec<u64>>, AllocError>
    requires { length values.now ≡ entry.now.rows }
    ensures epochs { IfOk result (λ o. IfSome o (λ v. map (λ e. Int (pos e)) v.items ≡ values.now)) }
    ensures within { IfOk result (λ o. IfSome o (λ v. All (IsWithin entry.now) v.items)) }
    ensures none { IfOk result (λ o. IfNone o (All (IsEpochOf entry.now) values.now → ⊥)) }
{
    let rows = entry.rows as usize;
    let mut out = Vec::with_capacity(alloc, rows)?;
    for place in 0..rows {
        match epoch_at(entry, values, place) {
            Some(epoch) => out.push(epoch)?,
            None => return Ok(None),
        }
    }
    Ok(Some(out))
}

/// The epochs of a container; the body of the epochs is blamed where one of them is not the entry's.
fn read_stamps<D: Disk>(
    alloc: Global,
    disk: &mut D,
    entry: &Container,
    shape: &Projection,
) -> Result<Vec<u64>, StoreFault>
    requires entry { IsReadable shape.now.columns entry.now }
    ensures found { IfOk result (λ v. (m : Contents) → D.holds disk.old ≡ Some m → HoldsColumn Auto (body_of entry.now.base entry.now.stored) (index_of entry.now.base entry.now.stored) entry.now.rows m (map (λ e. Int (pos e)) v.items)) }
    ensures long { IfOk result (λ v. length v.items ≡ entry.now.rows) }
    ensures within { IfOk result (λ v. All (IsWithin entry.now) v.items) }
    ensures blamed { IfErr result (BlamesContainer (written_of shape.now) entry.now (D.holds disk.old)) }
    ensures kept { D.holds disk.new ≡ D.holds disk.old }
    ensures moved { Moved ⟦<D as Disk>⟧ NoName NoName disk.old disk.new }
    ensures cause { HasCause StoreFault.Disk (D.faults disk.old) (D.faults disk.new) result }
{
    match read_epochs(alloc, disk, entry, shape) {
        Ok(values) => match epochs_in(alloc, entry, &values) {
            Ok(Some(epochs)) => Ok(epochs),
            Ok(None) => {
                one_column();
                Err(StoreFault::Damaged(body_of(entry.base, entry.stored as usize)))
            }
            Err(AllocError) => Err(StoreFault::Memory),
        },
        Err(fault) => Err(fault),
    }
}

/// The columns of a container at some places.
fn read_all<D: Disk>(
    alloc: Global,
    disk: &mut D,
    entry: &Container,
    shape: &Projection,
    via: &[usize],
) -> Result<Vec<Column>, StoreFault>
    requires entry { IsReadable shape.now.columns entry.now }
    requires columns { All (λ i. i < length shape.now.columns) via.now }
    ensures found { IfOk result (λ v. (m : Contents) → D.holds disk.old ≡ Some m → HasEach m (written_of shape.now) entry.now via.now v.items) }
    ensures long { IfOk result (λ v. All (λ vs. length vs ≡ entry.now.rows) v.items) }
    ensures wide { IfOk result (λ v. length v.items ≡ length via.now) }
    ensures blamed { IfErr result (BlamesContainer (written_of shape.now) entry.now (D.holds disk.old)) }
    ensures kept { D.holds disk.new ≡ D.holds disk.old }
    ensures moved { Moved ⟦<D as Disk>⟧ NoName NoName disk.old disk.new }
    ensures cause { HasCause StoreFault.Disk (D.faults disk.old) (D.faults disk.new) result }
{
    let mut out = Vec::new(alloc);
    for i in 0..via.len() {
        let column = match read_one(alloc, disk, entry, shape, via[i]) {
            Ok(column) => column,
            Err(fault) => return Err(fault),
        };
        match out.push(column) {
            Ok(()) => {}
            Err(_) => return Err(StoreFault::Memory),
        }
    }
    Ok(out)
}

/// All rows of a container, with its columns at some places alone.
pub fn read_lanes<D: Disk>(
    alloc: Global,
    disk: &mut D,
    entry: &Container,
    shape: &Projection,
    via: &[usize],
) -> Result<Lanes, StoreFault>
    requires entry { IsReadable shape.now.columns entry.now }
    requires columns { All (λ i. i < length shape.now.columns) via.now }
    ensures found { IfOk result (λ v. (m : Contents) → D.holds disk.old ≡ Some m → HoldsOn m (written_of shape.now) entry.now via.now v) }
    ensures wide { IfOk result (AreWide (length via.now)) }
    ensures blamed { IfErr result (BlamesContainer (written_of shape.now) entry.now (D.holds disk.old)) }
    ensures kept { D.holds disk.new ≡ D.holds disk.old }
    ensures moved { Moved ⟦<D as Disk>⟧ NoName NoName disk.old disk.new }
    ensures cause { HasCause StoreFault.Disk (D.faults disk.old) (D.faults disk.new) result }
{
    let epochs = match read_stamps(alloc, disk, entry, shape) {
        Ok(epochs) => epochs,
        Err(fault) => return Err(fault),
    };
    match read_all(alloc, disk, entry, shape, via) {
        Ok(columns) => Ok(Lanes::new(columns, epochs)),
        Err(fault) => Err(fault),
    }
}
