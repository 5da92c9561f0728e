//! A container that is read block by block, in some of its columns.

ghost use Rattle.std.specs.Prelude.{◌≡◌, ◌<◌, ◌+◌, ◌*◌, ◌^◌, length, IfOk, IfErr};
ghost use Rattle.std.specs.List.{All};
ghost use Rattle.common_laws.specs.Causes.{HasCause};
ghost use Rattle.common_laws.specs.Maps.{Contents};
ghost use Rattle.col_disk.specs.Moved.{Moved, NoName};
ghost use Rattle.col_value.specs.Order.{IsValue};
ghost use Rattle.container_blocks.specs.Blocks.{IsIndexOf};
ghost use Rattle.pos_index.specs.Index.{blocks};
ghost use Rattle.ros_container.specs.Encodings.{written_of};
ghost use Rattle.ros_container.specs.Held.{BlamesContainer};
ghost use Rattle.ros_container.specs.Readable.{IsReadable};
ghost use Rattle.stored_rows.specs.Held.{HoldsVector};
ghost use Rattle.audit_rows.specs.Blocks.{HasIndexes, IsOpen, IsOf, AreColumns, IsBlock, BlamesHere};

use block_codec::Block;
use catalog_types::{Container, Projection};
use col_disk::{Disk, StoreFault};
use container_blocks::index;
use container_blocks::uncounted::{block, epochs};
use del_vector::DelVector;
use pos_index::PosIndex;
use std::alloc::Global;

// The numbers of a catalogue are below this one; of a delete vector's that isn't asked for.
const MOST_NUMBERS: u64 = 1 << 62;

/// What is read of a container before its blocks: its delete vector, the indexes of columns, and that of the epochs.
#[derive(Drop)]
pub struct Opened {
    pub vector: DelVector,
    pub indexes: Vec<PosIndex>,
    pub stamps: PosIndex,
}

/// A block in memory: the epochs that inserted its rows, and the values that these have in columns.
#[derive(Drop)]
pub struct Loaded {
    pub stamps: Vec<u64>,
    pub columns: Vec<Block>,
}

/// The delete vector of a container. A number that no catalogue has isn't looked for.
fn vector_of<D: Disk>(
    alloc: Global,
    disk: &mut D,
    shape: &Projection,
    container: &Container,
) -> Result<DelVector, StoreFault>
    ensures found { IfOk result (λ v. (m : Contents) → D.holds disk.old ≡ Some m → HoldsVector m container.now v.marks) }
    ensures blamed { IfErr result (BlamesHere (D.holds disk.old) shape.now container.now) }
    ensures kept { D.holds disk.new ≡ D.holds disk.old }
    ensures moved { Moved ⟦<D as Disk>⟧ NoName NoName disk.old disk.new }
    ensures cause { HasCause StoreFault.Disk (D.faults disk.old) (D.faults disk.new) result }
{
    match container.marks {
        Some(number) if number >= MOST_NUMBERS => Err(StoreFault::Memory),
        _ => vector_files::read(alloc, disk, container),
    }
}

/// The indexes of columns.
fn indexes_of<D: Disk>(
    alloc: Global,
    disk: &mut D,
    shape: &Projection,
    container: &Container,
    columns: &[usize],
) -> Result<Vec<PosIndex>, StoreFault>
    requires readable { IsReadable shape.now.columns container.now }
    requires columns { All (λ c. c < length shape.now.columns) columns.now }
    ensures long { IfOk result (λ v. length v.items ≡ length columns.now) }
    ensures fit { IfOk result (λ v. All (IsIndexOf container.now.rows) v.items) }
    ensures held { IfOk result (λ v. HasIndexes (written_of shape.now) container.now columns.now (D.holds disk.old) v.items) }
    ensures blamed { IfErr result (BlamesContainer (written_of shape.now) container.now (D.holds disk.old)) }
    ensures kept { D.holds disk.new ≡ D.holds disk.old }
    ensures moved { Moved ⟦<D as Disk>⟧ NoName NoName disk.old disk.new }
    ensures cause { HasCause StoreFault.Disk (D.faults disk.old) (D.faults disk.new) result }
{
    let mut out = Vec::new(alloc);
    for i in 0..columns.len() {
        let at = match index(alloc, disk, container, shape, columns[i]) {
            Ok(at) => at,
            Err(fault) => return Err(fault),
        };
        match out.push(at) {
            Ok(()) => {}
            Err(_) => return Err(StoreFault::Memory),
        }
    }
    Ok(out)
}

/// How many columns a projection has; behind them stand the epochs.
fn width_of(shape: &Projection) -> usize
    ensures { result ≡ length shape.now.columns }
{
    shape.columns.as_slice().len()
}

/// Opens a container, of which these columns are to be read.
pub fn open<D: Disk>(
    alloc: Global,
    disk: &mut D,
    shape: &Projection,
    container: &Container,
    columns: &[usize],
) -> Result<Opened, StoreFault>
    requires readable { IsReadable shape.now.columns container.now }
    requires columns { All (λ c. c < length shape.now.columns) columns.now }
    ensures open { IfOk result (IsOpen container.now columns.now) }
    ensures found { IfOk result (IsOf (D.holds disk.old) shape.now container.now columns.now) }
    ensures blamed { IfErr result (BlamesHere (D.holds disk.old) shape.now container.now) }
    ensures kept { D.holds disk.new ≡ D.holds disk.old }
    ensures moved { Moved ⟦<D as Disk>⟧ NoName NoName disk.old disk.new }
    ensures cause { HasCause StoreFault.Disk (D.faults disk.old) (D.faults disk.new) result }
{
    let vector = match vector_of(alloc, disk, shape, container) {
        Ok(vector) => vector,
        Err(fault) => return Err(fault),
    };
    let indexes = match indexes_of(alloc, disk, shape, container, columns) {
        Ok(indexes) => indexes,
        Err(fault) => return Err(fault),
    };
    match index(alloc, disk, container, shape, width_of(shape)) {
        Ok(stamps) => Ok(Opened {
            vector,
            indexes,
            stamps,
        }),
        Err(fault) => Err(fault),
    }
}

/// The values of columns in block k.
fn columns_of<D: Disk>(
    alloc: Global,
    disk: &mut D,
    shape: &Projection,
    container: &Container,
    columns: &[usize],
    indexes: &[PosIndex],
    k: usize,
) -> Result<Vec<Block>, StoreFault>
    requires readable { IsReadable shape.now.columns container.now }
    requires columns { All (λ c. c < length shape.now.columns) columns.now }
    requires long { length indexes.now ≡ length columns.now }
    requires fit { All (IsIndexOf container.now.rows) indexes.now }
    requires block { k < blocks container.now.rows }
    ensures found { IfOk result (λ v. HasIndexes (written_of shape.now) container.now columns.now (D.holds disk.old) indexes.now → AreColumns (D.holds disk.old) (written_of shape.now) container.now k columns.now v.items) }
    ensures values { IfOk result (λ v. All (All IsValue) v.items) }
    ensures wide { IfOk result (λ v. length v.items ≡ length columns.now) }
    ensures blamed { IfErr result (λ fault. HasIndexes (written_of shape.now) container.now columns.now (D.holds disk.old) indexes.now → BlamesContainer (written_of shape.now) container.now (D.holds disk.old) fault) }
    ensures kept { D.holds disk.new ≡ D.holds disk.old }
    ensures moved { Moved ⟦<D as Disk>⟧ NoName NoName disk.old disk.new }
    ensures cause { HasCause StoreFault.Disk (D.faults disk.old) (D.faults disk.new) result }
{
    let mut out = Vec::new(alloc);
    for i in 0..columns.len() {
        let values = match block(alloc, disk, container, &indexes[i], shape, columns[i], k) {
            Ok(values) => values,
            Err(fault) => return Err(fault),
        };
        match out.push(values) {
            Ok(()) => {}
            Err(_) => return Err(StoreFault::Memory),
        }
    }
    Ok(out)
}

/// Block k of an open container.
pub fn load<D: Disk>(
    alloc: Global,
    disk: &mut D,
    shape: &Projection,
    container: &Container,
    columns: &[usize],
    opened: &Opened,
    k: usize,
) -> Result<Loaded, StoreFault>
    requires readable { IsReadable shape.now.columns container.now }
    requires columns { All (λ c. c < length shape.now.columns) columns.now }
    requires open { IsOpen container.now columns.now opened.now }
    requires block { k < blocks container.now.rows }
    ensures found { IfOk result (λ b. IsOf (D.holds disk.old) shape.now container.now columns.now opened.now → IsBlock (D.holds disk.old) shape.now container.now columns.now k b) }
    ensures room { IfOk result (λ b. 1024 * k + length b.stamps.items < 2 ^ 64) }
    ensures values { IfOk result (λ b. All (All IsValue) b.columns.items) }
    ensures wide { IfOk result (λ b. length b.columns.items ≡ length columns.now) }
    ensures blamed { IfErr result (λ fault. IsOf (D.holds disk.old) shape.now container.now columns.now opened.now → BlamesHere (D.holds disk.old) shape.now container.now fault) }
    ensures kept { D.holds disk.new ≡ D.holds disk.old }
    ensures moved { Moved ⟦<D as Disk>⟧ NoName NoName disk.old disk.new }
    ensures cause { HasCause StoreFault.Disk (D.faults disk.old) (D.faults disk.new) result }
{
    let stamps = match epochs(alloc, disk, container, &opened.stamps, shape, k) {
        Ok(stamps) => stamps,
        Err(fault) => return Err(fault),
    };
    let indexes = opened.indexes.as_slice();
    match columns_of(alloc, disk, shape, container, columns, indexes, k) {
        Ok(columns) => Ok(Loaded { stamps, columns }),
        Err(fault) => Err(fault),
    }
}
