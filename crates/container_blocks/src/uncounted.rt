//! The same of a caller that counts no steps.

ghost use Rattle.std.specs.Prelude.{◌≡◌, ◌≤◌, ◌<◌, ◌*◌, ◌-◌, min, length, IfOk, IfErr};
ghost use Rattle.std.specs.List.{All};
ghost use Rattle.common_laws.specs.Causes.{HasCause};
ghost use Rattle.col_disk.specs.Moved.{Moved, NoName};
ghost use Rattle.col_value.specs.Order.{IsValue};
ghost use Rattle.pos_index.specs.Index.{blocks};
ghost use Rattle.ros_container.specs.Encodings.{written_of};
ghost use Rattle.ros_container.specs.Held.{BlamesContainer};
ghost use Rattle.ros_container.specs.Readable.{IsReadable};
ghost use Rattle.ros_container.specs.Rows.{IsWithin};
ghost use Rattle.container_blocks.specs.Blocks.{IsIndexOf, HasIndex, AreBlock, AreEpochs};

use crate::{reading, stamps};
use block_codec::Block;
use catalog_types::{Container, Projection};
use col_disk::{Disk, StoreFault};
use common_laws::Steps;
use pos_index::PosIndex;
use std::alloc::Global;
use std::marker::Brand;
use std::sync::ledger::{Blank, Ledger};

/// The values of block k of a column, counted over a blank.
fn block_by<D: Disk, L: Ledger>(
    alloc: Global,
    disk: &mut D,
    entry: &Container,
    at: &PosIndex,
    shape: &Projection,
    column: usize,
    k: usize,
    blank: Blank,
) -> Result<Block, StoreFault>
    requires name { blank.name ≡ L.name }
    requires parts { blank.parts ≡ L.parts }
    requires some { 0 < L.parts }
    requires entry { IsReadable shape.now.columns entry.now }
    requires column { column ≤ length shape.now.columns }
    requires index { IsIndexOf entry.now.rows at.now }
    requires block { k < blocks entry.now.rows }
    ensures found { IfOk result (λ v. HasIndex (written_of shape.now) entry.now column at.now (D.holds disk.old) → AreBlock (D.holds disk.old) (written_of shape.now) entry.now column k v) }
    ensures long { IfOk result (λ v. length v ≡ min 1024 (entry.now.rows - 1024 * k)) }
    ensures values { IfOk result (λ v. All IsValue v) }
    ensures blamed { IfErr result (λ fault. HasIndex (written_of shape.now) entry.now column at.now (D.holds disk.old) → BlamesContainer (written_of shape.now) entry.now (D.holds disk.old) fault) }
    ensures kept { D.holds disk.new ≡ D.holds disk.old }
    ensures moved { Moved ⟦<D as Disk>⟧ NoName NoName disk.old disk.new }
    ensures cause { HasCause StoreFault.Disk (D.faults disk.old) (D.faults disk.new) result }
{
    let mut steps = Steps::<L>::new(blank);
    reading::block(alloc, disk, entry, at, shape, column, k, &mut steps)
}

/// The values of block k of a column, as `container_blocks::block` reads them.
pub fn block<D: Disk>(
    alloc: Global,
    disk: &mut D,
    entry: &Container,
    at: &PosIndex,
    shape: &Projection,
    column: usize,
    k: usize,
) -> Result<Block, StoreFault>
    requires entry { IsReadable shape.now.columns entry.now }
    requires column { column ≤ length shape.now.columns }
    requires index { IsIndexOf entry.now.rows at.now }
    requires block { k < blocks entry.now.rows }
    ensures found { IfOk result (λ v. HasIndex (written_of shape.now) entry.now column at.now (D.holds disk.old) → AreBlock (D.holds disk.old) (written_of shape.now) entry.now column k v) }
    ensures long { IfOk result (λ v. length v ≡ min 1024 (entry.now.rows - 1024 * k)) }
    ensures values { IfOk result (λ v. All IsValue v) }
    ensures blamed { IfErr result (λ fault. HasIndex (written_of shape.now) entry.now column at.now (D.holds disk.old) → BlamesContainer (written_of shape.now) entry.now (D.holds disk.old) fault) }
    ensures kept { D.holds disk.new ≡ D.holds disk.old }
    ensures moved { Moved ⟦<D as Disk>⟧ NoName NoName disk.old disk.new }
    ensures cause { HasCause StoreFault.Disk (D.faults disk.old) (D.faults disk.new) result }
{
    block_by::<D, Brand>(alloc, disk, entry, at, shape, column, k, Blank::new(1))
}

/// The epochs that inserted the rows of block k, counted over a blank.
fn epochs_by<D: Disk, L: Ledger>(
    alloc: Global,
    disk: &mut D,
    entry: &Container,
    at: &PosIndex,
    shape: &Projection,
    k: usize,
    blank: Blank,
) -> Result<Vec<u64>, StoreFault>
    requires name { blank.name ≡ L.name }
    requires parts { blank.parts ≡ L.parts }
    requires some { 0 < L.parts }
    requires entry { IsReadable shape.now.columns entry.now }
    requires index { IsIndexOf entry.now.rows at.now }
    requires block { k < blocks entry.now.rows }
    ensures found { IfOk result (λ v. HasIndex (written_of shape.now) entry.now (length shape.now.columns) at.now (D.holds disk.old) → AreEpochs (D.holds disk.old) (written_of shape.now) entry.now k v.items) }
    ensures long { IfOk result (λ v. length v.items ≡ min 1024 (entry.now.rows - 1024 * k)) }
    ensures within { IfOk result (λ v. All (IsWithin entry.now) v.items) }
    ensures blamed { IfErr result (λ fault. HasIndex (written_of shape.now) entry.now (length shape.now.columns) at.now (D.holds disk.old) → BlamesContainer (written_of shape.now) entry.now (D.holds disk.old) fault) }
    ensures kept { D.holds disk.new ≡ D.holds disk.old }
    ensures moved { Moved ⟦<D as Disk>⟧ NoName NoName disk.old disk.new }
    ensures cause { HasCause StoreFault.Disk (D.faults disk.old) (D.faults disk.new) result }
{
    let mut steps = Steps::<L>::new(blank);
    stamps::epochs(alloc, disk, entry, at, shape, k, &mut steps)
}

/// The epochs that inserted the rows of block k, as `container_blocks::epochs` reads them.
pub fn epochs<D: Disk>(
    alloc: Global,
    disk: &mut D,
    entry: &Container,
    at: &PosIndex,
    shape: &Projection,
    k: usize,
) -> Result<Vec<u64>, StoreFault>
    requires entry { IsReadable shape.now.columns entry.now }
    requires index { IsIndexOf entry.now.rows at.now }
    requires block { k < blocks entry.now.rows }
    ensures found { IfOk result (λ v. HasIndex (written_of shape.now) entry.now (length shape.now.columns) at.now (D.holds disk.old) → AreEpochs (D.holds disk.old) (written_of shape.now) entry.now k v.items) }
    ensures long { IfOk result (λ v. length v.items ≡ min 1024 (entry.now.rows - 1024 * k)) }
    ensures within { IfOk result (λ v. All (IsWithin entry.now) v.items) }
    ensures blamed { IfErr result (λ fault. HasIndex (written_of shape.now) entry.now (length shape.now.columns) at.now (D.holds disk.old) → BlamesContainer (written_of shape.now) entry.now (D.holds disk.old) fault) }
    ensures kept { D.holds disk.new ≡ D.holds disk.old }
    ensures moved { Moved ⟦<D as Disk>⟧ NoName NoName disk.old disk.new }
    ensures cause { HasCause StoreFault.Disk (D.faults disk.old) (D.faults disk.new) result }
{
    epochs_by::<D, Brand>(alloc, disk, entry, at, shape, k, Blank::new(1))
}
