//! The index of a column, and the values of a block.

ghost use Rattle.std.specs.Prelude.{◌≡◌, ◌≤◌, ◌<◌, ◌+◌, ◌*◌, ◌-◌, ◌^◌, min, length, IfOk, IfErr};
ghost use Rattle.std.specs.List.{All};
ghost use Rattle.common_laws.specs.Causes.{HasCause};
ghost use Rattle.col_disk.specs.Moved.{Moved, NoName};
ghost use Rattle.col_value.specs.Order.{IsValue};
ghost use Rattle.pos_index.specs.Index.{blocks};
ghost use Rattle.ros_container.specs.Encodings.{written_of};
ghost use Rattle.ros_container.specs.Held.{BlamesContainer};
ghost use Rattle.ros_container.specs.Readable.{IsReadable};
ghost use Rattle.container_blocks.specs.Blocks.{IsIndexOf, HasIndex, AreBlock};
ghost use Rattle.container_blocks.specs.Counts.{blocks_read};
ghost use Rattle.container_blocks.specs.Parts.{ArePart, BlamesPart, IsIndexAt};

use crate::defaults::{default_block, default_index};
use block_codec::Block;
use catalog_types::{Container, Projection};
use col_disk::{Disk, StoreFault};
use col_file::{read_block, read_index};
use col_value::Encoding;
use common_laws::Steps;
use pos_index::PosIndex;
use ros_container::{body_of, encoding_of, index_of, place_of};
use std::alloc::{AllocError, Global};
use std::sync::ledger::Ledger;

/// The index of a column; behind the columns stand the epochs. `Damaged` names its file, which is absent or no index of so
/// many rows. A column that isn't stored has an index without a file.
pub fn index<D: Disk>(
    alloc: Global,
    disk: &mut D,
    entry: &Container,
    shape: &Projection,
    column: usize,
) -> Result<PosIndex, StoreFault>
    requires entry { IsReadable shape.now.columns entry.now }
    requires column { column ≤ length shape.now.columns }
    ensures index { IfOk result (IsIndexOf entry.now.rows) }
    ensures found { IfOk result (λ at. HasIndex (written_of shape.now) entry.now column at (D.holds disk.old)) }
    ensures blamed { IfErr result (BlamesContainer (written_of shape.now) entry.now (D.holds disk.old)) }
    ensures kept { D.holds disk.new ≡ D.holds disk.old }
    ensures moved { Moved ⟦<D as Disk>⟧ NoName NoName disk.old disk.new }
    ensures cause { HasCause StoreFault.Disk (D.faults disk.old) (D.faults disk.new) result }
{
    match place_of(entry, shape, column) {
        Some(place) => {
            let index = index_of(entry.base, place);
            read_index(alloc, disk, index, entry.rows)
        }
        None => match default_index(alloc, entry, shape, column) {
            Ok(at) => Ok(at),
            Err(AllocError) => Err(StoreFault::Memory),
        },
    }
}

/// The values that a block has where the two files in a place hold a column. It counts as a step.
pub fn part<D: Disk, L: Ledger>(
    alloc: Global,
    disk: &mut D,
    entry: &Container,
    at: &PosIndex,
    place: usize,
    encoding: Encoding,
    k: usize,
    steps: &mut Steps<L>,
) -> Result<Block, StoreFault>
    requires numbers { entry.now.base + 2 * place + 1 < 2 ^ 62 }
    requires index { IsIndexOf entry.now.rows at.now }
    requires block { k < blocks entry.now.rows }
    ensures found { IfOk result (λ v. IsIndexAt entry.now place at.now (D.holds disk.old) → ArePart (D.holds disk.old) encoding entry.now place k v) }
    ensures long { IfOk result (λ v. length v ≡ min 1024 (entry.now.rows - 1024 * k)) }
    ensures values { IfOk result (λ v. All IsValue v) }
    ensures blamed { IfErr result (λ fault. IsIndexAt entry.now place at.now (D.holds disk.old) → BlamesPart (D.holds disk.old) encoding entry.now place fault) }
    ensures step { steps.new ≡ steps.old + 1 }
    ensures kept { D.holds disk.new ≡ D.holds disk.old }
    ensures moved { Moved ⟦<D as Disk>⟧ NoName NoName disk.old disk.new }
    ensures cause { HasCause StoreFault.Disk (D.faults disk.old) (D.faults disk.new) result }
{
    let body = body_of(entry.base, place);
    read_block(alloc, disk, body, at, encoding, k, steps)
}

/// The values of block k of a column, by the index that `index` read of it; behind the columns stand the epochs. Of the body
/// the bytes of this block are read and no other; of a column that isn't stored nothing is read. `Damaged` names the body,
/// which is absent or has no block of such values there. Each block
/// that is read counts as a step.
pub fn block<D: Disk, L: Ledger>(
    alloc: Global,
    disk: &mut D,
    entry: &Container,
    at: &PosIndex,
    shape: &Projection,
    column: usize,
    k: usize,
    steps: &mut Steps<L>,
) -> Result<Block, StoreFault>
    requires entry { IsReadable shape.now.columns entry.now }
    requires column { column ≤ length shape.now.columns }
    requires index { IsIndexOf entry.now.rows at.now }
    requires block { k < blocks entry.now.rows }
    ensures found { IfOk result (λ v. HasIndex (written_of shape.now) entry.now column at.now (D.holds disk.old) → AreBlock (D.holds disk.old) (written_of shape.now) entry.now column k v) }
    ensures long { IfOk result (λ v. length v ≡ min 1024 (entry.now.rows - 1024 * k)) }
    ensures values { IfOk result (λ v. All IsValue v) }
    ensures blamed { IfErr result (λ fault. HasIndex (written_of shape.now) entry.now column at.now (D.holds disk.old) → BlamesContainer (written_of shape.now) entry.now (D.holds disk.old) fault) }
    ensures steps { steps.new ≡ steps.old + blocks_read (length shape.now.columns) entry.now column }
    ensures kept { D.holds disk.new ≡ D.holds disk.old }
    ensures moved { Moved ⟦<D as Disk>⟧ NoName NoName disk.old disk.new }
    ensures cause { HasCause StoreFault.Disk (D.faults disk.old) (D.faults disk.new) result }
{
    match place_of(entry, shape, column) {
        Some(place) => {
            let encoding = encoding_of(shape, column);
            part(alloc, disk, entry, at, place, encoding, k, steps)
        }
        None => match default_block(alloc, entry, shape, column, k) {
            Ok(values) => Ok(values),
            Err(AllocError) => Err(StoreFault::Memory),
        },
    }
}
