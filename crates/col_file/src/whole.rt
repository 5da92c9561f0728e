//! Reading a whole column.

ghost use Rattle.std.specs.Prelude.{◌≡◌, ◌++◌, ◌+◌, ◌<◌, length, IfOk, IfErr, IfSome, OnOk, Some};
ghost use Rattle.std.specs.List.{All, slice_get};
ghost use Rattle.common_laws.specs.Causes.{HasCause};
ghost use Rattle.common_laws.specs.Maps.{Contents};
ghost use Rattle.col_disk.specs.Moved.{Moved, NoName};
ghost use Rattle.col_value.specs.Order.{IsValue};
ghost use Rattle.pos_index.specs.Index.{IsIndex};
ghost use Rattle.col_file.specs.Read.{Blames, IsNoPiece};
ghost use Rattle.col_file.specs.Held.{HoldsColumn, BlamesColumn, HoldsBlocks, HoldsNoBlocks, GoesOn};

use crate::block::read_values;
use crate::read::read_index;
use block_codec::Block;
use col_disk::{Disk, StoreFault};
use col_value::{Encoding, Value};
use pos_index::PosIndex;
use std::alloc::{AllocError, Global};

/// Appends the values of block k.
fn read_on<D: Disk>(
    alloc: Global,
    disk: &mut D,
    body: u64,
    at: &PosIndex,
    encoding: Encoding,
    k: usize,
    values: &mut Vec<Value>,
) -> Result<(), StoreFault>
    requires { k < length at.now.entries }
    ensures found { IfSome (slice_get at.now.entries k) (λ e. OnOk result (GoesOn encoding body at.now.rows e (slice_get at.now.entries (k + 1)) (D.holds disk.old) values.old.items values.new.items)) }
    ensures blamed { IfSome (slice_get at.now.entries k) (λ e. IfErr result (Blames body (IsNoPiece encoding body at.now.rows e (slice_get at.now.entries (k + 1)) (D.holds disk.old)))) }
    ensures kept { D.holds disk.new ≡ D.holds disk.old }
    ensures moved { Moved ⟦<D as Disk>⟧ NoName NoName disk.old disk.new }
    ensures cause { HasCause StoreFault.Disk (D.faults disk.old) (D.faults disk.new) result }
{
    match read_values(alloc, disk, body, at, encoding, k) {
        Ok(block) => match add(alloc, values, block) {
            Ok(()) => Ok(()),
            Err(AllocError) => Err(StoreFault::Memory),
        },
        Err(fault) => Err(fault),
    }
}

/// Appends the values of a block.
fn add(alloc: Global, values: &mut Vec<Value>, block: Block) -> Result<(), AllocError>
    ensures { OnOk result (values.new.items ≡ values.old.items ++ block) }
{
    let mut more = block.into_values(alloc)?;
    values.append(&mut more)
}

/// The values of all blocks.
fn read_blocks<D: Disk>(
    alloc: Global,
    disk: &mut D,
    body: u64,
    at: &PosIndex,
    encoding: Encoding,
) -> Result<Vec<Value>, StoreFault>
    requires { IsIndex at.now }
    ensures found { IfOk result (λ v. HoldsBlocks encoding body at.now (D.holds disk.old) v.items) }
    ensures long { IfOk result (λ v. length v.items ≡ at.now.rows) }
    ensures values { IfOk result (λ v. All IsValue v.items) }
    ensures blamed { IfErr result (Blames body (HoldsNoBlocks encoding body at.now (D.holds disk.old))) }
    ensures kept { D.holds disk.new ≡ D.holds disk.old }
    ensures moved { Moved ⟦<D as Disk>⟧ NoName NoName disk.old disk.new }
    ensures cause { HasCause StoreFault.Disk (D.faults disk.old) (D.faults disk.new) result }
{
    let mut values = match Vec::with_capacity(alloc, at.rows as usize) {
        Ok(values) => values,
        Err(AllocError) => return Err(StoreFault::Memory),
    };
    for k in 0..at.entries.as_slice().len() {
        match read_on(alloc, disk, body, at, encoding, k, &mut values) {
            Ok(()) => {}
            Err(fault) => return Err(fault),
        }
    }
    Ok(values)
}

/// All values of a column of so many rows, in their order; each block is read once. `Damaged(index)` comes only where
/// the index file is absent, is no index, or is one of another number of rows; `Damaged(body)` only where the two
/// files hold no such column. A block of an AUTO column may be in any of the encodings, of another in its own alone.
pub fn read_column<D: Disk>(
    alloc: Global,
    disk: &mut D,
    body: u64,
    index: u64,
    rows: u64,
    encoding: Encoding,
) -> Result<Vec<Value>, StoreFault>
    ensures found { IfOk result (λ v. (m : Contents) → D.holds disk.old ≡ Some m → HoldsColumn encoding body index rows m v.items) }
    ensures long { IfOk result (λ v. length v.items ≡ rows) }
    ensures values { IfOk result (λ v. All IsValue v.items) }
    ensures blamed { IfErr result (BlamesColumn encoding body index rows (D.holds disk.old)) }
    ensures kept { D.holds disk.new ≡ D.holds disk.old }
    ensures moved { Moved ⟦<D as Disk>⟧ NoName NoName disk.old disk.new }
    ensures cause { HasCause StoreFault.Disk (D.faults disk.old) (D.faults disk.new) result }
{
    match read_index(alloc, disk, index, rows) {
        Ok(at) => read_blocks(alloc, disk, body, &at, encoding),
        Err(fault) => Err(fault),
    }
}
