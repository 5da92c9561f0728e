//! The columns that a container doesn't store.

ghost use Rattle.std.specs.Prelude.{◌≡◌, ◌≤◌, ◌<◌, ◌*◌, ◌-◌, ◌^◌, min, length, replicate, IfOk};
ghost use Rattle.std.specs.List.{All};
ghost use Rattle.col_value.specs.Order.{IsValue};
ghost use Rattle.pos_index.specs.Index.{blocks};
ghost use Rattle.ros_container.specs.Encodings.{written_of, default_at};
ghost use Rattle.ros_container.specs.Readable.{IsOfColumns};
ghost use Rattle.container_blocks.specs.Blocks.{IsIndexOf, IsIndexOfOne};
ghost use Rattle.container_blocks.specs.Parts.{entry_of_one, entries_of_one};

use block_codec::Block;
use catalog_types::{Container, Projection};
use col_value::{List, Value};
use pos_index::{Entry, PosIndex, blocks_of, have_spellings};
use ros_container::default_of;
use std::alloc::{AllocError, Global};

fn entry_of(alloc: Global, value: &Value, block: u64) -> Result<Entry, AllocError>
    requires { 1024 * block < 2 ^ 64 }
    ensures { IfOk result (λ e. e ≡ entry_of_one value.now block) }
{
    let least = value.copy(alloc)?;
    let greatest = value.copy(alloc)?;
    Ok(Entry {
        first: 1024 * block,
        place: block,
        least,
        greatest,
    })
}

#[tactic(auto, using(crate::proofs::Unstored::entries_more))]
fn entries_of(alloc: Global, value: &Value, rows: u64) -> Result<Vec<Entry>, AllocError>
    ensures { IfOk result (λ v. v.items ≡ entries_of_one value.now 0 (blocks rows)) }
{
    let count = blocks_of(rows);
    let mut entries = Vec::with_capacity(alloc, count as usize)?;
    for block in 0..count {
        entries.push(entry_of(alloc, value, block)?)?;
    }
    Ok(entries)
}

/// An index of so many rows that have one value.
fn index_of_one(alloc: Global, value: Value, rows: u64) -> Result<PosIndex, AllocError>
    requires some { 1 ≤ rows }
    requires value { IsValue value }
    ensures index { IfOk result (IsIndexOf rows) }
    ensures one { IfOk result (IsIndexOfOne value) }
{
    let entries = entries_of(alloc, &value, rows)?;
    let words = Vec::from_array(alloc, [value])?;
    have_spellings(words.as_slice());
    Ok(PosIndex {
        rows,
        entries: List::new(entries),
    })
}

/// The index of a column that a container doesn't store.
pub fn default_index(
    alloc: Global,
    entry: &Container,
    shape: &Projection,
    column: usize,
) -> Result<PosIndex, AllocError>
    requires entry { IsOfColumns shape.now.columns entry.now }
    requires behind { entry.now.stored ≤ column }
    requires column { column < length shape.now.columns }
    ensures index { IfOk result (IsIndexOf entry.now.rows) }
    ensures one { IfOk result (IsIndexOfOne (default_at (written_of shape.now) column)) }
{
    let value = default_of(alloc, entry, shape, column)?;
    index_of_one(alloc, value, entry.rows)
}

/// So many times one value, which is held once.
#[tactic(auto, using(crate::proofs::Unstored::picked_one))]
fn repeated(alloc: Global, value: Value, count: usize) -> Result<Block, AllocError>
    ensures { IfOk result (λ b. b ≡ replicate count value) }
{
    let words = Vec::from_array(alloc, [value])?;
    let places = vec![in alloc; 0u64; count]?;
    Ok(Block::picked(words, places))
}

/// The values of block k of a column that a container doesn't store.
pub fn default_block(
    alloc: Global,
    entry: &Container,
    shape: &Projection,
    column: usize,
    k: usize,
) -> Result<Block, AllocError>
    requires entry { IsOfColumns shape.now.columns entry.now }
    requires behind { entry.now.stored ≤ column }
    requires column { column < length shape.now.columns }
    requires block { k < blocks entry.now.rows }
    ensures same { IfOk result (λ v. v ≡ replicate (min 1024 (entry.now.rows - 1024 * k)) (default_at (written_of shape.now) column)) }
    ensures values { IfOk result (λ v. All IsValue v) }
{
    let value = default_of(alloc, entry, shape, column)?;
    let left = entry.rows - 1024 * k as u64;
    repeated(alloc, value, left.min(1024) as usize)
}
