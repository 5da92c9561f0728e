//! A column in memory.

ghost use Rattle.std.specs.Prelude.{◌≡◌, ◌++◌, [], get_or, map, slice_index_or, IfOk, IfSome, IsTrue, OnOk};
ghost use Rattle.block_codec.specs.Held.{cell_value, number_value, picked};
ghost use Rattle.col_value.specs.declared.value.Value.TheVariants.{Null};
ghost use Rattle.container_draft.specs.Lanes.{joined, EndsFull};

use block_codec::{Block, Cell};
use col_value::Value;
use std::alloc::{AllocError, Global};
use std::marker::Model;

// Each block but the last has so many values.
const BLOCK: usize = 1024;

/// The values of a column, in the blocks in which they stand on disk.
#[derive(Drop)]
pub struct Column {
    pieces: Vec<Block>,
}

impl Model for Column {
    ghost use Rattle.std.specs.Prelude.{List};
    ghost use Rattle.col_value.specs.declared.value.Value.{Value as Item};
    ghost use Rattle.container_draft.specs.Lanes.{joined, AreFull};

    ghost Value = { List Item };

    ghost view = { λ c. joined c.pieces.items };

    ghost invariant = { λ c. AreFull c.pieces.items };
}

/// The value at a place of a block, or NULL.
fn cell_in(block: &Block, i: usize) -> Cell<'_>
    ensures { cell_value result ≡ slice_index_or block.now i Null }
{
    if i < block.len() {
        block.cell(i)
    } else {
        Cell::Made(Value::Null)
    }
}

/// The value at a place of block k, or NULL.
fn cell_at(blocks: &[Block], k: usize, i: usize) -> Cell<'_>
    ensures { cell_value result ≡ slice_index_or (get_or blocks.now k []) i Null }
{
    match blocks.get(k) {
        Some(block) => cell_in(block, i),
        None => Cell::Made(Value::Null),
    }
}

/// The number at a place of a block, where it holds numbers.
fn number_in(block: &Block, i: usize) -> Option<i64>
    ensures { IfSome result (λ n. number_value n ≡ slice_index_or block.now i Null) }
{
    match block.numbers()?.get(i) {
        Some(n) => Some(*n),
        None => None,
    }
}

/// The number at a place of block k, where that holds numbers.
fn number_at(blocks: &[Block], k: usize, i: usize) -> Option<i64>
    ensures { IfSome result (λ n. number_value n ≡ slice_index_or (get_or blocks.now k []) i Null) }
{
    match blocks.get(k) {
        Some(block) => number_in(block, i),
        None => None,
    }
}

/// The value at a place of a block, where its words are lent.
fn lent_in(block: &Block, i: usize) -> Option<&Value>
    ensures { IfSome result (λ v. v.now ≡ slice_index_or block.now i Null) }
{
    match block.coded() {
        Some((words, places)) => word_at(words, places, i),
        None => None,
    }
}

/// The word at a place.
fn word_at<'a>(words: &'a [Value], places: &[u64], i: usize) -> Option<&'a Value>
    ensures { IfSome result (λ v. v.now ≡ slice_index_or (picked words.now places.now) i Null) }
{
    match places.get(i) {
        Some(place) => words.get(*place as usize),
        None => None,
    }
}

/// The value at a place of block k, where its words are lent.
fn lent_at(blocks: &[Block], k: usize, i: usize) -> Option<&Value>
    ensures { IfSome result (λ v. v.now ≡ slice_index_or (get_or blocks.now k []) i Null) }
{
    match blocks.get(k) {
        Some(block) => lent_in(block, i),
        None => None,
    }
}

/// The numbers of blocks behind others, where all hold such.
fn numbers_on(blocks: &[Block], before: Vec<i64>) -> Result<Option<Vec<i64>>, AllocError>
    ensures { IfOk result (λ o. IfSome o (λ v. map number_value v.items ≡ map number_value before.items ++ joined blocks.now)) }
{
    let mut out = before;
    for block in blocks {
        match block.numbers() {
            Some(numbers) => out.extend_from_slice(numbers)?,
            None => return Ok(None),
        }
    }
    Ok(Some(out))
}

/// Whether a block may follow: the last one is full.
fn may_follow(blocks: &[Block]) -> bool
    ensures { IsTrue result → EndsFull blocks.now }
{
    match blocks.last() {
        Some(block) => block.len() == BLOCK,
        None => true,
    }
}

impl Column {
    /// A column without values. It takes no memory.
    pub fn new(alloc: Global) -> Column
        ensures { result ≡ [] }
    {
        Column {
            pieces: Vec::new(alloc),
        }
    }

    /// The values of a block behind the others. A block that is too long, or whose values would stand behind a block that isn't full, is
    /// answered as want of memory: no column has such.
    pub fn push(&mut self, block: Block) -> Result<(), AllocError>
        ensures { OnOk result (self.new ≡ self.old ++ block) }
    {
        if block.len() > BLOCK || !may_follow(self.pieces.as_slice()) {
            return Err(AllocError);
        }
        self.pieces.push(block)?;
        Ok(())
    }

    /// The value at a place, or NULL where none stands there.
    pub fn cell(&self, place: usize) -> Cell<'_>
        ensures { cell_value result ≡ slice_index_or self.now place Null }
    {
        cell_at(self.pieces.as_slice(), place / BLOCK, place % BLOCK)
    }

    /// The number of a lane that stands for the value at a place, where such are held.
    pub fn number(&self, place: usize) -> Option<i64>
        ensures { IfSome result (λ n. number_value n ≡ slice_index_or self.now place Null) }
    {
        number_at(self.pieces.as_slice(), place / BLOCK, place % BLOCK)
    }

    /// The numbers of lanes that stand for the values, behind others, where such are held.
    pub fn numbers(&self, before: Vec<i64>) -> Result<Option<Vec<i64>>, AllocError>
        ensures { IfOk result (λ o. IfSome o (λ v. map number_value v.items ≡ map number_value before.items ++ self.now)) }
    {
        numbers_on(self.pieces.as_slice(), before)
    }

    /// The value at a place, where it is a word that is lent.
    pub fn lent(&self, place: usize) -> Option<&Value>
        ensures { IfSome result (λ v. v.now ≡ slice_index_or self.now place Null) }
    {
        lent_at(self.pieces.as_slice(), place / BLOCK, place % BLOCK)
    }
}
