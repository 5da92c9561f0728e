//! Rows of which columns show that they have one key.

ghost use Rattle.std.specs.Prelude.{◌≡◌, ◌<◌, true, length, slice_index_or};
ghost use Rattle.col_value.specs.declared.value.Value.TheVariants.{Null};
ghost use Rattle.sql_bound.specs.Outputs.{keys_of};
ghost use Rattle.exec_group.specs.Columns.{row_of};

use block_codec::Block;

/// Whether a block shows at a look that two of its values are the same: they are one number of a lane, or one word.
fn has_twice(block: &Block, a: usize, b: usize) -> bool
    requires a { a < length block.now }
    requires b { b < length block.now }
    ensures { result ≡ true → slice_index_or block.now a Null ≡ slice_index_or block.now b Null }
{
    if let Some(numbers) = block.numbers() {
        return numbers[a] == numbers[b];
    }
    match block.coded() {
        Some((_, places)) => places[a] == places[b],
        None => false,
    }
}

/// Whether a column shows at a look that it has one value at two places.
fn is_same_in(columns: &[Option<Block>], column: usize, a: usize, b: usize) -> bool
    ensures { result ≡ true → slice_index_or (row_of columns.now a) column Null ≡ slice_index_or (row_of columns.now b) column Null }
{
    match columns.get(column) {
        Some(Some(block)) => a < block.len() && b < block.len() && has_twice(block, a, b),
        Some(None) | None => true,
    }
}

/// Whether columns show at a look that the rows at two places have one key.
pub fn has_key_twice(keys: &[usize], columns: &[Option<Block>], a: usize, b: usize) -> bool
    ensures { result ≡ true → keys_of keys.now (row_of columns.now a) ≡ keys_of keys.now (row_of columns.now b) }
{
    for key in keys {
        if !is_same_in(columns, *key, a, b) {
            return false;
        }
    }
    true
}
