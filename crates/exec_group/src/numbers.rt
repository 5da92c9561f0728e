//! The number that an expression is worth in a row that stands in columns.

ghost use Rattle.std.specs.Prelude.{◌≡◌, ◌<◌, neg_ℤ, length, if◌then◌else◌, Some, map};
ghost use Rattle.std.specs.Option.{IfSome};
ghost use Rattle.block_codec.specs.Held.{number_value, picked};
ghost use Rattle.col_value.specs.Order.{widened};
ghost use Rattle.col_value.specs.declared.value.Value.TheVariants as value;
ghost use Rattle.col_value.specs.declared.wide.Wide.TheVariants as wide;
ghost use Rattle.std.specs.List.{slice_index_or};
ghost use Rattle.sql_bound.specs.Values.{of_row, value_of};
ghost use Rattle.expr_value.specs.Terms.{added, multiplied, term_value};
ghost use Rattle.exec_group.specs.Columns.{row_of};

use block_codec::{Block, Cell};
use col_value::{Value, Wide};
use sql_bound::{BoundTerm, Expr};

/// The number as one of 64 bits, if it is one.
fn short(n: i128) -> Option<i64>
    ensures { IfSome result (λ m. m ≡ n) }
{
    match i64::try_from(n) {
        Ok(m) => Some(m),
        Err(_) => None,
    }
}

/// The number of a literal, if it is one of 64 bits.
pub fn literal(value: &Wide) -> Option<i64>
    ensures { IfSome result (λ n. value.now ≡ wide.Int n) }
{
    match value {
        Wide::Int(n) => short(*n),
        _ => None,
    }
}

/// The number of a lane at a place, if there is one.
pub fn lane_number_at(numbers: &[i64], place: usize) -> Option<i64>
    ensures { IfSome result (λ n. widened (slice_index_or (map number_value numbers.now) place value.Null) ≡ wide.Int n) }
{
    match numbers.get(place) {
        Some(n) if *n != i64::MIN => Some(*n),
        _ => None,
    }
}

/// The number of a word, if it is one.
fn word_number(words: &[Value], code: usize) -> Option<i64>
    ensures { IfSome result (λ n. widened (slice_index_or words.now code value.Null) ≡ wide.Int n) }
{
    match words.get(code) {
        Some(Value::Int(n)) => Some(*n),
        _ => None,
    }
}

/// The number of the value at a place of words, if there is one.
pub fn word_number_at(words: &[Value], codes: &[u64], place: usize) -> Option<i64>
    ensures { IfSome result (λ n. widened (slice_index_or (picked words.now codes.now) place value.Null) ≡ wide.Int n) }
{
    match codes.get(place) {
        Some(code) => word_number(words, *code as usize),
        None => None,
    }
}

/// The number of a value that a block holds, if it is one.
fn held_number(block: &Block, place: usize) -> Option<i64>
    requires { place < length block.now }
    ensures { IfSome result (λ n. widened (slice_index_or block.now place value.Null) ≡ wide.Int n) }
{
    match block.cell(place) {
        Cell::Lent(Value::Int(n)) => Some(*n),
        _ => None,
    }
}

/// The number of a value of a block, if it is one.
fn number_in(block: &Block, place: usize) -> Option<i64>
    ensures { IfSome result (λ n. widened (slice_index_or block.now place value.Null) ≡ wide.Int n) }
{
    match block.numbers() {
        Some(numbers) => lane_number_at(numbers, place),
        None if place < block.len() => held_number(block, place),
        None => None,
    }
}

/// The number of a column, if it has one.
fn column_at(columns: &[Option<Block>], column: usize, place: usize) -> Option<i64>
    ensures { IfSome result (λ n. widened (slice_index_or (row_of columns.now place) column value.Null) ≡ wide.Int n) }
{
    match columns.get(column) {
        Some(Some(block)) => number_in(block, place),
        _ => None,
    }
}

/// The number that an expression is worth in the row at a place, where all on the way to it are numbers of 64 bits.
#[cycle(number)]
pub fn number_at(e: &Expr, columns: &[Option<Block>], place: usize) -> Option<i64>
    ensures { IfSome result (λ n. value_of (of_row (row_of columns.now place)) e.now ≡ wide.Int n) }
{
    match e {
        Expr::Lit(value) => literal(value),
        Expr::Col(i) => column_at(columns, *i, place),
        Expr::Sum(terms) => sum_at(terms.as_slice(), columns, place),
        Expr::Product(parts) => product_at(parts.as_slice(), columns, place),
        _ => None,
    }
}

/// The sum of all parts.
#[cycle(number)]
fn sum_at(terms: &[BoundTerm], columns: &[Option<Block>], place: usize) -> Option<i64>
    ensures { IfSome result (λ n. added (map (term_value (of_row (row_of columns.now place))) terms.now) ≡ Some n) }
{
    let mut so_far = 0i64;
    for term in terms {
        let Some(part) = term_at(term, columns, place) else {
            return None;
        };
        let Some(sum) = so_far.checked_add(part) else {
            return None;
        };
        so_far = sum;
    }
    Some(so_far)
}

/// A part of a sum, its sign turned where a minus stands before it.
#[cycle(number)]
fn term_at(term: &BoundTerm, columns: &[Option<Block>], place: usize) -> Option<i64>
    ensures { IfSome result (λ n. term_value (of_row (row_of columns.now place)) term.now ≡ wide.Int n) }
{
    match number_at(&term.part, columns, place) {
        Some(part) => signed(term.minus, part),
        None => None,
    }
}

/// The product of all parts.
#[cycle(number)]
fn product_at(parts: &[Expr], columns: &[Option<Block>], place: usize) -> Option<i64>
    ensures { IfSome result (λ n. multiplied (map (value_of (of_row (row_of columns.now place))) parts.now) ≡ Some n) }
{
    let mut so_far = 1i64;
    for part in parts {
        let Some(factor) = number_at(part, columns, place) else {
            return None;
        };
        let Some(product) = so_far.checked_mul(factor) else {
            return None;
        };
        so_far = product;
    }
    Some(so_far)
}

fn signed(minus: bool, n: i64) -> Option<i64>
    ensures { IfSome result (λ m. m ≡ (if minus then neg_ℤ n else n)) }
{
    if minus { n.checked_neg() } else { Some(n) }
}
