//! The numbers that an expression is worth in rows that stand in columns: each operation goes over all rows at once.

ghost use Rattle.std.specs.Prelude.{◌≡◌, ℕ, ◌<◌, pos, neg_ℤ, ◌+ℤ◌, ◌*ℤ◌, true, if◌then◌else◌, Some, get_or, length, map, replicate, IfOk};
ghost use Rattle.std.specs.Option.{IfSome};
ghost use Rattle.std.specs.List.{slice_index_or};
ghost use Rattle.block_codec.specs.Held.{number_value, picked};
ghost use Rattle.col_value.specs.Order.{widened};
ghost use Rattle.col_value.specs.declared.value.Value.TheVariants.{Null};
ghost use Rattle.col_value.specs.declared.wide.Wide.TheVariants as wide;
ghost use Rattle.sql_bound.specs.Values.{number_in, of_row, value_of};
ghost use Rattle.expr_value.specs.Terms.{added, multiplied, term_value};
ghost use Rattle.exec_group.specs.Columns.{row_of};

use crate::numbers::{lane_number_at, literal, number_at, word_number_at};
use block_codec::Block;
use col_value::Value;
use sql_bound::{BoundTerm, Expr};
use std::alloc::{AllocError, Global};

/// So many times a number.
fn repeated(alloc: Global, n: i64, count: usize) -> Result<Vec<i64>, AllocError>
    ensures { IfOk result (λ v. v.items ≡ replicate count n) }
{
    let mut out = Vec::with_capacity(alloc, count)?;
    for _ in 0..count {
        out.push(n)?;
    }
    Ok(out)
}

/// The lane of numbers of an expression that is a column held so.
pub fn numbers_of<'a>(e: &Expr, columns: &'a [Option<Block>]) -> Option<&'a [i64]>
    ensures { IfSome result (λ ns. (place : ℕ) → value_of (of_row (row_of columns.now place)) e.now ≡ widened (slice_index_or (map number_value ns.now) place Null)) }
{
    match e {
        Expr::Col(i) => column_numbers(columns, *i),
        _ => None,
    }
}

/// The lane of numbers of a column, if it is held so.
pub fn column_numbers(columns: &[Option<Block>], column: usize) -> Option<&[i64]>
    ensures { IfSome result (λ ns. (place : ℕ) → slice_index_or (row_of columns.now place) column Null ≡ slice_index_or (map number_value ns.now) place Null) }
{
    match columns.get(column) {
        Some(Some(block)) => block.numbers(),
        _ => None,
    }
}

/// The words of an expression that is a column held so, and for each value the place of its word.
fn words_of<'a>(e: &Expr, columns: &'a [Option<Block>]) -> Option<(&'a [Value], &'a [u64])>
    ensures { IfSome result (λ x. (place : ℕ) → value_of (of_row (row_of columns.now place)) e.now ≡ widened (slice_index_or (picked x.0.now x.1.now) place Null)) }
{
    match e {
        Expr::Col(i) => column_words(columns, *i),
        _ => None,
    }
}

/// The words of a column, if it is held so, and for each value the place of its word.
fn column_words(columns: &[Option<Block>], column: usize) -> Option<(&[Value], &[u64])>
    ensures { IfSome result (λ x. (place : ℕ) → slice_index_or (row_of columns.now place) column Null ≡ slice_index_or (picked x.0.now x.1.now) place Null) }
{
    match columns.get(column) {
        Some(Some(block)) => block.coded(),
        _ => None,
    }
}

/// The numbers of a lane at places, where none of them is NULL.
#[inline(never)]
fn from_lane(
    alloc: Global,
    e: &Expr,
    columns: &[Option<Block>],
    numbers: &[i64],
    places: &[usize],
) -> Result<Option<Vec<i64>>, AllocError>
    requires { (place : ℕ) → value_of (of_row (row_of columns.now place)) e.now ≡ widened (slice_index_or (map number_value numbers.now) place Null) }
    ensures { IfOk result (λ o. IfSome o (λ v. map Some v.items ≡ map (λ i. number_in (value_of (of_row (row_of columns.now i)) e.now)) places.now)) }
{
    let mut out = Vec::with_capacity(alloc, places.len())?;
    for place in places {
        let Some(n) = lane_number_at(numbers, *place) else {
            return Ok(None);
        };
        out.push_reserved(n);
    }
    Ok(Some(out))
}

/// The numbers of words at places, where all of them are numbers.
#[inline(never)]
fn from_words(
    alloc: Global,
    e: &Expr,
    columns: &[Option<Block>],
    words: &[Value],
    codes: &[u64],
    places: &[usize],
) -> Result<Option<Vec<i64>>, AllocError>
    requires { (place : ℕ) → value_of (of_row (row_of columns.now place)) e.now ≡ widened (slice_index_or (picked words.now codes.now) place Null) }
    ensures { IfOk result (λ o. IfSome o (λ v. map Some v.items ≡ map (λ i. number_in (value_of (of_row (row_of columns.now i)) e.now)) places.now)) }
{
    let mut out = Vec::with_capacity(alloc, places.len())?;
    for place in places {
        let Some(n) = word_number_at(words, codes, *place) else {
            return Ok(None);
        };
        out.push_reserved(n);
    }
    Ok(Some(out))
}

/// The numbers that an expression is worth in the rows at places, each looked up by itself, where all of them are numbers of 64 bits.
fn each_looked_up(
    alloc: Global,
    e: &Expr,
    columns: &[Option<Block>],
    places: &[usize],
) -> Result<Option<Vec<i64>>, AllocError>
    ensures { IfOk result (λ o. IfSome o (λ v. map Some v.items ≡ map (λ i. number_in (value_of (of_row (row_of columns.now i)) e.now)) places.now)) }
{
    let mut out = Vec::with_capacity(alloc, places.len())?;
    for place in places {
        let Some(n) = number_at(e, columns, *place) else {
            return Ok(None);
        };
        out.push(n)?;
    }
    Ok(Some(out))
}

/// The same, from the column's lane or its words where there are such.
fn looked_up(
    alloc: Global,
    e: &Expr,
    columns: &[Option<Block>],
    places: &[usize],
) -> Result<Option<Vec<i64>>, AllocError>
    ensures { IfOk result (λ o. IfSome o (λ v. map Some v.items ≡ map (λ i. number_in (value_of (of_row (row_of columns.now i)) e.now)) places.now)) }
{
    if let Some(numbers) = numbers_of(e, columns) {
        return from_lane(alloc, e, columns, numbers, places);
    }
    if let Some((words, codes)) = words_of(e, columns) {
        return from_words(alloc, e, columns, words, codes, places);
    }
    each_looked_up(alloc, e, columns, places)
}

/// The sum of two numbers, the second with its sign turned where a minus stands before it, if it is one of 64 bits.
fn sum_of(a: i64, minus: bool, b: i64) -> Option<i64>
    ensures { IfSome result (λ n. n ≡ a +ℤ (if minus then neg_ℤ b else b)) }
{
    if minus {
        a.checked_sub(b)
    } else {
        a.checked_add(b)
    }
}

/// Adds to each number of a lane that of another one, where the sums are numbers of 64 bits; answers whether they are.
fn adds_lane(so_far: &mut Vec<i64>, minus: bool, part: &[i64]) -> bool
    requires { length part.now ≡ length so_far.old.items }
    ensures long { length so_far.new.items ≡ length so_far.old.items }
    ensures sums { result ≡ true → (k : ℕ) → k < length so_far.old.items → get_or so_far.new.items k (pos 0) ≡ get_or so_far.old.items k (pos 0) +ℤ (if minus then neg_ℤ (get_or part.now k (pos 0)) else get_or part.now k (pos 0)) }
{
    for i in 0..so_far.len() {
        match sum_of(so_far[i], minus, part[i]) {
            Some(sum) => so_far[i] = sum,
            None => return false,
        }
    }
    true
}

/// Multiplies each number of a lane by that of another one, where the products are numbers of 64 bits; answers whether they are.
fn multiplies_lane(so_far: &mut Vec<i64>, part: &[i64]) -> bool
    requires { length part.now ≡ length so_far.old.items }
    ensures long { length so_far.new.items ≡ length so_far.old.items }
    ensures products { result ≡ true → (k : ℕ) → k < length so_far.old.items → get_or so_far.new.items k (pos 0) ≡ get_or so_far.old.items k (pos 0) *ℤ get_or part.now k (pos 0) }
{
    for i in 0..so_far.len() {
        match so_far[i].checked_mul(part[i]) {
            Some(product) => so_far[i] = product,
            None => return false,
        }
    }
    true
}

/// The numbers that an expression is worth in the rows at places, where it is one number in all rows.
fn constant_lane(
    alloc: Global,
    e: &Expr,
    n: i64,
    columns: &[Option<Block>],
    places: &[usize],
) -> Result<Option<Vec<i64>>, AllocError>
    requires { (place : ℕ) → value_of (of_row (row_of columns.now place)) e.now ≡ wide.Int n }
    ensures { IfOk result (λ o. IfSome o (λ v. map Some v.items ≡ map (λ i. number_in (value_of (of_row (row_of columns.now i)) e.now)) places.now)) }
{
    Ok(Some(repeated(alloc, n, places.len())?))
}

/// The numbers that an expression is worth in the rows at places, where all on the way to them are numbers of 64 bits.
#[cycle(lane)]
pub fn lane_of(
    alloc: Global,
    e: &Expr,
    columns: &[Option<Block>],
    places: &[usize],
) -> Result<Option<Vec<i64>>, AllocError>
    ensures { IfOk result (λ o. IfSome o (λ v. map Some v.items ≡ map (λ i. number_in (value_of (of_row (row_of columns.now i)) e.now)) places.now)) }
{
    match e {
        Expr::Sum(terms) => sum_lane(alloc, terms.as_slice(), columns, places),
        Expr::Product(parts) => product_lane(alloc, parts.as_slice(), columns, places),
        Expr::Lit(value) => match literal(value) {
            Some(n) => constant_lane(alloc, e, n, columns, places),
            None => Ok(None),
        },
        _ => looked_up(alloc, e, columns, places),
    }
}

/// The sums of all parts.
#[cycle(lane)]
fn sum_lane(
    alloc: Global,
    terms: &[BoundTerm],
    columns: &[Option<Block>],
    places: &[usize],
) -> Result<Option<Vec<i64>>, AllocError>
    ensures { IfOk result (λ o. IfSome o (λ v. map Some v.items ≡ map (λ i. added (map (term_value (of_row (row_of columns.now i))) terms.now)) places.now)) }
{
    let mut so_far = repeated(alloc, 0, places.len())?;
    for term in terms {
        let Some(part) = lane_of(alloc, &term.part, columns, places)? else {
            return Ok(None);
        };
        if !adds_lane(&mut so_far, term.minus, part.as_slice()) {
            return Ok(None);
        }
    }
    Ok(Some(so_far))
}

/// The products of all parts.
#[cycle(lane)]
fn product_lane(
    alloc: Global,
    parts: &[Expr],
    columns: &[Option<Block>],
    places: &[usize],
) -> Result<Option<Vec<i64>>, AllocError>
    ensures { IfOk result (λ o. IfSome o (λ v. map Some v.items ≡ map (λ i. multiplied (map (value_of (of_row (row_of columns.now i))) parts.now)) places.now)) }
{
    let mut so_far = repeated(alloc, 1, places.len())?;
    for part in parts {
        let Some(factor) = lane_of(alloc, part, columns, places)? else {
            return Ok(None);
        };
        if !multiplies_lane(&mut so_far, factor.as_slice()) {
            return Ok(None);
        }
    }
    Ok(Some(so_far))
}
