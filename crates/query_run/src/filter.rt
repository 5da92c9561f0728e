//! Which rows that stand in columns meet the conditions.

ghost use Rattle.std.specs.Prelude.{◌≡◌, ℕ, ◌+◌, ◌<◌, ◌≤◌, ◌++◌, ◌∷◌, [], true, if◌then◌else◌, filter, length, map, slice_index_or, IfOk, OnOk, vec_len, vec_capacity};
ghost use Rattle.std.specs.List.{All};
ghost use Rattle.std.specs.Option.{IfSome};
ghost use Rattle.block_codec.specs.Held.{number_value, picked};
ghost use Rattle.col_value.specs.Order.{IsRow, widened};
ghost use Rattle.col_value.specs.declared.value.Value.TheVariants.{Null};
ghost use Rattle.col_value.specs.declared.wide.Wide.TheVariants as wide;
ghost use Rattle.exec_group.specs.Columns.{row_of, AreRowsAt};
ghost use Rattle.sql_bound.specs.Bounds.{is_narrow};
ghost use Rattle.sql_bound.specs.Outputs.{is_kept};
ghost use Rattle.query_run.specs.Outputs.{is_marked};
ghost use Rattle.query_run.specs.Ready.{is_told};
ghost use Rattle.sql_bound.specs.Values.{Scope, compared, holds, is_true, of_row, value_of};

use crate::past::numbers_of;
use block_codec::Block;
use col_value::{Value, Wide};
use exec_group::{row_at, worth_at};
use expr_places::looks_between;
use expr_value::{Sight, Worth, is_true};
use sql_bound::Expr;
use sql_tree::Cmp;
use std::alloc::{AllocError, Global};
use std::cmp::Ordering;

/// Whether a comparison of two columns holds in the row at a place, where no value has to be made for it.
fn columns_compared_at(
    i: usize,
    cmp: Cmp,
    j: usize,
    columns: &[Option<Block>],
    place: usize,
) -> Option<bool>
    ensures { IfSome result (λ holds. holds ≡ is_true (compared cmp (widened (slice_index_or (row_of columns.now place) i Null)) (widened (slice_index_or (row_of columns.now place) j Null)))) }
{
    match (worth_at(columns, i, place), worth_at(columns, j, place)) {
        (Some(a), Some(b)) => Some(a.compared(cmp, &b).is_true()),
        _ => None,
    }
}

/// Whether a comparison of a column with a literal or another column holds in the row at a place; None where it isn't such a one.
fn column_compared_at(
    a: &Expr,
    cmp: Cmp,
    b: &Expr,
    columns: &[Option<Block>],
    place: usize,
) -> Option<bool>
    ensures { IfSome result (λ holds. holds ≡ is_true (compared cmp (value_of (of_row (row_of columns.now place)) a.now) (value_of (of_row (row_of columns.now place)) b.now))) }
{
    match (a, b) {
        (Expr::Col(i), Expr::Lit(value)) => match worth_at(columns, *i, place) {
            Some(worth) => Some(worth.compared(cmp, &Worth::of_wide(value)).is_true()),
            None => None,
        },
        (Expr::Col(i), Expr::Col(j)) => columns_compared_at(*i, cmp, *j, columns, place),
        _ => None,
    }
}

/// Whether a condition is true in the row at a place, where it compares a column with a literal or another column.
fn holds_in(e: &Expr, columns: &[Option<Block>], place: usize) -> Option<bool>
    ensures { IfSome result (λ holds. holds ≡ is_true (value_of (of_row (row_of columns.now place)) e.now)) }
{
    match e {
        Expr::Compare(a, cmp, b) => column_compared_at(a.get(), *cmp, b.get(), columns, place),
        _ => None,
    }
}

/// Whether a condition is true in the row at a place, which is made for it.
fn holds_made(
    alloc: Global,
    e: &Expr,
    columns: &[Option<Block>],
    place: usize,
) -> Result<bool, AllocError>
    requires narrow { is_narrow [] e.now ≡ true }
    requires row { IsRow (row_of columns.now place) }
    ensures { IfOk result (λ holds. holds ≡ is_true (value_of (of_row (row_of columns.now place)) e.now)) }
{
    let row = row_at(alloc, columns, place)?;
    Ok(is_true(e, &Sight::of_row(row.as_slice())))
}

/// Whether a condition is true in the row at a place.
fn holds_at(
    alloc: Global,
    e: &Expr,
    columns: &[Option<Block>],
    place: usize,
) -> Result<bool, AllocError>
    requires narrow { is_narrow [] e.now ≡ true }
    requires row { IsRow (row_of columns.now place) }
    ensures { IfOk result (λ holds. holds ≡ is_true (value_of (of_row (row_of columns.now place)) e.now)) }
{
    match holds_in(e, columns, place) {
        Some(holds) => Ok(holds),
        None => holds_made(alloc, e, columns, place),
    }
}

/// Appends a place, if its row passes.
fn put_place(places: &mut Vec<usize>, passes: bool, place: usize) -> Result<(), AllocError>
    ensures { OnOk result (places.new.items ≡ places.old.items ++ (if passes then place ∷ [] else [])) }
{
    if passes {
        places.push(place)?;
        return Ok(());
    }
    Ok(())
}

/// The same, where there is room for it.
fn put_reserved(places: &mut Vec<usize>, passes: bool, place: usize)
    requires { vec_len places.old < vec_capacity places.old }
    ensures items { places.new.items ≡ places.old.items ++ (if passes then place ∷ [] else []) }
    ensures len { vec_len places.new ≤ vec_len places.old + 1 }
    ensures capacity { vec_capacity places.new ≡ vec_capacity places.old }
{
    if passes {
        places.push_reserved(place);
    }
}

/// The places of the rows in which a condition is true, each looked at by itself.
fn each_kept(
    alloc: Global,
    e: &Expr,
    columns: &[Option<Block>],
    places: &[usize],
) -> Result<Vec<usize>, AllocError>
    requires narrow { is_narrow [] e.now ≡ true }
    requires rows { AreRowsAt columns.now places.now }
    ensures { IfOk result (λ v. v.items ≡ filter (λ i. is_true (value_of (of_row (row_of columns.now i)) e.now)) places.now) }
{
    let mut kept = Vec::with_capacity(alloc, places.len())?;
    for place in places {
        put_place(&mut kept, holds_at(alloc, e, columns, *place)?, *place)?;
    }
    Ok(kept)
}

/// Whether a comparison holds of two numbers that stand so.
fn holds(cmp: Cmp, order: Ordering) -> bool
    ensures { result ≡ holds cmp order }
{
    match cmp {
        Cmp::Eq => order.is_eq(),
        Cmp::Ne => !order.is_eq(),
        Cmp::Lt => order.is_lt(),
        Cmp::Le => order.is_le(),
        Cmp::Gt => order.is_gt(),
        Cmp::Ge => order.is_ge(),
    }
}

/// Whether a comparison of a lane's number with another one holds. It doesn't of NULL.
fn number_holds(n: i64, cmp: Cmp, m: i64) -> bool
    ensures { result ≡ is_true (compared cmp (widened (number_value n)) (wide.Int m)) }
{
    n != i64::MIN && holds(cmp, n.cmp(&m))
}

/// The same of the number at a place; it doesn't where there is none.
fn place_holds(numbers: &[i64], cmp: Cmp, m: i64, place: usize) -> bool
    ensures { result ≡ is_true (compared cmp (widened (slice_index_or (map number_value numbers.now) place Null)) (wide.Int m)) }
{
    match numbers.get(place) {
        Some(n) => number_holds(*n, cmp, m),
        None => false,
    }
}

/// The lane of numbers of an expression that is a column held so.
pub fn lane_of<'a>(e: &Expr, columns: &'a [Option<Block>]) -> Option<&'a [i64]>
    ensures { IfSome result (λ ns. (place : ℕ) → value_of (of_row (row_of columns.now place)) e.now ≡ widened (slice_index_or (map number_value ns.now) place Null)) }
{
    match e {
        Expr::Col(i) => numbers_of(columns, *i),
        _ => None,
    }
}

/// The number of an expression that is a literal of 64 bits.
fn number_of(e: &Expr) -> Option<i64>
    ensures { IfSome result (λ m. (s : Scope) → value_of s e.now ≡ wide.Int m) }
{
    match e {
        Expr::Lit(Wide::Int(n)) => short(*n),
        _ => None,
    }
}

fn short(n: i128) -> Option<i64>
    ensures { IfSome result (λ m. m ≡ n) }
{
    match i64::try_from(n) {
        Ok(m) => Some(m),
        Err(_) => None,
    }
}

/// The places of the rows in which a condition is true that compares the numbers of a lane with a number.
#[inline(never)]
fn lane_kept(
    alloc: Global,
    e: &Expr,
    columns: &[Option<Block>],
    numbers: &[i64],
    cmp: Cmp,
    m: i64,
    places: &[usize],
) -> Result<Vec<usize>, AllocError>
    requires { (place : ℕ) → value_of (of_row (row_of columns.now place)) e.now ≡ compared cmp (widened (slice_index_or (map number_value numbers.now) place Null)) (wide.Int m) }
    ensures { IfOk result (λ v. v.items ≡ filter (λ i. is_true (value_of (of_row (row_of columns.now i)) e.now)) places.now) }
{
    let mut kept = Vec::with_capacity(alloc, places.len())?;
    for place in places {
        put_reserved(&mut kept, place_holds(numbers, cmp, m, *place), *place);
    }
    Ok(kept)
}

/// The words of an expression that is a column held so, and the places of its values among them.
fn words_of<'a>(e: &Expr, columns: &'a [Option<Block>]) -> Option<(&'a [Value], &'a [u64])>
    ensures { IfSome result (λ x. (place : ℕ) → value_of (of_row (row_of columns.now place)) e.now ≡ widened (slice_index_or (picked x.0.now x.1.now) place Null)) }
{
    match e {
        Expr::Col(i) => column_words(columns, *i),
        _ => None,
    }
}

/// The words of a column and the places of its values among them, if it is held so.
fn column_words(columns: &[Option<Block>], column: usize) -> Option<(&[Value], &[u64])>
    ensures { IfSome result (λ x. (place : ℕ) → slice_index_or (row_of columns.now place) column Null ≡ slice_index_or (picked x.0.now x.1.now) place Null) }
{
    match columns.get(column) {
        Some(Some(block)) => block.coded(),
        _ => None,
    }
}

/// The value of an expression that is a literal.
fn literal_of(e: &Expr) -> Option<&Wide>
    ensures { IfSome result (λ w. (s : Scope) → value_of s e.now ≡ w.now) }
{
    match e {
        Expr::Lit(value) => Some(value),
        _ => None,
    }
}

/// Whether a comparison with a literal holds of each word.
fn words_hold(
    alloc: Global,
    cmp: Cmp,
    literal: &Wide,
    words: &[Value],
) -> Result<Vec<bool>, AllocError>
    ensures { IfOk result (λ v. v.items ≡ map (λ w. is_true (compared cmp (widened w) literal.now)) words.now) }
{
    let mut marks = Vec::with_capacity(alloc, words.len())?;
    for word in words {
        let holds = Worth::of_value(word)
            .compared(cmp, &Worth::of_wide(literal))
            .is_true();
        marks.push(holds)?;
    }
    Ok(marks)
}

/// Whether the word of the value at a place is marked.
fn is_marked(marks: &[bool], codes: &[u64], place: usize) -> bool
    ensures { result ≡ is_marked marks.now codes.now place }
{
    match codes.get(place) {
        Some(code) => match marks.get(*code as usize) {
            Some(mark) => *mark,
            None => false,
        },
        None => false,
    }
}

/// The places of the rows in which a condition is true that the mark of a word tells.
#[inline(never)]
fn marked_kept(
    alloc: Global,
    e: &Expr,
    columns: &[Option<Block>],
    marks: &[bool],
    codes: &[u64],
    places: &[usize],
) -> Result<Vec<usize>, AllocError>
    requires { (place : ℕ) → is_true (value_of (of_row (row_of columns.now place)) e.now) ≡ is_marked marks.now codes.now place }
    ensures { IfOk result (λ v. v.items ≡ filter (λ i. is_true (value_of (of_row (row_of columns.now i)) e.now)) places.now) }
{
    let mut kept = Vec::with_capacity(alloc, places.len())?;
    for place in places {
        put_reserved(&mut kept, is_marked(marks, codes, *place), *place);
    }
    Ok(kept)
}

/// The places of the rows in which a comparison of two expressions is true, by words where the one is a column held so, of no more words than
/// there are places, and the other a literal.
fn word_kept(
    alloc: Global,
    e: &Expr,
    a: &Expr,
    cmp: Cmp,
    b: &Expr,
    columns: &[Option<Block>],
    places: &[usize],
) -> Result<Vec<usize>, AllocError>
    requires narrow { is_narrow [] e.now ≡ true }
    requires compares { (s : Scope) → value_of s e.now ≡ compared cmp (value_of s a.now) (value_of s b.now) }
    requires rows { AreRowsAt columns.now places.now }
    ensures { IfOk result (λ v. v.items ≡ filter (λ i. is_true (value_of (of_row (row_of columns.now i)) e.now)) places.now) }
{
    let Some((words, codes)) = words_of(a, columns) else {
        return each_kept(alloc, e, columns, places);
    };
    let Some(literal) = literal_of(b) else {
        return each_kept(alloc, e, columns, places);
    };
    if words.len() > places.len() {
        return each_kept(alloc, e, columns, places);
    }
    let marks = words_hold(alloc, cmp, literal, words)?;
    marked_kept(alloc, e, columns, marks.as_slice(), codes, places)
}

/// The same of a comparison of two expressions, by a lane where the one is a column held so and the other a number.
fn compared_kept(
    alloc: Global,
    e: &Expr,
    a: &Expr,
    cmp: Cmp,
    b: &Expr,
    columns: &[Option<Block>],
    places: &[usize],
) -> Result<Vec<usize>, AllocError>
    requires narrow { is_narrow [] e.now ≡ true }
    requires compares { (s : Scope) → value_of s e.now ≡ compared cmp (value_of s a.now) (value_of s b.now) }
    requires rows { AreRowsAt columns.now places.now }
    ensures { IfOk result (λ v. v.items ≡ filter (λ i. is_true (value_of (of_row (row_of columns.now i)) e.now)) places.now) }
{
    let Some(numbers) = lane_of(a, columns) else {
        return word_kept(alloc, e, a, cmp, b, columns, places);
    };
    match number_of(b) {
        Some(m) => lane_kept(alloc, e, columns, numbers, cmp, m, places),
        None => each_kept(alloc, e, columns, places),
    }
}

/// The places of the rows in which a condition is true.
fn kept_by(
    alloc: Global,
    e: &Expr,
    columns: &[Option<Block>],
    places: &[usize],
) -> Result<Vec<usize>, AllocError>
    requires narrow { is_narrow [] e.now ≡ true }
    requires rows { AreRowsAt columns.now places.now }
    ensures { IfOk result (λ v. v.items ≡ filter (λ i. is_true (value_of (of_row (row_of columns.now i)) e.now)) places.now) }
{
    match e {
        Expr::Compare(a, cmp, b) => {
            compared_kept(alloc, e, a.get(), *cmp, b.get(), columns, places)
        },
        _ => each_kept(alloc, e, columns, places),
    }
}

/// The places of the rows in which all conditions are true.
pub fn kept_places(
    alloc: Global,
    keep: &[Expr],
    columns: &[Option<Block>],
    places: &[usize],
) -> Result<Vec<usize>, AllocError>
    requires narrow { All (λ e. is_narrow [] e ≡ true) keep.now }
    requires rows { AreRowsAt columns.now places.now }
    ensures { IfOk result (λ v. v.items ≡ filter (λ i. is_kept keep.now (row_of columns.now i)) places.now) }
{
    let mut kept = Vec::from_slice(alloc, places)?;
    for e in keep {
        kept = kept_by(alloc, e, columns, kept.as_slice())?;
    }
    Ok(kept)
}

/// The places of the rows in which all conditions are true that these columns tell.
pub fn told_places(
    alloc: Global,
    keep: &[Expr],
    columns: &[Option<Block>],
    places: &[usize],
) -> Result<Vec<usize>, AllocError>
    requires narrow { All (λ e. is_narrow [] e ≡ true) keep.now }
    requires rows { AreRowsAt columns.now places.now }
    ensures { IfOk result (λ v. v.items ≡ filter (λ i. is_kept (filter (is_told (length columns.now)) keep.now) (row_of columns.now i)) places.now) }
{
    let mut kept = Vec::from_slice(alloc, places)?;
    for e in keep {
        if !looks_between(e, 0, columns.len()) {
            continue;
        }
        kept = kept_by(alloc, e, columns, kept.as_slice())?;
    }
    Ok(kept)
}
