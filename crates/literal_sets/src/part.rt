//! One of the comparisons: a column with a literal.

ghost use Rattle.std.specs.Prelude.{◌≡◌, ◌∷◌, List, [], false, slice_index_or, IsTrue, IfOk, IfSome};
ghost use Rattle.col_value.specs.Order.{widened};
ghost use Rattle.col_value.specs.declared.value.Value.{Value as Item};
ghost use Rattle.col_value.specs.declared.value.Value.TheVariants.{Null};
ghost use Rattle.col_value.specs.declared.wide.Wide.{Wide as Worth};
ghost use Rattle.row_keys.specs.Keys.{is_null, is_same_key};
ghost use Rattle.sql_bound.specs.Values.{compared, is_true, of_row, value_of};

use col_value::{Value, Wide};
use sql_bound::Expr;
use sql_tree::Cmp;
use std::alloc::{AllocError, Global};

/// The column that a comparison has on its left side.
pub fn column_of(part: &Expr) -> Option<usize> {
    match part {
        Expr::Compare(a, _, _) => match a.get() {
            Expr::Col(column) => Some(*column),
            _ => None,
        },
        _ => None,
    }
}

/// The value with which a condition says that a column is equal, if it says just this.
pub fn value_in(alloc: Global, part: &Expr, column: usize) -> Result<Option<Value>, AllocError>
    ensures { IfOk result (λ o. IfSome o (λ v. (row : List Item) → is_true (value_of (of_row row) part.now) ≡ is_same_key (v ∷ []) (slice_index_or row column Null ∷ []))) }
{
    match part {
        Expr::Compare(a, cmp, b) => value_compared(alloc, a.get(), *cmp, b.get(), column),
        _ => Ok(None),
    }
}

/// The same of a comparison.
fn value_compared(
    alloc: Global,
    a: &Expr,
    cmp: Cmp,
    b: &Expr,
    column: usize,
) -> Result<Option<Value>, AllocError>
    ensures { IfOk result (λ o. IfSome o (λ v. (row : List Item) → is_true (compared cmp (value_of (of_row row) a.now) (value_of (of_row row) b.now)) ≡ is_same_key (v ∷ []) (slice_index_or row column Null ∷ []))) }
{
    if !is_equality(cmp) || !is_column(a, column) {
        return Ok(None);
    }
    value_of(alloc, b)
}

fn is_equality(cmp: Cmp) -> bool
    ensures { IsTrue result → cmp ≡ Cmp.Eq }
{
    match cmp {
        Cmp::Eq => true,
        Cmp::Ne | Cmp::Lt | Cmp::Le | Cmp::Gt | Cmp::Ge => false,
    }
}

/// Whether an expression is this column.
fn is_column(e: &Expr, column: usize) -> bool
    ensures { IsTrue result → (row : List Item) → value_of (of_row row) e.now ≡ widened (slice_index_or row column Null) }
{
    match e {
        Expr::Col(c) => *c == column,
        _ => false,
    }
}

/// The value of a table that a literal is; none for NULL, with which nothing is equal.
fn value_of(alloc: Global, e: &Expr) -> Result<Option<Value>, AllocError>
    ensures { IfOk result (λ o. IfSome o (λ v. (is_null v ≡ false) × ((row : List Item) → value_of (of_row row) e.now ≡ widened v))) }
{
    match e {
        Expr::Lit(literal) => narrowed(alloc, literal),
        _ => Ok(None),
    }
}

fn narrowed(alloc: Global, literal: &Wide) -> Result<Option<Value>, AllocError>
    ensures { IfOk result (λ o. IfSome o (λ v. (is_null v ≡ false) × (literal.now ≡ widened v))) }
{
    match literal {
        Wide::Null => Ok(None),
        Wide::Bool(b) => Ok(Some(Value::Bool(*b))),
        Wide::Int(n) => Ok(number(*n)),
        Wide::Date(d) => Ok(Some(Value::Date(*d))),
        Wide::Text(t) => Ok(Some(Value::Text(t.copy(alloc)?))),
    }
}

fn number(n: i128) -> Option<Value>
    ensures { IfSome result (λ v. (is_null v ≡ false) × (Worth.Int n ≡ widened v)) }
{
    match i64::try_from(n) {
        Ok(n) => Some(Value::Int(n)),
        Err(_) => None,
    }
}
