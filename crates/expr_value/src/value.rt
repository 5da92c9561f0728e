ghost use Rattle.std.specs.Prelude.{◌≡◌, ◌≤◌, ◌+ℤ◌, ◌*ℤ◌, ◌↔◌, Some, IsTrue, true, map};
ghost use Rattle.std.specs.List.{All};
ghost use Rattle.col_value.specs.Order.{IsValue};
ghost use Rattle.sql_bound.specs.Bounds.{bound_of_value, measure, all_narrow, is_narrow, result_bound};
ghost use Rattle.sql_bound.specs.Values.{both_hold, one_holds, number, of_both, value_of};
ghost use Rattle.expr_value.specs.Terms.{term_value, measure_of_term, is_narrow_sum, is_narrow_product, added, multiplied, wrapped, all_hold, some_hold};
ghost use Rattle.expr_value.specs.Worths.{wide_of};

use crate::sight::Sight;
use crate::worth::Worth;
use sql_bound::{BoundTerm, Expr};

/// The value of a narrow expression. NULL and unknown are the same.
#[cycle(value)]
pub fn value_of<'a>(e: &'a Expr, sight: &Sight<'a>) -> Worth<'a>
    requires narrow { is_narrow (map bound_of_value sight.now.aggs) e.now ≡ true }
    requires rows { All IsValue sight.now.row }
    requires keys { All IsValue sight.now.keys }
    ensures { wide_of result ≡ value_of sight.now e.now }
{
    match e {
        Expr::Lit(value) => Worth::of_wide(value),
        Expr::Col(i) => sight.column(*i),
        Expr::Key(i) => sight.key(*i),
        Expr::Agg(i) => sight.agg(*i),
        Expr::Neg(part) => value_of(part.get(), sight).negated(),
        Expr::Sum(terms) => Worth::of_number(sum(terms.as_slice(), sight)),
        Expr::Product(parts) => Worth::of_number(product(parts.as_slice(), sight)),
        Expr::Compare(a, cmp, b) => value_of(a.get(), sight).compared(
            *cmp,
            &value_of(b.get(), sight),
        ),
        Expr::IsNull(part) => Worth::Bool(value_of(part.get(), sight).is_null()),
        Expr::Not(part) => value_of(part.get(), sight).denied(),
        Expr::And(parts) => Worth::of_truth(all_hold(parts.as_slice(), sight)),
        Expr::Or(parts) => Worth::of_truth(some_hold(parts.as_slice(), sight)),
    }
}

/// The sum of all parts, or None where one of them is NULL.
#[cycle(value)]
fn sum<'a>(terms: &'a [BoundTerm], sight: &Sight<'a>) -> Option<i128>
    requires narrow { is_narrow_sum (map (measure_of_term (map bound_of_value sight.now.aggs)) terms.now) ≡ true }
    requires rows { All IsValue sight.now.row }
    requires keys { All IsValue sight.now.keys }
    ensures { result ≡ added (map (term_value sight.now) terms.now) }
{
    let mut so_far = Some(0);
    for term in terms {
        so_far = plus(so_far, term_value(term, sight).number());
    }
    so_far
}

/// A part of a sum, its sign turned where a minus stands before it.
#[cycle(value)]
fn term_value<'a>(term: &'a BoundTerm, sight: &Sight<'a>) -> Worth<'a>
    requires narrow { (measure_of_term (map bound_of_value sight.now.aggs) term.now).1 ≡ true }
    requires rows { All IsValue sight.now.row }
    requires keys { All IsValue sight.now.keys }
    ensures { wide_of result ≡ term_value sight.now term.now }
{
    let part = value_of(&term.part, sight);
    if term.minus { part.negated() } else { part }
}

/// The product of all parts, or None where one of them is NULL. It fits, though factors before a 0 may pass every bound, so
/// it may wrap on the way.
#[cycle(value)]
fn product<'a>(parts: &'a [Expr], sight: &Sight<'a>) -> Option<i128>
    requires narrow { is_narrow_product (map (measure (map bound_of_value sight.now.aggs)) parts.now) ≡ true }
    requires rows { All IsValue sight.now.row }
    requires keys { All IsValue sight.now.keys }
    ensures { result ≡ multiplied (map (value_of sight.now) parts.now) }
{
    let mut so_far = Some(1);
    for part in parts {
        so_far = times(so_far, value_of(part, sight).number());
    }
    so_far
}

/// AND of all parts: a part that is false settles it, also behind one that is unknown.
#[cycle(value)]
fn all_hold<'a>(parts: &'a [Expr], sight: &Sight<'a>) -> Option<bool>
    requires narrow { all_narrow (map (measure (map bound_of_value sight.now.aggs)) parts.now) ≡ true }
    requires rows { All IsValue sight.now.row }
    requires keys { All IsValue sight.now.keys }
    ensures { result ≡ all_hold (map (value_of sight.now) parts.now) }
{
    let mut so_far = Some(true);
    for part in parts {
        so_far = both_hold(so_far, value_of(part, sight).truth());
        if is(so_far, false) {
            return so_far;
        }
    }
    so_far
}

/// OR of all parts: a part that is true settles it, also behind one that is unknown.
#[cycle(value)]
fn some_hold<'a>(parts: &'a [Expr], sight: &Sight<'a>) -> Option<bool>
    requires narrow { all_narrow (map (measure (map bound_of_value sight.now.aggs)) parts.now) ≡ true }
    requires rows { All IsValue sight.now.row }
    requires keys { All IsValue sight.now.keys }
    ensures { result ≡ some_hold (map (value_of sight.now) parts.now) }
{
    let mut so_far = Some(false);
    for part in parts {
        so_far = one_holds(so_far, value_of(part, sight).truth());
        if is(so_far, true) {
            return so_far;
        }
    }
    so_far
}

fn plus(a: Option<i128>, b: Option<i128>) -> Option<i128>
    requires { bound_of_value (number (of_both ◌+ℤ◌ a b)) ≤ result_bound }
    ensures { result ≡ of_both ◌+ℤ◌ a b }
{
    match (a, b) {
        (Some(a), Some(b)) => Some(a + b),
        _ => None,
    }
}

/// The product, wrapped where it does not fit.
fn times(a: Option<i128>, b: Option<i128>) -> Option<i128>
    ensures { result ≡ wrapped (of_both ◌*ℤ◌ a b) }
{
    match (a, b) {
        (Some(a), Some(b)) => Some(a.wrapping_mul(b)),
        _ => None,
    }
}

fn both_hold(a: Option<bool>, b: Option<bool>) -> Option<bool>
    ensures { result ≡ both_hold a b }
{
    match (a, b) {
        (Some(false), _) | (_, Some(false)) => Some(false),
        (Some(true), b) => b,
        (None, _) => None,
    }
}

fn one_holds(a: Option<bool>, b: Option<bool>) -> Option<bool>
    ensures { result ≡ one_holds a b }
{
    match (a, b) {
        (Some(true), _) | (_, Some(true)) => Some(true),
        (Some(false), b) => b,
        (None, _) => None,
    }
}

/// Whether the truth value is known to be this.
fn is(known: Option<bool>, want: bool) -> bool
    ensures { IsTrue result ↔ (known ≡ Some want) }
{
    match known {
        Some(b) => b == want,
        None => false,
    }
}
