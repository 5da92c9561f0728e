ghost use Rattle.std.specs.Prelude.{◌≡◌, map, nat_le};
ghost use Rattle.std.specs.List.{slice_index_or};
ghost use Rattle.sql_bound.specs.Bounds.{bound_of_value, measure, total, product, bounds, all_narrow, is_narrow, result_bound};
ghost use Rattle.expr_check.specs.Capped.{capped};
ghost use Rattle.expr_check.specs.Terms.{term_measure_of, is_narrow_sum, is_narrow_product};

use col_value::Wide;
use sql_bound::{BoundTerm, Expr};

/// The greatest number that a result may hold, 2^127 - 1.
const GREATEST: u128 = 170141183460469231731687303715884105727;

/// The greatest number of a column, 2^63 - 1.
const COLUMN: u128 = 9223372036854775807;

/// The bound of an expression, counted up to 2^128 - 1, and whether the expression is narrow.
#[derive(Clone, Copy)]
struct Bounded {
    bound: u128,
    narrow: bool,
}

/// Whether each part of the expression that is a number has a static bound of at most 2^127 - 1, where the aggregates have
/// these bounds.
pub fn is_narrow(e: &Expr, aggs: &[u128]) -> bool
    ensures { result ≡ is_narrow aggs.now e.now }
{
    measure(e, aggs).narrow
}

#[cycle(measure)]
fn measure(e: &Expr, aggs: &[u128]) -> Bounded
    ensures bound { result.bound ≡ capped (measure aggs.now e.now).0 }
    ensures narrow { result.narrow ≡ (measure aggs.now e.now).1 }
{
    match e {
        Expr::Lit(value) => number(bound_of_value(value)),
        Expr::Col(_) | Expr::Key(_) => number(COLUMN),
        Expr::Agg(i) => number(bound_at(aggs, *i)),
        Expr::Neg(part) => {
            let part = measure(part.get(), aggs);
            Bounded {
                bound: part.bound,
                narrow: part.bound <= GREATEST && part.narrow,
            }
        },
        Expr::Sum(terms) => sum_of(terms.as_slice(), aggs),
        Expr::Product(parts) => product_of(parts.as_slice(), aggs),
        Expr::Compare(a, _, b) => {
            let (a, b) = (measure(a.get(), aggs), measure(b.get(), aggs));
            truth(a.narrow && b.narrow)
        },
        Expr::IsNull(part) | Expr::Not(part) => truth(measure(part.get(), aggs).narrow),
        Expr::And(parts) | Expr::Or(parts) => truth(are_narrow(parts.as_slice(), aggs)),
    }
}

/// The measure of a sum.
#[cycle(measure)]
fn sum_of(terms: &[BoundTerm], aggs: &[u128]) -> Bounded
    ensures bound { result.bound ≡ capped (total (bounds (map (term_measure_of aggs.now) terms.now))) }
    ensures narrow { result.narrow ≡ is_narrow_sum (map (term_measure_of aggs.now) terms.now) }
{
    let mut bound: u128 = 0;
    let mut narrow = true;
    for term in terms {
        let part = measure(&term.part, aggs);
        bound = bound.saturating_add(part.bound);
        narrow &= part.narrow;
    }
    Bounded {
        bound,
        narrow: bound <= GREATEST && narrow,
    }
}

/// The measure of a product.
#[cycle(measure)]
fn product_of(parts: &[Expr], aggs: &[u128]) -> Bounded
    ensures bound { result.bound ≡ capped (product (bounds (map (measure aggs.now) parts.now))) }
    ensures narrow { result.narrow ≡ is_narrow_product (map (measure aggs.now) parts.now) }
{
    let mut bound: u128 = 1;
    let mut narrow = true;
    for part in parts {
        let part = measure(part, aggs);
        bound = bound.saturating_mul(part.bound);
        narrow &= part.narrow;
    }
    Bounded {
        bound,
        narrow: bound <= GREATEST && narrow,
    }
}

/// Whether all parts are narrow.
#[cycle(measure)]
fn are_narrow(parts: &[Expr], aggs: &[u128]) -> bool
    ensures { result ≡ all_narrow (map (measure aggs.now) parts.now) }
{
    for part in parts {
        if !measure(part, aggs).narrow {
            return false;
        }
    }
    true
}

/// A number of this bound.
fn number(bound: u128) -> Bounded
    ensures bound { result.bound ≡ capped bound }
    ensures narrow { result.narrow ≡ nat_le bound result_bound }
{
    Bounded {
        bound,
        narrow: bound <= GREATEST,
    }
}

/// What is no number has no bound: its parts alone are asked.
fn truth(narrow: bool) -> Bounded
    ensures bound { result.bound ≡ 0 }
    ensures narrow { result.narrow ≡ narrow }
{
    Bounded { bound: 0, narrow }
}

/// The bound of an aggregate; of one that is not there it is 0.
fn bound_at(aggs: &[u128], i: usize) -> u128
    ensures { result ≡ slice_index_or aggs.now i 0 }
{
    aggs.get(i).copied().unwrap_or(0)
}

fn bound_of_value(value: &Wide) -> u128
    ensures { result ≡ bound_of_value value.now }
{
    match value {
        Wide::Int(n) => n.unsigned_abs(),
        Wide::Null | Wide::Bool(_) | Wide::Date(_) | Wide::Text(_) => 0,
    }
}
