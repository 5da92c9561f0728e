ghost use Rattle.std.specs.Prelude.{◌≡◌, [], map};
ghost use Rattle.std.specs.Option.{option_map_or};
ghost use Rattle.sql_bound.specs.Bounds.{bound_of, bound_of_value, bound_of_aggregate, total, product};
ghost use Rattle.expr_check.specs.Capped.{capped};
ghost use Rattle.statement_binder.specs.Measures.{term_bound_of};

use col_value::Wide;
use sql_bound::{Aggregate, BoundTerm, Expr};
use sql_tree::AggKind;

/// The greatest number that a result may hold, 2^127 - 1.
const GREATEST: u128 = 170141183460469231731687303715884105727;

/// The greatest number of a column, 2^63 - 1.
const COLUMN: u128 = 9223372036854775807;

/// The bound of an aggregate, counted up to 2^128 - 1.
pub(crate) fn bound_of_aggregate(aggregate: &Aggregate) -> u128
    ensures { result ≡ capped (bound_of_aggregate aggregate.now) }
{
    match aggregate.kind {
        AggKind::CountAll => COLUMN,
        AggKind::Count => COLUMN,
        AggKind::Sum => GREATEST,
        AggKind::Min => bound_of_arg(&aggregate.arg),
        AggKind::Max => bound_of_arg(&aggregate.arg),
    }
}

fn bound_of_arg(arg: &Option<Expr>) -> u128
    ensures { result ≡ capped (option_map_or (bound_of []) arg.now 0) }
{
    match arg {
        None => 0,
        Some(e) => bound_of(e),
    }
}

/// The bound of an expression over rows, counted up to 2^128 - 1.
#[cycle(bound)]
fn bound_of(e: &Expr) -> u128
    ensures { result ≡ capped (bound_of [] e.now) }
{
    match e {
        Expr::Lit(value) => bound_of_value(value),
        Expr::Col(_) => COLUMN,
        Expr::Key(_) => COLUMN,
        Expr::Agg(_) => 0,
        Expr::Neg(part) => bound_of(part.get()),
        Expr::Sum(terms) => sum_of(terms.as_slice()),
        Expr::Product(parts) => product_of(parts.as_slice()),
        Expr::Compare(_, _, _) => 0,
        Expr::IsNull(_) => 0,
        Expr::Not(_) => 0,
        Expr::And(_) => 0,
        Expr::Or(_) => 0,
    }
}

#[cycle(bound)]
fn sum_of(terms: &[BoundTerm]) -> u128
    ensures { result ≡ capped (total (map term_bound_of terms.now)) }
{
    let mut sum: u128 = 0;
    for term in terms {
        sum = sum.saturating_add(bound_of(&term.part));
    }
    sum
}

#[cycle(bound)]
fn product_of(parts: &[Expr]) -> u128
    ensures { result ≡ capped (product (map (bound_of []) parts.now)) }
{
    let mut product: u128 = 1;
    for part in parts {
        product = product.saturating_mul(bound_of(part));
    }
    product
}

fn bound_of_value(value: &Wide) -> u128
    ensures { result ≡ capped (bound_of_value value.now) }
{
    match value {
        Wide::Null => 0,
        Wide::Bool(_) => 0,
        Wide::Int(n) => n.unsigned_abs(),
        Wide::Date(_) => 0,
        Wide::Text(_) => 0,
    }
}
