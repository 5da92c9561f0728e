//! Whether a query uses a column.

ghost use Rattle.std.specs.Prelude.{◌≡◌, map, true};
ghost use Rattle.std.specs.List.{list_all};
ghost use Rattle.std.specs.Option.{option_map_or};
ghost use Rattle.sql_bound.specs.Used.{is_used};
ghost use Rattle.expr_places.specs.Places.{is_other, looks_only, query_looks_only, term_looks_only, window_looks_only};

use sql_bound::{Aggregate, BoundQuery, BoundTerm, BoundWindow, Expr};

/// Whether the expression doesn't look at this column.
#[cycle(away)]
fn looks_away(e: &Expr, column: usize) -> bool
    ensures { result ≡ looks_only (is_other column) e.now }
{
    match e {
        Expr::Lit(_) | Expr::Key(_) | Expr::Agg(_) => true,
        Expr::Col(i) => *i != column,
        Expr::Neg(part) | Expr::IsNull(part) | Expr::Not(part) => looks_away(part.get(), column),
        Expr::Sum(terms) => terms_look_away(terms.as_slice(), column),
        Expr::Product(parts) | Expr::And(parts) | Expr::Or(parts) => {
            parts_look_away(parts.as_slice(), column)
        },
        Expr::Compare(a, _, b) => looks_away(a.get(), column) && looks_away(b.get(), column),
    }
}

#[cycle(away)]
fn parts_look_away(parts: &[Expr], column: usize) -> bool
    ensures { result ≡ list_all (λ b. b) (map (looks_only (is_other column)) parts.now) }
{
    for part in parts {
        if !looks_away(part, column) {
            return false;
        }
    }
    true
}

#[cycle(away)]
fn terms_look_away(terms: &[BoundTerm], column: usize) -> bool
    ensures { result ≡ list_all (λ b. b) (map (term_looks_only (is_other column)) terms.now) }
{
    for term in terms {
        if !looks_away(&term.part, column) {
            return false;
        }
    }
    true
}

fn all_look_away(exprs: &[Expr], column: usize) -> bool
    ensures { result ≡ list_all (looks_only (is_other column)) exprs.now }
{
    for e in exprs {
        if !looks_away(e, column) {
            return false;
        }
    }
    true
}

fn are_others(columns: &[usize], column: usize) -> bool
    ensures { result ≡ list_all (is_other column) columns.now }
{
    for other in columns {
        if *other == column {
            return false;
        }
    }
    true
}

fn are_other_keys(keys: &[(usize, bool)], column: usize) -> bool
    ensures { result ≡ list_all (λ k. is_other column k.0) keys.now }
{
    for (other, _) in keys {
        if *other == column {
            return false;
        }
    }
    true
}

fn argument_looks_away(arg: &Option<Expr>, column: usize) -> bool
    ensures { result ≡ option_map_or (looks_only (is_other column)) arg.now true }
{
    match arg {
        Some(e) => looks_away(e, column),
        None => true,
    }
}

fn aggregates_look_away(aggs: &[Aggregate], column: usize) -> bool
    ensures { result ≡ list_all (λ a. option_map_or (looks_only (is_other column)) a.arg true) aggs.now }
{
    for aggregate in aggs {
        if !argument_looks_away(&aggregate.arg, column) {
            return false;
        }
    }
    true
}

fn window_looks_away(window: &BoundWindow, column: usize) -> bool
    ensures { result ≡ window_looks_only (is_other column) window.now }
{
    are_others(window.partition.as_slice(), column)
        && are_other_keys(window.order.as_slice(), column)
}

fn windows_look_away(windows: &[BoundWindow], column: usize) -> bool
    ensures { result ≡ list_all (window_looks_only (is_other column)) windows.now }
{
    for window in windows {
        if !window_looks_away(window, column) {
            return false;
        }
    }
    true
}

fn query_looks_away(query: &BoundQuery, column: usize) -> bool
    ensures { result ≡ query_looks_only (is_other column) query.now }
{
    all_look_away(query.keep.as_slice(), column)
        && are_others(query.keys.as_slice(), column)
        && aggregates_look_away(query.aggs.as_slice(), column)
        && windows_look_away(query.windows.as_slice(), column)
        && (query.grouped || all_look_away(query.items.as_slice(), column))
}

/// Whether the query uses the column at a place among those of all FROM items.
#[tactic(auto, using(crate::proofs::UsedColumns::used_or_away))]
pub fn is_used(query: &BoundQuery, column: usize) -> bool
    ensures { result ≡ is_used query.now column }
{
    !query_looks_away(query, column)
}
