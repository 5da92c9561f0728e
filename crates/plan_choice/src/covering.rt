//! Whether a projection has the columns that a query uses.

ghost use Rattle.std.specs.Prelude.{◌≡◌, ◌==◌, map};
ghost use Rattle.std.specs.List.{list_all, list_any};
ghost use Rattle.plan_choice.specs.Covering.{covers_column, covers, covers_part, covers_aggregate, covers_window, covers_query};

use catalog_types::ProjColumn;
use sql_bound::{Aggregate, BoundQuery, BoundTerm, BoundWindow, Expr, FromItem};

/// Whether the projection has the table's column of this place.
fn has_column(c: usize, columns: &[ProjColumn]) -> bool
    ensures { result ≡ list_any (λ k. k.ordinal == c) columns.now }
{
    columns.iter().any(|column| column.ordinal == c)
}

/// Whether a column of all FROM items is none of this one's, or one that the projection has.
fn covers_column(i: usize, item: FromItem, columns: &[ProjColumn]) -> bool
    ensures { result ≡ covers_column item columns.now i }
{
    i < item.first || item.columns <= i - item.first || has_column(i - item.first, columns)
}

/// The same of all columns that an expression looks at.
#[cycle(covers)]
fn covers(e: &Expr, item: FromItem, columns: &[ProjColumn]) -> bool
    ensures { result ≡ covers item columns.now e.now }
{
    match e {
        Expr::Lit(_) => true,
        Expr::Col(i) => covers_column(*i, item, columns),
        Expr::Key(_) => true,
        Expr::Agg(_) => true,
        Expr::Neg(part) => covers(part.get(), item, columns),
        Expr::Sum(terms) => covers_terms(terms.as_slice(), item, columns),
        Expr::Product(parts) => covers_all(parts.as_slice(), item, columns),
        Expr::Compare(a, _, b) => covers(a.get(), item, columns) && covers(b.get(), item, columns),
        Expr::IsNull(part) => covers(part.get(), item, columns),
        Expr::Not(part) => covers(part.get(), item, columns),
        Expr::And(parts) => covers_all(parts.as_slice(), item, columns),
        Expr::Or(parts) => covers_all(parts.as_slice(), item, columns),
    }
}

#[cycle(covers)]
fn covers_all(parts: &[Expr], item: FromItem, columns: &[ProjColumn]) -> bool
    ensures { result ≡ list_all (λ b. b) (map (covers item columns.now) parts.now) }
{
    for part in parts {
        if !covers(part, item, columns) {
            return false;
        }
    }
    true
}

#[cycle(covers)]
fn covers_terms(terms: &[BoundTerm], item: FromItem, columns: &[ProjColumn]) -> bool
    ensures { result ≡ list_all (λ b. b) (map (covers_part item columns.now) terms.now) }
{
    for term in terms {
        if !covers(&term.part, item, columns) {
            return false;
        }
    }
    true
}

fn covers_aggregate(a: &Aggregate, item: FromItem, columns: &[ProjColumn]) -> bool
    ensures { result ≡ covers_aggregate item columns.now a.now }
{
    match &a.arg {
        Some(e) => covers(e, item, columns),
        None => true,
    }
}

fn covers_aggregates(aggs: &[Aggregate], item: FromItem, columns: &[ProjColumn]) -> bool
    ensures { result ≡ list_all (covers_aggregate item columns.now) aggs.now }
{
    for a in aggs {
        if !covers_aggregate(a, item, columns) {
            return false;
        }
    }
    true
}

fn covers_keys(keys: &[usize], item: FromItem, columns: &[ProjColumn]) -> bool
    ensures { result ≡ list_all (covers_column item columns.now) keys.now }
{
    for key in keys {
        if !covers_column(*key, item, columns) {
            return false;
        }
    }
    true
}

fn covers_window(window: &BoundWindow, item: FromItem, columns: &[ProjColumn]) -> bool
    ensures { result ≡ covers_window item columns.now window.now }
{
    covers_keys(window.partition.as_slice(), item, columns)
        && covers_order(window.order.as_slice(), item, columns)
}

fn covers_order(order: &[(usize, bool)], item: FromItem, columns: &[ProjColumn]) -> bool
    ensures { result ≡ list_all (λ k. covers_column item columns.now k.0) order.now }
{
    for (column, _) in order {
        if !covers_column(*column, item, columns) {
            return false;
        }
    }
    true
}

fn covers_windows(windows: &[BoundWindow], item: FromItem, columns: &[ProjColumn]) -> bool
    ensures { result ≡ list_all (covers_window item columns.now) windows.now }
{
    for window in windows {
        if !covers_window(window, item, columns) {
            return false;
        }
    }
    true
}

/// Whether a projection with these columns has all of this FROM item that the query uses.
pub fn covers_query(q: &BoundQuery, item: FromItem, columns: &[ProjColumn]) -> bool
    ensures { result ≡ covers_query item columns.now q.now }
{
    covers_all(q.keep.as_slice(), item, columns)
        && covers_keys(q.keys.as_slice(), item, columns)
        && covers_aggregates(q.aggs.as_slice(), item, columns)
        && covers_windows(q.windows.as_slice(), item, columns)
        && (q.grouped || covers_all(q.items.as_slice(), item, columns))
}
