ghost use Rattle.std.specs.Prelude.{◌≡◌, true, map, IfOk};
ghost use Rattle.std.specs.List.{list_all};
ghost use Rattle.std.specs.Option.{option_map_or};
ghost use Rattle.sql_bound.specs.Kinds.{is_condition, kind_of_aggregate};
ghost use Rattle.sql_binding.specs.Queries.{is_typed, is_typed_aggregate, is_typed_query, row_kinds, group_kinds, tuple_kinds, kind_or_null};
ghost use Rattle.statement_binder.specs.Measures.{is_typed_in, over_columns};

use crate::kinds::{aggregate_kinds, column_kinds, key_kinds, kind_of_aggregate};
use expr_check::{Places, is_condition, kind_of};
use name_binder::SeenColumn;
use sql_bound::{Aggregate, BoundQuery, Expr, Kind};
use std::alloc::{AllocError, Global};

/// Whether the conditions of a query are truth values, and its items and aggregates typed.
pub fn is_typed_query(
    alloc: Global,
    seen: &[SeenColumn<'_>],
    query: &BoundQuery,
) -> Result<bool, AllocError>
    ensures { IfOk result (λ t. t ≡ is_typed_query (row_kinds seen.now) query.now) }
{
    let columns = column_kinds(alloc, seen)?;
    is_typed_over(alloc, columns.as_slice(), query)
}

/// The same over columns of these kinds.
fn is_typed_over(alloc: Global, columns: &[Kind], query: &BoundQuery) -> Result<bool, AllocError>
    ensures { IfOk result (λ t. t ≡ is_typed_query (over_columns columns.now) query.now) }
{
    if query.grouped {
        is_typed_groups(alloc, columns, query)
    } else {
        is_typed_tuples(alloc, columns, query)
    }
}

fn is_typed_tuples(alloc: Global, columns: &[Kind], query: &BoundQuery) -> Result<bool, AllocError>
    ensures { IfOk result (λ t. t ≡ is_typed_in (over_columns columns.now) (tuple_kinds (over_columns columns.now) query.now) query.now) }
{
    let rows = Places::new(columns, &[], &[]);
    let aggs = kinds_of_aggregates(alloc, columns, query.aggs.as_slice())?;
    let tuples = Places::new(columns, &[], aggs.as_slice());
    Ok(is_typed_in(&rows, &tuples, query))
}

fn is_typed_groups(alloc: Global, columns: &[Kind], query: &BoundQuery) -> Result<bool, AllocError>
    ensures { IfOk result (λ t. t ≡ is_typed_in (over_columns columns.now) (group_kinds (over_columns columns.now) query.now) query.now) }
{
    let rows = Places::new(columns, &[], &[]);
    let keys = key_kinds(alloc, columns, query.keys.as_slice())?;
    let aggs = kinds_of_aggregates(alloc, columns, query.aggs.as_slice())?;
    let groups = Places::new(&[], keys.as_slice(), aggs.as_slice());
    Ok(is_typed_in(&rows, &groups, query))
}

/// The kinds of the aggregates over columns of these kinds.
fn kinds_of_aggregates(
    alloc: Global,
    columns: &[Kind],
    aggs: &[Aggregate],
) -> Result<Vec<Kind>, AllocError>
    ensures { IfOk result (λ v. v.items ≡ map (λ a. kind_or_null (kind_of_aggregate (over_columns columns.now) a)) aggs.now) }
{
    let rows = Places::new(columns, &[], &[]);
    aggregate_kinds(alloc, &rows, aggs)
}

/// Whether each expression is typed, where the items and HAVING see these kinds.
fn is_typed_in(rows: &Places<'_>, shown: &Places<'_>, query: &BoundQuery) -> bool
    ensures { result ≡ is_typed_in rows.now shown.now query.now }
{
    are_conditions(rows, query.keep.as_slice())
        && are_typed_aggregates(rows, query.aggs.as_slice())
        && are_typed(shown, query.items.as_slice())
        && is_condition_or_none(shown, &query.having)
}

fn are_conditions(places: &Places<'_>, keep: &[Expr]) -> bool
    ensures { result ≡ list_all (is_condition places.now) keep.now }
{
    for condition in keep {
        if !is_condition(condition, places) {
            return false;
        }
    }
    true
}

fn are_typed_aggregates(rows: &Places<'_>, aggs: &[Aggregate]) -> bool
    ensures { result ≡ list_all (is_typed_aggregate rows.now) aggs.now }
{
    for aggregate in aggs {
        if !is_typed_aggregate(rows, aggregate) {
            return false;
        }
    }
    true
}

fn is_typed_aggregate(rows: &Places<'_>, aggregate: &Aggregate) -> bool
    ensures { result ≡ is_typed_aggregate rows.now aggregate.now }
{
    kind_of_aggregate(rows, aggregate).is_some() && is_typed_or_none(rows, &aggregate.arg)
}

fn is_typed_or_none(places: &Places<'_>, e: &Option<Expr>) -> bool
    ensures { result ≡ option_map_or (is_typed places.now) e.now true }
{
    match e {
        None => true,
        Some(e) => kind_of(e, places).is_some(),
    }
}

fn are_typed(places: &Places<'_>, items: &[Expr]) -> bool
    ensures { result ≡ list_all (is_typed places.now) items.now }
{
    for item in items {
        if kind_of(item, places).is_none() {
            return false;
        }
    }
    true
}

fn is_condition_or_none(places: &Places<'_>, having: &Option<Expr>) -> bool
    ensures { result ≡ option_map_or (is_condition places.now) having.now true }
{
    match having {
        None => true,
        Some(e) => is_condition(e, places),
    }
}
