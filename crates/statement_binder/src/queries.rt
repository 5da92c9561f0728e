ghost use Rattle.std.specs.Prelude.{◌≡◌, [], true, false, length, IfOk, IfErr, OnOk, map, not, None, Err};
ghost use Rattle.std.specs.List.{All};
ghost use Rattle.sql_tree.specs.declared.refusal.Refusal.{Refusal};
ghost use Rattle.sql_binding.specs.Firsts.{refused_where};
ghost use Rattle.sql_binding.specs.Outputs.{output_names, unknown_key};
ghost use Rattle.sql_binding.specs.Queries.{query_refusal, refusal_over, bound_query, bound_in, columns_of, grouping, whole_scope, tree_refusal, from_limit, row_kinds, is_typed_query, is_narrow_query};
ghost use Rattle.name_binder.specs.Refusing.{RefusesBy};
ghost use Rattle.name_binder.specs.Tables.{columns_found};
ghost use Rattle.sql_binding.specs.Sight.{place_of};
ghost use Rattle.statement_binder.specs.Answers.{IsBoundQuery, later_refusal, seen_refusal};
ghost use Rattle.statement_binder.specs.Scopes.{scope_of, rows_query, groups_query, base_in, made_in, shown_in};

use crate::Scope;
use crate::items::{bind_group_items, bind_having, bind_row_items};
use crate::keep::bind_keep;
use crate::narrowness::is_narrow_query;
use crate::sources::bind_sources;
use crate::types::is_typed_query;
use crate::windows::{bind_frames, bind_windows};
use col_value::{List, Name};
use name_binder::{
    BindFault, Found, SeenColumn, bind_order, check_names, find_tables, is_grouped, output_names,
    place_of, sight,
};
use sql_bound::{Aggregate, BoundQuery, BoundWindow, Expr, FromItem};
use sql_tree::{ColRef, Query, Refusal, Which};
use std::alloc::{AllocError, Global};

/// The bound tree of a query, whose FROM items have tables that were found or were not, one for each item in order.
pub fn bind_query(
    alloc: Global,
    query: &Query,
    found: &[Option<Found<'_>>],
) -> Result<BoundQuery, BindFault>
    requires { length found.now ≡ length query.now.sources }
    ensures bound { IfOk result (IsBoundQuery found.now query.now) }
    ensures refused { IfErr result (RefusesBy (query_refusal (columns_found found.now) query.now)) }
{
    let tables = find_tables(alloc, query, found)?;
    bind_over(alloc, query, tables.as_slice())
}

/// The bound tree of a query over its tables.
fn bind_over(alloc: Global, query: &Query, tables: &[Found<'_>]) -> Result<BoundQuery, BindFault>
    ensures accepted { OnOk result (refusal_over (columns_of tables.now) query.now ≡ None) }
    ensures bound { IfOk result (λ b. b ≡ bound_query tables.now query.now) }
    ensures refused { IfErr result (RefusesBy (refusal_over (columns_of tables.now) query.now)) }
{
    let seen = sight(alloc, query.sources.as_slice(), tables)?;
    bind_seen(alloc, seen.as_slice(), tables, query)
}

/// The bound tree of a query over these columns in sight.
fn bind_seen<'x>(
    alloc: Global,
    seen: &'x [SeenColumn<'x>],
    tables: &[Found<'_>],
    query: &Query,
) -> Result<BoundQuery, BindFault>
    ensures accepted { OnOk result (seen_refusal seen.now (columns_of tables.now) query.now ≡ None) }
    ensures bound { IfOk result (λ b. b ≡ bound_in tables.now seen.now query.now) }
    ensures refused { IfErr result (RefusesBy (seen_refusal seen.now (columns_of tables.now) query.now)) }
{
    let outputs = output_names(alloc, seen, &query.items)?;
    check_names(alloc, seen, outputs.as_slice(), query)?;
    bind_checked(alloc, seen, outputs.as_slice(), tables, query)
}

/// The bound tree of a query whose names are right; `outputs` are the names of its output columns.
fn bind_checked<'x>(
    alloc: Global,
    seen: &'x [SeenColumn<'x>],
    outputs: &[Option<Name>],
    tables: &[Found<'_>],
    query: &Query,
) -> Result<BoundQuery, BindFault>
    requires outputs { outputs.now ≡ output_names seen.now query.now.items }
    requires keys { All (λ k. unknown_key outputs.now k.key ≡ None) query.now.order }
    ensures accepted { OnOk result (later_refusal seen.now (columns_of tables.now) query.now ≡ None) }
    ensures bound { IfOk result (λ b. b ≡ bound_in tables.now seen.now query.now) }
    ensures refused { IfErr result (RefusesBy (later_refusal seen.now (columns_of tables.now) query.now)) }
{
    let bound = bind_named(alloc, seen, outputs, tables, query)?;
    match check_bound(alloc, seen, tables, &bound, query) {
        Ok(()) => Ok(bound),
        Err(fault) => refused(bound, fault),
    }
}

/// The fault; the tree goes.
fn refused(bound: BoundQuery, fault: BindFault) -> Result<BoundQuery, BindFault>
    ensures { result ≡ Err fault }
{
    let _bound = bound;
    Err(fault)
}

/// Refuses a query whose names are right for its types, its bounds or its number of FROM items.
#[tactic(auto, using(crate::proofs::Refused::same_trees))]
fn check_bound(
    alloc: Global,
    seen: &[SeenColumn<'_>],
    tables: &[Found<'_>],
    bound: &BoundQuery,
    query: &Query,
) -> Result<(), BindFault>
    requires { bound.now ≡ bound_in tables.now seen.now query.now }
    ensures ok { OnOk result (later_refusal seen.now (columns_of tables.now) query.now ≡ None) }
    ensures refused { IfErr result (RefusesBy (later_refusal seen.now (columns_of tables.now) query.now)) }
{
    check_trees(alloc, seen, bound)?;
    check_limit(query)
}

/// The bound tree of a query whose names are right; `outputs` are the names of its output columns.
pub fn bind_named<'x>(
    alloc: Global,
    seen: &'x [SeenColumn<'x>],
    outputs: &[Option<Name>],
    tables: &[Found<'_>],
    query: &Query,
) -> Result<BoundQuery, AllocError>
    requires outputs { outputs.now ≡ output_names seen.now query.now.items }
    requires keys { All (λ k. unknown_key outputs.now k.key ≡ None) query.now.order }
    ensures { IfOk result (λ b. b ≡ bound_in tables.now seen.now query.now) }
{
    let keys = grouping(alloc, seen, query)?;
    let scope = Scope {
        seen,
        last: query.sources.as_slice().len(),
        keys: keys.as_slice(),
    };
    bind_in(alloc, scope, outputs, tables, query)
}

/// The bound tree of a query in the scope of its FROM items and its GROUP BY.
fn bind_in(
    alloc: Global,
    scope: Scope<'_>,
    outputs: &[Option<Name>],
    tables: &[Found<'_>],
    query: &Query,
) -> Result<BoundQuery, AllocError>
    requires outputs { outputs.now ≡ output_names scope.seen.now query.now.items }
    requires keys { All (λ k. unknown_key outputs.now k.key ≡ None) query.now.order }
    requires whole { scope_of scope ≡ whole_scope scope.seen.now query.now }
    ensures { IfOk result (λ b. b ≡ bound_in tables.now scope.entry.seen.now query.now) }
{
    if is_grouped(query) {
        over_groups(alloc, scope, outputs, tables, query)
    } else {
        over_rows(alloc, scope, outputs, tables, query)
    }
}

/// What a query has over rows and over groups alike.
#[derive(Drop)]
struct Base {
    sources: List<FromItem>,
    keep: List<Expr>,
    order: List<(usize, bool)>,
}

/// What a query has over groups alone: its keys, and what it shows with the aggregates that stand in it.
#[derive(Drop)]
struct Shown {
    keys: List<usize>,
    aggs: List<Aggregate>,
    items: List<Expr>,
    having: Option<Expr>,
}

/// What a query has over rows alone: its windows, what they are over their frames, and its items.
#[derive(Drop)]
struct Made {
    windows: List<BoundWindow>,
    aggs: List<Aggregate>,
    items: List<Expr>,
}

fn over_rows(
    alloc: Global,
    scope: Scope<'_>,
    outputs: &[Option<Name>],
    tables: &[Found<'_>],
    query: &Query,
) -> Result<BoundQuery, AllocError>
    requires { All (λ k. unknown_key outputs.now k.key ≡ None) query.now.order }
    ensures { IfOk result (λ b. b ≡ rows_query (scope_of scope.entry) tables.now outputs.now query.now) }
{
    let made = bind_made(alloc, scope, query)?;
    let base = bind_base(alloc, scope, outputs, tables, query)?;
    Ok(with_rows(alloc, base, made, query.limit))
}

fn over_groups(
    alloc: Global,
    scope: Scope<'_>,
    outputs: &[Option<Name>],
    tables: &[Found<'_>],
    query: &Query,
) -> Result<BoundQuery, AllocError>
    requires { All (λ k. unknown_key outputs.now k.key ≡ None) query.now.order }
    ensures { IfOk result (λ b. b ≡ groups_query (scope_of scope.entry) tables.now outputs.now query.now) }
{
    let shown = bind_shown(alloc, scope, query)?;
    let base = bind_base(alloc, scope, outputs, tables, query)?;
    Ok(with_groups(alloc, base, shown, query.limit))
}

fn bind_base(
    alloc: Global,
    scope: Scope<'_>,
    outputs: &[Option<Name>],
    tables: &[Found<'_>],
    query: &Query,
) -> Result<Base, AllocError>
    requires { All (λ k. unknown_key outputs.now k.key ≡ None) query.now.order }
    ensures { IfOk result (λ b. b ≡ base_in (scope_of scope.entry) tables.now outputs.now query.now) }
{
    let sources = bind_sources(alloc, tables)?;
    let keep = bind_keep(alloc, scope, query)?;
    let order = bind_order(alloc, outputs, query.order.as_slice())?;
    Ok(Base {
        sources,
        keep,
        order,
    })
}

fn bind_made(alloc: Global, scope: Scope<'_>, query: &Query) -> Result<Made, AllocError>
    ensures { IfOk result (λ m. m ≡ made_in (scope_of scope.entry) query.now) }
{
    let windows = bind_windows(alloc, scope, &query.items)?;
    let aggs = bind_frames(alloc, scope, &query.items)?;
    let items = bind_row_items(alloc, scope, &query.items)?;
    Ok(Made {
        windows,
        aggs,
        items,
    })
}

fn bind_shown(alloc: Global, scope: Scope<'_>, query: &Query) -> Result<Shown, AllocError>
    ensures { IfOk result (λ s. s ≡ shown_in (scope_of scope.entry) query.now) }
{
    let keys = Vec::from_slice(alloc, scope.keys)?;
    let mut aggs = Vec::new(alloc);
    let items = bind_group_items(alloc, scope, &query.items, &mut aggs)?;
    let having = bind_having(alloc, scope, query, &mut aggs)?;
    Ok(Shown {
        keys: List::new(keys),
        aggs: List::new(aggs),
        items,
        having,
    })
}

/// The query over rows that makes this.
fn with_rows(alloc: Global, base: Base, made: Made, limit: Option<u128>) -> BoundQuery
    ensures { result ≡ record { sources = base.sources; keep = base.keep; grouped = false; keys = []; aggs = made.aggs; having = None; windows = made.windows; items = made.items; order = base.order; limit = limit } }
{
    let Base {
        sources,
        keep,
        order,
    } = base;
    let Made {
        windows,
        aggs,
        items,
    } = made;
    BoundQuery {
        sources,
        keep,
        grouped: false,
        keys: List::new(Vec::new(alloc)),
        aggs,
        having: None,
        windows,
        items,
        order,
        limit,
    }
}

/// The query over groups that shows this.
fn with_groups(alloc: Global, base: Base, shown: Shown, limit: Option<u128>) -> BoundQuery
    ensures { result ≡ record { sources = base.sources; keep = base.keep; grouped = true; keys = shown.keys; aggs = shown.aggs; having = shown.having; windows = []; items = shown.items; order = base.order; limit = limit } }
{
    let Base {
        sources,
        keep,
        order,
    } = base;
    let Shown {
        keys,
        aggs,
        items,
        having,
    } = shown;
    BoundQuery {
        sources,
        keep,
        grouped: true,
        keys,
        aggs,
        having,
        windows: List::new(Vec::new(alloc)),
        items,
        order,
        limit,
    }
}

/// The columns of GROUP BY by their places.
fn grouping(alloc: Global, seen: &[SeenColumn<'_>], query: &Query) -> Result<Vec<usize>, AllocError>
    ensures { IfOk result (λ v. v.items ≡ grouping seen.now query.now) }
{
    places_of(
        alloc,
        seen,
        query.sources.as_slice().len(),
        query.group.as_slice(),
    )
}

fn places_of(
    alloc: Global,
    seen: &[SeenColumn<'_>],
    last: usize,
    group: &[ColRef],
) -> Result<Vec<usize>, AllocError>
    ensures { IfOk result (λ v. v.items ≡ map (place_of seen.now last) group.now) }
{
    let mut out = Vec::with_capacity(alloc, group.len())?;
    for column in group {
        out.push(place_of(seen, last, column))?;
    }
    Ok(out)
}

/// Refuses a query of which an expression isn't typed, or too wide.
pub fn check_trees(
    alloc: Global,
    seen: &[SeenColumn<'_>],
    bound: &BoundQuery,
) -> Result<(), BindFault>
    ensures ok { OnOk result (tree_refusal seen.now bound.now ≡ None) }
    ensures refused { IfErr result (RefusesBy (tree_refusal seen.now bound.now)) }
{
    check_types(alloc, seen, bound)?;
    check_bounds(alloc, bound)
}

fn check_types(alloc: Global, seen: &[SeenColumn<'_>], bound: &BoundQuery) -> Result<(), BindFault>
    ensures ok { OnOk result (refused_where (not (is_typed_query (row_kinds seen.now) bound.now)) Refusal.TypeMismatch ≡ None) }
    ensures refused { IfErr result (RefusesBy (refused_where (not (is_typed_query (row_kinds seen.now) bound.now)) Refusal.TypeMismatch)) }
{
    if is_typed_query(alloc, seen, bound)? {
        Ok(())
    } else {
        Err(BindFault::Refused(Refusal::TypeMismatch))
    }
}

fn check_bounds(alloc: Global, bound: &BoundQuery) -> Result<(), BindFault>
    ensures ok { OnOk result (refused_where (not (is_narrow_query bound.now)) Refusal.TooWide ≡ None) }
    ensures refused { IfErr result (RefusesBy (refused_where (not (is_narrow_query bound.now)) Refusal.TooWide)) }
{
    if is_narrow_query(alloc, bound)? {
        Ok(())
    } else {
        Err(BindFault::Refused(Refusal::TooWide))
    }
}

/// Refuses a query over more than four FROM items.
fn check_limit(query: &Query) -> Result<(), BindFault>
    ensures ok { OnOk result (from_limit query.now ≡ None) }
    ensures refused { IfErr result (RefusesBy (from_limit query.now)) }
{
    if query.sources.as_slice().len() > 4 {
        return Err(BindFault::Refused(Refusal::Limit(Which::From, 4)));
    }
    Ok(())
}
