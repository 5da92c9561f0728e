//! The output rows of a query.

ghost use Rattle.std.specs.Prelude.{◌≡◌, ◌++◌, ◌∷◌, true, List, [], map, IfOk, OnOk, IsErrOf, IsSomeAnd};
ghost use Rattle.std.specs.List.{All};
ghost use Rattle.std.specs.Option.{IfSome, option_map_or};
ghost use Rattle.col_value.specs.declared.value.Value.{Value};
ghost use Rattle.col_value.specs.declared.wide.Wide.{Wide as Result};
ghost use Rattle.sql_bound.specs.Bounds.{bound_of_aggregate, is_narrow};
ghost use Rattle.sql_bound.specs.Outputs.{output, IsSumTooGreat};
ghost use Rattle.sql_bound.specs.Printed.{printed_cmp};
ghost use Rattle.std.specs.Ordering.{is_lt};
ghost use Rattle.query_laws.specs.Bounded.{IsBoundedQuery};
ghost use Rattle.query_laws.specs.Scopes.{is_shown, IsGroupOf};
ghost use Rattle.query_run.specs.declared.fault.QueryFault.{QueryFault};
ghost use Rattle.query_order.specs.Enough.{AreFew, IsEnough};
ghost use Rattle.query_run.specs.Outputs.{HasCollected, IsBar, items_in, scope_of, scopes_of, shown};

use crate::bar::is_sight_barred;
use crate::collected::{Collected, add_made};
use crate::fault::QueryFault;
use crate::seen::has_windows;
use crate::windows::of_windows;
use col_value::{Value, Wide, WideRow};
use exec_group::{GroupFault, Grouped};
use expr_value::{Sight, is_true, items_at};
use sql_bound::BoundQuery;
use std::alloc::{AllocError, Global};

/// Enough of the output rows of what was collected, and a fault where a SUM passes what a result holds in some group or partition.
pub fn output(
    alloc: Global,
    query: &BoundQuery,
    collected: Collected,
) -> Result<Vec<WideRow>, QueryFault>
    requires bounded { IsBoundedQuery query.now }
    requires some { (inputs : List (List (List Value))) × HasCollected query.now inputs collected }
    ensures rows { IfOk result (λ v. (inputs : List (List (List Value))) → HasCollected query.now inputs collected → IsEnough query.now.order query.now.limit (output query.now inputs) v.items) }
    ensures in_range { OnOk result ((inputs : List (List (List Value))) → HasCollected query.now inputs collected → IsSumTooGreat query.now inputs → ⊥) }
    ensures great { IsErrOf result QueryFault.SumOutOfRange → (inputs : List (List (List Value))) → HasCollected query.now inputs collected → IsSumTooGreat query.now inputs }
{
    let Collected {
        rows,
        seen,
        groups,
        ..
    } = collected;
    if !query.grouped {
        if has_windows(query) {
            return of_windows(alloc, query, seen.as_slice());
        }
        return Ok(rows);
    }
    match groups.finish() {
        Ok(grouped) => Ok(of_groups(alloc, query, &grouped)?),
        Err(GroupFault::SumOutOfRange) => Err(QueryFault::SumOutOfRange),
        Err(GroupFault::Memory) => Err(QueryFault::Memory),
    }
}

/// Enough of the items' values in the groups that HAVING keeps.
fn of_groups(
    alloc: Global,
    query: &BoundQuery,
    groups: &Grouped,
) -> Result<Vec<WideRow>, AllocError>
    requires narrow { All (λ e. is_narrow (map bound_of_aggregate query.now.aggs) e ≡ true) query.now.items }
    requires having { option_map_or (is_narrow (map bound_of_aggregate query.now.aggs)) query.now.having true ≡ true }
    requires groups { All (IsGroupOf query.now) (scopes_of groups.now.keys groups.now.aggs) }
    ensures { IfOk result (λ v. IsEnough query.now.order query.now.limit (shown query.now (scopes_of groups.now.keys groups.now.aggs)) v.items) }
{
    let mut out = Vec::new(alloc);
    let mut bar = None;
    let mut keys = Vec::new(alloc);
    let mut aggs = Vec::new(alloc);
    for group in 0..groups.len() {
        groups.copy_group(alloc, group, &mut keys, &mut aggs)?;
        add_shown(
            alloc,
            query,
            keys.as_slice(),
            aggs.as_slice(),
            &mut out,
            &mut bar,
        )?;
    }
    Ok(out)
}

/// The items' values in the group with these keys and aggregates join the others, if HAVING keeps it.
fn add_shown(
    alloc: Global,
    query: &BoundQuery,
    keys: &[Value],
    aggs: &[Wide],
    out: &mut Vec<WideRow>,
    bar: &mut Option<WideRow>,
) -> Result<(), AllocError>
    requires narrow { All (λ e. is_narrow (map bound_of_aggregate query.now.aggs) e ≡ true) query.now.items }
    requires having { option_map_or (is_narrow (map bound_of_aggregate query.now.aggs)) query.now.having true ≡ true }
    requires group { IsGroupOf query.now (scope_of keys.now aggs.now) }
    requires few { AreFew query.now.limit out.old.items }
    requires bar { IfSome bar.old (IsBar query.now.order query.now.limit out.old.items) }
    ensures enough { OnOk result ((all : List (List Result)) → IsEnough query.now.order query.now.limit all out.old.items → IsEnough query.now.order query.now.limit (all ++ shown query.now (scope_of keys.now aggs.now ∷ [])) out.new.items) }
    ensures few { OnOk result (AreFew query.now.limit out.new.items) }
    ensures bar { OnOk result (IfSome bar.new (IsBar query.now.order query.now.limit out.new.items)) }
{
    if !is_shown(query, keys, aggs) {
        return Ok(());
    }
    if is_group_barred(query, bar, keys, aggs) {
        return Ok(());
    }
    let row = items_in(alloc, query, keys, aggs)?;
    add_made(alloc, out, bar, query, row)
}

/// Whether HAVING is true of the group with these keys and aggregates.
fn is_shown(query: &BoundQuery, keys: &[Value], aggs: &[Wide]) -> bool
    requires having { option_map_or (is_narrow (map bound_of_aggregate query.now.aggs)) query.now.having true ≡ true }
    requires group { IsGroupOf query.now (scope_of keys.now aggs.now) }
    ensures { result ≡ is_shown query.now (scope_of keys.now aggs.now) }
{
    match &query.having {
        Some(having) => is_true(having, &Sight::of_group(keys, aggs)),
        None => true,
    }
}

/// Whether the bar stands before the output row of the group with these keys and aggregates, which isn't made.
fn is_group_barred(query: &BoundQuery, bar: &Option<WideRow>, keys: &[Value], aggs: &[Wide]) -> bool
    requires narrow { All (λ e. is_narrow (map bound_of_aggregate query.now.aggs) e ≡ true) query.now.items }
    requires group { IsGroupOf query.now (scope_of keys.now aggs.now) }
    ensures { result ≡ true → IsSomeAnd bar.now (λ row. is_lt (printed_cmp query.now.order row (items_in query.now (scope_of keys.now aggs.now))) ≡ true) }
{
    is_sight_barred(query, bar, &Sight::of_group(keys, aggs))
}

/// The items' values in the group with these keys and aggregates.
fn items_in(
    alloc: Global,
    query: &BoundQuery,
    keys: &[Value],
    aggs: &[Wide],
) -> Result<WideRow, AllocError>
    requires narrow { All (λ e. is_narrow (map bound_of_aggregate query.now.aggs) e ≡ true) query.now.items }
    requires group { IsGroupOf query.now (scope_of keys.now aggs.now) }
    ensures { IfOk result (λ r. r ≡ items_in query.now (scope_of keys.now aggs.now)) }
{
    items_at(alloc, query.items.as_slice(), &Sight::of_group(keys, aggs))
}
