//! The windows among the items of a query.

ghost use Rattle.std.specs.Prelude.{◌≡◌, map, IfOk, option_map};
ghost use Rattle.std.specs.List.{flat_map};
ghost use Rattle.sql_binding.specs.Queries.{windows_of};
ghost use Rattle.sql_binding.specs.Trees.{aggregate_kind, bound, bound_window, column_of, window_aggregate, windows_in};
ghost use Rattle.statement_binder.specs.Scopes.{scope_of};

use crate::Scope;
use crate::row_trees::bind_row;
use col_value::List;
use sql_bound::{Aggregate, BoundWindow, Expr};
use sql_tree::{AggKind, ColRef, Item, ItemTree, Items, Tree, Window, WindowKey, WindowKind};
use std::alloc::{AllocError, Global};

/// The windows, each with its places.
pub(crate) fn bind_windows(
    alloc: Global,
    scope: Scope<'_>,
    items: &Items,
) -> Result<List<BoundWindow>, AllocError>
    ensures { IfOk result (λ l. l ≡ map (bound_window (scope_of scope.entry)) (windows_of items.now)) }
{
    match items {
        Items::Star => Ok(List::new(Vec::new(alloc))),
        Items::Listed(items) => Ok(List::new(item_windows(alloc, scope, items.as_slice())?)),
    }
}

fn item_windows(
    alloc: Global,
    scope: Scope<'_>,
    items: &[Item],
) -> Result<Vec<BoundWindow>, AllocError>
    ensures { IfOk result (λ v. v.items ≡ map (bound_window (scope_of scope.entry)) (flat_map (λ i. windows_in i.tree) items.now)) }
{
    let mut out = Vec::new(alloc);
    for item in items {
        match &item.tree {
            ItemTree::Plain(_) => {}
            ItemTree::Window(window) => out.push(bind_window(alloc, scope, window)?)?,
        }
    }
    Ok(out)
}

fn bind_window(alloc: Global, scope: Scope<'_>, window: &Window) -> Result<BoundWindow, AllocError>
    ensures { IfOk result (λ w. w ≡ bound_window (scope_of scope.entry) window.now) }
{
    let partition = bind_columns(alloc, scope, window.partition.as_slice())?;
    let order = bind_keys(alloc, scope, window.order.as_slice())?;
    Ok(BoundWindow {
        kind: window.kind,
        partition: List::new(partition),
        order: List::new(order),
    })
}

fn bind_columns(
    alloc: Global,
    scope: Scope<'_>,
    columns: &[ColRef],
) -> Result<Vec<usize>, AllocError>
    ensures { IfOk result (λ v. v.items ≡ map (column_of (scope_of scope.entry)) columns.now) }
{
    let mut out = Vec::with_capacity(alloc, columns.len())?;
    for column in columns {
        out.push(scope.column(column))?;
    }
    Ok(out)
}

fn bind_keys(
    alloc: Global,
    scope: Scope<'_>,
    keys: &[WindowKey],
) -> Result<Vec<(usize, bool)>, AllocError>
    ensures { IfOk result (λ v. v.items ≡ map (λ k. (column_of (scope_of scope.entry) k.column, k.descending)) keys.now) }
{
    let mut out = Vec::with_capacity(alloc, keys.len())?;
    for key in keys {
        out.push((scope.column(&key.column), key.descending))?;
    }
    Ok(out)
}

/// The aggregates that the windows are over their frames.
pub(crate) fn bind_frames(
    alloc: Global,
    scope: Scope<'_>,
    items: &Items,
) -> Result<List<Aggregate>, AllocError>
    ensures { IfOk result (λ l. l ≡ map (window_aggregate (scope_of scope.entry)) (windows_of items.now)) }
{
    match items {
        Items::Star => Ok(List::new(Vec::new(alloc))),
        Items::Listed(items) => Ok(List::new(item_frames(alloc, scope, items.as_slice())?)),
    }
}

fn item_frames(
    alloc: Global,
    scope: Scope<'_>,
    items: &[Item],
) -> Result<Vec<Aggregate>, AllocError>
    ensures { IfOk result (λ v. v.items ≡ map (window_aggregate (scope_of scope.entry)) (flat_map (λ i. windows_in i.tree) items.now)) }
{
    let mut out = Vec::new(alloc);
    for item in items {
        match &item.tree {
            ItemTree::Plain(_) => {}
            ItemTree::Window(window) => out.push(window_aggregate(alloc, scope, window)?)?,
        }
    }
    Ok(out)
}

fn window_aggregate(
    alloc: Global,
    scope: Scope<'_>,
    window: &Window,
) -> Result<Aggregate, AllocError>
    ensures { IfOk result (λ a. a ≡ window_aggregate (scope_of scope.entry) window.now) }
{
    let arg = bind_arg(alloc, scope, &window.arg)?;
    Ok(Aggregate {
        kind: aggregate_kind(window.kind),
        arg,
    })
}

fn bind_arg(alloc: Global, scope: Scope<'_>, arg: &Option<Tree>) -> Result<Option<Expr>, AllocError>
    ensures { IfOk result (λ e. e ≡ option_map (λ tree. (bound (scope_of scope.entry) tree).row) arg.now) }
{
    match arg {
        None => Ok(None),
        Some(tree) => Ok(Some(bind_row(alloc, scope, tree)?)),
    }
}

fn aggregate_kind(kind: WindowKind) -> AggKind
    ensures { result ≡ aggregate_kind kind }
{
    match kind {
        WindowKind::RowNumber | WindowKind::Rank | WindowKind::CountAll => AggKind::CountAll,
        WindowKind::Count => AggKind::Count,
        WindowKind::Sum => AggKind::Sum,
    }
}
