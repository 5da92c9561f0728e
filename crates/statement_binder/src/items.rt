ghost use Rattle.std.specs.Prelude.{◌≡◌, ◌≤◌, ◌++◌, length, map, IfOk, OnOk, option_map};
ghost use Rattle.std.specs.List.{enumerate_from};
ghost use Rattle.sql_bound.specs.declared.expr.Expr as expr;
ghost use Rattle.sql_binding.specs.Queries.{aggs_of_having};
ghost use Rattle.sql_binding.specs.Trees.{bound_item, items_behind, windows_in, rows_of, groups_of, all_aggs, key_of};
ghost use Rattle.statement_binder.specs.Scopes.{scope_of, items_in, having_in};

use crate::Scope;
use crate::group_trees::bind_group;
use crate::row_trees::bind_row;
use col_value::List;
use sql_bound::{Aggregate, Expr};
use sql_tree::{Item, ItemTree, Items, Query};
use std::alloc::{AllocError, Global};

/// The items over a row; `*` stands for all columns in sight.
pub(crate) fn bind_row_items(
    alloc: Global,
    scope: Scope<'_>,
    items: &Items,
) -> Result<List<Expr>, AllocError>
    ensures { IfOk result (λ l. l ≡ rows_of (items_in (scope_of scope.entry) items.now)) }
{
    match items {
        Items::Star => column_rows(alloc, scope),
        Items::Listed(items) => item_rows(alloc, scope, items.as_slice()),
    }
}

fn column_rows(alloc: Global, scope: Scope<'_>) -> Result<List<Expr>, AllocError>
    ensures { IfOk result (λ l. l ≡ map (λ e. expr.Col e.0) (enumerate_from 0 scope.entry.seen.now)) }
{
    let mut out = Vec::with_capacity(alloc, scope.seen.len())?;
    for (i, _) in scope.seen.iter().enumerate() {
        out.push(Expr::Col(i))?;
    }
    Ok(List::new(out))
}

fn item_rows(alloc: Global, scope: Scope<'_>, items: &[Item]) -> Result<List<Expr>, AllocError>
    ensures { IfOk result (λ l. l ≡ rows_of (items_behind (scope_of scope.entry) 0 items.now)) }
{
    let mut out = Vec::with_capacity(alloc, items.len())?;
    let mut windows = 0;
    for item in items {
        out.push(item_row(alloc, scope, windows, &item.tree)?)?;
        windows += windows_in(&item.tree);
    }
    Ok(List::new(out))
}

/// An item over a row, before which so many windows stand.
fn item_row(
    alloc: Global,
    scope: Scope<'_>,
    windows: usize,
    tree: &ItemTree,
) -> Result<Expr, AllocError>
    ensures { IfOk result (λ e. e ≡ (bound_item (scope_of scope.entry) windows tree.now).row) }
{
    match tree {
        ItemTree::Plain(tree) => bind_row(alloc, scope, tree),
        ItemTree::Window(_) => Ok(Expr::Agg(windows)),
    }
}

/// How many windows the item is.
fn windows_in(tree: &ItemTree) -> usize
    ensures many { result ≡ length (windows_in tree.now) }
    ensures one { result ≤ 1 }
{
    match tree {
        ItemTree::Plain(_) => 0,
        ItemTree::Window(_) => 1,
    }
}

/// The items over a group; their aggregates are appended to `aggs`.
pub(crate) fn bind_group_items(
    alloc: Global,
    scope: Scope<'_>,
    items: &Items,
    aggs: &mut Vec<Aggregate>,
) -> Result<List<Expr>, AllocError>
    ensures items { IfOk result (λ l. l ≡ groups_of (items_in (scope_of scope.entry) items.now) (length aggs.old.items)) }
    ensures aggs { OnOk result (aggs.new.items ≡ aggs.old.items ++ all_aggs (items_in (scope_of scope.entry) items.now)) }
{
    match items {
        Items::Star => column_groups(alloc, scope),
        Items::Listed(items) => item_groups(alloc, scope, items.as_slice(), aggs),
    }
}

fn column_groups(alloc: Global, scope: Scope<'_>) -> Result<List<Expr>, AllocError>
    ensures { IfOk result (λ l. l ≡ map (λ e. expr.Key (key_of scope.entry.keys.now e.0)) (enumerate_from 0 scope.entry.seen.now)) }
{
    let mut out = Vec::with_capacity(alloc, scope.seen.len())?;
    for (i, _) in scope.seen.iter().enumerate() {
        out.push(Expr::Key(scope.key(i)))?;
    }
    Ok(List::new(out))
}

fn item_groups(
    alloc: Global,
    scope: Scope<'_>,
    items: &[Item],
    aggs: &mut Vec<Aggregate>,
) -> Result<List<Expr>, AllocError>
    ensures items { IfOk result (λ l. l ≡ groups_of (items_behind (scope_of scope.entry) 0 items.now) (length aggs.old.items)) }
    ensures aggs { OnOk result (aggs.new.items ≡ aggs.old.items ++ all_aggs (items_behind (scope_of scope.entry) 0 items.now)) }
{
    let mut out = Vec::with_capacity(alloc, items.len())?;
    let mut windows = 0;
    for item in items {
        out.push(item_group(alloc, scope, windows, &item.tree, aggs)?)?;
        windows += windows_in(&item.tree);
    }
    Ok(List::new(out))
}

/// An item over a group, before which so many windows stand.
fn item_group(
    alloc: Global,
    scope: Scope<'_>,
    windows: usize,
    tree: &ItemTree,
    aggs: &mut Vec<Aggregate>,
) -> Result<Expr, AllocError>
    ensures tree { IfOk result (λ e. e ≡ (bound_item (scope_of scope.entry) windows tree.now).group (length aggs.old.items)) }
    ensures aggs { OnOk result (aggs.new.items ≡ aggs.old.items ++ (bound_item (scope_of scope.entry) windows tree.now).aggs) }
{
    match tree {
        ItemTree::Plain(tree) => bind_group(alloc, scope, tree, aggs),
        ItemTree::Window(_) => Ok(Expr::Agg(windows)),
    }
}

/// HAVING over a group; its aggregates are appended to `aggs`.
pub(crate) fn bind_having(
    alloc: Global,
    scope: Scope<'_>,
    query: &Query,
    aggs: &mut Vec<Aggregate>,
) -> Result<Option<Expr>, AllocError>
    ensures having { IfOk result (λ h. h ≡ option_map (λ b. b.group (length aggs.old.items)) (having_in (scope_of scope.entry) query.now)) }
    ensures aggs { OnOk result (aggs.new.items ≡ aggs.old.items ++ aggs_of_having (having_in (scope_of scope.entry) query.now)) }
{
    match &query.having {
        None => Ok(None),
        Some(tree) => Ok(Some(bind_group(alloc, scope, tree, aggs)?)),
    }
}
