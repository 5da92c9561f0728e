ghost use Rattle.std.specs.Prelude.{◌≡◌, ◌++◌, ◌∷◌, [], IfOk, OnOk};
ghost use Rattle.std.specs.List.{flat_map, enumerate_from};
ghost use Rattle.sql_binding.specs.Conjuncts.{members, condition_members};
ghost use Rattle.sql_binding.specs.Trees.{bound};
ghost use Rattle.statement_binder.specs.Scopes.{scope_of, joined_members, kept_in};

use crate::Scope;
use crate::row_trees::bind_row;
use col_value::List;
use sql_bound::Expr;
use sql_tree::{Query, Source, Tree};
use std::alloc::{AllocError, Global};

/// The conditions of ON and WHERE, split at their ANDs.
pub(crate) fn bind_keep(
    alloc: Global,
    scope: Scope<'_>,
    query: &Query,
) -> Result<List<Expr>, AllocError>
    ensures { IfOk result (λ l. l ≡ kept_in (scope_of scope.entry) query.now) }
{
    let mut out = Vec::new(alloc);
    push_joins(alloc, scope, query.sources.as_slice(), &mut out)?;
    push_condition(alloc, scope, &query.keep, &mut out)?;
    Ok(List::new(out))
}

/// Appends the members of each ON, which sees the FROM items up to its own.
fn push_joins(
    alloc: Global,
    scope: Scope<'_>,
    sources: &[Source],
    out: &mut Vec<Expr>,
) -> Result<(), AllocError>
    ensures { OnOk result (out.new.items ≡ out.old.items ++ flat_map (joined_members (scope_of scope.entry)) (enumerate_from 0 sources.now)) }
{
    for (i, source) in sources.iter().enumerate() {
        push_condition(alloc, scope.up_to(i), &source.on, out)?;
    }
    Ok(())
}

fn push_condition(
    alloc: Global,
    scope: Scope<'_>,
    keep: &Option<Tree>,
    out: &mut Vec<Expr>,
) -> Result<(), AllocError>
    ensures { OnOk result (out.new.items ≡ out.old.items ++ condition_members (scope_of scope.entry) keep.now) }
{
    match keep {
        None => Ok(()),
        Some(tree) => push_members(alloc, scope, tree, out),
    }
}

/// Appends the members of one condition.
#[cycle(members)]
fn push_members(
    alloc: Global,
    scope: Scope<'_>,
    tree: &Tree,
    out: &mut Vec<Expr>,
) -> Result<(), AllocError>
    ensures { OnOk result (out.new.items ≡ out.old.items ++ members (scope_of scope.entry) tree.now) }
{
    match tree {
        Tree::And(parts) => push_each(alloc, scope, parts.as_slice(), out),
        _ => push_one(alloc, scope, tree, out),
    }
}

#[cycle(members)]
fn push_each(
    alloc: Global,
    scope: Scope<'_>,
    trees: &[Tree],
    out: &mut Vec<Expr>,
) -> Result<(), AllocError>
    ensures { OnOk result (out.new.items ≡ out.old.items ++ flat_map (members (scope_of scope.entry)) trees.now) }
{
    for tree in trees {
        push_members(alloc, scope, tree, out)?;
    }
    Ok(())
}

fn push_one(
    alloc: Global,
    scope: Scope<'_>,
    tree: &Tree,
    out: &mut Vec<Expr>,
) -> Result<(), AllocError>
    ensures { OnOk result (out.new.items ≡ out.old.items ++ ((bound (scope_of scope.entry) tree.now).row ∷ [])) }
{
    out.push(bind_row(alloc, scope, tree)?)?;
    Ok(())
}
