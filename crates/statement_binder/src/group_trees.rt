ghost use Rattle.std.specs.Prelude.{◌≡◌, ◌++◌, ◌∷◌, [], length, map, IfOk, OnOk};
ghost use Rattle.sql_bound.specs.declared.expr.Expr as expr;
ghost use Rattle.sql_binding.specs.Trees.{bound, bound_term, groups_of, all_aggs};
ghost use Rattle.statement_binder.specs.Scopes.{scope_of, aggregate_in};

use crate::Scope;
use crate::row_trees::bind_row;
use col_value::{Boxed, List};
use sql_bound::{Aggregate, BoundTerm, Expr};
use sql_tree::{AggKind, Term, Tree};
use std::alloc::{AllocError, Global};

/// The bound tree of an expression over a group; its aggregates are appended to `aggs`.
#[cycle(groups)]
pub(crate) fn bind_group(
    alloc: Global,
    scope: Scope<'_>,
    tree: &Tree,
    aggs: &mut Vec<Aggregate>,
) -> Result<Expr, AllocError>
    ensures tree { IfOk result (λ e. e ≡ (bound (scope_of scope.entry) tree.now).group (length aggs.old.items)) }
    ensures aggs { OnOk result (aggs.new.items ≡ aggs.old.items ++ (bound (scope_of scope.entry) tree.now).aggs) }
{
    match tree {
        Tree::Lit(value) => Ok(Expr::Lit(value.copy(alloc)?)),
        Tree::Col(name) => Ok(Expr::Key(scope.key(scope.column(name)))),
        Tree::Neg(part) => Ok(Expr::Neg(boxed_group(alloc, scope, part.get(), aggs)?)),
        Tree::Sum(terms) => Ok(Expr::Sum(term_groups(alloc, scope, terms.as_slice(), aggs)?)),
        Tree::Product(parts) => Ok(Expr::Product(bind_groups(
            alloc,
            scope,
            parts.as_slice(),
            aggs,
        )?)),
        Tree::Compare(left, cmp, right) => {
            let left = boxed_group(alloc, scope, left.get(), aggs)?;
            let right = boxed_group(alloc, scope, right.get(), aggs)?;
            Ok(Expr::Compare(left, *cmp, right))
        }
        Tree::IsNull(part) => Ok(Expr::IsNull(boxed_group(alloc, scope, part.get(), aggs)?)),
        Tree::Not(part) => Ok(Expr::Not(boxed_group(alloc, scope, part.get(), aggs)?)),
        Tree::And(parts) => Ok(Expr::And(bind_groups(alloc, scope, parts.as_slice(), aggs)?)),
        Tree::Or(parts) => Ok(Expr::Or(bind_groups(alloc, scope, parts.as_slice(), aggs)?)),
        Tree::Agg(kind, arg) => bind_aggregate(alloc, scope, *kind, arg, aggs),
    }
}

/// Appends an aggregate over rows, and names it by its number.
fn bind_aggregate(
    alloc: Global,
    scope: Scope<'_>,
    kind: AggKind,
    arg: &Option<Boxed<Tree>>,
    aggs: &mut Vec<Aggregate>,
) -> Result<Expr, AllocError>
    ensures tree { IfOk result (λ e. e ≡ expr.Agg (length aggs.old.items)) }
    ensures aggs { OnOk result (aggs.new.items ≡ aggs.old.items ++ (aggregate_in (scope_of scope.entry) kind arg.now ∷ [])) }
{
    match arg {
        None => push_aggregate(kind, None, aggs),
        Some(part) => {
            let arg = bind_row(alloc, scope, part.get())?;
            push_aggregate(kind, Some(arg), aggs)
        }
    }
}

/// Appends an aggregate, and names it by its number.
fn push_aggregate(
    kind: AggKind,
    arg: Option<Expr>,
    aggs: &mut Vec<Aggregate>,
) -> Result<Expr, AllocError>
    ensures tree { IfOk result (λ e. e ≡ expr.Agg (length aggs.old.items)) }
    ensures aggs { OnOk result (aggs.new.items ≡ aggs.old.items ++ (record { kind = kind; arg = arg } ∷ [])) }
{
    let number = aggs.len();
    aggs.push(Aggregate { kind, arg })?;
    Ok(Expr::Agg(number))
}

#[cycle(groups)]
fn boxed_group(
    alloc: Global,
    scope: Scope<'_>,
    tree: &Tree,
    aggs: &mut Vec<Aggregate>,
) -> Result<Boxed<Expr>, AllocError>
    ensures tree { IfOk result (λ e. e ≡ (bound (scope_of scope.entry) tree.now).group (length aggs.old.items)) }
    ensures aggs { OnOk result (aggs.new.items ≡ aggs.old.items ++ (bound (scope_of scope.entry) tree.now).aggs) }
{
    let inner = bind_group(alloc, scope, tree, aggs)?;
    Boxed::new(alloc, inner)
}

#[cycle(groups)]
fn bind_groups(
    alloc: Global,
    scope: Scope<'_>,
    trees: &[Tree],
    aggs: &mut Vec<Aggregate>,
) -> Result<List<Expr>, AllocError>
    ensures trees { IfOk result (λ l. l ≡ groups_of (map (bound (scope_of scope.entry)) trees.now) (length aggs.old.items)) }
    ensures aggs { OnOk result (aggs.new.items ≡ aggs.old.items ++ all_aggs (map (bound (scope_of scope.entry)) trees.now)) }
{
    let mut out = Vec::with_capacity(alloc, trees.len())?;
    for tree in trees {
        out.push(bind_group(alloc, scope, tree, aggs)?)?;
    }
    Ok(List::new(out))
}

#[cycle(groups)]
fn term_groups(
    alloc: Global,
    scope: Scope<'_>,
    terms: &[Term],
    aggs: &mut Vec<Aggregate>,
) -> Result<List<BoundTerm>, AllocError>
    ensures terms { IfOk result (λ l. l ≡ groups_of (map (bound_term (scope_of scope.entry)) terms.now) (length aggs.old.items)) }
    ensures aggs { OnOk result (aggs.new.items ≡ aggs.old.items ++ all_aggs (map (bound_term (scope_of scope.entry)) terms.now)) }
{
    let mut out = Vec::with_capacity(alloc, terms.len())?;
    for term in terms {
        out.push(term_group(alloc, scope, term, aggs)?)?;
    }
    Ok(List::new(out))
}

#[cycle(groups)]
fn term_group(
    alloc: Global,
    scope: Scope<'_>,
    term: &Term,
    aggs: &mut Vec<Aggregate>,
) -> Result<BoundTerm, AllocError>
    ensures term { IfOk result (λ t. t ≡ (bound_term (scope_of scope.entry) term.now).group (length aggs.old.items)) }
    ensures aggs { OnOk result (aggs.new.items ≡ aggs.old.items ++ (bound_term (scope_of scope.entry) term.now).aggs) }
{
    let part = bind_group(alloc, scope, &term.part, aggs)?;
    Ok(BoundTerm {
        minus: term.minus,
        part,
    })
}
