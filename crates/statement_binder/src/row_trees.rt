ghost use Rattle.std.specs.Prelude.{◌≡◌, map, IfOk};
ghost use Rattle.sql_binding.specs.Trees.{bound, bound_term, rows_of};
ghost use Rattle.statement_binder.specs.Scopes.{scope_of};

use crate::Scope;
use col_value::{Boxed, List, Wide};
use sql_bound::{BoundTerm, Expr};
use sql_tree::{Term, Tree};
use std::alloc::{AllocError, Global};

/// The bound tree of an expression over a row; an aggregate counts as NULL there.
#[cycle(rows)]
pub fn bind_row(alloc: Global, scope: Scope<'_>, tree: &Tree) -> Result<Expr, AllocError>
    ensures { IfOk result (λ e. e ≡ (bound (scope_of scope.entry) tree.now).row) }
{
    match tree {
        Tree::Lit(value) => Ok(Expr::Lit(value.copy(alloc)?)),
        Tree::Col(name) => Ok(Expr::Col(scope.column(name))),
        Tree::Neg(part) => Ok(Expr::Neg(boxed_row(alloc, scope, part.get())?)),
        Tree::Sum(terms) => Ok(Expr::Sum(term_rows(alloc, scope, terms.as_slice())?)),
        Tree::Product(parts) => Ok(Expr::Product(bind_rows(alloc, scope, parts.as_slice())?)),
        Tree::Compare(left, cmp, right) => Ok(Expr::Compare(
            boxed_row(alloc, scope, left.get())?,
            *cmp,
            boxed_row(alloc, scope, right.get())?,
        )),
        Tree::IsNull(part) => Ok(Expr::IsNull(boxed_row(alloc, scope, part.get())?)),
        Tree::Not(part) => Ok(Expr::Not(boxed_row(alloc, scope, part.get())?)),
        Tree::And(parts) => Ok(Expr::And(bind_rows(alloc, scope, parts.as_slice())?)),
        Tree::Or(parts) => Ok(Expr::Or(bind_rows(alloc, scope, parts.as_slice())?)),
        Tree::Agg(_, _) => Ok(Expr::Lit(Wide::Null)),
    }
}

#[cycle(rows)]
fn boxed_row(alloc: Global, scope: Scope<'_>, tree: &Tree) -> Result<Boxed<Expr>, AllocError>
    ensures { IfOk result (λ e. e ≡ (bound (scope_of scope.entry) tree.now).row) }
{
    Boxed::new(alloc, bind_row(alloc, scope, tree)?)
}

#[cycle(rows)]
fn bind_rows(alloc: Global, scope: Scope<'_>, trees: &[Tree]) -> Result<List<Expr>, AllocError>
    ensures { IfOk result (λ l. l ≡ rows_of (map (bound (scope_of scope.entry)) trees.now)) }
{
    let mut out = Vec::with_capacity(alloc, trees.len())?;
    for tree in trees {
        out.push(bind_row(alloc, scope, tree)?)?;
    }
    Ok(List::new(out))
}

#[cycle(rows)]
fn term_rows(alloc: Global, scope: Scope<'_>, terms: &[Term]) -> Result<List<BoundTerm>, AllocError>
    ensures { IfOk result (λ l. l ≡ rows_of (map (bound_term (scope_of scope.entry)) terms.now)) }
{
    let mut out = Vec::with_capacity(alloc, terms.len())?;
    for term in terms {
        out.push(term_row(alloc, scope, term)?)?;
    }
    Ok(List::new(out))
}

#[cycle(rows)]
fn term_row(alloc: Global, scope: Scope<'_>, term: &Term) -> Result<BoundTerm, AllocError>
    ensures { IfOk result (λ t. t ≡ (bound_term (scope_of scope.entry) term.now).row) }
{
    Ok(BoundTerm {
        minus: term.minus,
        part: bind_row(alloc, scope, &term.part)?,
    })
}
