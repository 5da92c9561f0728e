ghost use Rattle.std.specs.Prelude.{◌≡◌, IfOk};

use crate::{ColRef, Part, Term, Tree};
use col_value::{Boxed, List, Name};
use std::alloc::{AllocError, Global};

/// The same name once more, where there is one.
fn name_copy(alloc: Global, name: &Option<Name>) -> Result<Option<Name>, AllocError>
    ensures { IfOk result (λ n. n ≡ name.now) }
{
    match name {
        Some(name) => Ok(Some(name.copy(alloc)?)),
        None => Ok(None),
    }
}

impl ColRef {
    /// The same column once more.
    pub fn copy(&self, alloc: Global) -> Result<ColRef, AllocError>
        ensures { IfOk result (λ c. c ≡ self.now) }
    {
        Ok(ColRef {
            qualifier: name_copy(alloc, &self.qualifier)?,
            name: self.name.copy(alloc)?,
        })
    }
}

impl Tree {
    /// The same tree once more.
    #[cycle(copies)]
    pub fn copy(&self, alloc: Global) -> Result<Tree, AllocError>
        ensures { IfOk result (λ t. t ≡ self.now) }
    {
        let copied = match self {
            Tree::Lit(value) => Tree::Lit(value.copy(alloc)?),
            Tree::Col(column) => Tree::Col(column.copy(alloc)?),
            Tree::Neg(part) => Tree::Neg(boxed_copy(alloc, part)?),
            Tree::Sum(terms) => Tree::Sum(terms_copy(alloc, terms.as_slice())?),
            Tree::Product(parts) => Tree::Product(trees_copy(alloc, parts.as_slice())?),
            Tree::Compare(left, cmp, right) => {
                let left = boxed_copy(alloc, left)?;
                Tree::Compare(left, *cmp, boxed_copy(alloc, right)?)
            }
            Tree::IsNull(part) => Tree::IsNull(boxed_copy(alloc, part)?),
            Tree::Not(part) => Tree::Not(boxed_copy(alloc, part)?),
            Tree::And(parts) => Tree::And(trees_copy(alloc, parts.as_slice())?),
            Tree::Or(parts) => Tree::Or(trees_copy(alloc, parts.as_slice())?),
            Tree::Agg(kind, Some(part)) => Tree::Agg(*kind, Some(boxed_copy(alloc, part)?)),
            Tree::Agg(kind, None) => Tree::Agg(*kind, None),
        };
        Ok(copied)
    }
}

#[cycle(copies)]
fn boxed_copy(alloc: Global, tree: &Boxed<Tree>) -> Result<Boxed<Tree>, AllocError>
    ensures { IfOk result (λ t. t ≡ tree.now) }
{
    Boxed::new(alloc, tree.get().copy(alloc)?)
}

#[cycle(copies)]
fn trees_copy(alloc: Global, trees: &[Tree]) -> Result<List<Tree>, AllocError>
    ensures { IfOk result (λ ts. ts ≡ trees.now) }
{
    let mut out = Vec::with_capacity(alloc, trees.len())?;
    for tree in trees {
        out.push(tree.copy(alloc)?)?;
    }
    Ok(List::new(out))
}

#[cycle(copies)]
fn terms_copy(alloc: Global, terms: &[Term]) -> Result<List<Term>, AllocError>
    ensures { IfOk result (λ ts. ts ≡ terms.now) }
{
    let mut out = Vec::with_capacity(alloc, terms.len())?;
    for term in terms {
        let part = term.part.copy(alloc)?;
        out.push(Term {
            minus: term.minus,
            part,
        })?;
    }
    Ok(List::new(out))
}

impl Part {
    /// The same part once more.
    pub fn copy(&self, alloc: Global) -> Result<Part, AllocError>
        ensures { IfOk result (λ p. p ≡ self.now) }
    {
        Ok(Part {
            tree: self.tree.copy(alloc)?,
            holds: self.holds,
        })
    }
}
