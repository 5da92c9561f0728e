ghost use Rattle.std.specs.Prelude.{◌≡◌, false, [], ◌∷◌, map, IfOk};
ghost use Rattle.std.specs.List.{list_any};
ghost use Rattle.sql_tree.specs.Makers.{constant, column, negated, denied, is_null, compared, between, equals, one_of, chained, addend, term, summed, aggregated, count_all, as_aggregate, over_all, as_window, over_parts};

use crate::{Addend, AggKind, Cmp, ColRef, Part, Tally, Term, Tree, Window, WindowKey, WindowKind};
use col_value::{Boxed, List, Wide};
use std::alloc::{AllocError, Global};

impl Part {
    /// A literal.
    pub fn constant(value: Wide) -> Part
        ensures { result ≡ constant value }
    {
        Part {
            tree: Tree::Lit(value),
            holds: false,
        }
    }

    /// A column.
    pub fn column(name: ColRef) -> Part
        ensures { result ≡ column name }
    {
        Part {
            tree: Tree::Col(name),
            holds: false,
        }
    }

    /// `- self`
    pub fn negated(self, alloc: Global) -> Result<Part, AllocError>
        ensures { IfOk result (λ p. p ≡ negated self) }
    {
        let holds = self.holds;
        Ok(Part {
            tree: Tree::Neg(Boxed::new(alloc, self.tree)?),
            holds,
        })
    }

    /// `NOT self`
    pub fn denied(self, alloc: Global) -> Result<Part, AllocError>
        ensures { IfOk result (λ p. p ≡ denied self) }
    {
        let holds = self.holds;
        Ok(Part {
            tree: Tree::Not(Boxed::new(alloc, self.tree)?),
            holds,
        })
    }

    /// `self IS NULL`
    pub fn is_null(self, alloc: Global) -> Result<Part, AllocError>
        ensures { IfOk result (λ p. p ≡ is_null self) }
    {
        let holds = self.holds;
        Ok(Part {
            tree: Tree::IsNull(Boxed::new(alloc, self.tree)?),
            holds,
        })
    }

    /// `self cmp other`
    pub fn compared(self, alloc: Global, cmp: Cmp, other: Part) -> Result<Part, AllocError>
        ensures { IfOk result (λ p. p ≡ compared self cmp other) }
    {
        let holds = self.holds || other.holds;
        Ok(Part {
            tree: compare(alloc, self.tree, cmp, other.tree)?,
            holds,
        })
    }

    /// `self BETWEEN low AND high`
    pub fn between(self, alloc: Global, low: Part, high: Part) -> Result<Part, AllocError>
        ensures { IfOk result (λ p. p ≡ between self low high) }
    {
        Ok(Part {
            tree: within(alloc, self.tree, low.tree, high.tree)?,
            holds: true,
        })
    }

    /// `self IN (first, more)`
    pub fn one_of(self, alloc: Global, first: Part, more: List<Part>) -> Result<Part, AllocError>
        ensures { IfOk result (λ p. p ≡ one_of self first more) }
    {
        if more.as_slice().is_empty() {
            return Ok(Part {
                tree: compare(alloc, self.tree, Cmp::Eq, first.tree)?,
                holds: true,
            });
        }
        Ok(Part {
            tree: Tree::Or(equals_each(alloc, &self, first, more)?),
            holds: true,
        })
    }

    /// `self * factor * ..`
    pub fn times(self, alloc: Global, factors: List<Part>) -> Result<Part, AllocError>
        ensures { IfOk result (λ p. p ≡ chained Tree.Product self factors) }
    {
        if factors.as_slice().is_empty() {
            return Ok(self);
        }
        let holds = self.holds || any_holds(factors.as_slice());
        Ok(Part {
            tree: Tree::Product(List::new(trees(alloc, self, factors)?)),
            holds,
        })
    }

    /// `self AND other AND ..`
    pub fn and(self, alloc: Global, others: List<Part>) -> Result<Part, AllocError>
        ensures { IfOk result (λ p. p ≡ chained Tree.And self others) }
    {
        if others.as_slice().is_empty() {
            return Ok(self);
        }
        let holds = self.holds || any_holds(others.as_slice());
        Ok(Part {
            tree: Tree::And(List::new(trees(alloc, self, others)?)),
            holds,
        })
    }

    /// `self OR choice OR ..`
    pub fn or(self, alloc: Global, choices: List<Part>) -> Result<Part, AllocError>
        ensures { IfOk result (λ p. p ≡ chained Tree.Or self choices) }
    {
        if choices.as_slice().is_empty() {
            return Ok(self);
        }
        let holds = self.holds || any_holds(choices.as_slice());
        Ok(Part {
            tree: Tree::Or(List::new(trees(alloc, self, choices)?)),
            holds,
        })
    }

    /// `self + addend - ..`
    pub fn plus(self, alloc: Global, addends: List<Addend>) -> Result<Part, AllocError>
        ensures { IfOk result (λ p. p ≡ summed self addends) }
    {
        if addends.as_slice().is_empty() {
            return Ok(self);
        }
        let holds = self.holds || any_addend_holds(addends.as_slice());
        Ok(Part {
            tree: Tree::Sum(terms(alloc, self, addends)?),
            holds,
        })
    }

    /// `COUNT(*)`
    pub fn count_all() -> Part
        ensures { result ≡ count_all }
    {
        Part {
            tree: Tree::Agg(AggKind::CountAll, None),
            holds: false,
        }
    }

    /// The aggregate of `self`.
    pub fn aggregated(self, alloc: Global, kind: AggKind) -> Result<Part, AllocError>
        ensures { IfOk result (λ p. p ≡ aggregated kind self) }
    {
        let holds = self.holds;
        Ok(Part {
            tree: Tree::Agg(kind, Some(Boxed::new(alloc, self.tree)?)),
            holds,
        })
    }
}

impl Tally {
    /// A COUNT or SUM as an aggregate.
    pub fn aggregate(self, alloc: Global) -> Result<Part, AllocError>
        ensures { IfOk result (λ p. p ≡ as_aggregate self) }
    {
        match self {
            Tally::All => Ok(Part::count_all()),
            Tally::Count(part) => part.aggregated(alloc, AggKind::Count),
            Tally::Sum(part) => part.aggregated(alloc, AggKind::Sum),
        }
    }

    /// A COUNT or SUM as a window function over all rows.
    pub fn window(self, alloc: Global) -> Window
        ensures { result ≡ as_window self }
    {
        match self {
            Tally::All => Window::over_all(alloc, WindowKind::CountAll, None),
            Tally::Count(part) => Window::over_all(alloc, WindowKind::Count, Some(part.tree)),
            Tally::Sum(part) => Window::over_all(alloc, WindowKind::Sum, Some(part.tree)),
        }
    }
}

impl Window {
    /// A window function over all rows.
    pub fn over_all(alloc: Global, kind: WindowKind, arg: Option<Tree>) -> Window
        ensures { result ≡ over_all kind arg }
    {
        Window {
            kind,
            arg,
            partition: List::new(Vec::new(alloc)),
            order: List::new(Vec::new(alloc)),
        }
    }

    /// A window function over parts of the rows, by an order.
    pub fn over_parts(self, partition: List<ColRef>, order: List<WindowKey>) -> Window
        ensures { result ≡ over_parts self partition order }
    {
        Window {
            kind: self.kind,
            arg: self.arg,
            partition,
            order,
        }
    }
}

fn compare(alloc: Global, left: Tree, cmp: Cmp, right: Tree) -> Result<Tree, AllocError>
    ensures { IfOk result (λ t. t ≡ Tree.Compare left cmp right) }
{
    let left = Boxed::new(alloc, left)?;
    Ok(Tree::Compare(left, cmp, Boxed::new(alloc, right)?))
}

/// `left cmp right`, of a left that is wanted once more
fn compare_again(alloc: Global, left: &Tree, cmp: Cmp, right: Tree) -> Result<Tree, AllocError>
    ensures { IfOk result (λ t. t ≡ Tree.Compare left.now cmp right) }
{
    let left = left.copy(alloc)?;
    compare(alloc, left, cmp, right)
}

/// `left AND right`
fn pair(alloc: Global, left: Tree, right: Tree) -> Result<Tree, AllocError>
    ensures { IfOk result (λ t. t ≡ Tree.And (left ∷ (right ∷ []))) }
{
    let both = Vec::from_array(alloc, [left, right])?;
    Ok(Tree::And(List::new(both)))
}

/// `part >= low AND part <= high`
fn within(alloc: Global, part: Tree, low: Tree, high: Tree) -> Result<Tree, AllocError>
    ensures { IfOk result (λ t. t ≡ Tree.And (Tree.Compare part Cmp.Ge low ∷ (Tree.Compare part Cmp.Le high ∷ []))) }
{
    let upper = compare_again(alloc, &part, Cmp::Le, high)?;
    let lower = compare(alloc, part, Cmp::Ge, low)?;
    pair(alloc, lower, upper)
}

/// The trees of the parts, in order.
fn trees(alloc: Global, first: Part, more: List<Part>) -> Result<Vec<Tree>, AllocError>
    ensures { IfOk result (λ ts. ts.items ≡ map (λ p. p.tree) (first ∷ more)) }
{
    let mut trees = Vec::new(alloc);
    trees.push(first.tree)?;
    for part in more.into_vec() {
        trees.push(part.tree)?;
    }
    Ok(trees)
}

/// The terms of a sum of `first` and more, in order.
fn terms(alloc: Global, first: Part, more: List<Addend>) -> Result<List<Term>, AllocError>
    ensures { IfOk result (λ ts. ts ≡ map term (addend false first ∷ more)) }
{
    let mut terms = Vec::new(alloc);
    terms.push(Term {
        minus: false,
        part: first.tree,
    })?;
    for next in more.into_vec() {
        terms.push(Term {
            minus: next.minus,
            part: next.part.tree,
        })?;
    }
    Ok(List::new(terms))
}

/// Whether one of the parts holds a BETWEEN or an IN.
fn any_holds(parts: &[Part]) -> bool
    ensures { result ≡ list_any (λ p. p.holds) parts.now }
{
    for part in parts {
        if part.holds {
            return true;
        }
    }
    false
}

/// Whether one of the addends holds a BETWEEN or an IN.
fn any_addend_holds(addends: &[Addend]) -> bool
    ensures { result ≡ list_any (λ a. a.part.holds) addends.now }
{
    for addend in addends {
        if addend.part.holds {
            return true;
        }
    }
    false
}

/// `part = other` for each of the others, in order.
fn equals_each(
    alloc: Global,
    part: &Part,
    first: Part,
    more: List<Part>,
) -> Result<List<Tree>, AllocError>
    ensures { IfOk result (λ ts. ts ≡ map (equals part.now) (first ∷ more)) }
{
    let mut out = Vec::new(alloc);
    out.push(compare_again(alloc, &part.tree, Cmp::Eq, first.tree)?)?;
    for other in more.into_vec() {
        out.push(compare_again(alloc, &part.tree, Cmp::Eq, other.tree)?)?;
    }
    Ok(List::new(out))
}
