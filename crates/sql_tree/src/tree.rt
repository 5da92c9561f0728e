use col_value::{Boxed, List, Name, Wide};

/// How two values are compared.
#[derive(Clone, Copy, Debug, PartialEq, Eq)]
pub enum Cmp {
    Eq,
    Ne,
    Lt,
    Le,
    Gt,
    Ge,
}

/// An aggregate over the rows of a group: `COUNT(*)`, or one over the values of its argument.
#[derive(Clone, Copy, Debug, PartialEq, Eq)]
pub enum AggKind {
    CountAll,
    Count,
    Sum,
    Min,
    Max,
}

/// A column as a statement names it, with the FROM item before its dot where one stands.
#[derive(Debug, Drop)]
pub struct ColRef {
    pub qualifier: Option<Name>,
    pub name: Name,
}

/// A part of a sum, and whether a minus stands before it.
#[cycle(tree)]
#[derive(Debug, Drop)]
pub struct Term {
    pub minus: bool,
    pub part: Tree,
}

/// An expression. The trees of AND, OR, sums and products hold all parts of their chain, and have at
/// least two; parentheses are forgotten. Only `CountAll` has no argument.
#[cycle(tree)]
#[derive(Debug, Drop)]
pub enum Tree {
    Lit(Wide),
    Col(ColRef),
    Neg(Boxed<Tree>),
    Sum(List<Term>),
    Product(List<Tree>),
    Compare(Boxed<Tree>, Cmp, Boxed<Tree>),
    IsNull(Boxed<Tree>),
    Not(Boxed<Tree>),
    And(List<Tree>),
    Or(List<Tree>),
    Agg(AggKind, Option<Boxed<Tree>>),
}
