use col_value::{Boxed, List, Wide};
use sql_tree::Cmp;

/// The kind of a value. NULL is of every kind.
#[derive(Clone, Copy, Debug, PartialEq, Eq)]
pub enum Kind {
    Null,
    Truth,
    Number,
    Date,
    Text,
}

/// A part of a sum, and whether a minus stands before it.
#[cycle(expr)]
#[derive(Debug, Drop)]
pub struct BoundTerm {
    pub minus: bool,
    pub part: Expr,
}

/// An expression. `Col(i)` is column i of the concatenated FROM tables, `Key(i)` column i of GROUP BY. `Agg(i)` is what was made of several
/// tuples: aggregate i of a group, or the value of window i, which stands only as a whole item.
#[cycle(expr)]
#[derive(Debug, Drop)]
pub enum Expr {
    Lit(Wide),
    Col(usize),
    Key(usize),
    Agg(usize),
    Neg(Boxed<Expr>),
    Sum(List<BoundTerm>),
    Product(List<Expr>),
    Compare(Boxed<Expr>, Cmp, Boxed<Expr>),
    IsNull(Boxed<Expr>),
    Not(Boxed<Expr>),
    And(List<Expr>),
    Or(List<Expr>),
}
