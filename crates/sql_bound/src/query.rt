use crate::Expr;
use col_value::List;
use sql_tree::{AggKind, WindowKind};

/// An aggregate over the rows of a group. Only `CountAll` has no argument.
#[derive(Debug, Drop)]
pub struct Aggregate {
    pub kind: AggKind,
    pub arg: Option<Expr>,
}

/// A window over the tuples that a query keeps: `partition` are columns, and `order` are columns, each with whether DESC stands behind it.
#[derive(Debug, Drop)]
pub struct BoundWindow {
    pub kind: WindowKind,
    pub partition: List<usize>,
    pub order: List<(usize, bool)>,
}

/// A FROM item: its table's place among all tables, the place of its first column among the columns of all items, and how
/// many columns it has.
#[derive(Clone, Copy, Debug)]
pub struct FromItem {
    pub table: usize,
    pub first: usize,
    pub columns: usize,
}

/// A query. `keep` has the conditions of ON and WHERE, each split at its ANDs; `keys` are the columns of GROUP BY; `order` has
/// the output columns by which it is ordered, each with whether DESC stands behind it. `aggs` are the aggregates of a group;
/// where the query has windows it isn't grouped, and they are what the windows are over their frames, one for each.
#[derive(Debug, Drop)]
pub struct BoundQuery {
    pub sources: List<FromItem>,
    pub keep: List<Expr>,
    pub grouped: bool,
    pub keys: List<usize>,
    pub aggs: List<Aggregate>,
    pub having: Option<Expr>,
    pub windows: List<BoundWindow>,
    pub items: List<Expr>,
    pub order: List<(usize, bool)>,
    pub limit: Option<u128>,
}

/// The columns that an UPDATE sets, by their places, each with its new value.
#[derive(Debug, Drop)]
pub struct Assigned {
    pub columns: List<(usize, Expr)>,
}
