use crate::{ColRef, Tree};
use col_value::{List, Name};

/// What a window function is: a number of a row, or an aggregate over its frame.
#[derive(Clone, Copy, Debug, PartialEq, Eq)]
pub enum WindowKind {
    RowNumber,
    Rank,
    CountAll,
    Count,
    Sum,
}

/// A key of ORDER BY in a window, and whether DESC stands behind it.
#[derive(Debug, Drop)]
pub struct WindowKey {
    pub column: ColRef,
    pub descending: bool,
}

/// `kind(arg) OVER (PARTITION BY partition ORDER BY order)`. Only `Count` and `Sum` have an argument;
/// the lists are empty where the window has no PARTITION BY and no ORDER BY.
#[derive(Debug, Drop)]
pub struct Window {
    pub kind: WindowKind,
    pub arg: Option<Tree>,
    pub partition: List<ColRef>,
    pub order: List<WindowKey>,
}

/// What an item is: an expression, or a window function.
#[derive(Debug, Drop)]
pub enum ItemTree {
    Plain(Tree),
    Window(Window),
}

/// A column of the result, and the name behind its AS.
#[derive(Debug, Drop)]
pub struct Item {
    pub tree: ItemTree,
    pub alias: Option<Name>,
}

/// What the items that were read let stand in the rest of their list: all, no window, or no aggregate
/// outside of a window.
#[derive(Clone, Copy, Debug, PartialEq, Eq)]
pub enum ListMode {
    Free,
    Grouped,
    Windowed,
}

/// A table behind FROM, the name behind its AS, and the condition behind its ON where it was joined.
#[derive(Debug, Drop)]
pub struct Source {
    pub table: Name,
    pub alias: Option<Name>,
    pub on: Option<Tree>,
}

/// An output column by its number from 1, or by its name.
#[derive(Debug, Drop)]
pub enum KeyRef {
    Number(i128),
    Name(Name),
}

/// A key of ORDER BY, and whether DESC stands behind it.
#[derive(Debug, Drop)]
pub struct SortKey {
    pub key: KeyRef,
    pub descending: bool,
}

/// What stands behind SELECT: `*`, or items.
#[derive(Debug, Drop)]
pub enum Items {
    Star,
    Listed(List<Item>),
}

/// A query. `keep` is the condition behind WHERE; the lists `group` and `order` are empty where the
/// query has no GROUP BY and no ORDER BY.
#[derive(Debug, Drop)]
pub struct Query {
    pub items: Items,
    pub sources: List<Source>,
    pub keep: Option<Tree>,
    pub group: List<ColRef>,
    pub having: Option<Tree>,
    pub order: List<SortKey>,
    pub limit: Option<u128>,
}

/// What a query looks at: the session's own view, or all that was committed up to an epoch.
#[derive(Clone, Copy, Debug)]
pub enum At {
    View,
    Latest,
    Epoch(u128),
}
