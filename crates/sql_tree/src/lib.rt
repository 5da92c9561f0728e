//! The trees of SQL's statements, and the refusals of a statement.
//!
//! A tree is plain data: `List`, `Boxed`, `Name` and `Text` are seen as what they hold, so that equal
//! trees are equal values.
#![tactic(auto)]

mod copies;
mod makers;
mod modes;
mod part;
mod query;
mod refusal;
mod statement;
mod tree;

pub use part::{Addend, Part, Tally};
pub use query::{
    At, Item, ItemTree, Items, KeyRef, ListMode, Query, SortKey, Source, Window, WindowKey,
    WindowKind,
};
pub use refusal::{Refusal, Which};
pub use statement::{
    AddColumn, Delete, Function, Insert, NewPart, NewProjection, Setting, Statement, Update,
};
pub use tree::{AggKind, Cmp, ColRef, Term, Tree};
