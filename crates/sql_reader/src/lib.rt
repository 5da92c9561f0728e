//! The reader of statements: from the tokens of a text to the tree of the one statement that they spell, or to
//! the place of the first token with which no statement goes on.
//!
//! `read` promises both ways. Ok is a statement that the tokens spell by `Spells`, which `sql_tree` defines, and
//! `one_reading` says that it is the only one. `Syntax` comes exactly where they spell none, and its place is the
//! exact one, by `IsPlace`. Time is linear in the tokens; lists are read by loops.
//! Where a reader stops it drops what it holds by name: a drop left to the exits is proved at each of them anew.
#![tactic(auto)]

mod alterations;
mod calls;
mod changes;
mod clauses;
mod creations;
mod items;
mod parentheses;
mod queries;
mod reader;
mod sources;
mod statements;
mod windows;

pub use reader::{ReadFault, one_reading, read};
