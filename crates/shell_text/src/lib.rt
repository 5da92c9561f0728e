//! The text of a shell over SQL: what it cuts its input into, and what it shows.
//!
//! `Input` takes the input as it comes and hands out pieces, which joined are the input: a statement, which is one statement text by the
//! lexer's own `split` with its `;` behind it (`IsStatement` of `specs/Pieces.antt`), or a line of the shell's own. `told_refusal` says a refusal in words, with the
//! line of the statement that its place stands in and a caret below the place (`excerpt` of `specs/Excerpts.antt`). `listing_of` takes the answer of a
//! query apart, and prints it in columns, each row with all its cells in order (`row_line` of `specs/Tables.antt`). `print_tables` prints the SQL that makes
//! tables and their projections (`table_text` of `specs/Schemas.antt`). The one error is that memory ran out.
#![tactic(auto)]

mod bytes;
mod cells;
mod commands;
mod describing;
mod excerpts;
mod headings;
mod input;
mod listings;
mod marks;
mod options;
mod piece;
mod places;
mod refusals;
mod schemas;
mod sentences;
mod tables;

pub use commands::{Asked, Command, asked_in, help_text};
pub use describing::{epochs_text, print_named, print_tables};
pub use excerpts::print_excerpt;
pub use input::Input;
pub use listings::{Listing, listing_of};
pub use options::{Form, Wanted, wanted_by};
pub use piece::{Kind, Piece};
pub use refusals::{told_refusal, told_unfinished};
pub use schemas::print_table;
pub use tables::{Shape, print_row};
