//! The blocks of a column: which of the encodings a block has, writing it and reading it.
//!
//! A block of a column with a named encoding has that encoding. A block of an AUTO column has the shortest of those that
//! take its values, and of equal lengths the one with the least tag: the definition `auto_codec` of `specs/Choice.antt`.
//! `encode` makes the block that `block_of` there says; it counts the lengths of the others, of numbers over
//! a lane of them, and makes none of them but a dictionary where that may win. `decode` reads a block as the column's encoding lets them (`SpellsAs`): of an
//! AUTO column by any of the five tags, of a DELTAVAL column by 02 and, for dates, 05, else by its own alone. Bytes spell at most one list of values, whatever the
//! encoding (`one_block`), and the written block is read again (`a_block_is_read_again`).
#![tactic(auto)]

mod auto;
mod choice;
mod codec;
mod kinds;
mod laws;
mod numbers;

pub use choice::{decode, encode};
pub use codec::Codec;
pub use kinds::takes_all;
pub use laws::{a_block_is_read_again, one_block, shortest_block};
