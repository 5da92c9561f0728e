//! A column in two files: a body of blocks, and an index of them.
//!
//! A block holds up to 1,024 values; all blocks of a column but the last hold as many. The bytes of a block are those
//! that `block_choice` makes in the encoding of the column, and the index is that of `pos_index`: for each block its
//! first row, the place of its first byte in the body, and the least and the greatest of its values. The two files of a
//! column are the definitions of `specs/Column.antt`, and `specs/Held.antt` says which values two files hold: at most one
//! list, and after `write_column` the list that was written. `read_column` reads it whole; `read_index` reads an index,
//! and `read_values` the values of one block, of which it reads its own bytes alone; `read_block` counts that as a step.
#![tactic(auto)]

mod block;
mod checks;
mod column;
mod laws;
mod read;
mod whole;

pub use block::{read_block, read_values};
pub use column::write_column;
pub use laws::{a_written_column_is_held, one_column};
pub use read::read_index;
pub use whole::read_column;
