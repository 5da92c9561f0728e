//! The PLAIN encoding: the values of a block one after the other.
//!
//! `Plain` is a `BlockCodec` that takes every block. Its bytes are the tag 04, the varint of how many values there
//! are, and the spelling of each: the definition `plain` of `specs/Plain.antt`. `block_len` counts them, and `numbers_block_len` does over a lane of numbers.
#![tactic(auto)]

mod plain;

pub use plain::{Plain, block_len, numbers_block_len};
