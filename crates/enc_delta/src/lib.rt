//! The DELTAVAL encodings: the numbers of a block by how far they are above the least of them, and its dates by how far they are behind the earliest.
//!
//! `DeltaVal` is a `BlockCodec` that takes the blocks of numbers and NULLs. Its bytes are the tag 02, the varint of how
//! many values there are, the least number in eight bytes (0 where all are NULL), and for each value a varint: 0 for
//! NULL, else one more than how far it is above the least. That is the definition `delta_block` of `specs/Delta.antt`.
//! `block_len` counts them, and `are_numeric` says whether values are numbers and NULLs; `numbers_block_len` and `encode_numbers` go over a lane.
//! `DateDelta` takes the blocks of dates and NULLs with at least one date. Its bytes are the tag 05, the varint of how many values there are,
//! the least day in four bytes, and for each value a varint: 0 for NULL, else one more than how far its day is behind the least. That is
//! `date_block` of `specs/DateDelta.antt`; `date_block_len` counts the bytes, `are_dated` and `has_date` are its test.
#![tactic(auto)]

mod base;
mod codec;
mod date_codec;
mod day;
mod day_delta;
mod day_read;
mod delta;
mod numbers;
mod read;

pub use base::are_numeric;
pub use codec::{DeltaVal, block_len};
pub use date_codec::{DateDelta, date_block_len};
pub use day::{are_dated, has_date};
pub use numbers::{encode_numbers, numbers_block_len};
