//! The bytes of numbers and texts: each value has one spelling, and no spelling begins another.
//!
//! A `put` appends the spelling of a value, or leaves what it was given as it was. A `take` reads the value
//! that the front of some bytes spells, and says how many bytes that takes; it answers None exactly where no
//! front of the bytes is a spelling. The spellings are the definitions `vint`, `be8`, `be4` and `text` of
//! `specs/Spellings.antt`. `read_vint` and `read_tag` are for a reader of more: they give the bytes behind what
//! they read, and a `Stop` tells bytes that spell nothing from a want of memory; how such readers are put together
//! is said in `specs/Parts.antt`.
#![tactic(auto)]

mod fixed;
mod front;
mod laws;
mod stop;
mod text;
mod varint;

pub use fixed::{put_be4, put_be8, take_be4, take_be8};
pub use front::{read_tag, read_vint, told};
pub use laws::{one_form, read_again, shortest};
pub use stop::Stop;
pub use text::{put_text, take_text};
pub use varint::{put_vint, take_vint};
