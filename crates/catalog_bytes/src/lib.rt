//! A catalogue as bytes: each valid catalogue has one spelling of version 2, and is read again from it; it has one of
//! version 1, too, where no column has a default and each container stores all columns.
//!
//! `to_bytes` gives the spelling of version 2; `from_bytes` answers a catalogue exactly where all of the bytes are a
//! spelling of a valid one, of either version. The spellings are the definition `spelling` of `specs/Spelling.antt`.
#![tactic(auto)]

mod body;
mod form;
mod leaves;
mod part;
mod parts;

pub use body::{from_bytes, one_catalogue, to_bytes, which_have_version_one};
pub use form::Form;
