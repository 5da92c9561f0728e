//! The printed lines of a catch-up: that it was done, or why it was refused. They are `caught_text` and `refusal_text` of
//! `specs/Lines.antt`.
#![tactic(auto)]

mod printing;

pub use printing::{caught_text, refusal_text};
