//! The printed text of the verdict on a folder: a line, and behind it the row in which two projections differ. It is `verdict_text` of
//! `specs/Lines.antt`.
#![tactic(auto)]

mod printing;

pub use printing::{print_number, print_numbers, print_row, verdict_text};
