//! The words that a program is called with, as the machine gives them. No clause can say what they are.
#![tactic(auto)]

mod words;

pub use words::words_of;
