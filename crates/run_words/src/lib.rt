//! The words that the program is called with: `vert DIR [--mover K] [--halt] [--gen N --seed S] [SCRIPT]`, or `vert DIR --audit`.
//!
//! clap takes the words or refuses them, and tests on its matches decide the rest: the numbers, that `--gen` and `--seed` stand together,
//! that SCRIPT stands exactly where they don't, and that beside `--audit` stands nothing but DIR. What the words ask for is `wanted` of `specs/Words.antt`. The folder of the tables is
//! found without memory (`dir_of`), and is the one that clap takes (`dir_is_the_one_that_clap_takes`).
#![tactic(auto)]

mod command;
mod dir;
mod laws;
mod numbers;
mod reading;

pub use dir::dir_of;
pub use laws::dir_is_the_one_that_clap_takes;
pub use reading::{ScriptRun, Source, Wanted, read_words};
