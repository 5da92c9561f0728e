//! The script and the load of a generated run.
//!
//! The script is the text `generated_script` of `specs/Load.antt`. What it copies from the name `@gen` is the load of so many lines from a
//! seed (`generated_load`), which `Generated` makes anew at each read; every other name is absent there.
#![tactic(auto)]

mod files;
mod lines;
mod statements;

pub use files::Generated;
pub use statements::script;
