//! The catalogue: what the store knows of its tables, their projections, and the files that hold their rows.
//!
//! `Catalogue::valid` decides the rules of `specs/Valid.antt` and `specs/Parts.antt`, a field for each rule.
//! `least_lge`, `table` and `projection` answer by the lists, and `copy` gives an equal catalogue. Nothing but
//! `copy` takes memory.
#![tactic(auto)]

mod catalogue;
mod copies;
mod lookup;
mod names;
mod numbers;
mod parts;
mod reached;
mod span;
mod valid;

pub use catalogue::{Catalogue, Container, ProjColumn, Projection, Table};
pub use copies::copy_proj_columns;
