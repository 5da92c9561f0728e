//! A container that is written one column a step.
//!
//! `chosen_rows` reads the rows of chosen containers, or `rows_on` some columns of all, `kept_places` says which of them are retained, and
//! `in_order` brings their places into the order of a container. A `Draft` holds the rows as they were read and those places; `advance` makes the files of the next
//! column, and `finish` the delete vector, by the deletes that are known then. What is written holds the rows at the places, as
//! `IsDraft` of `specs/Draft.antt` says.
//!
//! `Rows` that were read are held by their columns, in blocks as they stand on disk (`Lanes`, `Column`): seen as rows, they take the memory of
//! their numbers and words.
#![tactic(auto)]

mod all;
mod column;
mod columns;
mod deletes;
mod draft;
mod finishing;
mod keeping;
mod lanes;
mod leading;
mod leads;
mod loading;
mod marking;
mod order;
mod ordering;
mod ranks;
mod reading;
mod rows;
mod values;

pub use deletes::{all_deletes, chosen_deletes, deletes_by};
pub use draft::Draft;
pub use keeping::{deletes_at, kept_places};
pub use ordering::in_order;
pub use reading::{chosen_rows, is_chosen, rows_on};
pub use rows::Rows;
