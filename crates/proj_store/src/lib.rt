//! A projection: its entry in the catalogue, the delete vector that it holds for each container, the marks that came since, and the
//! rows that aren't on disk.
//!
//! No row of a container is in memory: over the contents of a disk a `ProjStore` stands for the rows that `Stores` of `stored_rows`
//! says. `load` reads the delete vectors and nothing else; `stamped` and `visible` read the containers. For the rows of a commit
//! `prepare_rows` or `make_room` makes room, and may fail; `apply_rows` takes no memory. For its deletes `prepare_marks` finds the places
//! (`IsPrepared` of `specs/Marking.antt`) and makes room, and `apply_marks` takes no memory; `wanted_rows_are_deleted` says that
//! marks at these places delete exactly what was wanted. A container of whose epochs no row is wanted isn't read for it, nor a block of
//! which an index says so. Of the other blocks those rows are looked up that may be wanted by each of their values (`AreCandidates` of
//! `specs/Candidates.antt`), until nothing is wanted any more; one that is the next in the order of what is wanted isn't even made.
//!
//! The indexes that a scan reads are kept beside the bytes of their files (`Indexes`): a file's bytes are read each time, and parsed where they
//! aren't the ones that are kept, so that what is kept is the index of the file whatever happened to it.
//!
//! A column that joins the others writes no row (`with_column` of `specs/Widening.antt`): `prepare_column` makes the entry's columns and
//! the rows in memory with its default beside those that are there, and `apply_column` puts them in their place.
#![tactic(auto)]

mod alive;
mod blocks;
mod candidates;
mod copies;
mod deletes;
mod indexes;
mod kept;
mod laws;
mod loading;
mod marking;
mod passing;
mod picks;
mod rows;
mod saved;
mod store;
mod widening;

pub use deletes::deletes_of;
pub use indexes::{Indexes, SharedIndex};
pub use laws::{
    later_marks_stay_above, rows_may_come_before_marks, valid_entries_load,
    vectors_are_those_of_the_disk, wanted_rows_are_deleted,
};
pub use store::{Marks, ProjStore, ReadyColumn, ReadyRows};
pub use widening::{a_default_joins_each_row, columns_with};
