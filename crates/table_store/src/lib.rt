//! Tables as their projections, over a disk.
//!
//! A `TableStore` is seen as the catalogue that the disk opens to, with the newest closed epoch, and the projections of each table with
//! what is in memory of them. Over a disk it stands for a database (`Stands` of `store_commit`); each call says which database it makes of
//! that (`Makes`): then, where memory was short, and whatever a crash left at any moment of it. A commit makes all room before anything
//! changes; of a table's projections the last one that has exactly its columns takes the pending rows themselves, the others get copies.
//! A moveout of all writes the files of each projection that is behind, and then one catalogue (`specs/Draining.antt`).
//! A column that joins a table writes no row: the catalogue tells its default, and rows in memory get it (`specs/Widening.antt`).
#![tactic(auto)]

mod committing;
mod creating;
mod draining;
mod dropping;
mod marking;
mod moving;
mod next;
mod part;
mod parts;
mod shaping;
mod store;
mod widening;

pub use moving::entry_copy;
pub use parts::Parts;
pub use shaping::NewProjection;
pub use store::TableStore;
