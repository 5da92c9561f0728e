//! The rows of one container: a projection's rows on the disk, two files for each column that it stores and two for the epochs.
//!
//! The files and their names are those of `specs/Files.antt`, and `HoldsContainer` of `specs/Held.antt` says that
//! they hold some rows: each stored column in the encoding that the projection's shape says, and behind them the epochs, which
//! are AUTO; a column that came later isn't stored, and has its default in each row. `rows` reads all rows, and blames a file only
//! where the container holds no rows at all. A container holds one list of rows (`one_container`), and goes on holding it where
//! other files change (`container_kept`). Another crate writes.
#![tactic(auto)]

mod encodings;
mod files;
mod laws;
mod read;
mod transpose;

pub use encodings::{default_of, encoding_of};
pub use files::{body_of, index_of, place_of};
pub use laws::{container_kept, one_container};
pub use read::rows;
pub use transpose::epoch_of;
