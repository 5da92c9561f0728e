//! A projection scanned batch by batch.
//!
//! A `Scan` hands over the rows that are visible at an epoch, as rows of the table's columns with NULL in those that aren't needed, and
//! their insert epochs, if these are asked for: `next` gives those of the next block of a container, or of the next rows in memory
//! (`Gives` of `specs/Scanning.antt`), until no row is left. Blocks whose rows lie out of the bounds that the scan has, by the least and
//! greatest values in the indexes, are passed over unread: those rows are told apart by `Shows`. Of a container only the columns that are
//! needed are read, block by block; its epochs only where they are told, or some of them are later than the epoch that is asked for. Each
//! block of a file that is read is a step of the caller's count: no more than `cost_left` of `specs/Counting.antt`. A
//! `Batch` holds up to 1,024 rows: those of a block in its columns, with the places of the rows that are left. None of them is made before
//! `copy_row` asks for it, and that replaces the values of a row that is used again.
//! `retains` says whether a row is retained from a mark on, and reads nothing. `compare_lanes` compares the numbers of a lane with one number.
#![tactic(auto)]

mod batch;
mod chosen;
mod columns;
mod laws;
mod opened;
mod passing;
mod reading;
mod retained;
mod ruling;
mod scan;
mod shown;
mod slots;

pub use batch::Batch;
pub use laws::stored_rows_have_indexes;
pub use retained::retains;
pub use row_bounds::compare_lanes;
pub use scan::Scan;
