//! The names of a container's files.

ghost use Rattle.std.specs.Prelude.{◌≡◌, ◌<◌, ◌+◌, ◌*◌, ◌^◌, length};
ghost use Rattle.ros_container.specs.Files.{body_of, index_of, place_of};

use catalog_types::{Container, Projection};

/// The body of the column in a place.
pub fn body_of(base: u64, column: usize) -> u64
    requires { base + 2 * column + 1 < 2 ^ 62 }
    ensures { result ≡ body_of base column }
{
    4 * (base + 2 * column as u64)
}

/// The index of the column in a place.
pub fn index_of(base: u64, column: usize) -> u64
    requires { base + 2 * column + 1 < 2 ^ 62 }
    ensures { result ≡ index_of base column }
{
    4 * (base + 2 * column as u64 + 1)
}

/// The place that a column has among the files of a container: the epochs stand behind those that it stores, and the others have none.
pub fn place_of(entry: &Container, shape: &Projection, column: usize) -> Option<usize>
    ensures { result ≡ place_of (length shape.now.columns) entry.now column }
{
    if column == shape.columns.as_slice().len() {
        Some(entry.stored as usize)
    } else if (column as u64) < entry.stored {
        Some(column)
    } else {
        None
    }
}
