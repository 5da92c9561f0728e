//! The files of one column.

ghost use Rattle.std.specs.Prelude.{◌≡◌, ◌≤◌, ◌<◌, ◌+◌, ◌*◌, ◌^◌, length, Some, OnOk};
ghost use Rattle.common_laws.specs.Causes.{HasCause};
ghost use Rattle.common_laws.specs.Maps.{Contents};
ghost use Rattle.col_disk.specs.Moved.{Moved, NoName, Named, Either};
ghost use Rattle.col_file.specs.Held.{HoldsColumn};
ghost use Rattle.ros_container.specs.Encodings.{written_of, encoding_at};
ghost use Rattle.ros_container.specs.Files.{body_of, index_of};
ghost use Rattle.ros_container.specs.Rows.{stored_values};
ghost use Rattle.container_draft.specs.Placed.{all_at};

use crate::rows::Rows;
use crate::values::stored_values;
use catalog_types::Projection;
use col_disk::{Disk, DiskFault};
use col_file::write_column;
use ros_container::{body_of, encoding_of, index_of};
use std::alloc::{AllocError, Global};

/// Makes the two files of one column: a column of the projection, in its encoding, or behind them the epochs, which are AUTO.
pub fn write_one<D: Disk>(
    alloc: Global,
    disk: &mut D,
    base: u64,
    shape: &Projection,
    rows: &Rows,
    places: &[usize],
    column: usize,
) -> Result<(), DiskFault>
    requires numbers { base + 2 * length shape.now.columns + 1 < 2 ^ 62 }
    requires column { column ≤ length shape.now.columns }
    requires some { 0 < length places.now }
    ensures held { OnOk result ((m : Contents) → D.holds disk.new ≡ Some m → HoldsColumn (encoding_at (written_of shape.now) column) (body_of base column) (index_of base column) (length places.now) m (stored_values (length shape.now.columns) column (all_at rows.now places.now))) }
    ensures moved { Moved ⟦<D as Disk>⟧ (Either (Named (body_of base column)) (Named (index_of base column))) NoName disk.old disk.new }
    ensures cause { HasCause DiskFault.Failed (D.faults disk.old) (D.faults disk.new) result }
{
    let columns = shape.columns.as_slice().len();
    let encoding = encoding_of(shape, column);
    let values = match stored_values(alloc, columns, rows, places, column, encoding) {
        Ok(values) => values,
        Err(AllocError) => return Err(DiskFault::Memory),
    };
    let body = body_of(base, column);
    let index = index_of(base, column);
    write_column(alloc, disk, body, index, values.as_slice(), encoding)
}
