//! Reading a container.

ghost use Rattle.std.specs.Prelude.{◌≡◌, ◌<◌, length, Some, IfOk, IfErr};
ghost use Rattle.std.specs.List.{All};
ghost use Rattle.common_laws.specs.Causes.{HasCause};
ghost use Rattle.common_laws.specs.Maps.{Contents};
ghost use Rattle.col_disk.specs.Moved.{Moved, NoName};
ghost use Rattle.col_file.specs.Held.{HoldsColumn};
ghost use Rattle.col_value.specs.Order.{IsValue};
ghost use Rattle.col_value.specs.declared.kinds.Encoding.TheVariants.{Auto};
ghost use Rattle.ros_container.specs.Encodings.{written_of};
ghost use Rattle.ros_container.specs.Files.{body_of, index_of};
ghost use Rattle.ros_container.specs.Held.{HoldsContainer, BlamesContainer, HoldsNoRows};
ghost use Rattle.ros_container.specs.Parts.{HasValues};
ghost use Rattle.ros_container.specs.Readable.{IsReadable};
ghost use Rattle.ros_container.specs.Rows.{epoch_values, AreRows, AreWide, AreWithin};

use crate::encodings::{default_values, encoding_of};
use crate::files::{body_of, index_of};
use crate::transpose::{blank_rows, with_values};
use catalog_types::{Container, Projection};
use col_disk::{Disk, StoreFault};
use col_file::{one_column, read_column};
use col_value::{Asked, Encoding, Value};
use std::alloc::{AllocError, Global};

/// The values of one column, whether it is stored or not.
fn read_one<D: Disk>(
    alloc: Global,
    disk: &mut D,
    entry: &Container,
    shape: &Projection,
    column: usize,
) -> Result<Vec<Value>, StoreFault>
    requires entry { IsReadable shape.now.columns entry.now }
    requires column { column < length shape.now.columns }
    ensures found { IfOk result (λ v. (m : Contents) → D.holds disk.old ≡ Some m → HasValues m (written_of shape.now) entry.now column v.items) }
    ensures long { IfOk result (λ v. length v.items ≡ entry.now.rows) }
    ensures values { IfOk result (λ v. All IsValue v.items) }
    ensures blamed { IfErr result (BlamesContainer (written_of shape.now) entry.now (D.holds disk.old)) }
    ensures kept { D.holds disk.new ≡ D.holds disk.old }
    ensures moved { Moved ⟦<D as Disk>⟧ NoName NoName disk.old disk.new }
    ensures cause { HasCause StoreFault.Disk (D.faults disk.old) (D.faults disk.new) result }
{
    if column as u64 >= entry.stored {
        return match default_values(alloc, entry, shape, column) {
            Ok(values) => Ok(values),
            Err(AllocError) => Err(StoreFault::Memory),
        };
    }
    let body = body_of(entry.base, column);
    let index = index_of(entry.base, column);
    let encoding = encoding_of(shape, column);
    read_column(alloc, disk, body, index, entry.rows, encoding)
}

/// The epochs, as values.
fn read_epochs<D: Disk>(
    alloc: Global,
    disk: &mut D,
    entry: &Container,
    shape: &Projection,
) -> Result<Vec<Value>, StoreFault>
    requires entry { IsReadable shape.now.columns entry.now }
    ensures found { IfOk result (λ v. (m : Contents) → D.holds disk.old ≡ Some m → HoldsColumn Auto (body_of entry.now.base entry.now.stored) (index_of entry.now.base entry.now.stored) entry.now.rows m v.items) }
    ensures long { IfOk result (λ v. length v.items ≡ entry.now.rows) }
    ensures blamed { IfErr result (BlamesContainer (written_of shape.now) entry.now (D.holds disk.old)) }
    ensures kept { D.holds disk.new ≡ D.holds disk.old }
    ensures moved { Moved ⟦<D as Disk>⟧ NoName NoName disk.old disk.new }
    ensures cause { HasCause StoreFault.Disk (D.faults disk.old) (D.faults disk.new) result }
{
    let place = entry.stored as usize;
    let body = body_of(entry.base, place);
    let index = index_of(entry.base, place);
    read_column(alloc, disk, body, index, entry.rows, Encoding::Auto)
}

/// The rows without their values; the body of the epochs is blamed where one of them is not the entry's.
fn rows_of<D: Disk>(
    alloc: Global,
    disk: &mut D,
    entry: &Container,
    shape: &Projection,
) -> Result<Vec<Asked>, StoreFault>
    requires entry { IsReadable shape.now.columns entry.now }
    ensures found { IfOk result (λ v. (m : Contents) → D.holds disk.old ≡ Some m → HoldsColumn Auto (body_of entry.now.base entry.now.stored) (index_of entry.now.base entry.now.stored) entry.now.rows m (epoch_values v.items)) }
    ensures long { IfOk result (λ v. length v.items ≡ entry.now.rows) }
    ensures wide { IfOk result (λ v. AreWide 0 v.items) }
    ensures values { IfOk result (λ v. AreRows v.items) }
    ensures within { IfOk result (λ v. AreWithin entry.now v.items) }
    ensures blamed { IfErr result (BlamesContainer (written_of shape.now) entry.now (D.holds disk.old)) }
    ensures kept { D.holds disk.new ≡ D.holds disk.old }
    ensures moved { Moved ⟦<D as Disk>⟧ NoName NoName disk.old disk.new }
    ensures cause { HasCause StoreFault.Disk (D.faults disk.old) (D.faults disk.new) result }
{
    let columns = shape.columns.as_slice().len();
    match read_epochs(alloc, disk, entry, shape) {
        Ok(epochs) => match blank_rows(alloc, columns, entry, epochs.as_slice()) {
            Ok(Some(rows)) => Ok(rows),
            Ok(None) => {
                one_column();
                Err(StoreFault::Damaged(body_of(entry.base, entry.stored as usize)))
            }
            Err(AllocError) => Err(StoreFault::Memory),
        },
        Err(fault) => Err(fault),
    }
}

/// All rows of a container, in the order in which they stand there. `Damaged` names a file of the container that is
/// absent or isn't what it has to be, or the body of the epochs where one of them isn't from the entry's least to its
/// greatest epoch. A column that isn't stored has its default in each row.
pub fn rows<D: Disk>(
    alloc: Global,
    disk: &mut D,
    entry: &Container,
    shape: &Projection,
) -> Result<Vec<Asked>, StoreFault>
    requires entry { IsReadable shape.now.columns entry.now }
    ensures found { IfOk result (λ v. (m : Contents) → D.holds disk.old ≡ Some m → HoldsContainer m (written_of shape.now) entry.now v.items) }
    ensures long { IfOk result (λ v. length v.items ≡ entry.now.rows) }
    ensures wide { IfOk result (λ v. AreWide (length shape.now.columns) v.items) }
    ensures values { IfOk result (λ v. AreRows v.items) }
    ensures within { IfOk result (λ v. AreWithin entry.now v.items) }
    ensures blamed { IfErr result (BlamesContainer (written_of shape.now) entry.now (D.holds disk.old)) }
    ensures none { IfErr result (HoldsNoRows (written_of shape.now) entry.now (D.holds disk.old)) }
    ensures kept { D.holds disk.new ≡ D.holds disk.old }
    ensures moved { Moved ⟦<D as Disk>⟧ NoName NoName disk.old disk.new }
    ensures cause { HasCause StoreFault.Disk (D.faults disk.old) (D.faults disk.new) result }
{
    let mut rows = match rows_of(alloc, disk, entry, shape) {
        Ok(rows) => rows,
        Err(fault) => return Err(fault),
    };
    for i in 0..shape.columns.as_slice().len() {
        let values = match read_one(alloc, disk, entry, shape, i) {
            Ok(values) => values,
            Err(fault) => return Err(fault),
        };
        rows = match with_values(alloc, rows, values) {
            Ok(rows) => rows,
            Err(AllocError) => return Err(StoreFault::Memory),
        };
    }
    Ok(rows)
}
