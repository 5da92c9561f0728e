//! The columns that a container stores.

ghost use Rattle.std.specs.Prelude.{◌≡◌, ◌↔◌, IsTrue};
ghost use Rattle.std.specs.List.{All};
ghost use Rattle.ros_container.specs.Rows.{IsEpochOf};
ghost use Rattle.audit_files.specs.Columns.{place_in, encoding_in, MayStand};

use block_codec::Block;
use catalog_types::{Container, Projection};
use col_value::{Encoding, Value};
use ros_container::{encoding_of, epoch_of};

/// A column that a container stores: one of its projection, or the epochs behind these.
#[derive(Clone, Copy)]
pub enum StoredColumn {
    Column(usize),
    Epochs,
}

/// The place of a column among those of its container.
pub fn place_in(entry: &Container, column: StoredColumn) -> usize
    ensures { result ≡ place_in entry.now column }
{
    match column {
        StoredColumn::Column(place) => place,
        StoredColumn::Epochs => entry.stored as usize,
    }
}

/// How a column is written.
pub fn encoding_in(shape: &Projection, column: StoredColumn) -> Encoding
    ensures { result ≡ encoding_in shape.now column }
{
    match column {
        StoredColumn::Column(place) => encoding_of(shape, place),
        StoredColumn::Epochs => Encoding::Auto,
    }
}

fn is_epoch(entry: &Container, value: &Value) -> bool
    ensures { IsTrue result ↔ IsEpochOf entry.now value.now }
{
    match epoch_of(entry, value) {
        Some(_) => true,
        None => false,
    }
}

/// Whether all values of a block are epochs of a container.
fn are_epochs(entry: &Container, values: &Block) -> bool
    ensures { IsTrue result ↔ All (IsEpochOf entry.now) values.now }
{
    for i in 0..values.len() {
        let cell = values.cell(i);
        if !is_epoch(entry, cell.value()) {
            return false;
        }
    }
    true
}

/// Whether all values of a block may stand in a column.
pub fn may_stand(entry: &Container, column: StoredColumn, values: &Block) -> bool
    ensures { IsTrue result ↔ All (MayStand entry.now column) values.now }
{
    match column {
        StoredColumn::Column(_) => true,
        StoredColumn::Epochs => are_epochs(entry, values),
    }
}
