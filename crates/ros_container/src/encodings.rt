//! How a container's columns are written, and what those are that it doesn't store.

ghost use Rattle.std.specs.Prelude.{◌≡◌, ◌<◌, ◌≤◌, length, replicate, IfOk};
ghost use Rattle.std.specs.List.{All};
ghost use Rattle.col_value.specs.Order.{IsValue};
ghost use Rattle.ros_container.specs.Encodings.{written_of, encoding_at, default_at};
ghost use Rattle.ros_container.specs.Readable.{IsOfColumns};

use catalog_types::{Container, Projection};
use col_value::{Encoding, Value};
use std::alloc::{AllocError, Global};

/// How a column is written: as the projection says, and the epochs behind its columns AUTO.
pub fn encoding_of(shape: &Projection, column: usize) -> Encoding
    ensures { result ≡ encoding_at (written_of shape.now) column }
{
    match shape.columns.as_slice().get(column) {
        Some(column) => column.encoding,
        None => Encoding::Auto,
    }
}

fn default_in(alloc: Global, shape: &Projection, column: usize) -> Result<Value, AllocError>
    ensures { IfOk result (λ v. v ≡ default_at (written_of shape.now) column) }
{
    match shape.columns.as_slice().get(column) {
        Some(column) => match &column.default {
            Some(value) => value.copy(alloc),
            None => Ok(Value::Null),
        },
        None => Ok(Value::Null),
    }
}

/// The value that a column has in each row of a container that doesn't store it.
pub fn default_of(
    alloc: Global,
    entry: &Container,
    shape: &Projection,
    column: usize,
) -> Result<Value, AllocError>
    requires entry { IsOfColumns shape.now.columns entry.now }
    requires behind { entry.now.stored ≤ column }
    requires column { column < length shape.now.columns }
    ensures same { IfOk result (λ v. v ≡ default_at (written_of shape.now) column) }
    ensures value { IfOk result IsValue }
{
    default_in(alloc, shape, column)
}

fn repeated(alloc: Global, value: &Value, count: u64) -> Result<Vec<Value>, AllocError>
    ensures { IfOk result (λ v. v.items ≡ replicate count value.now) }
{
    let mut out = Vec::with_capacity(alloc, count as usize)?;
    for _ in 0..count {
        out.push(value.copy(alloc)?)?;
    }
    Ok(out)
}

/// The values of a column that a container doesn't store.
pub fn default_values(
    alloc: Global,
    entry: &Container,
    shape: &Projection,
    column: usize,
) -> Result<Vec<Value>, AllocError>
    requires entry { IsOfColumns shape.now.columns entry.now }
    requires behind { entry.now.stored ≤ column }
    requires column { column < length shape.now.columns }
    ensures same { IfOk result (λ v. v.items ≡ replicate entry.now.rows (default_at (written_of shape.now) column)) }
    ensures values { IfOk result (λ v. All IsValue v.items) }
{
    let value = default_of(alloc, entry, shape, column)?;
    repeated(alloc, &value, entry.rows)
}
