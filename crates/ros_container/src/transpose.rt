//! Rows that are made of columns.

ghost use Rattle.std.specs.Prelude.{◌≡◌, length, IfOk, IfSome, IfNone};
ghost use Rattle.std.specs.List.{All};
ghost use Rattle.std.specs.Prelude.{pos};
ghost use Rattle.col_value.specs.declared.value.Value.TheVariants.{Int};
ghost use Rattle.ros_container.specs.Parts.{with_value, with_values};
ghost use Rattle.ros_container.specs.Rows.{epoch_values, AreRows, AreWide, AreWithin, IsWithin, IsEpochOf};

use catalog_types::Container;
use col_value::{Asked, List, Value};
use std::alloc::{AllocError, Global};

/// The epoch that the value is, if it is one of the entry's.
pub fn epoch_of(entry: &Container, value: &Value) -> Option<u64>
    ensures found { IfSome result (λ epoch. (value.now ≡ Int (pos epoch)) × IsWithin entry.now epoch) }
    ensures none { IfNone result (IsEpochOf entry.now value.now → ⊥) }
{
    match value {
        Value::Int(n) => {
            if *n < 0 {
                return None;
            }
            let epoch = *n as u64;
            if entry.least_epoch <= epoch && epoch <= entry.greatest_epoch {
                Some(epoch)
            } else {
                None
            }
        }
        _ => None,
    }
}

/// Rows of these epochs without values, with room for so many. None where some value is no epoch of the entry.
pub fn blank_rows(
    alloc: Global,
    columns: usize,
    entry: &Container,
    epochs: &[Value],
) -> Result<Option<Vec<Asked>>, AllocError>
    ensures epochs { IfOk result (λ o. IfSome o (λ v. epoch_values v.items ≡ epochs.now)) }
    ensures wide { IfOk result (λ o. IfSome o (λ v. AreWide 0 v.items)) }
    ensures values { IfOk result (λ o. IfSome o (λ v. AreRows v.items)) }
    ensures within { IfOk result (λ o. IfSome o (λ v. AreWithin entry.now v.items)) }
    ensures none { IfOk result (λ o. IfNone o (All (IsEpochOf entry.now) epochs.now → ⊥)) }
{
    let mut out = Vec::with_capacity(alloc, epochs.len())?;
    for value in epochs {
        match epoch_of(entry, value) {
            Some(ins) => {
                let row = List::new(Vec::with_capacity(alloc, columns)?);
                out.push(Asked { row, ins })?;
            }
            None => return Ok(None),
        }
    }
    Ok(Some(out))
}

fn with_value(asked: Asked, value: Value) -> Result<Asked, AllocError>
    ensures { IfOk result (λ a. a ≡ with_value asked value) }
{
    let Asked { row, ins } = asked;
    let mut row = row.into_vec();
    row.push(value)?;
    Ok(Asked {
        row: List::new(row),
        ins,
    })
}

/// Each row with its value of a further column.
pub fn with_values(
    alloc: Global,
    rows: Vec<Asked>,
    values: Vec<Value>,
) -> Result<Vec<Asked>, AllocError>
    requires { length rows.items ≡ length values.items }
    ensures { IfOk result (λ v. v.items ≡ with_values rows.items values.items) }
{
    let mut out = Vec::with_capacity(alloc, rows.len())?;
    for (asked, value) in rows.into_iter().zip(values) {
        out.push(with_value(asked, value)?)?;
    }
    Ok(out)
}
