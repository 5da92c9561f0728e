//! Whether a row is good.

ghost use Rattle.std.specs.Prelude.{◌≡◌, ◌<◌, ◌↔◌, length, slice_index_or, IsTrue, IfSome};
ghost use Rattle.std.specs.List.{All, AllZip};
ghost use Rattle.col_value.specs.Order.{IsValue};
ghost use Rattle.col_value.specs.declared.value.Value.TheVariants.{Null};
ghost use Rattle.col_value.specs.declared.kinds.ColType.TheVariants.{Boolean, Integer, Date};
ghost use Rattle.db_model.specs.Sound.{ValueFits, TextFits};
ghost use Rattle.row_history.specs.History.{stamped};
ghost use Rattle.audit_model.specs.Rows.{FitsColumn, IsGoodIn, IsGoodRow};
ghost use Rattle.audit_rows.specs.Blocks.{asked_at, row_at};

use crate::judged::judged_delete;
use block_codec::Block;
use catalog_types::{ProjColumn, Projection, Table};
use col_value::{ColType, Column, Value};

fn text_fits(kind: ColType, text: &[u8]) -> bool
    ensures { IsTrue result ↔ TextFits kind text.now }
{
    match kind {
        ColType::Varchar(most) => text.len() <= most as usize,
        ColType::Integer => false,
        ColType::Boolean => false,
        ColType::Date => false,
    }
}

fn is_boolean(kind: ColType) -> bool
    ensures { IsTrue result ↔ (kind ≡ Boolean) }
{
    matches!(kind, ColType::Boolean)
}

fn is_integer(kind: ColType) -> bool
    ensures { IsTrue result ↔ (kind ≡ Integer) }
{
    matches!(kind, ColType::Integer)
}

fn is_date(kind: ColType) -> bool
    ensures { IsTrue result ↔ (kind ≡ Date) }
{
    matches!(kind, ColType::Date)
}

/// Whether a value fits a column of a table.
fn value_fits(column: &Column, value: &Value) -> bool
    ensures { IsTrue result ↔ ValueFits column.now value.now }
{
    match value {
        Value::Null => !column.not_null,
        Value::Bool(_) => is_boolean(column.kind),
        Value::Int(_) => is_integer(column.kind),
        Value::Date(_) => is_date(column.kind),
        Value::Text(text) => text_fits(column.kind, text.as_bytes()),
    }
}

/// Whether a value fits the column of a table that a projection's column is.
fn fits_column(table: &Table, column: &ProjColumn, value: &Value) -> bool
    ensures { IsTrue result ↔ FitsColumn table.now column.now value.now }
{
    match table.columns.as_slice().get(column.ordinal) {
        Some(own) => value_fits(own, value),
        None => false,
    }
}

/// Whether what a column has at a place fits the column of a table.
fn fits_at(table: &Table, column: &ProjColumn, values: &Block, i: usize) -> bool
    ensures { IsTrue result ↔ FitsColumn table.now column.now (slice_index_or values.now i Null) }
{
    if i < values.len() {
        let cell = values.cell(i);
        fits_column(table, column, cell.value())
    } else {
        fits_column(table, column, &Value::Null)
    }
}

/// Whether the values of columns at a place fit the columns of a projection.
fn row_fits(table: &Table, own: &[ProjColumn], columns: &[Block], i: usize) -> bool
    requires { length columns.now ≡ length own.now }
    ensures { IsTrue result ↔ AllZip (FitsColumn table.now) own.now (row_at columns.now i) }
{
    for j in 0..own.len() {
        if !fits_at(table, &own[j], &columns[j], i) {
            return false;
        }
    }
    true
}

/// Whether a delete epoch is later than an insert epoch.
fn is_later(ins: u64, del: Option<u64>) -> bool
    ensures { IsTrue result ↔ IfSome del (λ d. ins < d) }
{
    match del {
        Some(at) => ins < at,
        None => true,
    }
}

/// Whether a row that is judged so is good.
fn is_sound(
    table: &Table,
    shape: &Projection,
    columns: &[Block],
    i: usize,
    ins: u64,
    del: Option<u64>,
) -> bool
    requires values { All (All IsValue) columns.now }
    requires wide { length columns.now ≡ length shape.now.columns }
    ensures { IsTrue result ↔ IsGoodRow table.now shape.now (stamped del (asked_at columns.now i ins)) }
{
    if !is_later(ins, del) {
        return false;
    }
    row_fits(table, shape.columns.as_slice(), columns, i)
}

/// Whether what is judged of the row at a place is good.
pub fn is_good(
    table: &Table,
    shape: &Projection,
    columns: &[Block],
    i: usize,
    ins: u64,
    del: Option<u64>,
    epoch: u64,
    mark: u64,
) -> bool
    requires values { All (All IsValue) columns.now }
    requires wide { length columns.now ≡ length shape.now.columns }
    ensures { IsTrue result ↔ IsGoodIn epoch mark table.now shape.now (stamped del (asked_at columns.now i ins)) }
{
    match judged_delete(ins, del, epoch, mark) {
        Some(del) => is_sound(table, shape, columns, i, ins, del),
        None => true,
    }
}
