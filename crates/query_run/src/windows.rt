//! The output rows of a query with windows.

ghost use Rattle.std.specs.Prelude.{◌≡◌, ◌<◌, false, [], map, length, get_or, IfOk, OnOk, IsErrOf};
ghost use Rattle.std.specs.List.{All};
ghost use Rattle.col_value.specs.Order.{IsRow};
ghost use Rattle.col_value.specs.declared.wide.Wide.TheVariants.{Null};
ghost use Rattle.std.specs.List.{slice_index_or};
ghost use Rattle.sql_bound.specs.Bounds.{column_bound};
ghost use Rattle.sql_bound.specs.Outputs.{window_scope, window_scopes};
ghost use Rattle.query_laws.specs.Bounded.{IsBoundedQuery};
ghost use Rattle.query_order.specs.Enough.{IsEnough};
ghost use Rattle.query_run.specs.declared.fault.QueryFault.{QueryFault};
ghost use Rattle.query_run.specs.Outputs.{items_in};
ghost use Rattle.query_run.specs.Windows.{AreBeside, AreColumns, HasGreatWindow};

use crate::collected::add_made;
use crate::fault::QueryFault;
use col_value::{List, Row, Wide, WideRow};
use exec_window::{WindowFault, window_values};
use expr_value::{Sight, items_at};
use sql_bound::BoundQuery;
use std::alloc::{AllocError, Global};

/// The values of each window, down the rows.
fn columns(alloc: Global, query: &BoundQuery, rows: &[Row]) -> Result<Vec<WideRow>, QueryFault>
    requires bounded { IsBoundedQuery query.now }
    requires rows { All IsRow rows.now }
    ensures columns { IfOk result (λ v. AreColumns query.now rows.now v.items) }
    ensures in_range { OnOk result (HasGreatWindow query.now rows.now → ⊥) }
    ensures great { IsErrOf result QueryFault.SumOutOfRange → HasGreatWindow query.now rows.now }
{
    let mut out = Vec::with_capacity(alloc, query.windows.as_slice().len())?;
    for (i, window) in query.windows.as_slice().iter().enumerate() {
        let Some(aggregate) = query.aggs.as_slice().get(i) else {
            return Ok(out);
        };
        match window_values(alloc, window, aggregate, rows) {
            Ok(values) => out.push(List::new(values))?,
            Err(WindowFault::SumOutOfRange) => return Err(QueryFault::SumOutOfRange),
            Err(WindowFault::Memory) => return Err(QueryFault::Memory),
        }
    }
    Ok(out)
}

fn value_at(alloc: Global, column: &WideRow, i: usize) -> Result<Wide, AllocError>
    ensures { IfOk result (λ v. v ≡ slice_index_or column.now i Null) }
{
    match column.as_slice().get(i) {
        Some(value) => value.copy(alloc),
        None => Ok(Wide::Null),
    }
}

/// The values of the windows beside a row.
fn values_at(alloc: Global, columns: &[WideRow], i: usize) -> Result<Vec<Wide>, AllocError>
    ensures { IfOk result (λ v. v.items ≡ map (λ c. slice_index_or c i Null) columns.now) }
{
    let mut out = Vec::with_capacity(alloc, columns.len())?;
    for column in columns {
        out.push(value_at(alloc, column, i)?)?;
    }
    Ok(out)
}

/// The items over a row beside the values of the windows.
fn row_beside(
    alloc: Global,
    query: &BoundQuery,
    rows: &[Row],
    columns: &[WideRow],
    i: usize,
    row: &Row,
) -> Result<WideRow, AllocError>
    requires beside { AreBeside query.now rows.now columns.now }
    requires inside { i < length rows.now }
    requires row { row.now ≡ get_or rows.now i row.now }
    ensures { IfOk result (λ r. r ≡ items_in query.now (window_scope query.now rows.now (i, get_or rows.now i []))) }
{
    let values = values_at(alloc, columns, i)?;
    items_at(
        alloc,
        query.items.as_slice(),
        &Sight::of_tuple(row.as_slice(), values.as_slice()),
    )
}

/// Enough of the items over each row beside the values of the windows.
fn rows_beside(
    alloc: Global,
    query: &BoundQuery,
    rows: &[Row],
    columns: &[WideRow],
) -> Result<Vec<WideRow>, AllocError>
    requires beside { AreBeside query.now rows.now columns.now }
    ensures { IfOk result (λ v. IsEnough query.now.order query.now.limit (map (items_in query.now) (window_scopes query.now rows.now)) v.items) }
{
    let mut out = Vec::new(alloc);
    let mut bar = None;
    for (i, row) in rows.iter().enumerate() {
        let made = row_beside(alloc, query, rows, columns, i, row)?;
        add_made(alloc, &mut out, &mut bar, query, made)?;
    }
    Ok(out)
}

/// Enough of the output rows of a query over tuples as its windows see them.
pub fn of_windows(
    alloc: Global,
    query: &BoundQuery,
    rows: &[Row],
) -> Result<Vec<WideRow>, QueryFault>
    requires bounded { IsBoundedQuery query.now }
    requires plain { query.now.grouped ≡ false }
    requires rows { All IsRow rows.now }
    requires few { length rows.now < column_bound }
    ensures rows { IfOk result (λ v. IsEnough query.now.order query.now.limit (map (items_in query.now) (window_scopes query.now rows.now)) v.items) }
    ensures in_range { OnOk result (HasGreatWindow query.now rows.now → ⊥) }
    ensures great { IsErrOf result QueryFault.SumOutOfRange → HasGreatWindow query.now rows.now }
{
    match columns(alloc, query, rows) {
        Ok(columns) => Ok(rows_beside(alloc, query, rows, columns.as_slice())?),
        Err(fault) => Err(fault),
    }
}
