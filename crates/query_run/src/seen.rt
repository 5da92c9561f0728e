//! Tuples as windows see them.

ghost use Rattle.std.specs.Prelude.{◌≡◌, true, false, [], if◌then◌else◌, length, IfOk};
ghost use Rattle.col_value.specs.declared.value.Value.TheVariants.{Null};
ghost use Rattle.sql_bound.specs.Used.{blanked, is_used};

use col_value::{List, Row, Value};
use expr_places::is_used;
use sql_bound::BoundQuery;
use std::alloc::{AllocError, Global};

/// Whether the query has windows.
pub fn has_windows(query: &BoundQuery) -> bool
    ensures some { result ≡ true → length query.now.windows ≡ 0 → ⊥ }
    ensures none { result ≡ false → query.now.windows ≡ [] }
{
    !query.windows.as_slice().is_empty()
}

/// The value of a column that the query uses, or NULL.
fn seen_value(
    alloc: Global,
    query: &BoundQuery,
    column: usize,
    value: &Value,
) -> Result<Value, AllocError>
    ensures { IfOk result (λ v. v ≡ (if is_used query.now column then value.now else Null)) }
{
    if is_used(query, column) {
        value.copy(alloc)
    } else {
        Ok(Value::Null)
    }
}

/// A tuple with NULL in the columns that the query doesn't use.
pub fn seen_row(alloc: Global, query: &BoundQuery, tuple: &[Value]) -> Result<Row, AllocError>
    ensures { IfOk result (λ r. r ≡ blanked (is_used query.now) 0 tuple.now) }
{
    let mut out = Vec::with_capacity(alloc, tuple.len())?;
    for (column, value) in tuple.iter().enumerate() {
        out.push(seen_value(alloc, query, column, value)?)?;
    }
    Ok(List::new(out))
}
