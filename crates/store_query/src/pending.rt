//! The session's pending rows.

ghost use Rattle.std.specs.Prelude.{◌≡◌, ◌++◌, OnOk};
ghost use Rattle.std.specs.List.{All};
ghost use Rattle.col_value.specs.Order.{IsRow};
ghost use Rattle.db_model.specs.State.{pending_rows};
ghost use Rattle.store_query.specs.Reading.{pending_of};

use col_value::Row;
use sql_bound::FromItem;
use sql_tree::At;
use std::alloc::{AllocError, Global};
use table_store::TableStore;
use txn_core::Session;

/// The pending rows of the table of a name.
fn pending_rows<'a>(changes: &'a Session, name: &[u8]) -> &'a [Row]
    ensures rows { result.now ≡ pending_rows name.now changes.now }
    ensures valid { All IsRow result.now }
{
    match changes.on(name) {
        Some(changes) => changes.rows(),
        None => &[],
    }
}

/// The pending rows of a FROM item's table that are read: none but in the session's own view. It takes no memory.
pub fn pending_of<'a>(
    tables: &TableStore,
    changes: &'a Session,
    at: At,
    item: FromItem,
) -> &'a [Row]
    ensures rows { result.now ≡ pending_of at tables.now.catalogue.tables changes.now item }
    ensures valid { All IsRow result.now }
{
    match at {
        At::View => match tables.root().tables.as_slice().get(item.table) {
            Some(table) => pending_rows(changes, table.name.as_slice()),
            None => &[],
        },
        At::Latest => &[],
        At::Epoch(_) => &[],
    }
}

/// Appends rows.
pub fn add_rows(alloc: Global, out: &mut Vec<Row>, rows: &[Row]) -> Result<(), AllocError>
    requires out { All IsRow out.old.items }
    requires rows { All IsRow rows.now }
    ensures rows { OnOk result (out.new.items ≡ out.old.items ++ rows.now) }
    ensures valid { OnOk result (All IsRow out.new.items) }
{
    for row in rows {
        out.push(row.copy(alloc)?)?;
    }
    Ok(())
}
