ghost use Rattle.std.specs.Prelude.{◌≡◌, IfOk};
ghost use Rattle.sql_binding.specs.Queries.{bound_sources};

use col_value::List;
use name_binder::Found;
use sql_bound::FromItem;
use std::alloc::{AllocError, Global};

/// The FROM items over their tables: the columns of each stand behind those of the items before it.
pub(crate) fn bind_sources(
    alloc: Global,
    tables: &[Found<'_>],
) -> Result<List<FromItem>, AllocError>
    ensures { IfOk result (λ l. l ≡ bound_sources 0 tables.now) }
{
    let mut out = Vec::with_capacity(alloc, tables.len())?;
    let mut first: usize = 0;
    for table in tables {
        let columns = table.columns().len();
        out.push(FromItem {
            table: table.table(),
            first,
            columns,
        })?;
        // a number of columns past 2^64 - 1 has no memory to stand in
        let Some(next) = first.checked_add(columns) else {
            return Err(AllocError);
        };
        first = next;
    }
    Ok(List::new(out))
}
