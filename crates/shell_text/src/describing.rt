//! What `\d` and `\e` show.

ghost use Rattle.std.specs.Prelude.{◌≡◌, ◌++◌, OnOk};
ghost use Rattle.std.specs.List.{flat_map};
ghost use Rattle.shell_text.specs.Schemas.{table_text};

use crate::schemas::{print_projection, print_table};
use catalog_types::Table;
use std::alloc::{AllocError, Global};

/// Appends the SQL that makes these tables with their projections.
pub fn print_tables(alloc: Global, tables: &[Table], out: &mut Vec<u8>) -> Result<(), AllocError>
    ensures { OnOk result (out.new.items ≡ out.old.items ++ flat_map table_text tables.now) }
{
    for table in tables {
        print_table(alloc, table, out)?;
    }
    Ok(())
}

/// Appends the SQL that makes the projection of a name, and says whether the table has it.
fn print_named_projection(
    alloc: Global,
    table: &Table,
    name: &[u8],
    out: &mut Vec<u8>,
) -> Result<bool, AllocError> {
    for projection in table.projections.as_slice() {
        if projection.name.as_slice().eq_ignore_ascii_case(name) {
            print_projection(alloc, table, projection, out)?;
            return Ok(true);
        }
    }
    Ok(false)
}

/// Appends the SQL that makes the table of a name with its projections, or the projection of a name, and says whether there is one.
pub fn print_named(
    alloc: Global,
    tables: &[Table],
    name: &[u8],
    out: &mut Vec<u8>,
) -> Result<bool, AllocError> {
    for table in tables {
        if table.name.as_slice().eq_ignore_ascii_case(name) {
            print_table(alloc, table, out)?;
            return Ok(true);
        }
        if print_named_projection(alloc, table, name, out)? {
            return Ok(true);
        }
    }
    Ok(false)
}

/// The epochs, each in a line.
pub fn epochs_text(
    alloc: Global,
    last: u64,
    last_good: u64,
    mark: u64,
) -> Result<String, AllocError> {
    format!(in alloc;
        "newest closed epoch     {last}\nlast good epoch         {last_good}\nancient history mark    {mark}\n"
    )
}
