//! The list that a query prints.

ghost use Rattle.std.specs.Prelude.{◌≡◌, ◌++◌, IfOk, OnOk};
ghost use Rattle.std.specs.List.{flat_map};
ghost use Rattle.std.specs.String.{string_bytes};
ghost use Rattle.col_value.specs.Prints.{row_text};
ghost use Rattle.db_model.specs.Answers.{count_line, listing_text};

use col_value::WideRow;
use std::alloc::{AllocError, Global};

/// Appends a line for each row.
fn print_rows(rows: &[WideRow], out: &mut Vec<u8>) -> Result<(), AllocError>
    ensures { OnOk result (out.new.items ≡ out.old.items ++ flat_map row_text rows.now) }
{
    for row in rows {
        row.print(out)?;
    }
    Ok(())
}

/// `(n rows)`
fn count_text(alloc: Global, count: usize) -> Result<String, AllocError>
    ensures { IfOk result (λ t. string_bytes t ≡ count_line count) }
{
    format!(in alloc; "({count} rows)\n")
}

/// A line for each row, and their number.
pub fn listing(alloc: Global, rows: &[WideRow]) -> Result<Vec<u8>, AllocError>
    ensures { IfOk result (λ v. v.items ≡ listing_text rows.now) }
{
    let mut out = Vec::new(alloc);
    print_rows(rows, &mut out)?;
    let count = count_text(alloc, rows.len())?;
    out.extend_from_slice(count.as_bytes())?;
    Ok(out)
}
