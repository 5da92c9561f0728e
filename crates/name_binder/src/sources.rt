ghost use Rattle.std.specs.Prelude.{◌≡◌, ◌++◌, ◌∷◌, [], IfOk, OnOk, map};
ghost use Rattle.sql_binding.specs.Queries.{columns_of};
ghost use Rattle.sql_binding.specs.Sight.{item_name, seen_as, sight};
ghost use Rattle.name_binder.specs.Tables.{tables_found};

use crate::{Found, SeenColumn};
use col_value::Column;
use sql_tree::Source;
use std::alloc::{AllocError, Global};

/// What a FROM item is called: its alias, or its table where it has none.
pub fn item_name(source: &Source) -> &[u8]
    ensures { result.now ≡ item_name source.now }
{
    match &source.alias {
        Some(alias) => alias.as_slice(),
        None => source.table.as_slice(),
    }
}

/// The tables that were found.
pub(crate) fn tables_found<'a>(
    alloc: Global,
    found: &[Option<Found<'a>>],
) -> Result<Vec<Found<'a>>, AllocError>
    ensures { IfOk result (λ v. v.items ≡ tables_found found.now) }
{
    let mut out = Vec::with_capacity(alloc, found.len())?;
    for item in found {
        push_found(item, &mut out)?;
    }
    Ok(out)
}

/// Appends the table, where it was found.
fn push_found<'a>(item: &Option<Found<'a>>, out: &mut Vec<Found<'a>>) -> Result<(), AllocError>
    ensures { OnOk result (out.new.items ≡ out.old.items ++ tables_found (item.now ∷ [])) }
{
    if let Some(table) = item {
        out.push(table.again())?;
    }
    Ok(())
}

/// The columns that the FROM items bring into sight, in order.
pub fn sight<'a>(
    alloc: Global,
    sources: &'a [Source],
    tables: &[Found<'a>],
) -> Result<Vec<SeenColumn<'a>>, AllocError>
    ensures { IfOk result (λ v. v.items ≡ sight sources.entry.now (columns_of tables.now)) }
{
    let mut out = Vec::new(alloc);
    for (i, source) in sources.iter().enumerate() {
        let Some(table) = tables.get(i) else {
            return Ok(out);
        };
        push_columns(i, item_name(source), table.columns(), &mut out)?;
    }
    Ok(out)
}

/// Appends the columns of one FROM item.
fn push_columns<'a>(
    place: usize,
    item: &'a [u8],
    columns: &'a [Column],
    out: &mut Vec<SeenColumn<'a>>,
) -> Result<(), AllocError>
    ensures { OnOk result (out.new.items ≡ out.old.items ++ map (seen_as place item.now) columns.now) }
{
    for column in columns {
        out.push(SeenColumn::new(place, item, column))?;
    }
    Ok(())
}
