//! The SQL that makes a table and its projections.

ghost use Rattle.std.specs.Prelude.{◌≡◌, ◌++◌, ◌∷◌, [], if◌then◌else◌, bytes_eq, codes, map, IfOk, OnOk};
ghost use Rattle.std.specs.List.{flat_map, list_any};
ghost use Rattle.shell_text.specs.Schemas.{behind, column_text, columns_text, comma, drop_line, dropped_text, encoding_text, end_text, is_own, joined, name_at, null_text, order_text, part_name, part_text, parts_text, projection_text, selected_text, shape_text, sort_name, sorted_text, table_text, type_text};

use catalog_types::{ProjColumn, Projection, Table};
use col_value::{ColType, Column, Encoding};
use common_laws::Blob;
use std::alloc::{AllocError, Global};

/// Appends a text.
fn put(text: &[u8], out: &mut Vec<u8>) -> Result<(), AllocError>
    ensures { OnOk result (out.new.items ≡ out.old.items ++ text.now) }
{
    out.extend_from_slice(text)
}

/// Appends each text behind another one.
fn print_more(texts: &[Blob], between: &[u8], out: &mut Vec<u8>) -> Result<(), AllocError>
    ensures { OnOk result (out.new.items ≡ out.old.items ++ flat_map (behind between.now) texts.now) }
{
    for text in texts {
        out.extend_from_slice(between)?;
        out.extend_from_slice(text.as_slice())?;
    }
    Ok(())
}

/// Appends the first text, and each further one behind another one.
fn print_joined(texts: &[Blob], between: &[u8], out: &mut Vec<u8>) -> Result<(), AllocError>
    ensures { OnOk result (out.new.items ≡ out.old.items ++ joined between.now texts.now) }
{
    match texts {
        [] => Ok(()),
        [first, more @ ..] => {
            out.extend_from_slice(first.as_slice())?;
            print_more(more, between, out)
        }
    }
}

/// The type of a column.
fn type_text(alloc: Global, kind: ColType) -> Result<Vec<u8>, AllocError>
    ensures { IfOk result (λ v. v.items ≡ type_text kind) }
{
    match kind {
        ColType::Integer => Vec::from_slice(alloc, b"INTEGER"),
        ColType::Varchar(most) => {
            let text = format!(in alloc; "VARCHAR({most})")?;
            Vec::from_slice(alloc, text.as_bytes())
        }
        ColType::Boolean => Vec::from_slice(alloc, b"BOOLEAN"),
        ColType::Date => Vec::from_slice(alloc, b"DATE"),
    }
}

/// Whether NULL is refused.
fn null_text(not_null: bool) -> &'static [u8]
    ensures { result.now ≡ null_text not_null }
{
    if not_null { b" NOT NULL" } else { &[] }
}

/// A column of CREATE TABLE.
fn column_text(alloc: Global, column: &Column) -> Result<Blob, AllocError>
    ensures { IfOk result (λ t. t ≡ column_text column.now) }
{
    let mut out = Vec::from_slice(alloc, column.name.as_slice())?;
    let kind = type_text(alloc, column.kind)?;
    out.extend_from_slice(b" ")?;
    out.extend_from_slice(kind.as_slice())?;
    out.extend_from_slice(null_text(column.not_null))?;
    Ok(Blob::new(out))
}

/// The columns of CREATE TABLE.
fn column_texts(alloc: Global, columns: &[Column]) -> Result<Vec<Blob>, AllocError>
    ensures { IfOk result (λ v. v.items ≡ map column_text columns.now) }
{
    let mut texts = Vec::new(alloc);
    for column in columns {
        texts.push(column_text(alloc, column)?)?;
    }
    Ok(texts)
}

/// The encoding of a column of a projection.
fn encoding_text(encoding: Encoding) -> &'static [u8]
    ensures { result.now ≡ encoding_text encoding }
{
    match encoding {
        Encoding::Auto => &[],
        Encoding::Rle => b" ENCODING RLE",
        Encoding::DeltaVal => b" ENCODING DELTAVAL",
        Encoding::BlockDict => b" ENCODING BLOCK_DICT",
        Encoding::Plain => b" ENCODING PLAIN",
    }
}

/// The name of a table's column at an index.
fn name_at(columns: &[Column], index: usize) -> &[u8]
    ensures { result.now ≡ name_at columns.now index }
{
    match columns.get(index) {
        Some(column) => column.name.as_slice(),
        None => &[],
    }
}

/// A column of CREATE PROJECTION.
fn part_text(alloc: Global, columns: &[Column], part: &ProjColumn) -> Result<Blob, AllocError>
    ensures { IfOk result (λ t. t ≡ part_text columns.now part.now) }
{
    let mut out = Vec::from_slice(alloc, name_at(columns, part.ordinal))?;
    out.extend_from_slice(encoding_text(part.encoding))?;
    Ok(Blob::new(out))
}

/// The columns of CREATE PROJECTION.
fn part_texts(
    alloc: Global,
    columns: &[Column],
    parts: &[ProjColumn],
) -> Result<Vec<Blob>, AllocError>
    ensures { IfOk result (λ v. v.items ≡ map (part_text columns.now) parts.now) }
{
    let mut texts = Vec::new(alloc);
    for part in parts {
        texts.push(part_text(alloc, columns, part)?)?;
    }
    Ok(texts)
}

/// The name of a column of a projection.
fn part_name(alloc: Global, columns: &[Column], part: &ProjColumn) -> Result<Blob, AllocError>
    ensures { IfOk result (λ t. t ≡ part_name columns.now part.now) }
{
    let name = Vec::from_slice(alloc, name_at(columns, part.ordinal))?;
    Ok(Blob::new(name))
}

/// The columns in the SELECT of CREATE PROJECTION.
fn part_names(
    alloc: Global,
    columns: &[Column],
    parts: &[ProjColumn],
) -> Result<Vec<Blob>, AllocError>
    ensures { IfOk result (λ v. v.items ≡ map (part_name columns.now) parts.now) }
{
    let mut names = Vec::new(alloc);
    for part in parts {
        names.push(part_name(alloc, columns, part)?)?;
    }
    Ok(names)
}

/// The name of the column of a projection at an index.
fn sort_name(
    alloc: Global,
    columns: &[Column],
    parts: &[ProjColumn],
    index: usize,
) -> Result<Blob, AllocError>
    ensures { IfOk result (λ t. t ≡ sort_name columns.now parts.now index) }
{
    match parts.get(index) {
        Some(part) => part_name(alloc, columns, part),
        None => Ok(Blob::new(Vec::new(alloc))),
    }
}

/// The columns that a projection is sorted by.
fn sort_names(
    alloc: Global,
    columns: &[Column],
    parts: &[ProjColumn],
    sort: &[usize],
) -> Result<Vec<Blob>, AllocError>
    ensures { IfOk result (λ v. v.items ≡ map (sort_name columns.now parts.now) sort.now) }
{
    let mut names = Vec::new(alloc);
    for index in sort {
        names.push(sort_name(alloc, columns, parts, *index)?)?;
    }
    Ok(names)
}

/// Appends ORDER BY with these names, or nothing where there are none.
fn print_order(names: &[Blob], out: &mut Vec<u8>) -> Result<(), AllocError>
    ensures { OnOk result (out.new.items ≡ out.old.items ++ order_text names.now) }
{
    match names {
        [] => Ok(()),
        [_, ..] => {
            out.extend_from_slice(b" ORDER BY ")?;
            print_joined(names, b", ", out)
        }
    }
}

/// What ends CREATE PROJECTION.
fn end_text(fresh: bool) -> &'static [u8]
    ensures { result.now ≡ end_text fresh }
{
    if fresh {
        b";\n"
    } else {
        b"; -- not up to date\n"
    }
}

/// Appends CREATE PROJECTION up to its columns.
fn print_parts(
    alloc: Global,
    table: &Table,
    projection: &Projection,
    out: &mut Vec<u8>,
) -> Result<(), AllocError>
    ensures { OnOk result (out.new.items ≡ out.old.items ++ parts_text table.now projection.now) }
{
    let parts = part_texts(
        alloc,
        table.columns.as_slice(),
        projection.columns.as_slice(),
    )?;
    put(b"CREATE PROJECTION ", out)?;
    put(projection.name.as_slice(), out)?;
    put(b" (", out)?;
    print_joined(parts.as_slice(), b", ", out)?;
    put(b") AS SELECT ", out)
}

/// Appends the SELECT of CREATE PROJECTION.
fn print_selected(
    alloc: Global,
    table: &Table,
    projection: &Projection,
    out: &mut Vec<u8>,
) -> Result<(), AllocError>
    ensures { OnOk result (out.new.items ≡ out.old.items ++ selected_text table.now projection.now) }
{
    let names = part_names(
        alloc,
        table.columns.as_slice(),
        projection.columns.as_slice(),
    )?;
    print_joined(names.as_slice(), b", ", out)?;
    out.extend_from_slice(b" FROM ")?;
    out.extend_from_slice(table.name.as_slice())
}

/// Appends the ORDER BY of CREATE PROJECTION and its end.
fn print_sorted(
    alloc: Global,
    table: &Table,
    projection: &Projection,
    out: &mut Vec<u8>,
) -> Result<(), AllocError>
    ensures { OnOk result (out.new.items ≡ out.old.items ++ sorted_text table.now projection.now) }
{
    let names = sort_names(
        alloc,
        table.columns.as_slice(),
        projection.columns.as_slice(),
        projection.sort.as_slice(),
    )?;
    print_order(names.as_slice(), out)?;
    out.extend_from_slice(end_text(projection.fresh))
}

/// Appends the SQL that makes a projection of a table.
pub fn print_projection(
    alloc: Global,
    table: &Table,
    projection: &Projection,
    out: &mut Vec<u8>,
) -> Result<(), AllocError>
    ensures { OnOk result (out.new.items ≡ out.old.items ++ projection_text table.now projection.now) }
{
    print_parts(alloc, table, projection, out)?;
    print_selected(alloc, table, projection, out)?;
    print_sorted(alloc, table, projection, out)
}

/// Whether a projection is the one that comes with a table.
fn is_own(alloc: Global, table: &Table, projection: &Projection) -> Result<bool, AllocError>
    ensures { IfOk result (λ own. own ≡ is_own table.now projection.now) }
{
    let mut name = Vec::from_slice(alloc, table.name.as_slice())?;
    name.extend_from_slice(b"_super")?;
    Ok(is_name(projection.name.as_slice(), name.as_slice()))
}

/// Whether two names are one.
fn is_name(name: &[u8], other: &[u8]) -> bool
    ensures { result ≡ bytes_eq name.now other.now }
{
    name == other
}

/// Appends a projection of a table; the one that comes with it stands in a comment.
fn print_shape(
    alloc: Global,
    table: &Table,
    projection: &Projection,
    out: &mut Vec<u8>,
) -> Result<(), AllocError>
    ensures { OnOk result (out.new.items ≡ out.old.items ++ shape_text table.now projection.now) }
{
    if is_own(alloc, table, projection)? {
        out.extend_from_slice(b"-- ")?;
    }
    print_projection(alloc, table, projection, out)
}

/// Appends the projections of a table.
fn print_shapes(
    alloc: Global,
    table: &Table,
    projections: &[Projection],
    out: &mut Vec<u8>,
) -> Result<(), AllocError>
    ensures { OnOk result (out.new.items ≡ out.old.items ++ flat_map (shape_text table.now) projections.now) }
{
    for projection in projections {
        print_shape(alloc, table, projection, out)?;
    }
    Ok(())
}

/// Whether the projection that comes with a table is among these.
fn has_own(alloc: Global, table: &Table, projections: &[Projection]) -> Result<bool, AllocError>
    ensures { IfOk result (λ own. own ≡ list_any (is_own table.now) projections.now) }
{
    for projection in projections {
        if is_own(alloc, table, projection)? {
            return Ok(true);
        }
    }
    Ok(false)
}

/// Appends that the projection which comes with a table is dropped.
fn print_drop(table: &Table, out: &mut Vec<u8>) -> Result<(), AllocError>
    ensures { OnOk result (out.new.items ≡ out.old.items ++ drop_line table.now) }
{
    put(b"DROP PROJECTION ", out)?;
    put(table.name.as_slice(), out)?;
    put(b"_super;\n", out)
}

/// Appends it unless the table has that projection.
fn print_drop_unless(own: bool, table: &Table, out: &mut Vec<u8>) -> Result<(), AllocError>
    ensures { OnOk result (out.new.items ≡ out.old.items ++ (if own then [] else drop_line table.now)) }
{
    if own { Ok(()) } else { print_drop(table, out) }
}

/// Appends that the projection which comes with a table was dropped, if it was.
fn print_dropped(alloc: Global, table: &Table, out: &mut Vec<u8>) -> Result<(), AllocError>
    ensures { OnOk result (out.new.items ≡ out.old.items ++ dropped_text table.now) }
{
    let own = has_own(alloc, table, table.projections.as_slice())?;
    print_drop_unless(own, table, out)
}

/// Appends CREATE TABLE.
fn print_columns(alloc: Global, table: &Table, out: &mut Vec<u8>) -> Result<(), AllocError>
    ensures { OnOk result (out.new.items ≡ out.old.items ++ columns_text table.now) }
{
    let columns = column_texts(alloc, table.columns.as_slice())?;
    put(b"CREATE TABLE ", out)?;
    put(table.name.as_slice(), out)?;
    put(b" (\n    ", out)?;
    print_joined(columns.as_slice(), b",\n    ", out)?;
    put(b"\n);\n", out)
}

/// Appends the SQL that makes a table with its projections. The projection that comes with the table stands in a comment.
pub fn print_table(alloc: Global, table: &Table, out: &mut Vec<u8>) -> Result<(), AllocError>
    ensures { OnOk result (out.new.items ≡ out.old.items ++ table_text table.now) }
{
    print_columns(alloc, table, out)?;
    print_shapes(alloc, table, table.projections.as_slice(), out)?;
    print_dropped(alloc, table, out)
}
