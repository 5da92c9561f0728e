//! Which empty cells are NULL. A query prints NULL and the empty text alike; the same query with `(item) IS NULL` behind its items tells them
//! apart: its rows are the same in the same order, since what is added is decided by the items before it.

ghost use Rattle.std.specs.Prelude.{◌≤◌, ◌<◌, length};

use crate::bytes::{is, span_of};
use crate::headings::Heading;
use common_laws::Blob;
use std::alloc::{AllocError, Global};

/// Whether a cell of the column at an index is empty.
fn has_blank(cells: &[Blob], column: usize, columns: usize) -> bool {
    let mut next = column;
    for _ in 0..cells.len() {
        match cells.get(next) {
            Some(cell) if cell.as_slice().is_empty() => return true,
            Some(_) => {}
            None => return false,
        }
        next = next.saturating_add(columns);
    }
    false
}

/// The indices of the columns with an empty cell, where rows of so many cells stand one behind the other.
pub fn blank_columns(
    alloc: Global,
    cells: &[Blob],
    columns: usize,
) -> Result<Vec<usize>, AllocError> {
    let mut found = Vec::new(alloc);
    for column in 0..columns {
        if has_blank(cells, column, columns) {
            found.push(column)?;
        }
    }
    Ok(found)
}

/// Appends texts with a comma between two of them.
fn print_list(texts: &[Blob], out: &mut Vec<u8>) -> Result<(), AllocError> {
    for (i, text) in texts.iter().enumerate() {
        if i > 0 {
            out.extend_from_slice(b", ")?;
        }
        out.extend_from_slice(text.as_slice())?;
    }
    Ok(())
}

/// Appends `, (item) IS NULL`.
fn print_test(item: &Blob, out: &mut Vec<u8>) -> Result<(), AllocError> {
    out.extend_from_slice(b", (")?;
    out.extend_from_slice(item.as_slice())?;
    out.extend_from_slice(b") IS NULL")
}

/// The query with a test behind its items for each of these columns.
pub fn marking_text(
    alloc: Global,
    text: &[u8],
    heading: &Heading,
    blanks: &[usize],
) -> Result<Vec<u8>, AllocError> {
    let mut out = Vec::new(alloc);
    out.extend_from_slice(span_of(text, 0, heading.first))?;
    if heading.star {
        print_list(heading.items.as_slice(), &mut out)?;
    } else {
        out.extend_from_slice(span_of(text, heading.first, heading.from))?;
    }
    for blank in blanks {
        if let Some(item) = heading.items.as_slice().get(*blank) {
            print_test(item, &mut out)?;
        }
    }
    out.extend_from_slice(b" ")?;
    out.extend_from_slice(span_of(text, heading.from, text.len()))?;
    Ok(out)
}

/// Writes NULL into the cells of a row that begins at a place, where the tests of these columns say so.
fn mark_row(
    alloc: Global,
    cells: &mut Vec<Blob>,
    row: usize,
    tests: &[Blob],
    blanks: &[usize],
) -> Result<(), AllocError> {
    for i in 0..tests.len().min(blanks.len()) {
        let place = row.saturating_add(blanks[i]);
        if is(tests[i].as_slice(), "t") && place < cells.len() {
            cells[place] = Blob::new(Vec::from_slice(alloc, b"NULL")?);
        }
    }
    Ok(())
}

/// Writes NULL into the empty cells that are so: `marked` has the same rows, each with its tests behind it.
pub fn mark_nulls(
    alloc: Global,
    cells: &mut Vec<Blob>,
    marked: &[Blob],
    columns: usize,
    blanks: &[usize],
) -> Result<(), AllocError>
    requires { 0 < columns }
{
    let mut rest = marked;
    let mut row: usize = 0;
    while !rest.is_empty() {
        let more = rest.split_at(columns.min(rest.len())).1;
        let (tests, later) = more.split_at(blanks.len().min(more.len()));
        mark_row(alloc, cells, row, tests, blanks)?;
        row = row.saturating_add(columns);
        rest = later;
    }
    Ok(())
}
