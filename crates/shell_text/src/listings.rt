//! The answer of a query in columns.

ghost use Rattle.std.specs.Prelude.{◌≡◌, ◌≤◌, ◌<◌, length};

use crate::cells::cells_of;
use crate::headings::{Heading, heading_of};
use crate::marks::{blank_columns, mark_nulls, marking_text};
use crate::tables::{Shape, print_row, print_rule, shapes_of};
use catalog_types::Table;
use common_laws::Blob;
use sql_words::words;
use std::alloc::{AllocError, Global};

/// The answer of a query, taken apart: its heading, its cells row by row, its last line, and which columns have an empty cell.
#[derive(Debug, Drop)]
pub struct Listing {
    heading: Heading,
    cells: Vec<Blob>,
    count: Blob,
    blanks: Vec<usize>,
}

/// Whether so many cells are whole rows of so many columns.
fn are_rows(cells: usize, columns: usize) -> bool {
    columns > 0 && cells % columns == 0
}

/// The answer of a query taken apart, where the cells fit its heading.
fn listed(alloc: Global, heading: Heading, answer: &[u8]) -> Result<Option<Listing>, AllocError> {
    let mut cells = cells_of(alloc, answer)?;
    let columns = heading.names.len();
    let Some(count) = cells.pop() else {
        return Ok(None);
    };
    if !are_rows(cells.len(), columns) {
        return Ok(None);
    }
    let blanks = blank_columns(alloc, cells.as_slice(), columns)?;
    Ok(Some(Listing {
        heading,
        cells,
        count,
        blanks,
    }))
}

/// The answer of a statement taken apart, where it is a query.
pub fn listing_of(
    alloc: Global,
    text: &[u8],
    answer: &[u8],
    tables: &[Table],
) -> Result<Option<Listing>, AllocError> {
    let tokens = words(alloc, text)?;
    match heading_of(alloc, text, tokens.as_slice(), tables)? {
        Some(heading) => listed(alloc, heading, answer),
        None => Ok(None),
    }
}

/// Appends rows that stand one behind the other.
fn print_rows(shapes: &[Shape], cells: &[Blob], out: &mut Vec<u8>) -> Result<(), AllocError> {
    let mut rest = cells;
    while !rest.is_empty() && !shapes.is_empty() {
        let (row, more) = rest.split_at(shapes.len().min(rest.len()));
        print_row(shapes, row, out)?;
        rest = more;
    }
    Ok(())
}

impl Listing {
    /// The query that tells which empty cells are NULL, where there are empty cells.
    pub fn marking_text(&self, alloc: Global, text: &[u8]) -> Result<Option<Vec<u8>>, AllocError> {
        if self.blanks.is_empty() {
            return Ok(None);
        }
        let marking = marking_text(alloc, text, &self.heading, self.blanks.as_slice())?;
        Ok(Some(marking))
    }

    /// Shows NULL where the answer of that query says so.
    pub fn mark(&mut self, alloc: Global, answer: &[u8]) -> Result<(), AllocError> {
        let mut marked = cells_of(alloc, answer)?;
        drop(marked.pop());
        let columns = self.heading.names.len();
        if columns == 0 {
            return Ok(());
        }
        let rows = self.cells.len() / columns;
        let wide = columns.saturating_add(self.blanks.len());
        if marked.len() != rows.saturating_mul(wide) {
            return Ok(());
        }
        mark_nulls(
            alloc,
            &mut self.cells,
            marked.as_slice(),
            columns,
            self.blanks.as_slice(),
        )
    }

    /// The heads, a rule, the rows and their count.
    pub fn print(&self, alloc: Global, out: &mut Vec<u8>) -> Result<(), AllocError> {
        let heads = self.heading.names.as_slice();
        let shapes = shapes_of(alloc, heads, self.cells.as_slice())?;
        print_row(shapes.as_slice(), heads, out)?;
        print_rule(shapes.as_slice(), out)?;
        print_rows(shapes.as_slice(), self.cells.as_slice(), out)?;
        out.extend_from_slice(self.count.as_slice())?;
        out.extend_from_slice(b"\n")
    }
}
