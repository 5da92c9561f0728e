//! Rows of cells, each as wide as its column.

ghost use Rattle.std.specs.Prelude.{◌≡◌, ◌≤◌, ◌<◌, ◌^◌, ◌+◌, ◌-◌, ◌++◌, ◌∷◌, [], not, count_by, length, map, replicate, zip, IfOk, OnOk};
ghost use Rattle.std.specs.List.{flat_map};
ghost use Rattle.shell_text.specs.Excerpts.{goes_on};
ghost use Rattle.shell_text.specs.Tables.{cell_text, padded, row_line, rule_line, rule_part, width_of};

use crate::bytes::is;
use crate::excerpts::goes_on;
use common_laws::Blob;
use std::alloc::{AllocError, Global};

/// How wide a column is, and whether its cells stand at its right.
#[derive(Clone, Copy, Debug, PartialEq, Eq)]
pub struct Shape {
    pub width: usize,
    pub right: bool,
}

/// How many letters a cell has.
fn width_of(cell: &[u8]) -> usize
    ensures { result ≡ width_of cell.now }
{
    let mut width = 0;
    for b in cell {
        if goes_on(*b) {
            continue;
        }
        width += 1;
    }
    width
}

/// Whether a cell is a number, or shows that there is none.
fn is_number(cell: &[u8]) -> bool {
    let digits = match cell {
        [b'-', digits @ ..] => digits,
        _ => cell,
    };
    is(cell, "NULL") || digits.iter().all(|b| b.is_ascii_digit())
}

/// The shape of a column with one cell more.
fn widened(shape: Shape, cell: &[u8]) -> Shape {
    Shape {
        width: shape.width.max(width_of(cell)),
        right: shape.right && is_number(cell),
    }
}

/// The shape of the column at an index, by its head and by the cells of the rows, which stand one row behind the other.
fn shape_of(head: &[u8], cells: &[Blob], column: usize, columns: usize) -> Shape {
    let mut shape = Shape {
        width: width_of(head),
        right: true,
    };
    let mut next = column;
    for _ in 0..cells.len() {
        match cells.get(next) {
            Some(cell) => shape = widened(shape, cell.as_slice()),
            None => return shape,
        }
        next = next.saturating_add(columns);
    }
    shape
}

/// The shapes of the columns with these heads, whose rows stand one behind the other. Columns of numbers stand at their right.
pub fn shapes_of(alloc: Global, heads: &[Blob], cells: &[Blob]) -> Result<Vec<Shape>, AllocError>
    ensures { IfOk result (λ v. length v.items ≡ length heads.now) }
{
    let mut shapes = Vec::new(alloc);
    for (i, head) in heads.iter().enumerate() {
        shapes.push(shape_of(head.as_slice(), cells, i, heads.len()))?;
    }
    Ok(shapes)
}

/// Appends a byte so many times.
fn print_times(b: u8, times: usize, out: &mut Vec<u8>) -> Result<(), AllocError>
    ensures { OnOk result (out.new.items ≡ out.old.items ++ replicate times b) }
{
    for _ in 0..times {
        out.extend_from_slice(&[b])?;
    }
    Ok(())
}

/// Appends spaces up to a width.
fn print_gap(width: usize, cell: &[u8], out: &mut Vec<u8>) -> Result<(), AllocError>
    ensures { OnOk result (out.new.items ≡ out.old.items ++ replicate (width - width_of cell.now) 32) }
{
    print_times(b' ', width.saturating_sub(width_of(cell)), out)
}

/// Appends a cell with spaces on one side.
fn print_padded(shape: Shape, cell: &[u8], out: &mut Vec<u8>) -> Result<(), AllocError>
    ensures { OnOk result (out.new.items ≡ out.old.items ++ padded shape cell.now) }
{
    if shape.right {
        print_gap(shape.width, cell, out)?;
        out.extend_from_slice(cell)
    } else {
        out.extend_from_slice(cell)?;
        print_gap(shape.width, cell, out)
    }
}

/// Appends a cell behind a bar.
fn print_cell(shape: Shape, cell: &Blob, out: &mut Vec<u8>) -> Result<(), AllocError>
    ensures { OnOk result (out.new.items ≡ out.old.items ++ cell_text (shape, cell.now)) }
{
    out.extend_from_slice(b"| ")?;
    print_padded(shape, cell.as_slice(), out)?;
    out.extend_from_slice(b" ")
}

/// Appends the cells of a row.
fn print_cells(shapes: &[Shape], cells: &[Blob], out: &mut Vec<u8>) -> Result<(), AllocError>
    ensures { OnOk result (out.new.items ≡ out.old.items ++ flat_map cell_text (zip shapes.now cells.now)) }
{
    for i in 0..shapes.len().min(cells.len()) {
        print_cell(shapes[i], &cells[i], out)?;
    }
    Ok(())
}

/// Appends a row: its cells in order, each in its column.
pub fn print_row(shapes: &[Shape], cells: &[Blob], out: &mut Vec<u8>) -> Result<(), AllocError>
    ensures { OnOk result (out.new.items ≡ out.old.items ++ row_line shapes.now cells.now) }
{
    print_cells(shapes, cells, out)?;
    out.extend_from_slice(b"|\n")
}

/// Appends a column of the rule.
fn print_rule_part(shape: Shape, out: &mut Vec<u8>) -> Result<(), AllocError>
    ensures { OnOk result (out.new.items ≡ out.old.items ++ rule_part shape) }
{
    out.extend_from_slice(b"|")?;
    print_times(b'-', shape.width, out)?;
    out.extend_from_slice(b"--")
}

/// Appends the columns of the rule.
fn print_rule_parts(shapes: &[Shape], out: &mut Vec<u8>) -> Result<(), AllocError>
    ensures { OnOk result (out.new.items ≡ out.old.items ++ flat_map rule_part shapes.now) }
{
    for shape in shapes {
        print_rule_part(*shape, out)?;
    }
    Ok(())
}

/// Appends the rule below the heads.
pub fn print_rule(shapes: &[Shape], out: &mut Vec<u8>) -> Result<(), AllocError>
    ensures { OnOk result (out.new.items ≡ out.old.items ++ rule_line shapes.now) }
{
    print_rule_parts(shapes, out)?;
    out.extend_from_slice(b"|\n")
}
