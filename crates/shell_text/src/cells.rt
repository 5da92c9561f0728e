//! The lines that a query prints, taken apart into cells.

use common_laws::Blob;
use std::alloc::{AllocError, Global};
use std::mem;

/// The cells so far, the one that is being read, and whether a quote is open or was just closed.
#[derive(Debug, Drop)]
struct Cells {
    cells: Vec<Blob>,
    cell: Vec<u8>,
    is_open: bool,
    was_closed: bool,
}

/// Appends a digit of sixteen.
fn print_digit(digit: u8, out: &mut Vec<u8>) -> Result<(), AllocError> {
    let digits: &[u8] = b"0123456789abcdef";
    match digits.get(usize::from(digit)) {
        Some(digit) => out.extend_from_slice(&[*digit]),
        None => Ok(()),
    }
}

/// Appends a byte as it is shown: one that moves the cursor is written with a backslash.
pub fn print_shown(b: u8, out: &mut Vec<u8>) -> Result<(), AllocError> {
    match b {
        b'\n' => out.extend_from_slice(b"\\n"),
        b'\r' => out.extend_from_slice(b"\\r"),
        b'\t' => out.extend_from_slice(b"\\t"),
        0..=31 | 127 => {
            out.extend_from_slice(b"\\x")?;
            print_digit(b / 16, out)?;
            print_digit(b % 16, out)
        }
        _ => out.extend_from_slice(&[b]),
    }
}

impl Cells {
    /// A quote opens a cell or closes it; right behind one that closed it, it is a quote of the cell, which goes on.
    fn take_quote(&mut self) -> Result<(), AllocError> {
        if self.is_open {
            self.is_open = false;
            self.was_closed = true;
            return Ok(());
        }
        if self.was_closed {
            self.cell.extend_from_slice(b"\"")?;
        }
        self.is_open = true;
        self.was_closed = false;
        Ok(())
    }

    /// The cell ends.
    fn end_cell(&mut self, alloc: Global) -> Result<(), AllocError> {
        let cell = mem::replace(&mut self.cell, Vec::new(alloc));
        self.was_closed = false;
        self.cells.push(Blob::new(cell))?;
        Ok(())
    }

    /// Takes the next byte.
    fn take(&mut self, alloc: Global, b: u8) -> Result<(), AllocError> {
        if b == b'"' {
            self.take_quote()
        } else if !self.is_open && (b == b'|' || b == b'\n') {
            self.end_cell(alloc)
        } else {
            print_shown(b, &mut self.cell)
        }
    }
}

/// The fields of the lines that a query prints, in order, each as it is shown, and as the last one its line with the count of rows.
pub fn cells_of(alloc: Global, answer: &[u8]) -> Result<Vec<Blob>, AllocError> {
    let mut read = Cells {
        cells: Vec::new(alloc),
        cell: Vec::new(alloc),
        is_open: false,
        was_closed: false,
    };
    for b in answer {
        read.take(alloc, *b)?;
    }
    let Cells { cells, .. } = read;
    Ok(cells)
}
