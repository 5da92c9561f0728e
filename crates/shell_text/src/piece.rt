//! A piece of the input.

use crate::bytes::{lines_in, span_of};

/// What a piece of the input is.
#[derive(Clone, Copy, Debug, PartialEq, Eq)]
pub enum Kind {
    /// A statement with its `;`.
    Statement,
    /// A line of the shell's own, which begins with a backslash.
    Command,
}

/// A piece of the input, with the spaces, comments and `;` that stand before its text.
#[derive(Debug, Drop)]
pub struct Piece {
    pub kind: Kind,
    /// All its bytes.
    pub bytes: Vec<u8>,
    /// Where its text stands in them: without the `;` of a statement and the end of a line.
    pub start: usize,
    pub end: usize,
    /// The line of the input, from 1, in which its bytes begin.
    pub line: u64,
}

impl Piece {
    ghost use Rattle.std.specs.Prelude.{◌≡◌};
    ghost use Rattle.sql_words.specs.Texts.{cut};
    ghost use Rattle.shell_text.specs.Pieces.{IsPiece};

    /// The statement text without its `;`, or the line.
    pub fn text(&self) -> &[u8]
        ensures { IsPiece self.now.kind self.now.bytes.items self.now.start self.now.end → result.now ≡ cut self.now.bytes.items (self.now.start, self.now.end) }
    {
        span_of(self.bytes.as_slice(), self.start, self.end)
    }

    /// The line of the input, from 1, that a place of the text stands in.
    pub fn line_of(&self, place: usize) -> u64 {
        let front = span_of(self.bytes.as_slice(), 0, self.start.saturating_add(place));
        self.line.saturating_add(lines_in(front))
    }
}
