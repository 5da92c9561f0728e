//! The input as it comes, cut into pieces.

ghost use Rattle.std.specs.Prelude.{◌≡◌, ◌+◌, ◌-◌, ◌≤◌, ◌<◌, ◌++◌, ◌∷◌, [], drop, take, length, IfOk, IfSome, OnOk, OnErr, vec_len};
ghost use Rattle.sql_words.specs.Texts.{statement_spans};
ghost use Rattle.shell_text.specs.Pieces.{IsPiece, IsWhole, taken_bytes};

use crate::bytes::{before, behind, lines_in, size_before};
use crate::piece::{Kind, Piece};
use sql_words::split;
use std::alloc::{AllocError, Global};
use std::marker::Model;

/// Where a piece stands at the front of what has come, and how many bytes it takes.
#[derive(Clone, Copy, Debug)]
struct Place {
    kind: Kind,
    start: usize,
    end: usize,
    size: usize,
}

/// The input that has come and isn't taken yet. Contracts see its bytes.
#[derive(Debug, Drop)]
pub struct Input {
    bytes: Vec<u8>,
    // where what isn't taken begins
    at: usize,
    // how many of its bytes were looked at and end no statement
    tried: usize,
    // how many lines were taken
    lines: u64,
}

impl Model for Input {
    ghost use Rattle.std.specs.Prelude.{List, ℕ, drop, vec_len, ◌≤◌};

    ghost Value = { List ℕ };

    ghost view = { λ i. drop i.at i.bytes.items };

    ghost invariant = { λ i. i.at ≤ vec_len i.bytes };
}

/// Whether a line of the shell's own begins here: a backslash that begins no statement.
fn is_command(text: &[u8]) -> bool {
    text.starts_with(b"\\") && !text.starts_with(b"\\session") && !text.starts_with(b"\\step")
}

/// How many bytes a comment has with the line feed that ends it, or 0 where none does.
fn comment_size(text: &[u8]) -> usize
    ensures { result ≤ length text.now }
{
    let size = size_before(text, b'\n');
    if size < text.len() { size + 1 } else { 0 }
}

/// How many bytes at the front are a space, a `;` or a comment that ends.
fn blank_at(text: &[u8]) -> usize
    ensures { result ≤ length text.now }
{
    match text {
        [b' ' | b'\t' | b'\r' | b'\n' | b';', ..] => 1,
        [b'-', b'-', ..] => comment_size(text),
        _ => 0,
    }
}

/// How many bytes at the front are spaces, `;` and comments that end.
fn blank_size(text: &[u8]) -> usize
    ensures { result ≤ length text.now }
{
    let mut at = 0;
    while at < text.len() {
        let size = blank_at(behind(text, at));
        if size == 0 {
            return at;
        }
        at += size;
    }
    at
}

/// Behind the first `;` from a place on, or the end where bytes were passed over before it.
fn next_size(text: &[u8], size: usize, from: usize) -> Option<usize>
    requires { size ≤ length text.now }
    ensures { IfSome result (λ n. (size < n) × (n ≤ length text.now)) }
{
    if from >= size && from < text.len() {
        let place = from + size_before(behind(text, from), b';');
        if place < text.len() {
            return Some(place + 1);
        }
    }
    if from > size && size < text.len() {
        Some(text.len())
    } else {
        None
    }
}

/// Where the first statement of a text ends, if its `;` is there.
fn end_within(alloc: Global, text: &[u8]) -> Result<Option<usize>, AllocError>
    ensures { IfOk result (λ found. IfSome found (λ end. end < length text.now)) }
{
    let spans = split(alloc, text)?;
    match spans.as_slice() {
        [first, ..] if first.1 < text.len() => Ok(Some(first.1)),
        _ => Ok(None),
    }
}

/// The same end, where the text up to it is one statement with its `;`.
fn checked_end(alloc: Global, text: &[u8], end: usize) -> Result<Option<usize>, AllocError>
    requires { end < length text.now }
    ensures { IfOk result (λ found. IfSome found (λ e. (e < length text.now) × (statement_spans (take (e + 1) text.now) ≡ (0, e) ∷ []))) }
{
    let spans = split(alloc, before(text, end + 1))?;
    match spans.as_slice() {
        [only] if only.0 == 0 && only.1 == end => Ok(Some(end)),
        _ => Ok(None),
    }
}

/// Where the first statement of a text ends, if its `;` is there; so many bytes at the front end none.
fn first_end(alloc: Global, text: &[u8], tried: usize) -> Result<Option<usize>, AllocError>
    ensures { IfOk result (λ found. IfSome found (λ e. (e < length text.now) × (statement_spans (take (e + 1) text.now) ≡ (0, e) ∷ []))) }
{
    let mut size = tried.min(text.len());
    let mut from = size;
    while let Some(next) = next_size(text, size, from) {
        if let Some(end) = end_within(alloc, before(text, next))? {
            return checked_end(alloc, text, end);
        }
        size = next;
        from = next.saturating_mul(2);
    }
    Ok(None)
}

/// The line of the shell's own that begins at a place, if its end is there.
fn line_place(text: &[u8], start: usize) -> Option<Place>
    requires { start ≤ length text.now }
    ensures { IfSome result (λ p. (p.size ≤ length text.now) × IsPiece p.kind (take p.size text.now) p.start p.end) }
{
    let rest = behind(text, start);
    let size = size_before(rest, b'\n');
    if size < rest.len() {
        Some(Place {
            kind: Kind::Command,
            start,
            end: start + size,
            size: start + size + 1,
        })
    } else {
        None
    }
}

/// The statement that begins at a place, if its `;` is there.
fn statement_place(
    alloc: Global,
    text: &[u8],
    start: usize,
    tried: usize,
) -> Result<Option<Place>, AllocError>
    requires { start ≤ length text.now }
    ensures { IfOk result (λ found. IfSome found (λ p. (p.size ≤ length text.now) × IsPiece p.kind (take p.size text.now) p.start p.end)) }
{
    match first_end(alloc, behind(text, start), tried.saturating_sub(start))? {
        Some(end) => Ok(Some(Place {
            kind: Kind::Statement,
            start,
            end: start + end,
            size: start + end + 1,
        })),
        None => Ok(None),
    }
}

/// The piece that stands first in a text, if its end is there.
fn first_place(alloc: Global, text: &[u8], tried: usize) -> Result<Option<Place>, AllocError>
    ensures { IfOk result (λ found. IfSome found (λ p. (p.size ≤ length text.now) × IsPiece p.kind (take p.size text.now) p.start p.end)) }
{
    let start = blank_size(text);
    if is_command(behind(text, start)) {
        Ok(line_place(text, start))
    } else {
        statement_place(alloc, text, start, tried)
    }
}

impl Input {
    /// No input.
    pub fn new(alloc: Global) -> Input
        ensures { result ≡ [] }
    {
        Input {
            bytes: Vec::new(alloc),
            at: 0,
            tried: 0,
            lines: 0,
        }
    }

    /// What has come and isn't taken yet.
    pub fn rest(&self) -> &[u8]
        ensures { result.now ≡ self.now }
    {
        behind(self.bytes.as_slice(), self.at)
    }

    // What was taken is let go.
    fn compact(&mut self, alloc: Global) -> Result<(), AllocError>
        ensures { self.new ≡ self.old }
    {
        if self.at == 0 {
            return Ok(());
        }
        let rest = Vec::from_slice(alloc, behind(self.bytes.as_slice(), self.at))?;
        self.at = 0;
        self.bytes = rest;
        Ok(())
    }

    /// More input has come.
    pub fn put(&mut self, alloc: Global, more: &[u8]) -> Result<(), AllocError>
        ensures ok { OnOk result (self.new ≡ self.old ++ more.now) }
        ensures err { OnErr result (self.new ≡ self.old) }
    {
        self.compact(alloc)?;
        self.bytes.extend_from_slice(more)
    }

    /// Takes the piece that stands first, if its end has come: a statement up to its `;`, which is one statement text by the lexer's own
    /// `split`, or a line of the shell's own up to its line feed.
    pub fn take(&mut self, alloc: Global) -> Result<Option<Piece>, AllocError>
        ensures joined { IfOk result (λ found. self.old ≡ taken_bytes found ++ self.new) }
        ensures piece { IfOk result (λ found. IfSome found IsWhole) }
        ensures err { OnErr result (self.new ≡ self.old) }
    {
        let rest = behind(self.bytes.as_slice(), self.at);
        let Some(place) = first_place(alloc, rest, self.tried)? else {
            self.tried = rest.len();
            return Ok(None);
        };
        let bytes = Vec::from_slice(alloc, before(rest, place.size))?;
        let line = self.lines.saturating_add(1);
        self.lines = self.lines.saturating_add(lines_in(bytes.as_slice()));
        self.at += place.size;
        self.tried = 0;
        Ok(Some(Piece {
            kind: place.kind,
            bytes,
            start: place.start,
            end: place.end,
            line,
        }))
    }

    /// Whether nothing of a next piece has come: what isn't taken are spaces, comments and `;`.
    pub fn is_between(&self) -> bool {
        let rest = self.rest();
        let text = behind(rest, blank_size(rest));
        text.is_empty() || text.starts_with(b"--")
    }

    /// The piece that is unfinished at the end of the input: all that isn't taken, from where its text begins.
    pub fn unfinished(&self, alloc: Global) -> Result<Piece, AllocError> {
        let bytes = Vec::from_slice(alloc, self.rest())?;
        let start = blank_size(bytes.as_slice());
        let end = bytes.len();
        Ok(Piece {
            kind: Kind::Statement,
            bytes,
            start,
            end,
            line: self.lines.saturating_add(1),
        })
    }
}
