//! A refusal in words, with the line of the statement and a caret.

use crate::bytes::{behind, size_before};
use crate::excerpts::print_excerpt;
use crate::piece::Piece;
use crate::places::place_of;
use crate::sentences::{say_line, say_refusal};
use sql_tree::Refusal;
use sql_words::{Token, TokenKind, words};
use std::alloc::{AllocError, Global};

/// Appends the first line of what was printed, without its end.
fn say_answer(answer: &[u8], out: &mut Vec<u8>) -> Result<(), AllocError> {
    let size = size_before(answer, b'\n');
    out.extend_from_slice(answer.split_at(size).0)
}

/// Appends the line of a text in which a place stands with a caret below it, or the first line alone where there is no place.
fn say_place(text: &[u8], place: Option<usize>, out: &mut Vec<u8>) -> Result<(), AllocError> {
    match place {
        Some(place) => print_excerpt(text, place.min(text.len()), out),
        None => {
            out.extend_from_slice(b"    ")?;
            say_answer(text, out)?;
            out.extend_from_slice(b"\n")
        }
    }
}

/// What is told of a statement that is refused: the ERROR line with the reason in words, the line of the statement in which its place stands, and a
/// caret below the place, if it has one. With `lines` the line's number in the input stands there, too.
pub fn told_refusal(
    alloc: Global,
    piece: &Piece,
    answer: &[u8],
    refusal: &Refusal,
    lines: bool,
) -> Result<Vec<u8>, AllocError> {
    let mut out = Vec::new(alloc);
    let text = piece.text();
    let tokens = words(alloc, text)?;
    let place = place_of(text, tokens.as_slice(), refusal);
    say_answer(answer, &mut out)?;
    if lines {
        say_line(piece.line_of(place.unwrap_or(0)), &mut out)?;
    }
    out.extend_from_slice(b": ")?;
    say_refusal(text, tokens.as_slice(), refusal, &mut out)?;
    out.extend_from_slice(b"\n")?;
    say_place(text, place, &mut out)?;
    Ok(out)
}

/// Where the text begins that no quote closes, if the last token is one.
fn unclosed(text: &[u8], tokens: &[Token]) -> Option<usize> {
    let last = tokens.last()?;
    let place = (last.start as usize).min(text.len());
    match (last.kind, behind(text, place)) {
        (TokenKind::Bad, [b'\'', ..]) => Some(place),
        _ => None,
    }
}

/// What is told of a statement that the end of the input cuts off.
pub fn told_unfinished(alloc: Global, piece: &Piece) -> Result<Vec<u8>, AllocError> {
    let mut out = Vec::new(alloc);
    let text = piece.text();
    let tokens = words(alloc, text)?;
    let place = unclosed(text, tokens.as_slice());
    out.extend_from_slice(b"The last statement")?;
    say_line(piece.line_of(place.unwrap_or(0)), &mut out)?;
    match place {
        Some(_) => out.extend_from_slice(
            b" wasn't run: the text that begins here is closed nowhere\n",
        )?,
        None => out.extend_from_slice(b" wasn't run: no `;` ends it\n")?,
    }
    say_place(text, place, &mut out)?;
    Ok(out)
}
