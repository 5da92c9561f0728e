//! What stands at the front of a text.
#![tactic(auto)]

ghost use Rattle.std.specs.Prelude.{◌≡◌, ◌<◌, ◌≤◌, length, slice_index, IsTrue};
ghost use Rattle.std.specs.Str.{is_utf8};
ghost use Rattle.std.specs.Char.{is_ascii_digit};
ghost use Rattle.sql_words.specs.Bytes.{begins_word, stands_at};
ghost use Rattle.sql_words.specs.Words.{bad_piece, word_piece, number_piece, text_piece, command_piece, long_sign, short_sign, sign_piece, piece_of};

use crate::bytes::{
    begins_comment, begins_word, behind, digits_size, inner_size, is_space, line_size, word_size,
};
use crate::number::number_of;
use crate::reserved::key_of;
use crate::token::{Back, Sign, TokenKind};

/// What stands at the front of a text: a token, or None where it is a space or a comment, and its number of bytes.
#[derive(Clone, Copy, Debug)]
pub struct Piece {
    pub kind: Option<TokenKind>,
    pub size: usize,
}

/// What stands at the front of a text that isn't empty.
#[tactic(auto, unfolding(crate::specs::Words::piece_of))]
pub fn piece_at(text: &[u8]) -> Piece
    requires { 0 < length text.now }
    ensures piece { result ≡ piece_of text.now }
    ensures some { 0 < result.size }
    ensures within { result.size ≤ length text.now }
{
    let first = text[0];
    if is_space(first) {
        Piece {
            kind: None,
            size: 1,
        }
    } else if begins_comment(text) {
        Piece {
            kind: None,
            size: line_size(text),
        }
    } else if begins_word(first) {
        word_piece(text)
    } else if first.is_ascii_digit() {
        number_piece(text)
    } else if first == b'\'' {
        text_piece(text)
    } else if first == b'\\' {
        command_piece(text)
    } else {
        sign_piece(text)
    }
}

/// What begins no token goes on to the end.
fn bad_piece(text: &[u8]) -> Piece
    ensures { result ≡ bad_piece text.now }
{
    Piece {
        kind: Some(TokenKind::Bad),
        size: text.len(),
    }
}

fn word_piece(text: &[u8]) -> Piece
    requires { IsTrue (begins_word (slice_index text.now 0)) }
    ensures piece { result ≡ word_piece text.now }
    ensures some { 0 < result.size }
    ensures within { result.size ≤ length text.now }
{
    let size = word_size(text);
    Piece {
        kind: Some(TokenKind::Word(key_of(&text[..size]))),
        size,
    }
}

fn number_piece(text: &[u8]) -> Piece
    requires { IsTrue (is_ascii_digit (slice_index text.now 0)) }
    ensures piece { result ≡ number_piece text.now }
    ensures some { 0 < result.size }
    ensures within { result.size ≤ length text.now }
{
    let size = digits_size(text);
    match number_of(&text[..size]) {
        Some(_) => Piece {
            kind: Some(TokenKind::Int),
            size,
        },
        None => bad_piece(text),
    }
}

/// The bytes are UTF-8.
fn is_utf8(bytes: &[u8]) -> bool
    ensures { result ≡ is_utf8 bytes.now }
{
    match std::str::from_utf8(bytes) {
        Ok(_) => true,
        Err(_) => false,
    }
}

fn text_piece(text: &[u8]) -> Piece
    requires { 0 < length text.now }
    ensures piece { result ≡ text_piece text.now }
    ensures some { 0 < result.size }
    ensures within { result.size ≤ length text.now }
{
    let inner = behind(text, 1);
    match inner_size(inner) {
        None => bad_piece(text),
        Some(size) => {
            if is_utf8(&inner[..size]) {
                Piece {
                    kind: Some(TokenKind::Text),
                    size: size + 2,
                }
            } else {
                bad_piece(text)
            }
        },
    }
}

/// These letters stand at the front.
fn stands_at(word: &[u8], text: &[u8]) -> bool
    ensures front { result ≡ stands_at word.now text.now }
    ensures within { IsTrue result → length word.now ≤ length text.now }
{
    text.len() >= word.len() && &text[..word.len()] == word
}

fn command_piece(text: &[u8]) -> Piece
    requires { 0 < length text.now }
    ensures piece { result ≡ command_piece text.now }
    ensures some { 0 < result.size }
    ensures within { result.size ≤ length text.now }
{
    if stands_at(b"\\session", text) {
        Piece {
            kind: Some(TokenKind::Back(Back::Session)),
            size: 8,
        }
    } else if stands_at(b"\\step", text) {
        Piece {
            kind: Some(TokenKind::Back(Back::Step)),
            size: 5,
        }
    } else {
        bad_piece(text)
    }
}

/// The sign that two bytes spell.
fn long_sign(first: u8, second: u8) -> Option<Sign>
    ensures { result ≡ long_sign first second }
{
    match (first, second) {
        (b'<', b'>') | (b'!', b'=') => Some(Sign::NotEqual),
        (b'<', b'=') => Some(Sign::AtMost),
        (b'>', b'=') => Some(Sign::AtLeast),
        _ => None,
    }
}

/// The sign that one byte spells.
fn short_sign(byte: u8) -> Option<Sign>
    ensures { result ≡ short_sign byte }
{
    match byte {
        b'(' => Some(Sign::Open),
        b')' => Some(Sign::Close),
        b',' => Some(Sign::Comma),
        b'.' => Some(Sign::Dot),
        b'*' => Some(Sign::Star),
        b'+' => Some(Sign::Plus),
        b'-' => Some(Sign::Minus),
        b'=' => Some(Sign::Equal),
        b'<' => Some(Sign::Less),
        b'>' => Some(Sign::Greater),
        _ => None,
    }
}

/// The longest sign that fits.
fn sign_piece(text: &[u8]) -> Piece
    requires { 0 < length text.now }
    ensures piece { result ≡ sign_piece text.now }
    ensures some { 0 < result.size }
    ensures within { result.size ≤ length text.now }
{
    if text.len() > 1 {
        if let Some(sign) = long_sign(text[0], text[1]) {
            return Piece {
                kind: Some(TokenKind::Sign(sign)),
                size: 2,
            };
        }
    }
    match short_sign(text[0]) {
        Some(sign) => Piece {
            kind: Some(TokenKind::Sign(sign)),
            size: 1,
        },
        None => bad_piece(text),
    }
}
