//! Where in a statement text a refusal has its place.

ghost use Rattle.std.specs.Prelude.{◌≡◌, ◌≤◌, length, IfSome};

use crate::bytes::span_of;
use col_value::Name;
use sql_tree::Refusal;
use sql_words::{Key, Sign, Token, TokenKind};

/// Which of the tokens of a name is meant: one that stands for a table, one that doesn't, or any.
#[derive(Clone, Copy, Debug, PartialEq, Eq)]
enum Role {
    Table,
    Other,
    Any,
}

/// The token at a place, from 1.
pub fn token_at(tokens: &[Token], place: u64) -> Option<Token> {
    let place = usize::try_from(place).ok()?;
    tokens.get(place.checked_sub(1)?).copied()
}

/// Where the last token ends, or 0 where there is none.
pub fn end_of(tokens: &[Token]) -> usize {
    match tokens.last() {
        Some(token) => token.end as usize,
        None => 0,
    }
}

/// Whether a token spells a name.
fn is_spelled(text: &[u8], token: &Token, name: &Name) -> bool {
    match token.kind {
        TokenKind::Word(None) => span_of(
            text,
            token.start as usize,
            token.end as usize,
        ).eq_ignore_ascii_case(name.as_slice()),
        _ => false,
    }
}

/// Whether a table's name stands behind such a token.
fn leads_to_table(kind: TokenKind) -> bool {
    match kind {
        TokenKind::Word(Some(key)) => match key {
            Key::From | Key::Join | Key::Into | Key::Update | Key::Table | Key::Copy => true,
            _ => false,
        },
        _ => false,
    }
}

/// Whether such a token is a dot.
fn is_dot(kind: TokenKind) -> bool {
    match kind {
        TokenKind::Sign(Sign::Dot) => true,
        _ => false,
    }
}

/// Whether the token at an index stands for a table: behind a word that leads to one, or before a dot.
fn is_of_table(tokens: &[Token], at: usize) -> bool {
    let led = match tokens.get(at.wrapping_sub(1)) {
        Some(token) => leads_to_table(token.kind),
        None => false,
    };
    let dotted = match tokens.get(at.wrapping_add(1)) {
        Some(token) => is_dot(token.kind),
        None => false,
    };
    led || dotted
}

/// Whether the token at an index has a role.
fn has_role(tokens: &[Token], at: usize, role: Role) -> bool {
    match role {
        Role::Table => is_of_table(tokens, at),
        Role::Other => !is_of_table(tokens, at),
        Role::Any => true,
    }
}

/// Where the first token of a role begins that spells a name.
fn first_of(text: &[u8], tokens: &[Token], name: &Name, role: Role) -> Option<usize> {
    for (i, token) in tokens.iter().enumerate() {
        if is_spelled(text, token, name) && has_role(tokens, i, role) {
            return Some(token.start as usize);
        }
    }
    None
}

/// Where the first token of a role begins that spells a name, or the first of any role where none has it.
fn name_place(text: &[u8], tokens: &[Token], name: &Name, role: Role) -> Option<usize> {
    match first_of(text, tokens, name, role) {
        Some(place) => Some(place),
        None => first_of(text, tokens, name, Role::Any),
    }
}

/// Where the first number begins that stands behind EPOCH, or the first text.
fn epoch_place(tokens: &[Token]) -> Option<usize> {
    match tokens {
        [_, _, number, ..] => Some(number.start as usize),
        _ => None,
    }
}

/// Where the first text between quotes begins.
fn text_place(tokens: &[Token]) -> Option<usize> {
    for token in tokens {
        if let TokenKind::Text = token.kind {
            return Some(token.start as usize);
        }
    }
    None
}

/// Where the token at a place begins, or the last one ends where none is there.
fn syntax_place(tokens: &[Token], place: u64) -> usize {
    match token_at(tokens, place) {
        Some(token) => token.start as usize,
        None => end_of(tokens),
    }
}

/// Where in a statement text a refusal has its place, if it tells one.
fn told_place(text: &[u8], tokens: &[Token], refusal: &Refusal) -> Option<usize> {
    match refusal {
        Refusal::Syntax(place) => Some(syntax_place(tokens, *place)),
        Refusal::UnknownTable(name) => name_place(text, tokens, name, Role::Table),
        Refusal::UnknownColumn(name) | Refusal::Ambiguous(name) => {
            name_place(text, tokens, name, Role::Other)
        }
        Refusal::UnknownProjection(name)
        | Refusal::Exists(name)
        | Refusal::BadProjection(name)
        | Refusal::BadEncoding(name)
        | Refusal::LastSuper(name)
        | Refusal::IntegerOutOfRange(name)
        | Refusal::TextTooLong(name)
        | Refusal::NullRefused(name) => name_place(text, tokens, name, Role::Any),
        Refusal::EpochTooOld(_, _) | Refusal::EpochInFuture(_, _) => epoch_place(tokens),
        Refusal::NoFile | Refusal::FileTooLarge | Refusal::BadLoadLine(_, _) => text_place(tokens),
        _ => None,
    }
}

/// Where in a statement text a refusal has its place, if it tells one: the token that `Syntax` counts, the first token that spells its name (of a table
/// one behind FROM, JOIN, INTO, UPDATE, TABLE, COPY or before a dot, of a column another one, where there is such a token), the epoch behind AT EPOCH, the name of a load file.
pub fn place_of(text: &[u8], tokens: &[Token], refusal: &Refusal) -> Option<usize>
    ensures { IfSome result (λ place. place ≤ length text.now) }
{
    match told_place(text, tokens, refusal) {
        Some(place) => Some(place.min(text.len())),
        None => None,
    }
}
