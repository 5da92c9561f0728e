//! Why a statement is refused, in words.

ghost use Rattle.std.specs.Prelude.{◌≡◌, ◌++◌, OnOk};

use crate::bytes::span_of;
use crate::places::token_at;
use col_value::Name;
use itoa::Buffer;
use sql_tree::{Refusal, Which};
use sql_words::{Token, TokenKind};
use std::alloc::AllocError;

/// Appends words with a name between them.
fn say_name(front: &str, name: &Name, back: &str, out: &mut Vec<u8>) -> Result<(), AllocError>
    ensures { OnOk result (out.new.items ≡ out.old.items ++ (front.now ++ (name.now ++ back.now))) }
{
    out.extend_from_slice(front.as_bytes())?;
    out.extend_from_slice(name.as_slice())?;
    out.extend_from_slice(back.as_bytes())
}

/// Appends words with a number between them.
fn say_number(front: &str, number: u128, back: &str, out: &mut Vec<u8>) -> Result<(), AllocError> {
    let mut buffer = Buffer::new();
    out.extend_from_slice(front.as_bytes())?;
    out.extend_from_slice(buffer.format(number).as_bytes())?;
    out.extend_from_slice(back.as_bytes())
}

/// Appends words.
fn say(words: &str, out: &mut Vec<u8>) -> Result<(), AllocError>
    ensures { OnOk result (out.new.items ≡ out.old.items ++ words.now) }
{
    out.extend_from_slice(words.as_bytes())
}

/// Why no statement goes on at a token.
fn wrong_token(text: &[u8], token: &Token) -> &'static str {
    match token.kind {
        TokenKind::Bad => match span_of(text, token.start as usize, token.end as usize) {
            [b'\'', ..] => "the text that begins here is closed nowhere, or isn't UTF-8",
            [b'0'..=b'9', ..] => "this number passes 2^127 - 1",
            _ => "this begins no word, number, text or sign",
        },
        _ => "no statement goes on like this",
    }
}

/// Why a text is no statement, by the place of the first token with which none goes on.
fn wrong_text(text: &[u8], tokens: &[Token], place: u64) -> &'static str {
    match token_at(tokens, place) {
        Some(token) => wrong_token(text, &token),
        None => "the statement isn't complete",
    }
}

/// Appends which limit is passed.
fn say_limit(which: Which, number: u64, out: &mut Vec<u8>) -> Result<(), AllocError> {
    let number = u128::from(number);
    match which {
        Which::Tables => say_number("there are at most ", number, " tables", out),
        Which::Columns => say_number("a table has at most ", number, " columns", out),
        Which::Projections => say_number("a table has at most ", number, " projections", out),
        Which::From => say_number("at most ", number, " tables stand behind FROM", out),
        Which::Name => say_number("a new name has at most ", number, " bytes", out),
        Which::Length => say_number("VARCHAR goes from 1 to ", number, "", out),
        Which::Rows => say_number(
            "a session has at most ",
            number,
            " pending rows on a table",
            out,
        ),
    }
}

/// Appends why a statement is refused that names something.
fn say_named(refusal: &Refusal, out: &mut Vec<u8>) -> Result<(), AllocError> {
    match refusal {
        Refusal::UnknownTable(name) => say_name("there is no table ", name, "", out),
        Refusal::UnknownProjection(name) => say_name("there is no projection ", name, "", out),
        Refusal::UnknownColumn(name) => say_name("there is no column ", name, " here", out),
        Refusal::Ambiguous(name) => say_name(
            "",
            name,
            " fits more than one: name its table, or another alias",
            out,
        ),
        Refusal::Exists(name) => say_name("the name ", name, " is taken, or stands twice", out),
        Refusal::BadProjection(name) => say_name(
            "the columns of ",
            name,
            " differ in its two lists, stand twice, or lack one that it is sorted by",
            out,
        ),
        Refusal::BadEncoding(name) => say_name(
            "DELTAVAL is for integers, and ",
            name,
            " is none",
            out,
        ),
        Refusal::LastSuper(name) => say_name(
            "",
            name,
            " is the last up-to-date projection with all columns of its table",
            out,
        ),
        Refusal::IntegerOutOfRange(name) => say_name(
            "a number for ",
            name,
            " isn't from -2^63 + 1 to 2^63 - 1",
            out,
        ),
        Refusal::TextTooLong(name) => say_name("a text is longer than ", name, " holds", out),
        Refusal::NullRefused(name) => say_name("", name, " takes no NULL", out),
        _ => Ok(()),
    }
}

/// Appends why a statement is refused that counts something.
fn say_counted(refusal: &Refusal, out: &mut Vec<u8>) -> Result<(), AllocError> {
    match refusal {
        Refusal::Arity(given, wanted) => {
            say_number("a row has ", u128::from(*given), " values", out)?;
            say_number(", and the table ", u128::from(*wanted), " columns", out)
        }
        Refusal::Limit(which, number) => say_limit(*which, *number, out),
        Refusal::EpochTooOld(epoch, mark) => {
            say_number("epoch ", *epoch, " is before the ancient history mark", out)?;
            say_number(", ", u128::from(*mark), "", out)
        }
        Refusal::EpochInFuture(epoch, last) => {
            say_number("epoch ", *epoch, " isn't closed yet", out)?;
            say_number("; the newest is ", u128::from(*last), "", out)
        }
        Refusal::BadMark(epoch, mark, last) => {
            say_number("the mark ", *epoch, " isn't", out)?;
            say_number(" from ", u128::from(*mark), "", out)?;
            say_number(" to ", u128::from(*last), "", out)
        }
        Refusal::Locked(session) => say_number(
            "session ",
            u128::from(*session),
            " holds the table until its COMMIT or ROLLBACK",
            out,
        ),
        Refusal::BadLoadLine(line, field) => {
            say_number(
                "row ",
                u128::from(*line),
                " of the load file is none of the table",
                out,
            )?;
            say_number(": its field ", u128::from(*field), " is wrong", out)
        }
        _ => Ok(()),
    }
}

/// Appends why a statement is refused, in a sentence.
pub fn say_refusal(
    text: &[u8],
    tokens: &[Token],
    refusal: &Refusal,
    out: &mut Vec<u8>,
) -> Result<(), AllocError> {
    match refusal {
        Refusal::Syntax(place) => say(wrong_text(text, tokens, *place), out),
        Refusal::TypeMismatch => say("a value isn't of the type that is wanted", out),
        Refusal::TooWide => say("a number of an expression could pass 2^127 - 1", out),
        Refusal::NoFile => say("there is no load file of this name", out),
        Refusal::FileTooLarge => say("the load file has more than 67,108,864 bytes", out),
        Refusal::SumOutOfRange => say(
            "the magnitudes of a SUM's values add to more than 2^127 - 1",
            out,
        ),
        Refusal::EpochsSpent => say("no epoch is left", out),
        Refusal::NumbersSpent => say("no number of a file is left", out),
        Refusal::NotBuilt => say("this statement isn't served", out),
        Refusal::Arity(_, _)
        | Refusal::Limit(_, _)
        | Refusal::EpochTooOld(_, _)
        | Refusal::EpochInFuture(_, _)
        | Refusal::BadMark(_, _, _)
        | Refusal::Locked(_)
        | Refusal::BadLoadLine(_, _) => say_counted(refusal, out),
        _ => say_named(refusal, out),
    }
}

/// Appends `line N` behind a space.
pub fn say_line(line: u64, out: &mut Vec<u8>) -> Result<(), AllocError> {
    say_number(" in line ", u128::from(line), "", out)
}
