//! What a text names: that of a function's call, or the one behind DATE.
#![tactic(auto)]

ghost use Rattle.std.specs.Prelude.{◌≡◌, length, All, IfOk};
ghost use Rattle.sql_words.specs.Words.{IsWithin};
ghost use Rattle.sql_phrases.specs.Dates.{day_named};
ghost use Rattle.sql_tree.specs.Symbols.{task_named, table_named, whole_name};

use col_value::{Name, read_date};
use sql_tree::Function;
use sql_words::{Token, TokenKind, name_bytes, words};
use std::alloc::{AllocError, Global};

/// The day whose text it is.
#[tactic(auto, using(crate::proofs::Dates::is_named))]
pub fn day_named(text: &[u8]) -> Result<Option<u32>, AllocError>
    ensures { IfOk result (λ n. n ≡ day_named text.now) }
{
    read_date(text)
}

/// The task that a text names, in lower case.
#[tactic(auto, unfolding(sql_tree::specs::Symbols::task_named))]
pub fn task_named(text: &[u8]) -> Option<Function>
    ensures { result ≡ task_named text.now }
{
    if text == b"moveout".as_slice() {
        return Some(Function::Moveout);
    }
    if text == b"mergeout".as_slice() {
        return Some(Function::Mergeout);
    }
    None
}

/// The name that a text spells, in lower case: a word that isn't reserved, and nothing before or behind it.
#[tactic(auto, unfolding(sql_tree::specs::Symbols::table_named))]
pub fn table_named(alloc: Global, text: &[u8]) -> Result<Option<Name>, AllocError>
    ensures { IfOk result (λ n. n ≡ table_named text.now) }
{
    let tokens = words(alloc, text)?;
    whole_name(alloc, text, tokens.as_slice())
}

/// The name that a text's one token is, which stands on all bytes of the text.
fn whole_name(alloc: Global, text: &[u8], tokens: &[Token]) -> Result<Option<Name>, AllocError>
    requires { All (IsWithin (length text.now)) tokens.now }
    ensures { IfOk result (λ n. n ≡ whole_name text.now tokens.now) }
{
    match tokens {
        [token] => match token.kind {
            TokenKind::Word(None) => {
                if (token.end - token.start) as usize != text.len() {
                    return Ok(None);
                }
                let bytes = name_bytes(alloc, text, token)?;
                Ok(Some(Name::new(bytes)))
            }
            _ => Ok(None),
        },
        _ => Ok(None),
    }
}
