ghost use Rattle.std.specs.Prelude.{◌≡◌, ◌+◌, ◌<◌, ◌≤◌, ◌^◌, List, length, map, All, IfOk, IfErr};
ghost use Rattle.sql_words.specs.Symbols.{Symbol, SaysUtf8, symbol_of};
ghost use Rattle.sql_words.specs.Words.{IsWithin};
ghost use Rattle.sql_tree.specs.declared.statement.Statement.{Statement as AStatement};
ghost use Rattle.sql_tree.specs.Spells.{Spells};
ghost use Rattle.sql_reader.specs.Refusals.{Refuses};

use crate::statements::statement;
use sql_phrases::{Stop, Tokens};
use sql_tree::Statement;
use sql_words::Token;
use std::alloc::Global;
use thiserror::Error;

/// Why no statement was read.
#[derive(Clone, Copy, Debug, Error)]
pub enum ReadFault {
    /// The tokens spell no statement. `place` is one more than the length of the longest front of the tokens
    /// that some statement begins with.
    #[error("no statement goes on at token {place}")]
    Syntax { place: u64 },
    #[error("memory is short")]
    Memory,
}

/// The statement that the tokens of a text spell. Each token lies in the text, and what a text token says is UTF-8,
/// as `words` ensures.
pub fn read(alloc: Global, tokens: &[Token], text: &[u8]) -> Result<Statement, ReadFault>
    requires within { All (IsWithin (length text.now)) tokens.now }
    requires utf8 { All (SaysUtf8 text.now) tokens.now }
    ensures found { IfOk result (λ s. Spells (map (symbol_of text.now) tokens.now) s) }
    ensures refused { IfErr result (λ e. Refuses (map (symbol_of text.now) tokens.now) e) }
{
    let mut left = Tokens::new(text, tokens);
    match statement(alloc, &mut left) {
        Ok(found) => {
            if left.len() == 0 {
                return Ok(found);
            }
            drop(found);
            Err(ReadFault::Syntax {
                place: place_of(tokens.len(), left.len()),
            })
        }
        Err(Stop::Here) => Err(ReadFault::Syntax {
            place: place_of(tokens.len(), left.len()),
        }),
        Err(Stop::Memory) => Err(ReadFault::Memory),
    }
}

/// The place of the first token that is left.
fn place_of(all: usize, left: usize) -> u64
    requires below { left ≤ all }
    requires fits { all < 2 ^ 63 }
    ensures { result + left ≡ all + 1 }
{
    (all - left) as u64 + 1
}

/// No symbols spell two statements.
pub fn one_reading()
    ensures { (ts : List Symbol) (s t : AStatement) → Spells ts s → Spells ts t → s ≡ t }
{}
