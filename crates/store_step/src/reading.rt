//! What a statement text says.

ghost use Rattle.std.specs.Prelude.{IfOk};
ghost use Rattle.store_step.specs.Texts.{IsReading};

use sql_reader::{ReadFault, read};
use sql_tree::Statement;
use sql_words::words;
use std::alloc::{AllocError, Global};

/// What a text says: a statement, or the place of the first token with which no statement goes on.
#[derive(Drop)]
pub enum Reading {
    Says(Statement),
    Wrong(u64),
}

/// Reads a statement text.
pub fn read_statement(alloc: Global, text: &[u8]) -> Result<Reading, AllocError>
    ensures { IfOk result (IsReading text.now) }
{
    let tokens = words(alloc, text)?;
    match read(alloc, tokens.as_slice(), text) {
        Ok(statement) => Ok(Reading::Says(statement)),
        Err(ReadFault::Syntax { place }) => Ok(Reading::Wrong(place)),
        Err(ReadFault::Memory) => Err(AllocError),
    }
}
