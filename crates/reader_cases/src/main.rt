//! Reads cases from standard input, each a place and a text, and prints those at which the reader of statements finds another
//! place; 0 stands for a text that is a statement. The cases are written by `tools/reader_cases.py` from the grammar alone.
#![tactic(auto)]

use sql_reader::{ReadFault, read};
use sql_words::words;
use std::alloc::{AllocError, Global};
use std::io;

/// The place at which a text is refused, 0 where it is a statement.
fn place_of(alloc: Global, text: &str) -> Result<u64, AllocError> {
    let tokens = words(alloc, text.as_bytes())?;
    match read(alloc, tokens.as_slice(), text.as_bytes()) {
        Ok(statement) => {
            drop(statement);
            Ok(0)
        }
        Err(ReadFault::Syntax { place }) => Ok(place),
        Err(ReadFault::Memory) => Err(AllocError),
    }
}

/// Whether the text of a case is refused at the place before it.
fn is_right(alloc: Global, case: &str) -> Result<bool, AllocError> {
    match case.split_once(' ') {
        Some((wanted, text)) => {
            let found = place_of(alloc, text)?;
            let found = format!(in alloc; "{found}")?;
            Ok(found.as_str() == wanted)
        }
        None => Ok(false),
    }
}

fn main(rt: HostRuntime) -> io::Result<()> {
    let alloc = rt.alloc();
    let mut cases: u64 = 0;
    let mut wrong: u64 = 0;
    for line in rt.lines(alloc) {
        let case = line?;
        cases = cases.saturating_add(1);
        if !is_right(alloc, case.as_str())? {
            wrong = wrong.saturating_add(1);
            println!(rt; "{case}")?;
        }
    }
    println!(rt; "{cases} cases, {wrong} wrong")
}
