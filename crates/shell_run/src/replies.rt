//! What the shell says to a piece of its input.

use shell_text::{
    Asked, Command, Piece, epochs_text, help_text, print_named, print_tables, told_refusal,
};
use sql_tree::Refusal;
use std::alloc::{AllocError, Global};
use vert_cli::Schema;

/// What the shell says to a piece of its input.
#[derive(Debug, Drop)]
pub struct Reply {
    /// For standard output.
    pub out: Vec<u8>,
    /// For standard error.
    pub err: Vec<u8>,
    /// Whether it was a statement, whose time may be told.
    pub is_statement: bool,
    /// Whether the shell ends.
    pub quits: bool,
    /// Whether something was refused.
    pub refused: bool,
}

/// Nothing said to a line of the shell's own.
pub fn silent(alloc: Global) -> Reply {
    Reply {
        out: Vec::new(alloc),
        err: Vec::new(alloc),
        is_statement: false,
        quits: false,
        refused: false,
    }
}

/// What is said to a statement that is refused: in words for standard error, and for standard output its ERROR line, where rows are plain.
pub fn refused(
    alloc: Global,
    piece: &Piece,
    answer: Vec<u8>,
    refusal: &Refusal,
    aligned: bool,
    lines: bool,
) -> Result<Reply, AllocError> {
    let mut reply = silent(alloc);
    reply.err = told_refusal(alloc, piece, answer.as_slice(), refusal, lines)?;
    reply.is_statement = true;
    reply.refused = true;
    if !aligned {
        reply.out = answer;
    }
    Ok(reply)
}

/// What is said to a statement that isn't refused.
pub fn done(alloc: Global, answer: Vec<u8>) -> Reply {
    let mut reply = silent(alloc);
    reply.out = answer;
    reply.is_statement = true;
    reply
}

/// Appends words, a name and a line feed.
fn say(front: &str, name: &[u8], back: &str, out: &mut Vec<u8>) -> Result<(), AllocError> {
    out.extend_from_slice(front.as_bytes())?;
    out.extend_from_slice(name)?;
    out.extend_from_slice(back.as_bytes())
}

/// The tables, or what has a name.
fn describe(alloc: Global, schema: Schema<'_>, name: &[u8]) -> Result<Reply, AllocError> {
    let mut reply = silent(alloc);
    if name.is_empty() {
        print_tables(alloc, schema.tables, &mut reply.out)?;
    } else if !print_named(alloc, schema.tables, name, &mut reply.out)? {
        reply.refused = true;
        say(
            "There is no table or projection ",
            name,
            ".\n",
            &mut reply.err,
        )?;
    }
    Ok(reply)
}

/// The epochs.
fn epochs(alloc: Global, schema: Schema<'_>) -> Result<Reply, AllocError> {
    let mut reply = silent(alloc);
    let text = epochs_text(alloc, schema.last, schema.last_good, schema.mark)?;
    reply.out.extend_from_slice(text.as_bytes())?;
    Ok(reply)
}

/// What the lines of the shell's own are.
fn help(alloc: Global) -> Result<Reply, AllocError> {
    let mut reply = silent(alloc);
    reply.out.extend_from_slice(help_text().as_bytes())?;
    Ok(reply)
}

/// The end.
fn quit(alloc: Global) -> Reply {
    let mut reply = silent(alloc);
    reply.quits = true;
    reply
}

/// A word that is none.
fn unknown(alloc: Global, word: &[u8]) -> Result<Reply, AllocError> {
    let mut reply = silent(alloc);
    reply.refused = true;
    say(
        "There is no ",
        word,
        "; \\? tells what there is.\n",
        &mut reply.err,
    )?;
    Ok(reply)
}

/// Whether the time of statements is told from now on.
fn timing(alloc: Global, times: bool) -> Result<Reply, AllocError> {
    let mut reply = silent(alloc);
    let text = if times {
        "Timing is on.\n"
    } else {
        "Timing is off.\n"
    };
    reply.err.extend_from_slice(text.as_bytes())?;
    Ok(reply)
}

/// What is said to a line of the shell's own, where the time of statements is told from now on by `times`.
pub fn reply_to(
    alloc: Global,
    asked: Asked<'_>,
    schema: Schema<'_>,
    times: bool,
) -> Result<Reply, AllocError> {
    match asked.command {
        Command::Describe => describe(alloc, schema, asked.name),
        Command::Epochs => epochs(alloc, schema),
        Command::Help => help(alloc),
        Command::Quit => Ok(quit(alloc)),
        Command::Timing => timing(alloc, times),
        Command::Unknown => unknown(alloc, asked.word),
    }
}
