//! The lines of the shell's own.

ghost use Rattle.std.specs.Prelude.{◌≡◌, ◌≤◌, length};
ghost use Rattle.shell_text.specs.Commands.{command_of};

use crate::bytes::is;

/// What a line asks for.
#[derive(Clone, Copy, Debug, PartialEq, Eq)]
pub enum Command {
    /// The tables, or one of them.
    Describe,
    /// The epochs.
    Epochs,
    /// What the lines are.
    Help,
    /// The end.
    Quit,
    /// That the time of each statement is told from now on, or isn't.
    Timing,
    /// Nothing that is known.
    Unknown,
}

/// What a line asks for, its first word, and the name behind it, if one stands there.
#[derive(Clone, Copy, Debug)]
pub struct Asked<'a> {
    pub command: Command,
    pub word: &'a [u8],
    pub name: &'a [u8],
}

/// The command that a word is.
pub fn command_of(word: &[u8]) -> Command
    ensures { result ≡ command_of word.now }
{
    if is(word, "\\d") {
        Command::Describe
    } else if is(word, "\\e") {
        Command::Epochs
    } else if is(word, "\\?") {
        Command::Help
    } else if is(word, "\\q") {
        Command::Quit
    } else if is(word, "\\timing") {
        Command::Timing
    } else {
        Command::Unknown
    }
}

/// How many bytes stand before the first space or `;`.
fn word_size(line: &[u8]) -> usize
    ensures { result ≤ length line.now }
{
    for (i, b) in line.iter().enumerate() {
        if b.is_ascii_whitespace() || *b == b';' {
            return i;
        }
    }
    line.len()
}

/// A name without what stands round it.
fn name_in(rest: &[u8]) -> &[u8] {
    let name = rest.trim_ascii();
    match name {
        [front @ .., b';'] => front.trim_ascii(),
        _ => name,
    }
}

/// What a line asks for.
pub fn asked_in(line: &[u8]) -> Asked<'_> {
    let line = line.trim_ascii();
    let (word, rest) = line.split_at(word_size(line));
    Asked {
        command: command_of(word),
        word,
        name: name_in(rest),
    }
}

/// What the lines of the shell's own are.
pub fn help_text() -> &'static str {
    "A statement ends with `;`. The shell's own lines begin with a backslash:
  \\d          the tables with their projections, as the SQL that makes them
  \\d NAME     the table or the projection of this name
  \\e          the newest closed epoch, the last good one, the ancient history mark
  \\timing     tells the time of each statement from now on, or no longer
  \\?          this
  \\q          the end; so is the end of the input
`\\session 2;` makes session 2 of eight the current one, and `\\step;` is a step of the mover.
What a COMMIT or a COPY announces is in the folder, whatever stops the shell then.
"
}
