//! What the words ask for.

ghost use Rattle.std.specs.Prelude.{◌≡◌, IfOk, map, string_bytes, option_map};
ghost use Rattle.clap.specs.Words.{found_of, first_of, rows_of};
ghost use Rattle.run_words.specs.Words.{asked_for, audit_asked, generated_by, is_set, run_asked, source_of, steps_in, wanted};
ghost use Rattle.run_words.specs.Told.{run_told, source_told, told};

use crate::command::command;
use crate::numbers::number_in;
use clap::ArgMatches;
use clap::error::ErrorKind;
use std::alloc::{AllocError, Global};

/// Where the statements come from.
#[derive(Debug, Drop)]
pub enum Source {
    /// The file of this name.
    Script(String),
    /// The generated script, with a load of so many lines from a seed.
    Generated { lines: u32, seed: u64 },
}

/// The run of a script: the statements, how many steps the mover makes behind each of them, and whether the run halts without an end.
#[derive(Debug, Drop)]
pub struct ScriptRun {
    pub source: Source,
    pub steps: u32,
    pub halts: bool,
}

/// What the words ask for. The folder is answered by `dir_of`.
#[derive(Debug, Drop)]
pub enum Wanted {
    /// The run of a script.
    Run(ScriptRun),
    /// The verdict on the folder.
    Audit,
}

/// What the words ask for, the program's name as the first; nothing where they aren't of the form.
pub fn read_words(alloc: Global, words: &[String]) -> Result<Option<Wanted>, AllocError>
    ensures { IfOk result (λ w. option_map told w ≡ wanted (map string_bytes words.now)) }
{
    match command(alloc)?.try_get_matches_from(words) {
        Ok(matches) => asked_for(alloc, &matches),
        Err(error) if error.kind() == ErrorKind::OutOfMemory => Err(AllocError),
        Err(_) => Ok(None),
    }
}

// What the matches ask for.
#[tactic(auto, unfolding(crate::specs::Words::asked_for))]
fn asked_for(alloc: Global, matches: &ArgMatches<'_>) -> Result<Option<Wanted>, AllocError>
    ensures { IfOk result (λ w. option_map told w ≡ asked_for (rows_of (found_of matches.now))) }
{
    if is_set(value(matches, "audit")) {
        return Ok(audit_asked(matches));
    }
    match run_asked(alloc, matches)? {
        Some(run) => Ok(Some(Wanted::Run(run))),
        None => Ok(None),
    }
}

// Beside `--audit` stands nothing but DIR.
fn audit_asked(matches: &ArgMatches<'_>) -> Option<Wanted>
    ensures { option_map told result ≡ audit_asked (rows_of (found_of matches.now)) }
{
    let has_value = value(matches, "mover").is_some()
        || value(matches, "gen").is_some()
        || value(matches, "seed").is_some()
        || value(matches, "script").is_some();
    if is_set(value(matches, "halt")) || has_value {
        None
    } else {
        Some(Wanted::Audit)
    }
}

// The run that the matches ask for.
fn run_asked(alloc: Global, matches: &ArgMatches<'_>) -> Result<Option<ScriptRun>, AllocError>
    ensures { IfOk result (λ r. option_map run_told r ≡ run_asked (rows_of (found_of matches.now))) }
{
    let Some(steps) = steps_in(value(matches, "mover")) else {
        return Ok(None);
    };
    let halts = is_set(value(matches, "halt"));
    let script = value(matches, "script");
    let source = source_of(alloc, value(matches, "gen"), value(matches, "seed"), script)?;
    match source {
        Some(source) => Ok(Some(ScriptRun {
            source,
            steps,
            halts,
        })),
        None => Ok(None),
    }
}

// The value of an argument.
fn value<'a>(matches: &ArgMatches<'a>, id: &str) -> Option<&'a str>
    ensures { option_map (λ word. word.now) result ≡ first_of id.now (rows_of (found_of matches.now)) }
{
    matches.get_str(id)
}

// K of `--mover K`, which is 0 where it is left out.
fn steps_in(word: Option<&str>) -> Option<u32>
    ensures { result ≡ steps_in (option_map (λ word. word.now) word.entry) }
{
    match word {
        Some(word) => number_in(0, 1000, word).map(|n| n as u32),
        None => Some(0),
    }
}

// The value of a flag says that it was given.
fn is_set(value: Option<&str>) -> bool
    ensures { result ≡ is_set (option_map (λ word. word.now) value.entry) }
{
    match value {
        Some(value) => value == "true",
        None => false,
    }
}

// `--gen` and `--seed` stand together, and SCRIPT exactly where they don't.
fn source_of(
    alloc: Global,
    count: Option<&str>,
    start: Option<&str>,
    name: Option<&str>,
) -> Result<Option<Source>, AllocError>
    ensures { IfOk result (λ source. option_map source_told source ≡ source_of (option_map (λ word. word.now) count.entry) (option_map (λ word. word.now) start.entry) (option_map (λ word. word.now) name.entry)) }
{
    match (count, start, name) {
        (None, None, Some(name)) => Ok(Some(Source::Script(String::from_str(alloc, name)?))),
        (Some(count), Some(start), None) => Ok(generated_by(count, start)),
        _ => Ok(None),
    }
}

// N of `--gen N` with S of `--seed S`.
fn generated_by(count: &str, start: &str) -> Option<Source>
    ensures { option_map source_told result ≡ generated_by count.now start.now }
{
    match (
        number_in(1, 1_000_000, count),
        number_in(0, u64::MAX, start),
    ) {
        (Some(lines), Some(seed)) => Some(Source::Generated {
            lines: lines as u32,
            seed,
        }),
        _ => None,
    }
}
