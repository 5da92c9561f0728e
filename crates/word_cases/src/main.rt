//! Reads cases from standard input, each what words ask for and the words, and prints those of which something else is read.
//!
//! A case is a line: the answer, ` : `, and the words behind the program's name, with a blank between two of them. The answer is `refused`,
//! or the folder and `audit`, or the folder, the script's name or the lines and the seed, the mover's steps, and `halts` or `ends`.
#![tactic(auto)]

use run_words::{ScriptRun, Source, Wanted, dir_of, read_words};
use std::alloc::{AllocError, Global};
use std::io;

/// The words of a case, behind the program's name.
fn words_of(alloc: Global, text: &str) -> Result<Vec<String>, AllocError> {
    let mut words = Vec::new(alloc);
    words.push(String::from_str(alloc, "vert")?)?;
    for word in text.split(' ') {
        if !word.is_empty() {
            words.push(String::from_str(alloc, word)?)?;
        }
    }
    Ok(words)
}

/// What the words ask for, as a case says it.
fn answer_of(alloc: Global, words: &[String]) -> Result<String, AllocError> {
    let dir = dir_of(words).unwrap_or("");
    match read_words(alloc, words)? {
        Some(Wanted::Run(run)) => run_as_told(alloc, dir, run),
        Some(Wanted::Audit) => format!(in alloc; "{dir} audit"),
        None => String::from_str(alloc, "refused"),
    }
}

/// The run of a script, as a case says it.
fn run_as_told(alloc: Global, dir: &str, run: ScriptRun) -> Result<String, AllocError> {
    let ScriptRun {
        source,
        steps,
        halts,
    } = run;
    let end = if halts { "halts" } else { "ends" };
    match source {
        Source::Script(name) => format!(in alloc; "{dir} {name} {steps} {end}"),
        Source::Generated { lines, seed } => {
            format!(in alloc; "{dir} {lines} {seed} {steps} {end}")
        }
    }
}

/// Whether what is read of the words of a case is its answer.
fn is_right(alloc: Global, case: &str) -> Result<bool, AllocError> {
    match case.split_once(" : ") {
        Some((wanted, text)) => {
            let words = words_of(alloc, text)?;
            let answer = answer_of(alloc, words.as_slice())?;
            Ok(answer.as_str() == wanted)
        }
        None => Ok(false),
    }
}

fn main(rt: HostRuntime) -> io::Result<()> {
    let alloc = rt.alloc();
    let mut cases: u64 = 0;
    let mut wrong: u64 = 0;
    for line in rt.lines(alloc) {
        let case = line?;
        cases = cases.saturating_add(1);
        if !is_right(alloc, case.as_str())? {
            wrong = wrong.saturating_add(1);
            println!(rt; "{case}")?;
        }
    }
    println!(rt; "{cases} cases, {wrong} wrong")
}
