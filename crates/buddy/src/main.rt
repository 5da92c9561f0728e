//! `buddy BEHIND AHEAD` brings a folder that is an older state of a second one up to that one.
//!
//! All that it does is `buddy_run::link`, whose contract says how it ends. Here are only the words that it is called with, the output and the
//! two folders of the machine, and the code.
#![tactic(auto)]

use buddy_run::{LinkStatus, link};
use col_disk::DirDisk;
use col_io::StdSink;
use program_words::words_of;
use std::alloc::AllocError;
use std::process::ExitCode;

/// The word at a place, or the empty one.
fn word_at(words: &[String], at: usize) -> &str {
    match words.get(at) {
        Some(word) => word.as_str(),
        None => "",
    }
}

/// Runs the catch-up with the words that the machine gives it. An error says that there was no memory to begin.
fn status(rt: &HostRuntime) -> Result<LinkStatus, AllocError> {
    let alloc = rt.alloc();
    let words = words_of(rt, alloc)?;
    let words = words.as_slice();
    let mut out = StdSink::new(rt)?;
    let mut behind = DirDisk::at(rt, alloc, word_at(words, 1))?;
    let mut ahead = DirDisk::at(rt, alloc, word_at(words, 2))?;
    let status = link(alloc, words, &mut out, &mut behind, &mut ahead);
    if behind.is_taken() || ahead.is_taken() {
        let _ = eprintln!(rt; "buddy: another program has a folder open, or both folders are one");
    }
    Ok(status)
}

fn main(rt: HostRuntime) -> ExitCode {
    match status(&rt) {
        Ok(status) => ExitCode::from(status.code()),
        Err(AllocError) => ExitCode::from(LinkStatus::Memory.code()),
    }
}
