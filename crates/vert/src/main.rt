//! `vert DIR [--mover K] [--halt] [--gen N --seed S] [SCRIPT]` runs the statements of the file SCRIPT, or a generated script over a load of N
//! lines from the seed S, and prints what each answers.
//!
//! All that it does is `vert_cli::run`, whose contract says how it ends. Here are only the words that it is called with,
//! the files, the output and the folder of the machine, and the code. DIR is the folder of the tables: it is made where it
//! is absent, and opened before the first statement. Tables and projections are there once their statement has answered, and
//! committed rows once they are moved out: behind statements by the mover, and at the end of a script that doesn't halt.
#![tactic(auto)]

use col_disk::DirDisk;
use col_io::{StdFiles, StdSink};
use program_words::words_of;
use run_words::dir_of;
use std::alloc::AllocError;
use std::process::ExitCode;
use vert_cli::{Status, run};

/// Runs the program with the words that the machine gives it. An error says that there was no memory to begin.
fn status(rt: &HostRuntime) -> Result<Status, AllocError> {
    let alloc = rt.alloc();
    let words = words_of(rt, alloc)?;
    let mut files = StdFiles::new(rt)?;
    let mut out = StdSink::new(rt)?;
    let dir = dir_of(words.as_slice()).unwrap_or("");
    let mut disk = DirDisk::at(rt, alloc, dir)?;
    let status = run(alloc, words.as_slice(), &mut files, &mut out, &mut disk);
    if disk.is_taken() {
        let _ = eprintln!(rt; "vert: another program has the folder open");
    }
    Ok(status)
}

fn main(rt: HostRuntime) -> ExitCode {
    match status(&rt) {
        Ok(status) => ExitCode::from(status.code()),
        Err(AllocError) => ExitCode::from(Status::Memory.code()),
    }
}
