//! `vert_shell [--plain | --table] DIR [SCRIPT]`: statements from standard input as they come, or from the file SCRIPT, each answered at once.
//!
//! All that it does is `shell_run::run_input` or `run_script`. Here are only the words, the files, the streams and the folder of the machine, and the
//! status. A refused statement is told in words on standard error. Rows are shown in columns where standard output is a terminal.
#![tactic(auto)]

use col_disk::DirDisk;
use col_io::{Files, FilesFault, Got, StdFiles, StdSink};
use program_words::words_of;
use shell_run::{
    RunFault, Setting, Status, fault_text, in_memory, run_input, run_script, status_of,
};
use shell_text::{Form, Wanted, wanted_by};
use std::alloc::{AllocError, Global};
use std::io::{IsTerminal, Print, Read};
use std::process::ExitCode;

/// The most bytes of a script.
const MOST_BYTES: usize = 67_108_864;

/// How a shell shows what it says, by its words and by which of its streams are a terminal.
fn setting_of(form: Form, reads_terminal: bool, writes_terminal: bool) -> Setting {
    Setting {
        aligned: match form {
            Form::Either => writes_terminal,
            Form::Plain => false,
            Form::Table => true,
        },
        prompts: reads_terminal && writes_terminal,
    }
}

/// The script of a name, or the status that the shell ends with.
fn script_of<F: Files>(alloc: Global, files: &mut F, name: &str) -> Result<Vec<u8>, Status> {
    match files.read(alloc, name, MOST_BYTES) {
        Ok(Got::Whole(script)) => Ok(script),
        Ok(Got::Absent) => Err(Status::NoScript),
        Ok(Got::TooLong) => Err(Status::TooLarge),
        Err(FilesFault::Failed) => Err(Status::ReadFault),
        Err(FilesFault::Memory) => Err(Status::Memory),
    }
}

/// A shell over the folder that the words name.
fn run<I: Read, E: Print + Clone + Drop>(
    rt: &HostRuntime,
    wanted: &Wanted<'_>,
    setting: Setting,
    input: &mut I,
    errors: &E,
) -> Result<Status, RunFault> {
    let alloc = rt.alloc();
    let mut files = in_memory(StdFiles::new(rt))?;
    let mut out = in_memory(StdSink::new(rt))?;
    let mut err = in_memory(StdSink::new(errors))?;
    let mut disk = in_memory(DirDisk::at(rt, alloc, wanted.dir))?;
    let ended = match wanted.script {
        Some(name) => match script_of(alloc, &mut files, name) {
            Ok(script) => run_script(
                alloc,
                setting,
                script.as_slice(),
                &mut files,
                &mut disk,
                &mut out,
                &mut err,
                rt,
            ),
            Err(Status::ReadFault) => Err(RunFault::Read),
            Err(Status::Memory) => Err(RunFault::Memory),
            Err(status) => Ok(status),
        },
        None => run_input(
            alloc, setting, input, &mut files, &mut disk, &mut out, &mut err, rt,
        ),
    };
    if disk.is_taken() {
        let _ = eprintln!(rt; "vert_shell: another program has the folder open");
    }
    ended
}

/// What is said of a status that no statement answers for.
fn status_text(status: Status) -> &'static str {
    match status {
        Status::Usage => "vert_shell: the words are [--plain | --table] DIR [SCRIPT]\n",
        Status::NoScript => "vert_shell: the script is absent\n",
        Status::TooLarge => "vert_shell: the script has over 67,108,864 bytes\n",
        _ => "",
    }
}

/// The status of a shell with these words.
fn status(rt: &HostRuntime, words: &[String]) -> Status {
    let Some(wanted) = wanted_by(words) else {
        return Status::Usage;
    };
    let mut input = rt.stdin();
    let setting = setting_of(wanted.form, input.is_terminal(), rt.stdout().is_terminal());
    match run(rt, &wanted, setting, &mut input, &rt.stderr()) {
        Ok(Status::Refused) if setting.prompts => Status::Done,
        Ok(status) => status,
        Err(RunFault::Damaged(name)) => {
            let _ = eprintln!(rt; "vert_shell: file {name} of the folder isn't what it has to be");
            Status::Damaged(name)
        }
        Err(fault) => {
            let _ = eprintln!(rt; "vert_shell: {}", fault_text(fault));
            status_of(fault)
        }
    }
}

fn main(rt: HostRuntime) -> ExitCode {
    let status = match words_of(&rt, rt.alloc()) {
        Ok(words) => match words.as_slice() {
            [_, rest @ ..] => status(&rt, rest),
            [] => Status::Usage,
        },
        Err(AllocError) => Status::Memory,
    };
    let _ = eprint!(rt; "{}", status_text(status));
    ExitCode::from(status.code())
}
