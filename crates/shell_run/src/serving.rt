//! The shell over sinks: what it says is written at once.

use crate::faults::{fault_of, in_memory, in_sink};
use crate::replies::Reply;
use crate::shell::{Setting, Shell};
use col_disk::Disk;
use col_io::{Files, Sink, write_all};
use std::alloc::{AllocError, Global};
use std::io::{ErrorKind, Read};
use std::rt::Clock;
use std::time::{Duration, Instant};
use vert_cli::{RunFault, Status};

/// Writes to standard error; that it can't be written is no reason to stop.
fn tell<E: Sink>(err: &mut E, text: &[u8]) {
    let _ = write_all(err, text);
}

/// Writes a reply.
fn write_reply<S: Sink, E: Sink>(reply: &Reply, out: &mut S, err: &mut E) -> Result<(), RunFault> {
    in_sink(write_all(out, reply.out.as_slice()))?;
    tell(err, reply.err.as_slice());
    Ok(())
}

/// The time that a clock has gone on.
fn time_since<C: Clock>(start: Option<Instant>, clock: &C) -> Option<Duration> {
    start?.elapsed(clock).ok()
}

/// `Time: 1.234 ms`
fn time_text(alloc: Global, time: Duration) -> Result<String, AllocError> {
    let micros = time.as_micros();
    let whole = micros / 1000;
    let part = micros % 1000;
    format!(in alloc; "Time: {whole}.{part:03} ms\n")
}

/// Tells a time, if there is one.
fn tell_time<E: Sink>(alloc: Global, time: Option<Duration>, err: &mut E) -> Result<(), RunFault> {
    let Some(time) = time else {
        return Ok(());
    };
    let text = in_memory(time_text(alloc, time))?;
    tell(err, text.as_bytes());
    Ok(())
}

/// Answers the piece of the input that stands first. Answers whether the shell goes on with the next one, ends, or waits for more.
fn serve_one<F: Files, D: Disk, S: Sink, E: Sink, C: Clock>(
    alloc: Global,
    shell: &mut Shell,
    files: &mut F,
    disk: &mut D,
    out: &mut S,
    err: &mut E,
    clock: &C,
) -> Result<Option<bool>, RunFault> {
    let start = Instant::now(clock).ok();
    let Some(reply) = shell.reply(alloc, files, disk)? else {
        return Ok(None);
    };
    write_reply(&reply, out, err)?;
    if reply.is_statement && shell.times() {
        tell_time(alloc, time_since(start, clock), err)?;
    }
    Ok(Some(reply.quits))
}

/// Takes more of the input, and answers each piece of it whose end has come. Answers whether the shell ends.
fn serve<F: Files, D: Disk, S: Sink, E: Sink, C: Clock>(
    alloc: Global,
    shell: &mut Shell,
    more: &[u8],
    files: &mut F,
    disk: &mut D,
    out: &mut S,
    err: &mut E,
    clock: &C,
) -> Result<bool, RunFault> {
    shell.put(alloc, more)?;
    for _ in 0..u64::MAX {
        match serve_one(alloc, shell, files, disk, out, err, clock)? {
            Some(false) => {}
            Some(true) => return Ok(true),
            None => return Ok(false),
        }
    }
    Ok(false)
}

/// The same of a whole script, whose last statement may lack its `;`.
fn serve_script<F: Files, D: Disk, S: Sink, E: Sink, C: Clock>(
    alloc: Global,
    shell: &mut Shell,
    script: &[u8],
    files: &mut F,
    disk: &mut D,
    out: &mut S,
    err: &mut E,
    clock: &C,
) -> Result<bool, RunFault> {
    if serve(alloc, shell, script, files, disk, out, err, clock)? {
        return Ok(true);
    }
    if serve(alloc, shell, b"\n", files, disk, out, err, clock)? {
        return Ok(true);
    }
    if shell.is_between() {
        return Ok(false);
    }
    serve(alloc, shell, b";", files, disk, out, err, clock)
}

/// Reads what is there of the input, or waits for some. None is there at its end.
fn read_some<I: Read>(input: &mut I, chunk: &mut [u8]) -> Result<usize, RunFault> {
    for _ in 0..u64::MAX {
        match input.read(chunk) {
            Ok(count) => return Ok(count),
            Err(error) if error.kind() == ErrorKind::Interrupted => {}
            Err(_) => return Err(RunFault::Read),
        }
    }
    Ok(0)
}

/// Room for what is read at once.
fn chunk_of(alloc: Global) -> Result<Vec<u8>, AllocError> {
    Ok(vec![in alloc; 0u8; 65_536]?)
}

/// The first bytes.
fn front(bytes: &[u8], count: usize) -> &[u8] {
    match bytes.get(..count) {
        Some(front) => front,
        None => bytes,
    }
}

/// Serves the input as it comes, up to its end. Answers whether the shell was told to end before.
fn serve_input<I: Read, F: Files, D: Disk, S: Sink, E: Sink, C: Clock>(
    alloc: Global,
    shell: &mut Shell,
    input: &mut I,
    files: &mut F,
    disk: &mut D,
    out: &mut S,
    err: &mut E,
    clock: &C,
) -> Result<bool, RunFault> {
    let mut chunk = in_memory(chunk_of(alloc))?;
    for _ in 0..u64::MAX {
        in_sink(write_all(out, shell.prompt().as_bytes()))?;
        let count = read_some(input, chunk.as_mut_slice())?;
        if count == 0 {
            in_sink(write_all(out, shell.farewell().as_bytes()))?;
            return serve(alloc, shell, b"\n", files, disk, out, err, clock);
        }
        let more = front(chunk.as_slice(), count);
        if serve(alloc, shell, more, files, disk, out, err, clock)? {
            return Ok(true);
        }
    }
    Ok(false)
}

/// The end: what the end of the input cuts off is told, unless the shell was told to end; what waits for COMMIT is dropped, and all tables go to
/// disk. Answers the status: whether something was refused.
fn finish<D: Disk, E: Sink>(
    alloc: Global,
    shell: Shell,
    quits: bool,
    disk: &mut D,
    err: &mut E,
) -> Result<Status, RunFault> {
    let mut shell = shell;
    if !quits {
        let cut_off = shell.cut_off(alloc)?;
        tell(err, cut_off.as_slice());
    }
    let refused = shell.was_refused();
    match shell.close(alloc, disk) {
        Ok(()) if refused => Ok(Status::Refused),
        Ok(()) => Ok(Status::Done),
        Err(fault) => Err(fault_of(fault)),
    }
}

/// A shell over the tables of a folder that serves an input as it comes, up to its end.
pub fn run_input<I: Read, F: Files, D: Disk, S: Sink, E: Sink, C: Clock>(
    alloc: Global,
    setting: Setting,
    input: &mut I,
    files: &mut F,
    disk: &mut D,
    out: &mut S,
    err: &mut E,
    clock: &C,
) -> Result<Status, RunFault> {
    let mut shell = Shell::open(alloc, setting, disk)?;
    let quits = serve_input(alloc, &mut shell, input, files, disk, out, err, clock)?;
    finish(alloc, shell, quits, disk, err)
}

/// A shell over the tables of a folder that serves a script.
pub fn run_script<F: Files, D: Disk, S: Sink, E: Sink, C: Clock>(
    alloc: Global,
    setting: Setting,
    script: &[u8],
    files: &mut F,
    disk: &mut D,
    out: &mut S,
    err: &mut E,
    clock: &C,
) -> Result<Status, RunFault> {
    let mut shell = Shell::open(alloc, setting, disk)?;
    let quits = serve_script(alloc, &mut shell, script, files, disk, out, err, clock)?;
    finish(alloc, shell, quits, disk, err)
}
