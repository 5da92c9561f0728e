//! A statement text that is run, and answered once what it committed is in the folder.

ghost use Rattle.std.specs.Prelude.{◌≡◌, Some, true, false, IfOk, OnOk, IsTrue};
ghost use Rattle.vert_cli.specs.Loading.{Files as LoadFiles};
ghost use Rattle.vert_cli.specs.State.{State};
ghost use Rattle.vert_cli.specs.Running.{IsState};
ghost use Rattle.vert_cli.specs.Statements.{refusal_in};
ghost use Rattle.shell_run.specs.Answers.{Executes, IsAllOnDisk, Settles, Tells};

use col_disk::Disk;
use col_io::{Files, MemSink, Sink};
use sql_tree::Refusal;
use std::alloc::{AllocError, Global};
use vert_cli::{Outcome, RunFault, Session};

/// The most steps of the mover up to which all is moved out: those of a job in flight, and one for each projection of a folder, 16 of each of 1,024 tables.
const MOST_STEPS: u32 = 16_384 + 66;

/// What a statement text answers: the bytes that `execute` writes, its refusal, if it is refused, and whether all that is committed is in the folder.
#[derive(Drop)]
pub struct Told {
    pub text: Vec<u8>,
    pub refusal: Option<Refusal>,
    pub kept: bool,
}

/// The bytes that a sink took.
fn taken(alloc: Global, sink: &MemSink) -> Result<Vec<u8>, RunFault>
    ensures { IfOk result (λ v. ⟦<MemSink as Sink>⟧.taken sink.now ≡ Some v.items) }
{
    match Vec::from_slice(alloc, sink.bytes()) {
        Ok(bytes) => Ok(bytes),
        Err(AllocError) => Err(RunFault::Memory),
    }
}

/// The refusal that an outcome tells, if it tells one.
fn refusal_of(outcome: Outcome) -> Option<Refusal>
    ensures { result ≡ refusal_in outcome }
{
    match outcome {
        Outcome::Done => None,
        Outcome::Refused(why) => Some(why),
    }
}

/// Runs a statement text, and gives back what `execute` writes.
fn execute<F: Files, D: Disk>(
    alloc: Global,
    session: &mut Session,
    text: &[u8],
    files: &mut F,
    disk: &mut D,
) -> Result<(Vec<u8>, Option<Refusal>), RunFault>
    ensures executed { (there : LoadFiles) (state : State) → F.content files.old ≡ Some there → session.old.halted ≡ false → IsState ⟦<D as Disk>⟧ session.old.running disk.old state
        → IfOk result (λ told. Executes ⟦<D as Disk>⟧ there text.now session.new.running disk.new state told.0.items told.1) }
    ensures live { OnOk result (session.new.halted ≡ false) }
{
    let mut sink = MemSink::new(alloc, usize::MAX, Vec::new(alloc));
    let outcome = match session.execute(alloc, text, files, disk, &mut sink) {
        Ok(outcome) => outcome,
        Err(fault) => return Err(fault),
    };
    match taken(alloc, &sink) {
        Ok(text) => Ok((text, refusal_of(outcome))),
        Err(fault) => Err(fault),
    }
}

/// Whether all that is committed is in the folder.
fn is_kept(session: &Session) -> bool
    ensures { IsTrue result → IsAllOnDisk session.now.running }
{
    let schema = session.schema();
    schema.last <= schema.last_good
}

/// Steps of the mover, until all that is committed is in the folder. Answers whether it is: where the numbers of files are spent, nothing can be moved.
fn settle<D: Disk>(alloc: Global, session: &mut Session, disk: &mut D) -> Result<bool, RunFault>
    ensures settles { (state : State) → session.old.halted ≡ false → IsState ⟦<D as Disk>⟧ session.old.running disk.old state → OnOk result (Settles ⟦<D as Disk>⟧ session.new.running disk.new state) }
    ensures kept { IfOk result (λ kept. IsTrue kept → IsAllOnDisk session.new.running) }
    ensures live { session.old.halted ≡ false → OnOk result (session.new.halted ≡ false) }
{
    for _ in 0..MOST_STEPS {
        if is_kept(session) {
            return Ok(true);
        }
        match session.move_on(alloc, 1, disk) {
            Ok(()) => {}
            Err(fault) => return Err(fault),
        }
    }
    Ok(is_kept(session))
}

/// Runs a statement text without its `;`. The text is exactly what `Session::execute` writes, and the refusal its own. It is answered once what is
/// committed is in the folder, by steps of the mover behind the statement, or `kept` says that it isn't.
pub fn answer<F: Files, D: Disk>(
    alloc: Global,
    session: &mut Session,
    text: &[u8],
    files: &mut F,
    disk: &mut D,
) -> Result<Told, RunFault>
    ensures tells { (there : LoadFiles) (state : State) → F.content files.old ≡ Some there → session.old.halted ≡ false → IsState ⟦<D as Disk>⟧ session.old.running disk.old state
        → IfOk result (λ told. Tells ⟦<D as Disk>⟧ there text.now session.new.running disk.new state told.text.items told.refusal) }
    ensures kept { IfOk result (λ told. IsTrue told.kept → IsAllOnDisk session.new.running) }
    ensures live { OnOk result (session.new.halted ≡ false) }
{
    let (text, refusal) = match execute(alloc, session, text, files, disk) {
        Ok(told) => told,
        Err(fault) => return Err(fault),
    };
    match settle(alloc, session, disk) {
        Ok(kept) => Ok(Told {
            text,
            refusal,
            kept,
        }),
        Err(fault) => Err(fault),
    }
}
