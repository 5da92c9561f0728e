//! A script's statements, run in order.
#![tactic(auto)]

ghost use Rattle.std.specs.Prelude.{ℕ, ◌≡◌, ◌≢◌, ◌≤◌, Err, Bool, true, false, length, map, All, Some, IfErr, IfOk, IsErrOf};
ghost use Rattle.common_laws.specs.Causes.{Rose, HasCause};
ghost use Rattle.col_disk.specs.Moved.{Leaves};
ghost use Rattle.db_model.specs.Database.{Database as Logical};
ghost use Rattle.db_model.specs.Loading.{Files as LoadFiles};
ghost use Rattle.db_model.specs.State.{State};
ghost use Rattle.sql_words.specs.Texts.{cut, LiesWithin};
ghost use Rattle.store_step.specs.Running.{IsState};
ghost use Rattle.vert_cli.specs.declared.faults.RunFault.TheVariants.{Sink as sink_failed, Damaged as damaged_file, Disk as disk_failed, Read as read_failed, Halted as halted};
ghost use Rattle.vert_cli.specs.declared.faults.Status.TheVariants.{Damaged as damaged, Usage as usage_refused, SinkFault as sink_fault, DiskFault as disk_fault, ReadFault as read_fault};
ghost use Rattle.vert_cli.specs.Blamed.{NamesFile, NamesInRun};
ghost use Rattle.vert_cli.specs.Shown.{IsShown, ShowsLastOf};
ghost use Rattle.vert_cli.specs.Statuses.{NeverBegins, status_of_end};
ghost use Rattle.vert_cli.specs.Runs.{RanText, RanTexts, setting_of};
ghost use Rattle.vert_cli.specs.Asked.{asked_by};
ghost use Rattle.vert_cli.specs.Ends.{IsIdle, IsOpenable, IsStart, RanAs, RunEnds, RunLeaves};

use crate::faults::{RunFault, Status, either, fault_of, status_of_end};
use crate::session::Session;
use col_disk::Disk;
use col_io::{Files, Sink};
use sql_words::split;
use std::alloc::{AllocError, Global};

// The most statements of a script.
const MOST_STATEMENTS: usize = 4096;

// Runs a script over the tables of the folder. It is too large where it has over 4,096 statements, and then none is run and the disk isn't
// called.
pub(crate) fn run_script<F: Files, S: Sink, D: Disk>(
    alloc: Global,
    script: &[u8],
    steps: u32,
    halts: bool,
    files: &mut F,
    out: &mut S,
    disk: &mut D,
) -> Status
    requires { length script.now ≤ 67108864 }
    ensures ran { (there : LoadFiles) → F.content files.old ≡ Some there → RanAs result ⟦<D as Disk>⟧ (asked_by (setting_of there steps halts) (Some script.now)) disk.old disk.new (S.taken out.old) (S.taken out.new) }
    ensures named { result ≢ usage_refused }
    ensures idle { NeverBegins result → IsIdle disk.old disk.new (S.taken out.old) (S.taken out.new) }
    ensures blamed { (q : ℕ) → result ≡ damaged q → NamesFile ⟦<D as Disk>⟧ q disk.old disk.new (S.taken out.old) (S.taken out.new) }
    ensures content { F.content files.new ≡ F.content files.old }
    ensures sink { result ≡ sink_fault → Rose (S.faults out.old) (S.faults out.new) }
    ensures read { result ≡ read_fault → Rose (F.faults files.old) (F.faults files.new) }
    ensures fault { result ≡ disk_fault → Rose (D.faults disk.old) (D.faults disk.new) }
    ensures later { S.faults out.old ≤ S.faults out.new }
    ensures files_later { F.faults files.old ≤ F.faults files.new }
    ensures disk_later { D.faults disk.old ≤ D.faults disk.new }
{
    let spans = match split(alloc, script) {
        Ok(spans) => spans,
        Err(AllocError) => return Status::Memory,
    };
    if spans.len() > MOST_STATEMENTS {
        return Status::TooLarge;
    }
    status_of_end(run_opened(
        alloc,
        script,
        spans.as_slice(),
        steps,
        halts,
        files,
        out,
        disk,
    ))
}

// Runs the texts of these spans of a script over the tables of the folder, and then the end, where the run doesn't halt without it, and says
// whether some text was refused.
fn run_opened<F: Files, S: Sink, D: Disk>(
    alloc: Global,
    script: &[u8],
    spans: &[(usize, usize)],
    steps: u32,
    halts: bool,
    files: &mut F,
    out: &mut S,
    disk: &mut D,
) -> Result<bool, RunFault>
    requires within { All (LiesWithin (length script.now)) spans.now }
    ensures ends { (there : LoadFiles) (d : Logical) → F.content files.old ≡ Some there → IsOpenable ⟦<D as Disk>⟧ disk.old d
        → RunEnds (status_of_end result) ⟦<D as Disk>⟧ (setting_of there steps halts) d (map (cut script.now) spans.now) disk.old disk.new (S.taken out.old) (S.taken out.new) }
    ensures any_moment { (there : LoadFiles) (d : Logical) → F.content files.old ≡ Some there → IsOpenable ⟦<D as Disk>⟧ disk.old d
        → Leaves ⟦<D as Disk>⟧ (RunLeaves ⟦<D as Disk>⟧ disk.old (setting_of there steps halts) d (map (cut script.now) spans.now) (S.taken out.old) (S.taken out.new)) disk.old disk.new }
    ensures shows { (there : LoadFiles) (d : Logical) → F.content files.old ≡ Some there → IsOpenable ⟦<D as Disk>⟧ disk.old d → halts ≡ true → steps ≡ 0
        → IfOk result (λ refused. (start : State) × IsStart ⟦<D as Disk>⟧ disk.old d start
        × ShowsLastOf ⟦<D as Disk>⟧ (setting_of there steps halts) start (map (cut script.now) spans.now) refused disk.new (S.taken out.old) (S.taken out.new)) }
    ensures blamed { (q : ℕ) → result ≡ Err (damaged_file q) → NamesFile ⟦<D as Disk>⟧ q disk.old disk.new (S.taken out.old) (S.taken out.new) }
    ensures content { F.content files.new ≡ F.content files.old }
    ensures sink { IsErrOf result sink_failed → Rose (S.faults out.old) (S.faults out.new) }
    ensures read { IsErrOf result read_failed → Rose (F.faults files.old) (F.faults files.new) }
    ensures cause { HasCause disk_failed (D.faults disk.old) (D.faults disk.new) result }
    ensures later { S.faults out.old ≤ S.faults out.new }
    ensures files_later { F.faults files.old ≤ F.faults files.new }
    ensures not_halted { IsErrOf result halted → ⊥ }
{
    let mut session = match Session::open(alloc, disk) {
        Ok(session) => session,
        Err(fault) => return Err(fault_of(fault)),
    };
    let refused = match run_spans(alloc, &mut session, script, spans, steps, files, out, disk) {
        Ok(refused) => refused,
        Err(fault) => return Err(session.blame(alloc, fault, disk)),
    };
    if halts {
        return Ok(refused);
    }
    match session.finish(alloc, disk) {
        Ok(()) => Ok(refused),
        Err(fault) => Err(session.blame(alloc, fault_of(fault), disk)),
    }
}

// Runs the texts of these spans of a script in order, each with the mover's steps behind it, and says whether some was refused.
fn run_spans<F: Files, S: Sink, D: Disk>(
    alloc: Global,
    session: &mut Session,
    script: &[u8],
    spans: &[(usize, usize)],
    steps: u32,
    files: &mut F,
    out: &mut S,
    disk: &mut D,
) -> Result<bool, RunFault>
    requires within { All (LiesWithin (length script.now)) spans.now }
    requires live { session.old.halted ≡ false }
    ensures ran { (there : LoadFiles) (start : State) (halts : Bool) → F.content files.old ≡ Some there → IsState ⟦<D as Disk>⟧ session.old.running disk.old start
        → RanTexts ⟦<D as Disk>⟧ (setting_of there steps halts) (map (cut script.now) spans.now) session.new.running disk.old disk.new result start (S.taken out.old) (S.taken out.new) }
    ensures shows { (there : LoadFiles) (start : State) (halts : Bool) → F.content files.old ≡ Some there → IsState ⟦<D as Disk>⟧ session.old.running disk.old start → steps ≡ 0
        → IfOk result (λ refused. ShowsLastOf ⟦<D as Disk>⟧ (setting_of there steps halts) start (map (cut script.now) spans.now) refused disk.new (S.taken out.old) (S.taken out.new)) }
    ensures named { IfErr result (NamesInRun ⟦<D as Disk>⟧ session.new.running disk.new) }
    ensures live { IfOk result (λ refused. session.new.halted ≡ false) }
    ensures content { F.content files.new ≡ F.content files.old }
    ensures sink { IsErrOf result sink_failed → Rose (S.faults out.old) (S.faults out.new) }
    ensures read { IsErrOf result read_failed → Rose (F.faults files.old) (F.faults files.new) }
    ensures cause { HasCause disk_failed (D.faults disk.old) (D.faults disk.new) result }
    ensures later { S.faults out.old ≤ S.faults out.new }
    ensures files_later { F.faults files.old ≤ F.faults files.new }
    ensures not_halted { IsErrOf result halted → ⊥ }
{
    let mut refused = false;
    for span in spans {
        match run_text(
            alloc,
            session,
            &script[span.0..span.1],
            steps,
            files,
            out,
            disk,
        ) {
            Ok(was) => refused = either(refused, was),
            Err(fault) => return Err(fault),
        }
    }
    Ok(refused)
}

// Runs one statement text with the mover's steps behind it, and says whether it was refused.
fn run_text<F: Files, S: Sink, D: Disk>(
    alloc: Global,
    session: &mut Session,
    text: &[u8],
    steps: u32,
    files: &mut F,
    out: &mut S,
    disk: &mut D,
) -> Result<bool, RunFault>
    requires live { session.old.halted ≡ false }
    ensures ran { (there : LoadFiles) (state : State) (halts : Bool) → F.content files.old ≡ Some there → IsState ⟦<D as Disk>⟧ session.old.running disk.old state
        → RanText ⟦<D as Disk>⟧ (setting_of there steps halts) text.now session.new.running disk.old disk.new result state (S.taken out.old) (S.taken out.new) }
    ensures shows { (there : LoadFiles) (state : State) → F.content files.old ≡ Some there → IsState ⟦<D as Disk>⟧ session.old.running disk.old state → steps ≡ 0 → IfOk result (λ refused. refused ≡ false → IsShown ⟦<D as Disk>⟧ text.now disk.new) }
    ensures named { IfErr result (NamesInRun ⟦<D as Disk>⟧ session.new.running disk.new) }
    ensures live { IfOk result (λ was. session.new.halted ≡ false) }
    ensures content { F.content files.new ≡ F.content files.old }
    ensures sink { IsErrOf result sink_failed → Rose (S.faults out.old) (S.faults out.new) }
    ensures read { IsErrOf result read_failed → Rose (F.faults files.old) (F.faults files.new) }
    ensures cause { HasCause disk_failed (D.faults disk.old) (D.faults disk.new) result }
    ensures later { S.faults out.old ≤ S.faults out.new }
    ensures files_later { F.faults files.old ≤ F.faults files.new }
    ensures not_halted { IsErrOf result halted → ⊥ }
{
    let refused = match session.execute(alloc, text, files, disk, out) {
        Ok(outcome) => outcome.is_refused(),
        Err(fault) => return Err(fault),
    };
    match session.move_on(alloc, steps, disk) {
        Ok(()) => Ok(refused),
        Err(fault) => Err(fault),
    }
}
