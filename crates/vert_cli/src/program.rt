//! The program.
#![tactic(auto)]

ghost use Rattle.std.specs.Prelude.{ℕ, ◌≡◌, ◌≢◌, ◌≤◌, List, map, None, Some, string_bytes};
ghost use Rattle.common_laws.specs.Causes.{Rose};
ghost use Rattle.col_disk.specs.Moved.{Leaves};
ghost use Rattle.db_model.specs.Database.{Database as Logical};
ghost use Rattle.db_model.specs.Loading.{Files as LoadFiles};
ghost use Rattle.db_model.specs.Run.{Setting};
ghost use Rattle.sql_words.specs.Texts.{statement_texts};
ghost use Rattle.common_laws.specs.Maps.{Contents};
ghost use Rattle.run_words.specs.Told.{source_told, told};
ghost use Rattle.run_words.specs.Words.{wanted};
ghost use Rattle.generated_load.specs.Load.{generated_files, generated_script};
ghost use Rattle.vert_cli.specs.declared.faults.Status.TheVariants.{Damaged as damaged, Usage as usage_refused, SinkFault as sink_fault, ReadFault as read_fault, DiskFault as disk_fault};
ghost use Rattle.vert_cli.specs.Audits.{AuditKeeps, AuditOf};
ghost use Rattle.vert_cli.specs.Blamed.{NamesFile};
ghost use Rattle.vert_cli.specs.Statuses.{NeverBegins};
ghost use Rattle.vert_cli.specs.Runs.{setting_of};
ghost use Rattle.vert_cli.specs.Asked.{Asked, asked, asked_by, asked_from, statements};
ghost use Rattle.vert_cli.specs.Ends.{IsAnswered, IsIdle, IsOpenable, RanAs, RunBegins, RunEnds, RunLeaves, RunShows};

use crate::auditing::run_audit;
use crate::faults::Status;
use crate::script::run_script;
use col_disk::Disk;
use col_io::{Files, FilesFault, Got, Sink};
use generated_load::{Generated, script};
use run_words::{ScriptRun, Source, Wanted, read_words};
use std::alloc::{AllocError, Global};

// The most bytes of a script.
const MOST_BYTES: usize = 67_108_864;

/// Does all that the program does: `vert DIR [--mover K] [--halt] [--gen N --seed S] [SCRIPT]` or `vert DIR --audit`, its own name as the
/// first word.
///
/// It reads the file SCRIPT, or takes the generated script over the files that have its load, opens the tables that the disk holds, runs the
/// script's statements in order over them, each with K steps of the mover behind it, and writes what each prints. At the end, after `Done`
/// and `Refused`, all tables are on the disk, but with `--halt`, which leaves the end out: where no steps of the mover are asked for either, the disk
/// shows the work of a MERGEOUT or a PURGE_TABLE that is the last statement, where that isn't refused itself. Each status comes as `Status` says; `Memory` is
/// free to come at any time. What is said of a script that is read holds where the files tell their content, what is said of the written
/// bytes where the sink tells them, and what is said of the tables where the disk tells what it holds. `Damaged` comes of the opening, and
/// then it names a file that keeps the folder from opening and no file was removed, or of a folder that opened, and then one that the root
/// lists, bad in what the disk holds at the end.
///
/// An audit reads no script: it judges the folder, writes the verdict, and writes and removes no file. `Done` and `AuditNo` tell whether the
/// folder reopens, which no other status of an audit does.
pub fn run<F: Files, S: Sink, D: Disk>(
    alloc: Global,
    words: &[String],
    files: &mut F,
    out: &mut S,
    disk: &mut D,
) -> Status
    ensures usage { result ≡ usage_refused → wanted (map string_bytes words.now) ≡ None }
    ensures begins { (what : Asked) → asked (wanted (map string_bytes words.now)) (F.content files.old) ≡ Some what → RunBegins result what disk.old disk.new (S.taken out.old) (S.taken out.new) }
    ensures output { (setting : Setting) (texts : List (List ℕ)) (d : Logical) → asked (wanted (map string_bytes words.now)) (F.content files.old) ≡ Some (statements setting texts) → IsOpenable ⟦<D as Disk>⟧ disk.old d
        → RunEnds result ⟦<D as Disk>⟧ setting d texts disk.old disk.new (S.taken out.old) (S.taken out.new) }
    ensures any_moment { (setting : Setting) (texts : List (List ℕ)) (d : Logical) → asked (wanted (map string_bytes words.now)) (F.content files.old) ≡ Some (statements setting texts) → IsOpenable ⟦<D as Disk>⟧ disk.old d
        → Leaves ⟦<D as Disk>⟧ (RunLeaves ⟦<D as Disk>⟧ disk.old setting d texts (S.taken out.old) (S.taken out.new)) disk.old disk.new }
    ensures shown { (setting : Setting) (texts : List (List ℕ)) (d : Logical) → asked (wanted (map string_bytes words.now)) (F.content files.old) ≡ Some (statements setting texts) → IsOpenable ⟦<D as Disk>⟧ disk.old d
        → RunShows result ⟦<D as Disk>⟧ setting d texts disk.old disk.new (S.taken out.old) (S.taken out.new) }
    ensures complete { (setting : Setting) (texts : List (List ℕ)) (d : Logical) → asked (wanted (map string_bytes words.now)) (F.content files.old) ≡ Some (statements setting texts) → IsOpenable ⟦<D as Disk>⟧ disk.old d
        → IsAnswered result (record { sink = S.faults out.old; files = F.faults files.old; disk = D.faults disk.old }) (record { sink = S.faults out.new; files = F.faults files.new; disk = D.faults disk.new }) }
    ensures audit { (m : Contents) → D.holds disk.old ≡ Some m → AuditOf (wanted (map string_bytes words.now)) result m (S.taken out.old) (S.taken out.new) }
    ensures audit_keeps { AuditKeeps ⟦<D as Disk>⟧ (wanted (map string_bytes words.now)) disk.old disk.new }
    ensures blamed { (q : ℕ) → result ≡ damaged q → NamesFile ⟦<D as Disk>⟧ q disk.old disk.new (S.taken out.old) (S.taken out.new) }
    ensures idle { NeverBegins result → IsIdle disk.old disk.new (S.taken out.old) (S.taken out.new) }
    ensures content { F.content files.new ≡ F.content files.old }
    ensures sink { result ≡ sink_fault → Rose (S.faults out.old) (S.faults out.new) }
    ensures read { result ≡ read_fault → Rose (F.faults files.old) (F.faults files.new) }
    ensures fault { result ≡ disk_fault → Rose (D.faults disk.old) (D.faults disk.new) }
    ensures later { S.faults out.old ≤ S.faults out.new }
    ensures files_later { F.faults files.old ≤ F.faults files.new }
    ensures disk_later { D.faults disk.old ≤ D.faults disk.new }
{
    match read_words(alloc, words) {
        Ok(Some(wanted)) => run_wanted(alloc, wanted, files, out, disk),
        Ok(None) => Status::Usage,
        Err(AllocError) => Status::Memory,
    }
}

// Runs the script, or judges the folder.
fn run_wanted<F: Files, S: Sink, D: Disk>(
    alloc: Global,
    wanted: Wanted,
    files: &mut F,
    out: &mut S,
    disk: &mut D,
) -> Status
    ensures ran { (what : Asked) → asked (Some (told wanted)) (F.content files.old) ≡ Some what → RanAs result ⟦<D as Disk>⟧ what disk.old disk.new (S.taken out.old) (S.taken out.new) }
    ensures audit { (m : Contents) → D.holds disk.old ≡ Some m → AuditOf (Some (told wanted)) result m (S.taken out.old) (S.taken out.new) }
    ensures audit_keeps { AuditKeeps ⟦<D as Disk>⟧ (Some (told wanted)) disk.old disk.new }
    ensures named { result ≢ usage_refused }
    ensures blamed { (q : ℕ) → result ≡ damaged q → NamesFile ⟦<D as Disk>⟧ q disk.old disk.new (S.taken out.old) (S.taken out.new) }
    ensures idle { NeverBegins result → IsIdle disk.old disk.new (S.taken out.old) (S.taken out.new) }
    ensures content { F.content files.new ≡ F.content files.old }
    ensures sink { result ≡ sink_fault → Rose (S.faults out.old) (S.faults out.new) }
    ensures read { result ≡ read_fault → Rose (F.faults files.old) (F.faults files.new) }
    ensures fault { result ≡ disk_fault → Rose (D.faults disk.old) (D.faults disk.new) }
    ensures later { S.faults out.old ≤ S.faults out.new }
    ensures files_later { F.faults files.old ≤ F.faults files.new }
    ensures disk_later { D.faults disk.old ≤ D.faults disk.new }
{
    match wanted {
        Wanted::Run(asked) => run_source(alloc, asked, files, out, disk),
        Wanted::Audit => run_audit(alloc, out, disk),
    }
}

// Runs the script that the words name, or the generated one.
fn run_source<F: Files, S: Sink, D: Disk>(
    alloc: Global,
    run: ScriptRun,
    files: &mut F,
    out: &mut S,
    disk: &mut D,
) -> Status
    ensures ran { (what : Asked) → asked_from (source_told run.source) run.steps run.halts (F.content files.old) ≡ Some what → RanAs result ⟦<D as Disk>⟧ what disk.old disk.new (S.taken out.old) (S.taken out.new) }
    ensures named { result ≢ usage_refused }
    ensures blamed { (q : ℕ) → result ≡ damaged q → NamesFile ⟦<D as Disk>⟧ q disk.old disk.new (S.taken out.old) (S.taken out.new) }
    ensures idle { NeverBegins result → IsIdle disk.old disk.new (S.taken out.old) (S.taken out.new) }
    ensures content { F.content files.new ≡ F.content files.old }
    ensures sink { result ≡ sink_fault → Rose (S.faults out.old) (S.faults out.new) }
    ensures read { result ≡ read_fault → Rose (F.faults files.old) (F.faults files.new) }
    ensures fault { result ≡ disk_fault → Rose (D.faults disk.old) (D.faults disk.new) }
    ensures later { S.faults out.old ≤ S.faults out.new }
    ensures files_later { F.faults files.old ≤ F.faults files.new }
    ensures disk_later { D.faults disk.old ≤ D.faults disk.new }
{
    let ScriptRun {
        source,
        steps,
        halts,
    } = run;
    match source {
        Source::Script(name) => run_file(alloc, name.as_str(), steps, halts, files, out, disk),
        Source::Generated { lines, seed } => {
            run_generated(alloc, lines, seed, steps, halts, out, disk)
        }
    }
}

// Runs the generated script over the files that have its load.
fn run_generated<S: Sink, D: Disk>(
    alloc: Global,
    lines: u32,
    seed: u64,
    steps: u32,
    halts: bool,
    out: &mut S,
    disk: &mut D,
) -> Status
    ensures ran { RanAs result ⟦<D as Disk>⟧ (statements (setting_of (generated_files lines seed) steps halts) (statement_texts generated_script)) disk.old disk.new (S.taken out.old) (S.taken out.new) }
    ensures named { result ≢ usage_refused }
    ensures blamed { (q : ℕ) → result ≡ damaged q → NamesFile ⟦<D as Disk>⟧ q disk.old disk.new (S.taken out.old) (S.taken out.new) }
    ensures idle { NeverBegins result → IsIdle disk.old disk.new (S.taken out.old) (S.taken out.new) }
    ensures sink { result ≡ sink_fault → Rose (S.faults out.old) (S.faults out.new) }
    ensures read { result ≢ read_fault }
    ensures fault { result ≡ disk_fault → Rose (D.faults disk.old) (D.faults disk.new) }
    ensures later { S.faults out.old ≤ S.faults out.new }
    ensures disk_later { D.faults disk.old ≤ D.faults disk.new }
{
    let mut files = Generated::new(lines, seed);
    run_script(alloc, script(), steps, halts, &mut files, out, disk)
}

// Runs the script that the words name.
fn run_file<F: Files, S: Sink, D: Disk>(
    alloc: Global,
    name: &str,
    steps: u32,
    halts: bool,
    files: &mut F,
    out: &mut S,
    disk: &mut D,
) -> Status
    ensures ran { (there : LoadFiles) → F.content files.old ≡ Some there → RanAs result ⟦<D as Disk>⟧ (asked_by (setting_of there steps halts) (there name.now)) disk.old disk.new (S.taken out.old) (S.taken out.new) }
    ensures named { result ≢ usage_refused }
    ensures blamed { (q : ℕ) → result ≡ damaged q → NamesFile ⟦<D as Disk>⟧ q disk.old disk.new (S.taken out.old) (S.taken out.new) }
    ensures idle { NeverBegins result → IsIdle disk.old disk.new (S.taken out.old) (S.taken out.new) }
    ensures content { F.content files.new ≡ F.content files.old }
    ensures sink { result ≡ sink_fault → Rose (S.faults out.old) (S.faults out.new) }
    ensures read { result ≡ read_fault → Rose (F.faults files.old) (F.faults files.new) }
    ensures fault { result ≡ disk_fault → Rose (D.faults disk.old) (D.faults disk.new) }
    ensures later { S.faults out.old ≤ S.faults out.new }
    ensures files_later { F.faults files.old ≤ F.faults files.new }
    ensures disk_later { D.faults disk.old ≤ D.faults disk.new }
{
    match files.read(alloc, name, MOST_BYTES) {
        Ok(Got::Whole(script)) => run_script(
            alloc,
            script.as_slice(),
            steps,
            halts,
            files,
            out,
            disk,
        ),
        Ok(Got::Absent) => Status::NoScript,
        Ok(Got::TooLong) => Status::TooLarge,
        Err(FilesFault::Failed) => Status::ReadFault,
        Err(FilesFault::Memory) => Status::Memory,
    }
}
