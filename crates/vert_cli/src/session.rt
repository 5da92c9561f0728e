//! A session: a running store that statements are run on, one after the other.
#![tactic(auto)]

ghost use Rattle.std.specs.Prelude.{◌≡◌, ◌≢◌, ◌≤◌, ◌⊎◌, ◌||◌, ℕ, Some, false, true, IfOk, IfErr, OnOk, IsErrOf};
ghost use Rattle.common_laws.specs.Causes.{Rose, HasCause};
ghost use Rattle.common_laws.specs.Maps.{Contents};
ghost use Rattle.col_disk.specs.Moved.{Leaves};
ghost use Rattle.col_disk.specs.declared.disk.StoreFault.TheVariants.{Disk as disk_failed, Damaged as damaged_held};
ghost use Rattle.db_model.specs.Database.{Database as Logical};
ghost use Rattle.db_model.specs.Loading.{Files as LoadFiles};
ghost use Rattle.db_model.specs.State.{State, opened_with};
ghost use Rattle.folder_model.specs.Reopening.{Reopens};
ghost use Rattle.store_step.specs.Named.{NamesHeld, NamesListed};
ghost use Rattle.store_step.specs.Opening.{BlamesOpening, IsLeftAlone, IsOpening, IsStartOf, IsStill, WhereBlamed};
ghost use Rattle.store_step.specs.Running.{Running, IsState};
ghost use Rattle.store_step.specs.Steps.{Ends};
ghost use Rattle.vert_cli.specs.declared.faults.RunFault.TheVariants.{Sink as sink_failed, Damaged as damaged_file, Disk as stopped, Read as read_failed, Halted as halted};
ghost use Rattle.vert_cli.specs.Blamed.{IsToldAs, NamesInRun};
ghost use Rattle.vert_cli.specs.Sessions.{halts_by, is_of_disk};
ghost use Rattle.vert_cli.specs.Shown.{HasShown};
ghost use Rattle.vert_cli.specs.Statements.{Executed, HasWorked, MovedOn, in_run};

use crate::faults::{Outcome, RunFault, either, fault_of, fault_of_step};
use col_disk::{Disk, StoreFault};
use col_io::{Files, Sink, SinkFault, write_all};
use sql_reader::one_reading;
use std::alloc::Global;
use std::marker::Model;
use store_step::{Answer, Store, end, mover_step, step};

/// A running store that statements are run on. Over a disk it is a state of the database with its eight sessions; once the disk has
/// failed it is halted.
#[derive(Drop)]
pub struct Session {
    pub(crate) store: Store,
    halted: bool,
}

impl Model for Session {
    ghost use Rattle.vert_cli.specs.Sessions.{Sitting};

    ghost Value = { Sitting };

    ghost view = { λ s. record { running = s.store; halted = s.halted } };
}

impl Session {
    /// A session over the tables that the folder reopens to, cut at the last good epoch. `Damaged` names a file that keeps the folder from
    /// opening: the body of the greatest open gate, a listed file that is absent or not what it has to be, or a data file where no gate is
    /// open; and then no file was removed.
    pub fn open<D: Disk>(alloc: Global, disk: &mut D) -> Result<Session, StoreFault>
        ensures opened { IfOk result (λ s. (m : Contents) (d : Logical) → D.holds disk.old ≡ Some m → Reopens m d → (next : ℕ) × (parts : ℕ) × IsStartOf m next parts × IsState ⟦<D as Disk>⟧ s.running disk.new (opened_with next parts d)) }
        ensures live { IfOk result (λ s. s.halted ≡ false) }
        ensures any_moment { (m : Contents) (d : Logical) → D.holds disk.old ≡ Some m → Reopens m d → Leaves ⟦<D as Disk>⟧ (IsStill ⟦<D as Disk>⟧ disk.old d) disk.old disk.new }
        ensures opens { IfOk result (λ s. (m : Contents) → D.holds disk.old ≡ Some m → IsOpening m) }
        ensures blamed { IfErr result (BlamesOpening (D.holds disk.old)) }
        ensures untouched { IfErr result (WhereBlamed (IsLeftAlone ⟦<D as Disk>⟧ disk.old disk.new)) }
        ensures cause { HasCause disk_failed (D.faults disk.old) (D.faults disk.new) result }
    {
        match Store::open(alloc, disk) {
            Ok(store) => Ok(Session {
                store,
                halted: false,
            }),
            Err(fault) => Err(fault),
        }
    }

    // Keeps in mind that the disk failed.
    fn note(&mut self, fault: RunFault) -> RunFault
        ensures same { result ≡ fault }
        ensures running { self.new.running ≡ self.old.running }
        ensures flag { self.new.halted ≡ (self.old.halted || is_of_disk result) }
    {
        self.halted = either(self.halted, fault.is_of_disk());
        fault
    }

    /// Runs one statement text, without its `;`, and writes what it prints.
    ///
    /// The whole printed text is made first and written afterwards. After `Ok` the sink took exactly the text, and the refusal in the
    /// outcome is the statement's; over a state a MERGEOUT that wasn't refused leaves no up-to-date projection with four containers of a level,
    /// and a PURGE_TABLE none of its table with a row that was deleted at or before the ancient history mark, and the folder shows it. After `Sink` the statement has taken effect, and a front of its text was taken; the sink's count of
    /// faults rose. After `Memory` nothing was taken and nothing changed, but that the mover's job may be dropped and for jobs of the statement that were done; or the sink was short of memory,
    /// and the statement has taken effect. After `Read` the statement is a COPY, nothing was taken and nothing changed. `Damaged` names a file of
    /// a projection of the session, which is bad in what the disk holds then; over a state none is named. Whatever a crash leaves
    /// at any moment reopens to the tables before or after the statement. `Disk`, and no other answer, halts the session: from then on
    /// `Halted` is answered and nothing is called.
    pub fn execute<F: Files, S: Sink, D: Disk>(
        &mut self,
        alloc: Global,
        text: &[u8],
        files: &mut F,
        disk: &mut D,
        out: &mut S,
    ) -> Result<Outcome, RunFault>
        ensures executed { (there : LoadFiles) (state : State) → F.content files.old ≡ Some there → self.old.halted ≡ false → IsState ⟦<D as Disk>⟧ self.old.running disk.old state
            → Executed ⟦<D as Disk>⟧ there text.now self.new.running disk.old disk.new result state (S.taken out.old) (S.taken out.new) }
        ensures works { HasWorked ⟦<D as Disk>⟧ text.now self.old.running self.new.running disk.old result }
        ensures shows { (there : LoadFiles) (state : State) → F.content files.old ≡ Some there → self.old.halted ≡ false → IsState ⟦<D as Disk>⟧ self.old.running disk.old state → HasShown ⟦<D as Disk>⟧ text.now disk.new result }
        ensures named { IfErr result (NamesInRun ⟦<D as Disk>⟧ self.new.running disk.new) }
        ensures flag { self.new.halted ≡ (self.old.halted || halts_by result) }
        ensures live { IfOk result (λ outcome. self.new.halted ≡ false) }
        ensures content { F.content files.new ≡ F.content files.old }
        ensures sink { IsErrOf result sink_failed → Rose (S.faults out.old) (S.faults out.new) }
        ensures read { IsErrOf result read_failed → Rose (F.faults files.old) (F.faults files.new) }
        ensures cause { HasCause stopped (D.faults disk.old) (D.faults disk.new) result }
        ensures later { S.faults out.old ≤ S.faults out.new }
        ensures files_later { F.faults files.old ≤ F.faults files.new }
        ensures only_halted { IsErrOf result halted → self.old.halted ≡ true }
        ensures always_halted { self.old.halted ≡ true → IsErrOf result halted × (self.new ≡ self.old) × (files.new ≡ files.old) × (disk.new ≡ disk.old) × (out.new ≡ out.old) }
    {
        one_reading();
        if self.halted {
            return Err(RunFault::Halted);
        }
        let Answer { text, refusal } = match step(alloc, &mut self.store, text, files, disk) {
            Ok(answer) => answer,
            Err(fault) => return Err(self.note(fault_of_step(fault))),
        };
        match write_all(out, text.as_slice()) {
            Ok(()) => Ok(Outcome::of(refusal)),
            Err(SinkFault::Failed) => Err(RunFault::Sink),
            Err(SinkFault::Memory) => Err(RunFault::Memory),
        }
    }

    /// So many steps of the mover. After `Memory` some of them were made. `Disk`, and no other answer, halts the session: from then on
    /// `Halted` is answered and nothing is called.
    pub fn move_on<D: Disk>(
        &mut self,
        alloc: Global,
        steps: u32,
        disk: &mut D,
    ) -> Result<(), RunFault>
        ensures moved { (state : State) → self.old.halted ≡ false → IsState ⟦<D as Disk>⟧ self.old.running disk.old state → MovedOn ⟦<D as Disk>⟧ steps self.new.running disk.old disk.new result state }
        ensures still { steps ≡ 0 → disk.new ≡ disk.old }
        ensures named { IfErr result (NamesInRun ⟦<D as Disk>⟧ self.new.running disk.new) }
        ensures flag { self.new.halted ≡ (self.old.halted || halts_by result) }
        ensures live { OnOk result (self.new.halted ≡ false) }
        ensures no_sink { IsErrOf result sink_failed → ⊥ }
        ensures no_read { IsErrOf result read_failed → ⊥ }
        ensures cause { HasCause stopped (D.faults disk.old) (D.faults disk.new) result }
        ensures only_halted { IsErrOf result halted → self.old.halted ≡ true }
        ensures always_halted { self.old.halted ≡ true → IsErrOf result halted × (self.new ≡ self.old) × (disk.new ≡ disk.old) }
    {
        if self.halted {
            return Err(RunFault::Halted);
        }
        match move_steps(alloc, &mut self.store, steps, disk) {
            Ok(()) => Ok(()),
            Err(fault) => Err(self.note(fault_of(fault))),
        }
    }

    // The end of a script, as `close` makes it.
    pub(crate) fn finish<D: Disk>(&mut self, alloc: Global, disk: &mut D) -> Result<(), StoreFault>
        ensures ends { (state : State) → IsState ⟦<D as Disk>⟧ self.old.running disk.old state → Ends ⟦<D as Disk>⟧ self.new.running disk.old disk.new result state }
        ensures named { IfErr result (NamesHeld ⟦<D as Disk>⟧ self.new.running disk.new) }
        ensures cause { HasCause disk_failed (D.faults disk.old) (D.faults disk.new) result }
    {
        end(alloc, &mut self.store, disk)
    }

    // The fault that a run tells which met a file that is bad: it names the file where the disk opens to the session's tables, so that the root
    // lists it. A disk that keeps what was written does; of any other one it says nothing but that it couldn't go on.
    fn blame_file<D: Disk>(&self, alloc: Global, name: u64, disk: &mut D) -> RunFault
        ensures named { NamesHeld ⟦<D as Disk>⟧ self.now.running disk.old (damaged_held name) → (q : ℕ) → result ≡ damaged_file q → NamesListed ⟦<D as Disk>⟧ q disk.new }
        ensures sink { result ≢ sink_failed }
        ensures read { result ≢ read_failed }
        ensures not_halted { result ≢ halted }
        ensures failed { result ≡ stopped → Rose (D.faults disk.old) (D.faults disk.new) }
        ensures later { D.faults disk.old ≤ D.faults disk.new }
    {
        match self.store.is_rooted(alloc, disk) {
            Ok(true) => RunFault::Damaged(name),
            Ok(false) => RunFault::Memory,
            Err(StoreFault::Disk) => RunFault::Disk,
            Err(_) => RunFault::Memory,
        }
    }

    // The fault that a run tells which ends with this one.
    pub(crate) fn blame<D: Disk>(&self, alloc: Global, fault: RunFault, disk: &mut D) -> RunFault
        ensures told { IsToldAs fault result disk.old disk.new }
        ensures named { NamesInRun ⟦<D as Disk>⟧ self.now.running disk.old fault → (q : ℕ) → result ≡ damaged_file q → NamesListed ⟦<D as Disk>⟧ q disk.new }
        ensures sink { result ≡ sink_failed → fault ≡ sink_failed }
        ensures read { result ≡ read_failed → fault ≡ read_failed }
        ensures not_halted { result ≡ halted → fault ≡ halted }
        ensures failed { result ≡ stopped → (fault ≡ stopped) ⊎ Rose (D.faults disk.old) (D.faults disk.new) }
        ensures later { D.faults disk.old ≤ D.faults disk.new }
    {
        match fault {
            RunFault::Damaged(name) => self.blame_file(alloc, name, disk),
            RunFault::Sink => RunFault::Sink,
            RunFault::Disk => RunFault::Disk,
            RunFault::Memory => RunFault::Memory,
            RunFault::Read => RunFault::Read,
            RunFault::Halted => RunFault::Halted,
        }
    }

    /// The end of a script: what waits for COMMIT in any session is dropped, and all tables go to disk, up to a moveout that would draw
    /// where the numbers of files are spent. After `Memory` no table changed, and nothing was moved out. Whatever a crash leaves at any
    /// moment reopens to the same tables.
    pub fn close<D: Disk>(self, alloc: Global, disk: &mut D) -> Result<(), StoreFault>
        ensures ends { (state : State) → IsState ⟦<D as Disk>⟧ self.running disk.old state → (is : Running) × Ends ⟦<D as Disk>⟧ is disk.old disk.new result state }
        ensures named { IfErr result (NamesHeld ⟦<D as Disk>⟧ self.running disk.new) }
        ensures cause { HasCause disk_failed (D.faults disk.old) (D.faults disk.new) result }
    {
        let Session { mut store, .. } = self;
        end(alloc, &mut store, disk)
    }
}

// So many steps of the mover.
fn move_steps<D: Disk>(
    alloc: Global,
    store: &mut Store,
    steps: u32,
    disk: &mut D,
) -> Result<(), StoreFault>
    ensures moved { (state : State) → IsState ⟦<D as Disk>⟧ store.old disk.old state → MovedOn ⟦<D as Disk>⟧ steps store.new disk.old disk.new (in_run result) state }
    ensures still { steps ≡ 0 → disk.new ≡ disk.old }
    ensures named { IfErr result (NamesHeld ⟦<D as Disk>⟧ store.new disk.new) }
    ensures cause { HasCause disk_failed (D.faults disk.old) (D.faults disk.new) result }
{
    for _ in 0..steps {
        match mover_step(alloc, store, disk) {
            Ok(()) => {}
            Err(fault) => return Err(fault),
        }
    }
    Ok(())
}
