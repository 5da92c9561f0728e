//! A moveout of all projections, and the end of all sessions.

ghost use Rattle.std.specs.Prelude.{◌≡◌, ◌≤◌, ℕ, length, nat_le, is_some, Some, IfErr, OnErr};
ghost use Rattle.common_laws.specs.Causes.{HasCause};
ghost use Rattle.common_laws.specs.Maps.{Contents};
ghost use Rattle.db_model.specs.State.{State};
ghost use Rattle.mover_policy.specs.First.{all_projections, behind_in, first_in};
ghost use Rattle.table_store.specs.Faults.{BlamesVectors};
ghost use Rattle.store_core.specs.Moving.{MovesAllOf};
ghost use Rattle.store_core.specs.Named.{NamesHeld};
ghost use Rattle.store_core.specs.Running.{IsState};
ghost use Rattle.store_core.specs.Sessions.{eight_dropped, with_none};

use super::Store;
use col_disk::{Disk, StoreFault};
use mover_policy::first_behind;
use std::alloc::Global;
use txn_core::Txns;

// From this number on no event draws.
const SPENT: u64 = 1 << 60;

/// The changes of the eight sessions are dropped.
fn drop_eight(alloc: Global, txns: &mut Txns)
    ensures { txns.new ≡ eight_dropped txns.old }
{
    for session in 1..9 {
        txns.take(alloc, session);
    }
}

impl Store {
    /// Whether the numbers of files are spent: then no event draws any more. It takes no memory.
    pub fn are_spent(&self) -> bool
        ensures { result ≡ nat_le 1152921504606846976 self.now.seen.catalogue.next }
    {
        self.tables.root().next >= SPENT
    }

    /// ROLLBACK in each session: what waits for COMMIT is dropped. It takes no memory, and the disk isn't called.
    pub fn roll_back_all(&mut self, alloc: Global)
        ensures { self.new ≡ with_none self.old }
    {
        drop_eight(alloc, &mut self.txns);
    }

    /// Whether some projection is behind.
    fn is_behind(&self) -> bool
        ensures { result ≡ is_some (first_in (behind_in self.now.seen.catalogue.last (all_projections self.now.seen.catalogue.tables))) }
    {
        first_behind(self.tables.root().tables.as_slice(), self.tables.last()).is_some()
    }

    /// There are no more projections than a catalogue may have.
    pub(crate) fn projections_fit(&self)
        ensures { length (all_projections self.now.seen.catalogue.tables) ≤ 16384 }
    {
        let _root = self.tables.root();
    }

    /// All projections that are behind are moved out before one commit; where the numbers of files are spent none is. Answers whether it stopped
    /// there. Where memory is short, nothing changed but the mover's job, which is dropped. `Damaged` names the delete vector of a container, which
    /// has none; over a state no file is blamed.
    pub fn move_all<D: Disk>(&mut self, alloc: Global, disk: &mut D) -> Result<bool, StoreFault>
        ensures moves { (state : State) → IsState ⟦<D as Disk>⟧ self.old disk.old state → MovesAllOf ⟦<D as Disk>⟧ self.new disk.old disk.new result state }
        ensures blamed { IfErr result (λ fault. (m : Contents) → D.holds disk.new ≡ Some m → BlamesVectors self.old.seen.stores m fault) }
        ensures named { IfErr result (NamesHeld ⟦<D as Disk>⟧ self.new disk.new) }
        ensures same { OnErr result (self.new.seen ≡ self.old.seen) }
        ensures cause { HasCause StoreFault.Disk (D.faults disk.old) (D.faults disk.new) result }
    {
        self.projections_fit();
        self.mover.drop_job();
        if self.are_spent() {
            return Ok(self.is_behind());
        }
        match self.tables.move_all(alloc, disk) {
            Ok(()) => {}
            Err(fault) => return Err(fault),
        }
        Ok(false)
    }
}
