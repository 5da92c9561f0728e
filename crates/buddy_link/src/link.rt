//! The three calls.

ghost use Rattle.std.specs.Prelude.{◌≡◌, IfOk, IfErr, IsErrOf};
ghost use Rattle.common_laws.specs.Causes.{HasCause};
ghost use Rattle.col_disk.specs.Moved.{Leaves, Moved, NoName};
ghost use Rattle.db_model.specs.Database.{Database};
ghost use Rattle.db_model.specs.State.{State};
ghost use Rattle.store_core.specs.Running.{IsState};
ghost use Rattle.catch_model.specs.Caught.{later_mark};
ghost use Rattle.catch_model.specs.Refused.{IsAccepted};
ghost use Rattle.buddy_link.specs.Linked.{Tells};
ghost use Rattle.buddy_link.specs.Linking.{Ends, GoesOn, MayGoOn, MayReplay, Replays, ReopensBehindOrCaught};

use crate::checks::check;
use crate::histories::{Pair, mark_of};
use crate::replay::replay;
use catch_model::LinkFault;
use catch_tables::Told;
use col_disk::Disk;
use std::alloc::Global;
use std::marker::Model;
use store_core::Store;

/// What the store ahead tells from the later of the two ancient history marks on, as it was at the begin, but for rows that both hold in the same
/// files: of these nothing is later than the newest epoch of the one behind.
#[derive(Drop)]
pub struct Link {
    e: u64,
    f: u64,
    mark: u64,
    tables: Vec<Told>,
}

impl Model for Link {
    ghost use Rattle.buddy_link.specs.Linked.{Linked, linked};

    ghost Value = { Linked };

    ghost view = { λ l. linked l.e l.f l.mark l.tables.items };
}

impl Link {
    /// What the store ahead tells is read, where the one behind can be brought up to it: the newest epoch of the one behind is that up to which all its
    /// data is on disk. It is refused exactly where `IsRefused` says so. Nothing is written.
    pub fn begin<A: Disk, B: Disk>(
        alloc: Global,
        behind: &Store,
        at: &mut A,
        ahead: &Store,
        from: &mut B,
    ) -> Result<Link, LinkFault>
        ensures begun { IfOk result (λ link. (a b : State) → IsState ⟦<A as Disk>⟧ behind.now at.old a → IsState ⟦<B as Disk>⟧ ahead.now from.old b → IsAccepted a.database b.database a.database.last × Tells link a.database b.database) }
        ensures ends { IfErr result (λ fault. (a b : State) → IsState ⟦<A as Disk>⟧ behind.now at.old a → IsState ⟦<B as Disk>⟧ ahead.now from.old b → Ends a.database b.database a.database.last fault) }
        ensures behind_kept { A.holds at.new ≡ A.holds at.old }
        ensures behind_moved { Moved ⟦<A as Disk>⟧ NoName NoName at.old at.new }
        ensures behind_cause { HasCause LinkFault.BehindDisk (A.faults at.old) (A.faults at.new) result }
        ensures ahead_kept { B.holds from.new ≡ B.holds from.old }
        ensures ahead_moved { Moved ⟦<B as Disk>⟧ NoName NoName from.old from.new }
        ensures ahead_cause { HasCause LinkFault.AheadDisk (B.faults from.old) (B.faults from.new) result }
    {
        let (e, f) = (behind.last(), ahead.last());
        let pair = Pair {
            behind,
            ahead,
            epoch: e,
        };
        let mark = mark_of(&pair);
        let tables = check(alloc, &pair, at, from)?;
        Ok(Link { e, f, mark, tables })
    }

    /// The epochs of the store ahead up to its newest at the begin are committed in the one behind, and all its data goes to disk. Answers that epoch.
    pub fn historical<A: Disk>(
        &mut self,
        alloc: Global,
        behind: &mut Store,
        at: &mut A,
    ) -> Result<u64, LinkFault>
        ensures replays { (a : State) (b : Database) → IsState ⟦<A as Disk>⟧ behind.old at.old a → MayReplay self.old.mark self.old.e self.old.f self.old.tables a b → Replays ⟦<A as Disk>⟧ self.old.mark self.old.f behind.new at.new result a b }
        ensures any_moment { (a : State) (b : Database) → IsState ⟦<A as Disk>⟧ behind.old at.old a → MayReplay self.old.mark self.old.e self.old.f self.old.tables a b → Leaves ⟦<A as Disk>⟧ (ReopensBehindOrCaught self.old.mark a b) at.old at.new }
        ensures same { self.new ≡ self.old }
        ensures own { IsErrOf result LinkFault.AheadDisk → ⊥ }
        ensures cause { HasCause LinkFault.BehindDisk (A.faults at.old) (A.faults at.new) result }
    {
        replay(alloc, behind, at, self.tables.as_slice(), self.e, self.f)
    }

    /// The store ahead is read once more, and what it committed since the begin is brought to the one behind. It is refused exactly where `IsRefused`
    /// says so of the epoch that `historical` answered. Answers the newest epoch of the store ahead.
    pub fn current<A: Disk, B: Disk>(
        &mut self,
        alloc: Global,
        behind: &mut Store,
        at: &mut A,
        ahead: &Store,
        from: &mut B,
    ) -> Result<u64, LinkFault>
        ensures goes_on { (a b : State) → IsState ⟦<A as Disk>⟧ behind.old at.old a → IsState ⟦<B as Disk>⟧ ahead.now from.old b → MayGoOn self.old.f a → GoesOn ⟦<A as Disk>⟧ self.old.f behind.new at.new result a b.database }
        ensures any_moment { (a b : State) → IsState ⟦<A as Disk>⟧ behind.old at.old a → IsState ⟦<B as Disk>⟧ ahead.now from.old b → MayGoOn self.old.f a → Leaves ⟦<A as Disk>⟧ (ReopensBehindOrCaught (later_mark a.database b.database) a b.database) at.old at.new }
        ensures same { self.new ≡ self.old }
        ensures behind_cause { HasCause LinkFault.BehindDisk (A.faults at.old) (A.faults at.new) result }
        ensures ahead_kept { B.holds from.new ≡ B.holds from.old }
        ensures ahead_moved { Moved ⟦<B as Disk>⟧ NoName NoName from.old from.new }
        ensures ahead_cause { HasCause LinkFault.AheadDisk (B.faults from.old) (B.faults from.new) result }
    {
        let pair = Pair {
            behind,
            ahead,
            epoch: self.f,
        };
        let tables = check(alloc, &pair, at, from)?;
        replay(alloc, behind, at, tables.as_slice(), self.f, ahead.last())
    }
}
