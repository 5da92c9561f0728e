//! Epochs of the store ahead, committed in the one behind.

ghost use Rattle.std.specs.Prelude.{◌≡◌, ◌≤◌, ◌+◌, ℕ, [], true, IfErr, OnErr, OnOk, IsErrOf};
ghost use Rattle.std.specs.List.{AllZip};
ghost use Rattle.common_laws.specs.Causes.{HasCause};
ghost use Rattle.col_disk.specs.Moved.{Leaves};
ghost use Rattle.db_model.specs.Database.{Database};
ghost use Rattle.db_model.specs.State.{State};
ghost use Rattle.catch_laws.specs.Replay.{IsAt};
ghost use Rattle.catch_model.specs.Added.{has_change};
ghost use Rattle.catch_model.specs.Refused.{is_gap, NoEpoch};
ghost use Rattle.store_core.specs.Running.{IsState};
ghost use Rattle.store_core.specs.Sessions.{with_own};
ghost use Rattle.buddy_link.specs.Linking.{MayReplay, MovesBehind, Replays, ReopensBehindOrCaught};
ghost use Rattle.buddy_link.specs.Replaying.{all_pended, pended, Comes, Setting};

use catch_laws::{an_epoch_is_committed, an_epoch_is_pending};
use catch_model::LinkFault;
use catch_rows::behind_fault;
use catch_tables::{Ordered, Told, asked_rows, copied_rows, order_all};
use col_disk::Disk;
use std::alloc::{AllocError, Global};
use store_core::{Store, given_changes_stand, rollbacks_stand, sessions_stand};

/// What an epoch changed in a table is pending.
fn pend_one(
    alloc: Global,
    behind: &mut Store,
    table: &Ordered<'_>,
    epoch: u64,
) -> Result<(), AllocError>
    ensures pends { OnOk result (behind.new ≡ pended epoch table.now behind.old) }
    ensures kept { OnErr result (behind.new ≡ behind.old) }
{
    let inserts = table.inserts(epoch);
    let deletes = table.deletes(epoch);
    if inserts.is_empty() && deletes.is_empty() {
        return Ok(());
    }
    let rows = copied_rows(alloc, inserts)?;
    let gone = asked_rows(alloc, deletes)?;
    behind.change_rows(alloc, table.name().as_slice(), rows, gone)
}

/// What an epoch changed in all tables is pending. Where memory is short, the other sessions are as they were.
fn pend_all(
    alloc: Global,
    behind: &mut Store,
    tables: &[Ordered<'_>],
    epoch: u64,
) -> Result<(), AllocError>
    ensures pends { OnOk result (behind.new ≡ all_pended epoch tables.now behind.old) }
    ensures dropped { with_own [] behind.new ≡ with_own [] behind.old }
{
    for table in tables {
        pend_one(alloc, behind, table, epoch)?;
    }
    Ok(())
}

/// What an epoch changed is committed. Where it can't be, nothing is pending.
fn commit_one<A: Disk>(
    alloc: Global,
    behind: &mut Store,
    at: &mut A,
    tables: &[Ordered<'_>],
    epoch: u64,
) -> Result<(), LinkFault>
    ensures comes { (mark after n : ℕ) (start b : Database) (s : State) → epoch ≡ n + 1 → after ≤ n → Setting mark after start b tables.now → has_change b epoch ≡ true → IsAt mark start b n s
        → IsState ⟦<A as Disk>⟧ behind.old at.old s → Comes ⟦<A as Disk>⟧ mark start b n epoch behind.new at.old at.new result }
    ensures own { IsErrOf result LinkFault.AheadDisk → ⊥ }
    ensures cause { HasCause LinkFault.BehindDisk (A.faults at.old) (A.faults at.new) result }
{
    an_epoch_is_pending();
    an_epoch_is_committed();
    given_changes_stand::<A>();
    rollbacks_stand::<A>();
    match pend_all(alloc, behind, tables, epoch) {
        Ok(()) => {}
        Err(AllocError) => {
            behind.roll_back(alloc);
            return Err(LinkFault::Memory);
        }
    }
    match behind.commit(alloc, at) {
        Ok(()) => Ok(()),
        Err(fault) => {
            behind.roll_back(alloc);
            Err(behind_fault(fault))
        }
    }
}

/// The epochs after one, up to another, are committed. Where one can't be, nothing is pending.
fn commit_all<A: Disk>(
    alloc: Global,
    behind: &mut Store,
    at: &mut A,
    tables: &[Ordered<'_>],
    after: u64,
    last: u64,
) -> Result<(), LinkFault>
    ensures comes { (mark : ℕ) (start b : Database) (s : State) → after ≤ last → Setting mark after start b tables.now → NoEpoch (is_gap b) after last → IsAt mark start b after s
        → IsState ⟦<A as Disk>⟧ behind.old at.old s → Comes ⟦<A as Disk>⟧ mark start b after last behind.new at.old at.new result }
    ensures own { IsErrOf result LinkFault.AheadDisk → ⊥ }
    ensures cause { HasCause LinkFault.BehindDisk (A.faults at.old) (A.faults at.new) result }
{
    for closed in after..last {
        commit_one(alloc, behind, at, tables, closed + 1)?;
    }
    Ok(())
}

/// All data of the store behind goes to disk.
fn move_all<A: Disk>(alloc: Global, behind: &mut Store, at: &mut A) -> Result<(), LinkFault>
    ensures moves { (s : State) → IsState ⟦<A as Disk>⟧ behind.old at.old s → MovesBehind ⟦<A as Disk>⟧ behind.new at.old at.new result s }
    ensures own { IsErrOf result LinkFault.AheadDisk → ⊥ }
    ensures cause { HasCause LinkFault.BehindDisk (A.faults at.old) (A.faults at.new) result }
{
    match behind.move_all(alloc, at) {
        Ok(false) => Ok(()),
        Ok(true) => Err(LinkFault::NumbersSpent),
        Err(fault) => Err(behind_fault(fault)),
    }
}

/// What tables tell of the epochs after one, up to another, is committed by session 1, and goes to disk.
pub fn replay<A: Disk>(
    alloc: Global,
    behind: &mut Store,
    at: &mut A,
    tables: &[Told],
    after: u64,
    last: u64,
) -> Result<u64, LinkFault>
    ensures replays { (mark : ℕ) (a : State) (b : Database) → IsState ⟦<A as Disk>⟧ behind.old at.old a → MayReplay mark after last tables.now a b → Replays ⟦<A as Disk>⟧ mark last behind.new at.new result a b }
    ensures any_moment { (mark : ℕ) (a : State) (b : Database) → IsState ⟦<A as Disk>⟧ behind.old at.old a → MayReplay mark after last tables.now a b → Leaves ⟦<A as Disk>⟧ (ReopensBehindOrCaught mark a b) at.old at.new }
    ensures own { IsErrOf result LinkFault.AheadDisk → ⊥ }
    ensures cause { HasCause LinkFault.BehindDisk (A.faults at.old) (A.faults at.new) result }
{
    sessions_stand::<A>();
    behind.use_session(1);
    let ordered = order_all(alloc, tables, after)?;
    commit_all(alloc, behind, at, ordered.as_slice(), after, last)?;
    move_all(alloc, behind, at)?;
    Ok(last)
}
