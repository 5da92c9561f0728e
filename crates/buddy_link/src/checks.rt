//! Whether the store behind can be brought up to the one ahead.

ghost use Rattle.std.specs.Prelude.{◌≡◌, ◌≤◌, ℕ, IfOk, IfErr, IsErrOf, OnOk};
ghost use Rattle.common_laws.specs.Causes.{HasCause};
ghost use Rattle.col_disk.specs.Moved.{Moved, NoName};
ghost use Rattle.db_model.specs.Database.{Database};
ghost use Rattle.db_model.specs.Sound.{IsSoundDatabase};
ghost use Rattle.db_model.specs.State.{State};
ghost use Rattle.store_core.specs.Running.{IsState};
ghost use Rattle.catch_model.specs.Added.{has_too_many};
ghost use Rattle.catch_model.specs.Refused.{is_gap, IsAhead, IsOlder, NoEpoch};
ghost use Rattle.catch_tables.specs.Told.{AreToldBy};
ghost use Rattle.buddy_link.specs.Linking.{Ends, IsChecked};

use crate::histories::{Pair, tell_all};
use catch_model::LinkFault;
use catch_schemas::schema_difference;
use catch_tables::{Told, first_gap, first_too_many, order_all};
use col_disk::Disk;
use std::alloc::Global;

/// Whether each epoch to come can be replayed as one commit.
fn check_epochs(alloc: Global, tables: &[Told], after: u64, last: u64) -> Result<(), LinkFault>
    ensures good { OnOk result ((mark : ℕ) (b : Database) → IsSoundDatabase b → mark ≤ after → last ≡ b.last → AreToldBy mark after tables.now b → NoEpoch (is_gap b) after last × NoEpoch (has_too_many b) after last) }
    ensures ends { IfErr result (λ fault. (mark : ℕ) (a b : Database) → IsSoundDatabase b → mark ≤ after → last ≡ b.last → AreToldBy mark after tables.now b → IsAhead a b after → IsOlder a b after → Ends a b after fault) }
    ensures behind { IsErrOf result LinkFault.BehindDisk → ⊥ }
    ensures ahead { IsErrOf result LinkFault.AheadDisk → ⊥ }
{
    let ordered = order_all(alloc, tables, after)?;
    if let Some(epoch) = first_gap(ordered.as_slice(), after, last) {
        return Err(LinkFault::Gap(epoch));
    }
    match first_too_many(ordered.as_slice(), after, last) {
        Some(epoch) => Err(LinkFault::TooMany(epoch)),
        None => Ok(()),
    }
}

/// Whether the tables, the newest epochs and the ancient history mark ahead let the histories be compared.
fn check_frame<A: Disk, B: Disk>(
    alloc: Global,
    pair: &Pair<'_>,
    at: &A,
    from: &B,
) -> Result<(), LinkFault>
    ensures ahead { OnOk result ((a b : State) → IsState ⟦<A as Disk>⟧ pair.now.behind.now at.now a → IsState ⟦<B as Disk>⟧ pair.now.ahead.now from.now b → IsAhead a.database b.database pair.now.epoch) }
    ensures ends { IfErr result (λ fault. (a b : State) → IsState ⟦<A as Disk>⟧ pair.now.behind.now at.now a → IsState ⟦<B as Disk>⟧ pair.now.ahead.now from.now b → Ends a.database b.database pair.now.epoch fault) }
    ensures no_behind { IsErrOf result LinkFault.BehindDisk → ⊥ }
    ensures no_ahead { IsErrOf result LinkFault.AheadDisk → ⊥ }
{
    if let Some(name) = schema_difference(pair.behind.tables(), pair.ahead.tables()) {
        return Err(LinkFault::SchemaDiffers(name.copy(alloc)?));
    }
    let (behind, ahead) = (pair.behind.last(), pair.ahead.last());
    if ahead < behind {
        return Err(LinkFault::NotBehind { behind, ahead });
    }
    let (at, ahm) = (pair.epoch, pair.ahead.mark());
    if at < ahm {
        return Err(LinkFault::HistoryGone { at, ahm });
    }
    Ok(())
}

/// What the tables tell ahead, where nothing is in the way of bringing the store behind up to that.
pub fn check<A: Disk, B: Disk>(
    alloc: Global,
    pair: &Pair<'_>,
    at: &mut A,
    from: &mut B,
) -> Result<Vec<Told>, LinkFault>
    ensures checked { IfOk result (λ v. (a b : State) → IsState ⟦<A as Disk>⟧ pair.now.behind.now at.old a → IsState ⟦<B as Disk>⟧ pair.now.ahead.now from.old b → a.database.last ≡ pair.now.epoch → IsChecked pair.now.epoch v.items a.database b.database) }
    ensures ends { IfErr result (λ fault. (a b : State) → IsState ⟦<A as Disk>⟧ pair.now.behind.now at.old a → IsState ⟦<B as Disk>⟧ pair.now.ahead.now from.old b → a.database.last ≡ pair.now.epoch → Ends a.database b.database pair.now.epoch fault) }
    ensures behind_kept { A.holds at.new ≡ A.holds at.old }
    ensures behind_moved { Moved ⟦<A as Disk>⟧ NoName NoName at.old at.new }
    ensures behind_cause { HasCause LinkFault.BehindDisk (A.faults at.old) (A.faults at.new) result }
    ensures ahead_kept { B.holds from.new ≡ B.holds from.old }
    ensures ahead_moved { Moved ⟦<B as Disk>⟧ NoName NoName from.old from.new }
    ensures ahead_cause { HasCause LinkFault.AheadDisk (B.faults from.old) (B.faults from.new) result }
{
    check_frame(alloc, pair, at, from)?;
    let tables = tell_all(alloc, pair, at, from)?;
    check_epochs(alloc, tables.as_slice(), pair.epoch, pair.ahead.last())?;
    Ok(tables)
}
