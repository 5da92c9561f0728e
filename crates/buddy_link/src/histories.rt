//! What both tell of their tables.

ghost use Rattle.std.specs.Prelude.{◌≡◌, ◌≤◌, IfOk, IfErr, IsErrOf, IsSomeAnd};
ghost use Rattle.std.specs.List.{slice_get, All};
ghost use Rattle.common_laws.specs.Causes.{HasCause};
ghost use Rattle.col_disk.specs.Moved.{Moved, NoName};
ghost use Rattle.col_value.specs.Order.{IsRow};
ghost use Rattle.db_model.specs.State.{State};
ghost use Rattle.store_core.specs.Running.{IsState};
ghost use Rattle.catch_model.specs.Refused.{IsAhead, IsOlder};
ghost use Rattle.catch_tables.specs.Told.{AreToldBy};
ghost use Rattle.catch_files.specs.Parting.{IsShort};
ghost use Rattle.catch_rows.specs.Sharing.{ShareAt};
ghost use Rattle.buddy_link.specs.Linking.{mark_between, Ends, EndsAt, IsToldAt};

use catch_model::LinkFault;
use catch_rows::{Rests, rests_of};
use catch_tables::{Told, difference_at};
use col_disk::Disk;
use col_value::Name;
use std::alloc::Global;
use store_core::Store;

/// The store behind and the one ahead, and the epoch from which the one behind is to be brought on.
#[derive(Clone, Copy)]
pub struct Pair<'a> {
    pub behind: &'a Store,
    pub ahead: &'a Store,
    pub epoch: u64,
}

/// The later of the two ancient history marks.
pub fn mark_of(pair: &Pair<'_>) -> u64
    ensures { result ≡ mark_between pair.now.behind.now pair.now.ahead.now }
{
    pair.behind.mark().max(pair.ahead.mark())
}

/// What the table at a place tells in both, but for what both hold in the same files.
fn rests_at<A: Disk, B: Disk>(
    alloc: Global,
    pair: &Pair<'_>,
    place: usize,
    at: &mut A,
    from: &mut B,
) -> Result<Rests, LinkFault>
    ensures found { IfOk result (λ r. (a b : State) → IsState ⟦<A as Disk>⟧ pair.now.behind.now at.old a → IsState ⟦<B as Disk>⟧ pair.now.ahead.now from.old b → ShareAt (mark_between pair.now.behind.now pair.now.ahead.now) place r.behind.items r.ahead.items a.database b.database) }
    ensures valid { IfOk result (λ r. All (λ s. IsRow s.row) r.ahead.items) }
    ensures short { IfErr result (λ fault. (a b : State) → IsState ⟦<A as Disk>⟧ pair.now.behind.now at.old a → IsState ⟦<B as Disk>⟧ pair.now.ahead.now from.old b → IsShort fault) }
    ensures behind_kept { A.holds at.new ≡ A.holds at.old }
    ensures behind_moved { Moved ⟦<A as Disk>⟧ NoName NoName at.old at.new }
    ensures behind_cause { HasCause LinkFault.BehindDisk (A.faults at.old) (A.faults at.new) result }
    ensures ahead_kept { B.holds from.new ≡ B.holds from.old }
    ensures ahead_moved { Moved ⟦<B as Disk>⟧ NoName NoName from.old from.new }
    ensures ahead_cause { HasCause LinkFault.AheadDisk (B.faults from.old) (B.faults from.new) result }
{
    let mark = mark_of(pair);
    rests_of(
        alloc,
        pair.behind.stored(),
        at,
        pair.ahead.stored(),
        from,
        place,
        mark,
    )
}

/// The name of the table at a place ahead.
fn name_ahead(alloc: Global, pair: &Pair<'_>, place: usize) -> Result<Name, LinkFault>
    ensures found { IfOk result (λ n. IsSomeAnd (slice_get pair.now.ahead.now.seen.catalogue.tables place) (λ t. t.name ≡ n)) }
    ensures short { IfErr result (λ fault. fault ≡ LinkFault.Memory) }
{
    match pair.ahead.tables().get(place) {
        Some(table) => Ok(table.name.copy(alloc)?),
        None => Err(LinkFault::Memory),
    }
}

/// What the table at a place tells ahead, where the store behind tells the same up to the epoch.
fn tell_one<A: Disk, B: Disk>(
    alloc: Global,
    pair: &Pair<'_>,
    place: usize,
    at: &mut A,
    from: &mut B,
) -> Result<Told, LinkFault>
    ensures told { IfOk result (λ h. (a b : State) → IsState ⟦<A as Disk>⟧ pair.now.behind.now at.old a → IsState ⟦<B as Disk>⟧ pair.now.ahead.now from.old b → a.database.last ≡ pair.now.epoch → mark_between pair.now.behind.now pair.now.ahead.now ≤ pair.now.epoch → IsToldAt (mark_between pair.now.behind.now pair.now.ahead.now) pair.now.epoch place h a.database b.database) }
    ensures ends { IfErr result (λ fault. (a b : State) → IsState ⟦<A as Disk>⟧ pair.now.behind.now at.old a → IsState ⟦<B as Disk>⟧ pair.now.ahead.now from.old b → a.database.last ≡ pair.now.epoch → mark_between pair.now.behind.now pair.now.ahead.now ≤ pair.now.epoch → EndsAt (mark_between pair.now.behind.now pair.now.ahead.now) pair.now.epoch place a.database b.database fault) }
    ensures behind_kept { A.holds at.new ≡ A.holds at.old }
    ensures behind_moved { Moved ⟦<A as Disk>⟧ NoName NoName at.old at.new }
    ensures behind_cause { HasCause LinkFault.BehindDisk (A.faults at.old) (A.faults at.new) result }
    ensures ahead_kept { B.holds from.new ≡ B.holds from.old }
    ensures ahead_moved { Moved ⟦<B as Disk>⟧ NoName NoName from.old from.new }
    ensures ahead_cause { HasCause LinkFault.AheadDisk (B.faults from.old) (B.faults from.new) result }
{
    let name = name_ahead(alloc, pair, place)?;
    let Rests { behind, ahead } = rests_at(alloc, pair, place, at, from)?;
    match difference_at(alloc, behind, ahead.as_slice(), pair.epoch)? {
        Some(row) => Err(LinkFault::Differs { table: name, row }),
        None => Ok(Told::new(name, ahead)),
    }
}

/// What all tables tell ahead, where the store behind tells the same up to the epoch.
pub fn tell_all<A: Disk, B: Disk>(
    alloc: Global,
    pair: &Pair<'_>,
    at: &mut A,
    from: &mut B,
) -> Result<Vec<Told>, LinkFault>
    ensures told { IfOk result (λ v. (a b : State) → IsState ⟦<A as Disk>⟧ pair.now.behind.now at.old a → IsState ⟦<B as Disk>⟧ pair.now.ahead.now from.old b → IsAhead a.database b.database pair.now.epoch → a.database.last ≡ pair.now.epoch → mark_between pair.now.behind.now pair.now.ahead.now ≤ pair.now.epoch
        → AreToldBy (mark_between pair.now.behind.now pair.now.ahead.now) pair.now.epoch v.items b.database × IsOlder a.database b.database pair.now.epoch) }
    ensures ends { IfErr result (λ fault. (a b : State) → IsState ⟦<A as Disk>⟧ pair.now.behind.now at.old a → IsState ⟦<B as Disk>⟧ pair.now.ahead.now from.old b → IsAhead a.database b.database pair.now.epoch → a.database.last ≡ pair.now.epoch → mark_between pair.now.behind.now pair.now.ahead.now ≤ pair.now.epoch
        → Ends a.database b.database pair.now.epoch fault) }
    ensures behind_kept { A.holds at.new ≡ A.holds at.old }
    ensures behind_moved { Moved ⟦<A as Disk>⟧ NoName NoName at.old at.new }
    ensures behind_cause { HasCause LinkFault.BehindDisk (A.faults at.old) (A.faults at.new) result }
    ensures ahead_kept { B.holds from.new ≡ B.holds from.old }
    ensures ahead_moved { Moved ⟦<B as Disk>⟧ NoName NoName from.old from.new }
    ensures ahead_cause { HasCause LinkFault.AheadDisk (B.faults from.old) (B.faults from.new) result }
{
    let mut out = Vec::new(alloc);
    for place in 0..pair.ahead.tables().len() {
        out.push(tell_one(alloc, pair, place, at, from)?)?;
    }
    Ok(out)
}
