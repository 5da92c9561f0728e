//! What a table tells in both stores, but for the containers that both hold in the same files.

ghost use Rattle.std.specs.Prelude.{◌≡◌, IfOk, IfErr, IsErrOf};
ghost use Rattle.std.specs.List.{All};
ghost use Rattle.common_laws.specs.Causes.{HasCause};
ghost use Rattle.col_disk.specs.Moved.{Moved, NoName};
ghost use Rattle.col_value.specs.Order.{IsRow};
ghost use Rattle.db_model.specs.Database.{Database};
ghost use Rattle.proj_store.specs.Sound.{IsLoadable};
ghost use Rattle.store_commit.specs.Seen.{Stands};
ghost use Rattle.catch_files.specs.Parting.{IsShort};
ghost use Rattle.catch_rows.specs.Sharing.{with_containers, AreRests, IsRestOf, ShareAt, ShortOver, ShortOverBoth};

use crate::faults::{ahead_fault, behind_fault};
use crate::held::rest_of;
use crate::histories::{Rests, whole};
use crate::pairs::{Pair, pair_of};
use catalog_types::{Container, Projection};
use catch_files::{Others, parted};
use catch_model::LinkFault;
use col_disk::Disk;
use col_value::Stamped;
use proj_store::vectors_are_those_of_the_disk;
use std::alloc::Global;
use stored_rows::{one_list_of_rows, other_files_may_change};
use table_store::TableStore;

fn rest_behind<A: Disk>(
    alloc: Global,
    entry: &Projection,
    containers: Vec<Container>,
    mark: u64,
    places: &[Option<usize>],
    at: &mut A,
) -> Result<Vec<Stamped>, LinkFault>
    requires { IsLoadable (with_containers containers.items entry.now) }
    ensures found { IfOk result (λ v. IsRestOf (A.holds at.old) mark places.now (with_containers containers.items entry.now) v.items) }
    ensures short { IfErr result (λ fault. ShortOver (A.holds at.old) (with_containers containers.items entry.now) fault) }
    ensures own { IsErrOf result LinkFault.AheadDisk → ⊥ }
    ensures kept { A.holds at.new ≡ A.holds at.old }
    ensures moved { Moved ⟦<A as Disk>⟧ NoName NoName at.old at.new }
    ensures cause { HasCause LinkFault.BehindDisk (A.faults at.old) (A.faults at.new) result }
{
    match rest_of(alloc, entry, containers, mark, places, at) {
        Ok(rows) => Ok(rows),
        Err(fault) => Err(behind_fault(fault)),
    }
}

fn rest_ahead<B: Disk>(
    alloc: Global,
    entry: &Projection,
    containers: Vec<Container>,
    mark: u64,
    places: &[Option<usize>],
    from: &mut B,
) -> Result<Vec<Stamped>, LinkFault>
    requires { IsLoadable (with_containers containers.items entry.now) }
    ensures found { IfOk result (λ v. IsRestOf (B.holds from.old) mark places.now (with_containers containers.items entry.now) v.items) }
    ensures valid { IfOk result (λ v. All (λ s. IsRow s.row) v.items) }
    ensures short { IfErr result (λ fault. ShortOver (B.holds from.old) (with_containers containers.items entry.now) fault) }
    ensures own { IsErrOf result LinkFault.BehindDisk → ⊥ }
    ensures kept { B.holds from.new ≡ B.holds from.old }
    ensures moved { Moved ⟦<B as Disk>⟧ NoName NoName from.old from.new }
    ensures cause { HasCause LinkFault.AheadDisk (B.faults from.old) (B.faults from.new) result }
{
    match rest_of(alloc, entry, containers, mark, places, from) {
        Ok(rows) => Ok(rows),
        Err(fault) => Err(ahead_fault(fault)),
    }
}

/// What two projections tell, but for their common containers.
fn rests_in<A: Disk, B: Disk>(
    alloc: Global,
    pair: &Pair<'_>,
    mark: u64,
    at: &mut A,
    from: &mut B,
) -> Result<Rests, LinkFault>
    ensures found { IfOk result (λ r. AreRests (A.holds at.old) (B.holds from.old) mark pair.now.places.items pair.now.first.now.stored pair.now.second.now.stored r.behind.items r.ahead.items) }
    ensures valid { IfOk result (λ r. All (λ s. IsRow s.row) r.ahead.items) }
    ensures short { IfErr result (λ fault. ShortOverBoth (A.holds at.old) (B.holds from.old) pair.now.first.now.stored.entry pair.now.second.now.stored.entry fault) }
    ensures behind_kept { A.holds at.new ≡ A.holds at.old }
    ensures behind_moved { Moved ⟦<A as Disk>⟧ NoName NoName at.old at.new }
    ensures behind_cause { HasCause LinkFault.BehindDisk (A.faults at.old) (A.faults at.new) result }
    ensures ahead_kept { B.holds from.new ≡ B.holds from.old }
    ensures ahead_moved { Moved ⟦<B as Disk>⟧ NoName NoName from.old from.new }
    ensures ahead_cause { HasCause LinkFault.AheadDisk (B.faults from.old) (B.faults from.new) result }
{
    let (first, second) = (pair.first.entry(), pair.second.entry());
    let places = pair.places.as_slice();
    let Others { behind, ahead } = parted(
        alloc,
        first.containers.as_slice(),
        second.containers.as_slice(),
        at,
        from,
    )?;
    let old = rest_behind(alloc, first, behind, mark, places, at)?;
    let new = rest_ahead(alloc, second, ahead, mark, places, from)?;
    Ok(Rests {
        behind: old,
        ahead: new,
    })
}

/// What the table at a place tells in both from a mark on, but for rows of containers that both list alike, with nothing of their projections
/// in memory alone, and whose files are the same on both disks. No file is blamed where the stores stand for databases. Nothing is written.
pub fn rests_of<A: Disk, B: Disk>(
    alloc: Global,
    behind: &TableStore,
    at: &mut A,
    ahead: &TableStore,
    from: &mut B,
    table: usize,
    mark: u64,
) -> Result<Rests, LinkFault>
    ensures found { IfOk result (λ r. (a b : Database) → Stands ⟦<A as Disk>⟧ behind.now at.old a → Stands ⟦<B as Disk>⟧ ahead.now from.old b → ShareAt mark table r.behind.items r.ahead.items a b) }
    ensures valid { IfOk result (λ r. All (λ s. IsRow s.row) r.ahead.items) }
    ensures short { IfErr result (λ fault. (a b : Database) → Stands ⟦<A as Disk>⟧ behind.now at.old a → Stands ⟦<B as Disk>⟧ ahead.now from.old b → IsShort fault) }
    ensures behind_kept { A.holds at.new ≡ A.holds at.old }
    ensures behind_moved { Moved ⟦<A as Disk>⟧ NoName NoName at.old at.new }
    ensures behind_cause { HasCause LinkFault.BehindDisk (A.faults at.old) (A.faults at.new) result }
    ensures ahead_kept { B.holds from.new ≡ B.holds from.old }
    ensures ahead_moved { Moved ⟦<B as Disk>⟧ NoName NoName from.old from.new }
    ensures ahead_cause { HasCause LinkFault.AheadDisk (B.faults from.old) (B.faults from.new) result }
{
    one_list_of_rows();
    other_files_may_change();
    vectors_are_those_of_the_disk();
    match pair_of(alloc, behind, ahead, table)? {
        Some(pair) => rests_in(alloc, &pair, mark, at, from),
        None => whole(alloc, behind, at, ahead, from, table, mark),
    }
}
