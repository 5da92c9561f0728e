//! The histories of a table in both stores.

ghost use Rattle.std.specs.Prelude.{◌≡◌, ◌≤◌, IfOk, IfErr, IsErrOf, IsSomeAnd};
ghost use Rattle.std.specs.List.{All, slice_get};
ghost use Rattle.common_laws.specs.Bags.{SameBag};
ghost use Rattle.common_laws.specs.Causes.{HasCause};
ghost use Rattle.col_disk.specs.Moved.{Moved, NoName};
ghost use Rattle.col_value.specs.Order.{IsRow};
ghost use Rattle.row_history.specs.History.{retained};
ghost use Rattle.db_model.specs.Database.{Database};
ghost use Rattle.store_commit.specs.Seen.{Stands};
ghost use Rattle.catch_files.specs.Parting.{IsShort};
ghost use Rattle.catch_rows.specs.Sharing.{ShareAt};

use crate::faults::{ahead_fault, behind_fault};
use catch_model::LinkFault;
use col_disk::Disk;
use col_value::Stamped;
use row_matching::table_history;
use std::alloc::Global;
use table_store::TableStore;

/// What a table tells behind and ahead, but for what is left out of both.
#[derive(Drop)]
pub struct Rests {
    pub behind: Vec<Stamped>,
    pub ahead: Vec<Stamped>,
}

fn history_behind<A: Disk>(
    alloc: Global,
    behind: &TableStore,
    table: usize,
    mark: u64,
    at: &mut A,
) -> Result<Vec<Stamped>, LinkFault>
    ensures found { IfOk result (λ v. (a : Database) → Stands ⟦<A as Disk>⟧ behind.now at.old a → a.ahm ≤ mark → IsSomeAnd (slice_get a.tables table) (λ t. SameBag v.items (retained mark t.rows))) }
    ensures short { IfErr result (λ fault. (a : Database) → Stands ⟦<A as Disk>⟧ behind.now at.old a → IsShort fault) }
    ensures own { IsErrOf result LinkFault.AheadDisk → ⊥ }
    ensures kept { A.holds at.new ≡ A.holds at.old }
    ensures moved { Moved ⟦<A as Disk>⟧ NoName NoName at.old at.new }
    ensures cause { HasCause LinkFault.BehindDisk (A.faults at.old) (A.faults at.new) result }
{
    match table_history(alloc, behind, table, mark, at) {
        Ok(rows) => Ok(rows),
        Err(fault) => Err(behind_fault(fault)),
    }
}

fn history_ahead<B: Disk>(
    alloc: Global,
    ahead: &TableStore,
    table: usize,
    mark: u64,
    from: &mut B,
) -> Result<Vec<Stamped>, LinkFault>
    ensures found { IfOk result (λ v. (b : Database) → Stands ⟦<B as Disk>⟧ ahead.now from.old b → b.ahm ≤ mark → IsSomeAnd (slice_get b.tables table) (λ t. SameBag v.items (retained mark t.rows))) }
    ensures valid { IfOk result (λ v. All (λ s. IsRow s.row) v.items) }
    ensures short { IfErr result (λ fault. (b : Database) → Stands ⟦<B as Disk>⟧ ahead.now from.old b → IsShort fault) }
    ensures own { IsErrOf result LinkFault.BehindDisk → ⊥ }
    ensures kept { B.holds from.new ≡ B.holds from.old }
    ensures moved { Moved ⟦<B as Disk>⟧ NoName NoName from.old from.new }
    ensures cause { HasCause LinkFault.AheadDisk (B.faults from.old) (B.faults from.new) result }
{
    match table_history(alloc, ahead, table, mark, from) {
        Ok(rows) => Ok(rows),
        Err(fault) => Err(ahead_fault(fault)),
    }
}

/// The rows of a table in both, of which none are left out.
pub fn whole<A: Disk, B: Disk>(
    alloc: Global,
    behind: &TableStore,
    at: &mut A,
    ahead: &TableStore,
    from: &mut B,
    table: usize,
    mark: u64,
) -> Result<Rests, LinkFault>
    ensures found { IfOk result (λ r. (a b : Database) → Stands ⟦<A as Disk>⟧ behind.now at.old a → Stands ⟦<B as Disk>⟧ ahead.now from.old b → ShareAt mark table r.behind.items r.ahead.items a b) }
    ensures valid { IfOk result (λ r. All (λ s. IsRow s.row) r.ahead.items) }
    ensures short { IfErr result (λ fault. (a b : Database) → Stands ⟦<A as Disk>⟧ behind.now at.old a → Stands ⟦<B as Disk>⟧ ahead.now from.old b → IsShort fault) }
    ensures behind_kept { A.holds at.new ≡ A.holds at.old }
    ensures behind_moved { Moved ⟦<A as Disk>⟧ NoName NoName at.old at.new }
    ensures behind_cause { HasCause LinkFault.BehindDisk (A.faults at.old) (A.faults at.new) result }
    ensures ahead_kept { B.holds from.new ≡ B.holds from.old }
    ensures ahead_moved { Moved ⟦<B as Disk>⟧ NoName NoName from.old from.new }
    ensures ahead_cause { HasCause LinkFault.AheadDisk (B.faults from.old) (B.faults from.new) result }
{
    let old = history_behind(alloc, behind, table, mark, at)?;
    let new = history_ahead(alloc, ahead, table, mark, from)?;
    Ok(Rests {
        behind: old,
        ahead: new,
    })
}
