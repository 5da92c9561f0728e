//! The same of a caller that counts no steps.

ghost use Rattle.std.specs.Prelude.{◌≡◌, ◌<◌, IfOk, IfErr, OnOk, IsErrOf};
ghost use Rattle.common_laws.specs.Causes.{HasCause};
ghost use Rattle.col_disk.specs.Moved.{Moved, NoName};
ghost use Rattle.db_model.specs.Database.{Database};
ghost use Rattle.query_laws.specs.Bounded.{IsBoundedQuery};
ghost use Rattle.sql_bound.specs.Outputs.{output, IsSumTooGreat};
ghost use Rattle.sql_bound.specs.Printed.{IsPrinted};
ghost use Rattle.store_query.specs.Faults.{BlamesRead, IsUnblamed};
ghost use Rattle.store_query.specs.Reading.{source_rows, CanRead};

use crate::answering;
use crate::fault::SelectFault;
use col_disk::Disk;
use col_value::WideRow;
use common_laws::Steps;
use sql_bound::BoundQuery;
use sql_tree::At;
use std::alloc::Global;
use std::marker::Brand;
use std::sync::ledger::{Blank, Ledger};
use table_store::TableStore;
use txn_core::Session;

/// The rows that a query prints, counted over a blank.
fn select_by<D: Disk, L: Ledger>(
    alloc: Global,
    tables: &TableStore,
    changes: &Session,
    at: At,
    query: &BoundQuery,
    disk: &mut D,
    blank: Blank,
) -> Result<Vec<WideRow>, SelectFault>
    requires name { blank.name ≡ L.name }
    requires parts { blank.parts ≡ L.parts }
    requires some { 0 < L.parts }
    requires bounded { IsBoundedQuery query.now }
    ensures printed { IfOk result (λ v. (d : Database) → CanRead ⟦<D as Disk>⟧ tables.now disk.old changes.now at query.now d → IsPrinted query.now.order query.now.limit (output query.now (source_rows at d changes.now query.now)) v.items) }
    ensures in_range { OnOk result ((d : Database) → CanRead ⟦<D as Disk>⟧ tables.now disk.old changes.now at query.now d → IsSumTooGreat query.now (source_rows at d changes.now query.now) → ⊥) }
    ensures great { IsErrOf result SelectFault.SumOutOfRange → (d : Database) → CanRead ⟦<D as Disk>⟧ tables.now disk.old changes.now at query.now d → IsSumTooGreat query.now (source_rows at d changes.now query.now) }
    ensures unblamed { IfErr result (λ fault. (d : Database) → CanRead ⟦<D as Disk>⟧ tables.now disk.old changes.now at query.now d → IsUnblamed fault) }
    ensures blamed { IfErr result (BlamesRead tables.now.stores (D.holds disk.old)) }
    ensures kept { D.holds disk.new ≡ D.holds disk.old }
    ensures moved { Moved ⟦<D as Disk>⟧ NoName NoName disk.old disk.new }
    ensures cause { HasCause SelectFault.Disk (D.faults disk.old) (D.faults disk.new) result }
{
    let mut steps = Steps::<L>::new(blank);
    answering::select(alloc, tables, changes, at, query, disk, &mut steps)
}

/// The rows that a query prints, as `store_query::select` answers them.
pub fn select<D: Disk>(
    alloc: Global,
    tables: &TableStore,
    changes: &Session,
    at: At,
    query: &BoundQuery,
    disk: &mut D,
) -> Result<Vec<WideRow>, SelectFault>
    requires bounded { IsBoundedQuery query.now }
    ensures printed { IfOk result (λ v. (d : Database) → CanRead ⟦<D as Disk>⟧ tables.now disk.old changes.now at query.now d → IsPrinted query.now.order query.now.limit (output query.now (source_rows at d changes.now query.now)) v.items) }
    ensures in_range { OnOk result ((d : Database) → CanRead ⟦<D as Disk>⟧ tables.now disk.old changes.now at query.now d → IsSumTooGreat query.now (source_rows at d changes.now query.now) → ⊥) }
    ensures great { IsErrOf result SelectFault.SumOutOfRange → (d : Database) → CanRead ⟦<D as Disk>⟧ tables.now disk.old changes.now at query.now d → IsSumTooGreat query.now (source_rows at d changes.now query.now) }
    ensures unblamed { IfErr result (λ fault. (d : Database) → CanRead ⟦<D as Disk>⟧ tables.now disk.old changes.now at query.now d → IsUnblamed fault) }
    ensures blamed { IfErr result (BlamesRead tables.now.stores (D.holds disk.old)) }
    ensures kept { D.holds disk.new ≡ D.holds disk.old }
    ensures moved { Moved ⟦<D as Disk>⟧ NoName NoName disk.old disk.new }
    ensures cause { HasCause SelectFault.Disk (D.faults disk.old) (D.faults disk.new) result }
{
    select_by::<D, Brand>(alloc, tables, changes, at, query, disk, Blank::new(1))
}
