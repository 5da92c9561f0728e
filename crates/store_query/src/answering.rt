//! The answer to a query.

ghost use Rattle.std.specs.Prelude.{◌≡◌, IfOk, IfErr, OnOk, IsErrOf};
ghost use Rattle.common_laws.specs.Causes.{HasCause};
ghost use Rattle.col_disk.specs.Moved.{Moved, NoName};
ghost use Rattle.db_model.specs.Database.{Database};
ghost use Rattle.query_laws.specs.Bounded.{IsBoundedQuery};
ghost use Rattle.sql_bound.specs.Outputs.{output, IsSumTooGreat};
ghost use Rattle.sql_bound.specs.Printed.{IsPrinted};
ghost use Rattle.store_query.specs.Counting.{Counts};
ghost use Rattle.store_query.specs.Faults.{BlamesRead, IsUnblamed};
ghost use Rattle.store_query.specs.Reading.{source_rows, CanRead};

use crate::fault::SelectFault;
use crate::sources::run_of;
use col_disk::Disk;
use col_value::WideRow;
use common_laws::Steps;
use query_run::printed;
use sql_bound::BoundQuery;
use sql_tree::At;
use std::alloc::Global;
use std::sync::ledger::Ledger;
use table_store::TableStore;
use txn_core::Session;

/// The rows that a query prints over the tables of a store, in their order: over what the session sees, or over what was committed up to
/// an epoch. `SumOutOfRange` comes exactly where in some group, also in one that HAVING drops, the magnitudes of the values of one SUM
/// add to more than 2^127 - 1; `Disk` only where the disk failed; `Damaged` names a file of a container that holds no rows, so never over a
/// store that stands for a database. Nothing is written. Each block that is read of a file is a step: no more than those of the columns that the
/// query uses, and of the epochs, that are in none of the bounds missed which the conditions set by constants.
pub fn select<D: Disk, L: Ledger>(
    alloc: Global,
    tables: &TableStore,
    changes: &Session,
    at: At,
    query: &BoundQuery,
    disk: &mut D,
    steps: &mut Steps<L>,
) -> Result<Vec<WideRow>, SelectFault>
    requires bounded { IsBoundedQuery query.now }
    ensures printed { IfOk result (λ v. (d : Database) → CanRead ⟦<D as Disk>⟧ tables.now disk.old changes.now at query.now d → IsPrinted query.now.order query.now.limit (output query.now (source_rows at d changes.now query.now)) v.items) }
    ensures in_range { OnOk result ((d : Database) → CanRead ⟦<D as Disk>⟧ tables.now disk.old changes.now at query.now d → IsSumTooGreat query.now (source_rows at d changes.now query.now) → ⊥) }
    ensures great { IsErrOf result SelectFault.SumOutOfRange → (d : Database) → CanRead ⟦<D as Disk>⟧ tables.now disk.old changes.now at query.now d → IsSumTooGreat query.now (source_rows at d changes.now query.now) }
    ensures unblamed { IfErr result (λ fault. (d : Database) → CanRead ⟦<D as Disk>⟧ tables.now disk.old changes.now at query.now d → IsUnblamed fault) }
    ensures blamed { IfErr result (BlamesRead tables.now.stores (D.holds disk.old)) }
    ensures steps { Counts (D.holds disk.old) tables.now query.now query.now.sources steps.old steps.new }
    ensures kept { D.holds disk.new ≡ D.holds disk.old }
    ensures moved { Moved ⟦<D as Disk>⟧ NoName NoName disk.old disk.new }
    ensures cause { HasCause SelectFault.Disk (D.faults disk.old) (D.faults disk.new) result }
{
    let Some((first, others)) = query.sources.as_slice().split_first() else {
        return match printed(alloc, query, &[]) {
            Ok(rows) => Ok(rows),
            Err(fault) => Err(SelectFault::from(fault)),
        };
    };
    let run = match run_of(
        alloc, tables, changes, at, query, *first, others, disk, steps,
    ) {
        Ok(run) => run,
        Err(fault) => return Err(SelectFault::from(fault)),
    };
    match run.finish(alloc, query) {
        Ok(rows) => Ok(rows),
        Err(fault) => Err(SelectFault::from(fault)),
    }
}
