//! The rows that match.

ghost use Rattle.std.specs.Prelude.{ℕ, ◌≡◌, ◌+◌, ◌++◌, [], true, not, filter, length, map, List, Some, IfOk, IfErr};
ghost use Rattle.std.specs.List.{All};
ghost use Rattle.common_laws.specs.Causes.{HasCause};
ghost use Rattle.col_disk.specs.Moved.{Moved, NoName};
ghost use Rattle.col_value.specs.Order.{IsRow};
ghost use Rattle.sql_bound.specs.Bounds.{is_narrow};
ghost use Rattle.sql_bound.specs.Outputs.{is_kept};
ghost use Rattle.db_model.specs.Database.{Database};
ghost use Rattle.db_model.specs.State.{pending_deletes, pending_rows};
ghost use Rattle.col_disk.specs.Faults.{IsUnblamed};
ghost use Rattle.table_store.specs.Faults.{BlamesStored};
ghost use Rattle.row_matching.specs.Matching.{AreMatches, CanMatch};

use crate::keeping::{kept_rows, other_rows};
use crate::sifting::committed_rows;
use crate::sources::{Source, source_of};
use col_disk::{Disk, StoreFault};
use col_value::{Asked, Row};
use sql_bound::Expr;
use std::alloc::{AllocError, Global};
use stored_rows::one_list_of_rows;
use table_store::TableStore;
use txn_core::Session;

/// The rows of a table that match a condition: committed ones in any order, each with its insert epoch, and the session's pending ones.
#[derive(Drop)]
pub struct Matched {
    pub committed: Vec<Asked>,
    pub pending: Vec<Row>,
}

impl Matched {
    /// How many rows match. It takes no memory.
    pub fn count(&self) -> usize
        ensures { result ≡ length self.now.committed.items + length self.now.pending.items }
    {
        self.committed.len() + self.pending.len()
    }

    /// The rows themselves: those of the committed ones, and then the pending ones.
    pub fn rows(&self, alloc: Global) -> Result<Vec<Row>, AllocError>
        requires committed { All (λ a. IsRow a.row) self.now.committed.items }
        requires pending { All IsRow self.now.pending.items }
        ensures rows { IfOk result (λ v. v.items ≡ map (λ a. a.row) self.now.committed.items ++ self.now.pending.items) }
        ensures valid { IfOk result (λ v. All IsRow v.items) }
    {
        let mut out = Vec::with_capacity(alloc, self.count())?;
        for asked in self.committed.as_slice() {
            out.push(asked.row.copy(alloc)?)?;
        }
        for row in self.pending.as_slice() {
            out.push(row.copy(alloc)?)?;
        }
        Ok(out)
    }
}

/// The pending deletes of the table of a name.
fn pending_deletes<'a>(changes: &'a Session, name: &[u8]) -> &'a [Asked]
    ensures { result.now ≡ pending_deletes name.now changes.now }
{
    match changes.on(name) {
        Some(changes) => changes.deletes(),
        None => &[],
    }
}

/// The pending rows of the table of a name.
fn pending_rows<'a>(changes: &'a Session, name: &[u8]) -> &'a [Row]
    ensures rows { result.now ≡ pending_rows name.now changes.now }
    ensures valid { All IsRow result.now }
{
    match changes.on(name) {
        Some(changes) => changes.rows(),
        None => &[],
    }
}

/// The pending rows of the table of a name on which some condition isn't true: those that a DELETE and an UPDATE leave as they are.
pub fn rows_left(
    alloc: Global,
    changes: &Session,
    name: &[u8],
    keep: &[Expr],
) -> Result<Vec<Row>, AllocError>
    requires { All (λ e. is_narrow [] e ≡ true) keep.now }
    ensures left { IfOk result (λ v. v.items ≡ filter (λ row. not (is_kept keep.now row)) (pending_rows name.now changes.now)) }
    ensures valid { IfOk result (λ v. All IsRow v.items) }
{
    other_rows(alloc, keep, pending_rows(changes, name))
}

/// The rows of the table at a place that a session with these changes sees and on which all conditions are true. A file of a container is
/// blamed only where it holds no rows, so none where the store stands for a database. Nothing is written.
pub fn match_rows<D: Disk>(
    alloc: Global,
    tables: &TableStore,
    changes: &Session,
    table: usize,
    keep: &[Expr],
    disk: &mut D,
) -> Result<Matched, StoreFault>
    requires { All (λ e. is_narrow [] e ≡ true) keep.now }
    ensures matched { IfOk result (λ r. (d : Database) → CanMatch ⟦<D as Disk>⟧ tables.now disk.old changes.now d → AreMatches keep.now d changes.now table r.committed.items r.pending.items) }
    ensures valid { IfOk result (λ r. All (λ a. IsRow a.row) r.committed.items × All IsRow r.pending.items) }
    ensures unblamed { IfErr result (λ fault. (d : Database) → CanMatch ⟦<D as Disk>⟧ tables.now disk.old changes.now d → IsUnblamed fault) }
    ensures blamed { IfErr result (BlamesStored tables.now.stores (D.holds disk.old)) }
    ensures kept { D.holds disk.new ≡ D.holds disk.old }
    ensures moved { Moved ⟦<D as Disk>⟧ NoName NoName disk.old disk.new }
    ensures cause { HasCause StoreFault.Disk (D.faults disk.old) (D.faults disk.new) result }
{
    one_list_of_rows();
    let Some(entry) = tables.root().tables.as_slice().get(table) else {
        return Err(StoreFault::Memory);
    };
    let Some(parts) = tables.tables().get(table) else {
        return Err(StoreFault::Memory);
    };
    let parts = parts.as_slice();
    let source = match source_of(alloc, parts, entry.columns.as_slice().len()) {
        Ok(source) => source,
        Err(AllocError) => return Err(StoreFault::Memory),
    };
    let Source { place, places } = source;
    let Some(store) = parts.get(place) else {
        return Err(StoreFault::Memory);
    };
    let name = entry.name.as_slice();
    let gone = pending_deletes(changes, name);
    let committed = match committed_rows(alloc, store, tables.last(), places, keep, gone, disk) {
        Ok(committed) => committed,
        Err(fault) => return Err(fault),
    };
    match kept_rows(alloc, keep, pending_rows(changes, name)) {
        Ok(pending) => Ok(Matched { committed, pending }),
        Err(AllocError) => Err(StoreFault::Memory),
    }
}
