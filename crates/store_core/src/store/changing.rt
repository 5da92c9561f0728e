//! The rows that a DELETE and an UPDATE change.

ghost use Rattle.std.specs.Prelude.{◌≡◌, [], true, not, filter, IfOk, IfErr, OnOk, OnErr};
ghost use Rattle.std.specs.List.{All};
ghost use Rattle.common_laws.specs.Causes.{HasCause};
ghost use Rattle.col_disk.specs.Moved.{Moved, NoName};
ghost use Rattle.col_value.specs.Order.{IsRow};
ghost use Rattle.sql_bound.specs.Bounds.{is_narrow};
ghost use Rattle.sql_bound.specs.Outputs.{is_kept};
ghost use Rattle.db_model.specs.State.{State, own_changes, pending_rows};
ghost use Rattle.col_disk.specs.Faults.{IsUnblamed};
ghost use Rattle.row_matching.specs.Matching.{AreMatches};
ghost use Rattle.table_store.specs.Faults.{BlamesStored};
ghost use Rattle.store_core.specs.Named.{NamesHeld};
ghost use Rattle.store_core.specs.Running.{IsState};
ghost use Rattle.store_core.specs.Sessions.{own_of, with_marked};

use super::Store;
use col_disk::{Disk, StoreFault};
use col_value::{Asked, Row};
use row_matching::{Matched, match_rows, rows_left};
use sql_bound::Expr;
use std::alloc::{AllocError, Global};

impl Store {
    /// The rows of the table at a place that the current session sees and on which all conditions are true. No file is blamed over a state.
    /// Nothing is written.
    pub fn matches<D: Disk>(
        &self,
        alloc: Global,
        table: usize,
        keep: &[Expr],
        disk: &mut D,
    ) -> Result<Matched, StoreFault>
        requires { All (λ e. is_narrow [] e ≡ true) keep.now }
        ensures matched { IfOk result (λ r. (state : State) → IsState ⟦<D as Disk>⟧ self.now disk.old state → AreMatches keep.now state.database (own_changes state) table r.committed.items r.pending.items) }
        ensures valid { IfOk result (λ r. All (λ a. IsRow a.row) r.committed.items × All IsRow r.pending.items) }
        ensures unblamed { IfErr result (λ fault. (state : State) → IsState ⟦<D as Disk>⟧ self.now disk.old state → IsUnblamed fault) }
        ensures blamed { IfErr result (BlamesStored self.now.seen.stores (D.holds disk.old)) }
        ensures named { IfErr result (NamesHeld ⟦<D as Disk>⟧ self.now disk.new) }
        ensures kept { D.holds disk.new ≡ D.holds disk.old }
        ensures moved { Moved ⟦<D as Disk>⟧ NoName NoName disk.old disk.new }
        ensures cause { HasCause StoreFault.Disk (D.faults disk.old) (D.faults disk.new) result }
    {
        match_rows(
            alloc,
            &self.tables,
            self.txns.session(self.current),
            table,
            keep,
            disk,
        )
    }

    /// The current session's pending rows of the table of a name on which some condition isn't true.
    pub fn rows_left(
        &self,
        alloc: Global,
        name: &[u8],
        keep: &[Expr],
    ) -> Result<Vec<Row>, AllocError>
        requires { All (λ e. is_narrow [] e ≡ true) keep.now }
        ensures left { IfOk result (λ v. v.items ≡ filter (λ row. not (is_kept keep.now row)) (pending_rows name.now (own_of self.now))) }
        ensures valid { IfOk result (λ v. All IsRow v.items) }
    {
        rows_left(alloc, self.txns.session(self.current), name, keep)
    }

    /// These are the current session's pending rows of the table of a name from now on, these committed rows are pending deletes beside those
    /// that there are, and the session holds the table in mode X. The disk isn't called.
    pub fn change_rows(
        &mut self,
        alloc: Global,
        name: &[u8],
        rows: Vec<Row>,
        deletes: Vec<Asked>,
    ) -> Result<(), AllocError>
        requires { All IsRow rows.items }
        ensures marked { OnOk result (self.new ≡ with_marked name.now rows.items deletes.items self.old) }
        ensures kept { OnErr result (self.new ≡ self.old) }
    {
        self.txns.mark(alloc, self.current, name, rows, deletes)
    }
}
