//! The rows of a load file.

ghost use Rattle.std.specs.Prelude.{◌≡◌, false, None, Some, IfErr, OnErr};
ghost use Rattle.std.specs.List.{All};
ghost use Rattle.common_laws.specs.Causes.{HasCause};
ghost use Rattle.col_disk.specs.declared.disk.StoreFault.TheVariants.{Memory as no_memory};
ghost use Rattle.col_value.specs.Order.{IsRow};
ghost use Rattle.db_model.specs.Database.{Table, table_named};
ghost use Rattle.db_model.specs.Events.{rows_loaded};
ghost use Rattle.db_model.specs.Refusals.{locked};
ghost use Rattle.db_model.specs.Sound.{RowFits};
ghost use Rattle.db_model.specs.State.{State};
ghost use Rattle.store_core.specs.Events.{Does};
ghost use Rattle.store_core.specs.Named.{NamesHeld};
ghost use Rattle.store_core.specs.Running.{unworked, IsState};
ghost use Rattle.col_disk.specs.Faults.{IsUnblamed as IsUnblamedStore};
ghost use Rattle.table_store.specs.Faults.{BlamesStored};

use super::Store;
use col_disk::{Disk, StoreFault};
use col_value::Row;
use state_laws::{commits_of_a_session_are_sound, pending_rows_are_sound};
use std::alloc::{AllocError, Global};

impl Store {
    /// COPY: rows join the current session's pending rows of the table of a name, and the session commits: they are there as one. Where it
    /// fails, the session is as it was.
    pub fn load<D: Disk>(
        &mut self,
        alloc: Global,
        name: &[u8],
        rows: Vec<Row>,
        disk: &mut D,
    ) -> Result<(), StoreFault>
        requires { All IsRow rows.items }
        ensures does { (state : State) (t : Table) → IsState ⟦<D as Disk>⟧ self.old disk.old state → table_named name.now state.database.tables ≡ Some t → All (RowFits t.columns) rows.items → locked state name.now false ≡ None
            → Does ⟦<D as Disk>⟧ no_memory self.old self.new disk.old disk.new result state (λ new. new ≡ rows_loaded name.now rows.items state) }
        ensures unblamed { IfErr result (λ fault. (state : State) → IsState ⟦<D as Disk>⟧ self.old disk.old state → IsUnblamedStore fault) }
        ensures blamed { IfErr result (BlamesStored self.old.seen.stores (D.holds disk.old)) }
        ensures named { IfErr result (NamesHeld ⟦<D as Disk>⟧ self.new disk.new) }
        ensures same { OnErr result (self.new ≡ unworked self.old) }
        ensures cause { HasCause StoreFault.Disk (D.faults disk.old) (D.faults disk.new) result }
    {
        pending_rows_are_sound();
        commits_of_a_session_are_sound();
        let mut session = match self.txns.session(self.current).with_rows(alloc, name, rows) {
            Ok(session) => session,
            Err(AllocError) => {
                self.mover.drop_work();
                return Err(StoreFault::Memory);
            }
        };
        if !session.has_changes() {
            self.txns.take(alloc, self.current);
            return Ok(());
        }
        match self.tables.commit(alloc, &mut session, disk) {
            Ok(()) => {}
            Err(fault) => {
                self.mover.drop_work();
                return Err(fault);
            }
        }
        self.txns.take(alloc, self.current);
        Ok(())
    }
}
