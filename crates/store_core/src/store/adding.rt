//! Columns that are added to tables.

ghost use Rattle.std.specs.Prelude.{◌≡◌, ◌<◌, length, None, Some, OnErr};
ghost use Rattle.common_laws.specs.Causes.{HasCause};
ghost use Rattle.col_disk.specs.declared.disk.DiskFault.TheVariants.{Memory};
ghost use Rattle.sql_tree.specs.declared.statement.AddColumn.{AddColumn};
ghost use Rattle.sql_binding.specs.Additions.{default_value};
ghost use Rattle.db_model.specs.Events.{column_added};
ghost use Rattle.db_model.specs.Numbers.{IsDrawn};
ghost use Rattle.db_model.specs.Refusals.{column_added_refusal};
ghost use Rattle.db_model.specs.State.{State};
ghost use Rattle.statement_plan.specs.Places.{table_place};
ghost use Rattle.store_core.specs.Running.{unworked, IsState};
ghost use Rattle.store_core.specs.Events.{Does};

use super::Store;
use col_disk::{Disk, DiskFault};
use col_value::{Column, Value};
use state_laws::{a_new_column_is_sound, an_event_may_draw};
use std::alloc::Global;

impl Store {
    /// ALTER TABLE of the table at a place, which no session holds: it has one more column, with this default in each row; it is there
    /// after a stop once this has answered Ok.
    pub fn add_column<D: Disk>(
        &mut self,
        alloc: Global,
        table: usize,
        column: &Column,
        default: &Value,
        disk: &mut D,
    ) -> Result<(), DiskFault>
        requires { table < length self.old.seen.catalogue.tables }
        ensures does { (state : State) (a : AddColumn) → IsState ⟦<D as Disk>⟧ self.old disk.old state → column_added_refusal state a ≡ None → table_place a.table state.database.tables ≡ Some table → a.column ≡ column.now → default_value a ≡ default.now
            → Does ⟦<D as Disk>⟧ Memory self.old self.new disk.old disk.new result state (IsDrawn state (column_added a state)) }
        ensures same { OnErr result (self.new ≡ unworked self.old) }
        ensures cause { HasCause DiskFault.Failed (D.faults disk.old) (D.faults disk.new) result }
    {
        a_new_column_is_sound();
        an_event_may_draw();
        self.mover.drop_work();
        match self.tables.add_column(alloc, table, column, default, disk) {
            Ok(()) => {}
            Err(fault) => return Err(fault),
        }
        self.mover.drop_job();
        Ok(())
    }
}
