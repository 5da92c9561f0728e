//! A column that a table gets.

ghost use Rattle.std.specs.Prelude.{◌≡◌, ◌<◌, length, OnOk, OnErr};
ghost use Rattle.common_laws.specs.Causes.{HasCause};
ghost use Rattle.col_disk.specs.declared.disk.DiskFault.TheVariants.{Memory};
ghost use Rattle.db_model.specs.Database.{Database};
ghost use Rattle.db_model.specs.Sound.{IsSoundDatabase};
ghost use Rattle.store_commit.specs.Seen.{Stands};
ghost use Rattle.store_commit.specs.Making.{Makes};
ghost use Rattle.table_store.specs.Drawing.{DrawsOne};
ghost use Rattle.table_store.specs.Widening.{widened_at};

use super::{TableStore, version_of};
use crate::next::with_column_at;
use col_disk::{Disk, DiskFault};
use col_value::{Column, Value};
use std::alloc::{AllocError, Global};
use store_commit::settle;
use value_bytes::is_value;

impl TableStore {
    /// The table at a place has one column more, behind the others, with the default in each row at every epoch; it is there after a stop
    /// once this has answered Ok. No row is written. What a catalogue can't have is answered as want of memory.
    pub fn add_column<D: Disk>(
        &mut self,
        alloc: Global,
        table: usize,
        column: &Column,
        default: &Value,
        disk: &mut D,
    ) -> Result<(), DiskFault>
        requires { table < length self.old.catalogue.tables }
        ensures made { (d : Database) → Stands ⟦<D as Disk>⟧ self.old disk.old d → IsSoundDatabase (widened_at table column.now default.now d)
            → Makes ⟦<D as Disk>⟧ Memory self.old self.new disk.old disk.new result d (widened_at table column.now default.now d) }
        ensures drawn { OnOk result (DrawsOne self.old.catalogue self.new.catalogue) }
        ensures same { OnErr result (self.new ≡ self.old) }
        ensures cause { HasCause DiskFault.Failed (D.faults disk.old) (D.faults disk.new) result }
    {
        if !is_value(default) {
            return Err(DiskFault::Memory);
        }
        let catalogue = match with_column_at(alloc, &self.root, self.last, table, column, default) {
            Ok(catalogue) => catalogue,
            Err(AllocError) => return Err(DiskFault::Memory),
        };
        let columns = self.root.tables.as_slice()[table].columns.as_slice();
        let ready = match self.tables[table].prepare_column(alloc, columns, default) {
            Ok(ready) => ready,
            Err(AllocError) => return Err(DiskFault::Memory),
        };
        match settle(
            alloc,
            disk,
            version_of(&self.root),
            &[],
            self.root.next,
            &catalogue,
        ) {
            Ok(()) => {}
            Err(fault) => return Err(fault),
        }
        self.root = catalogue;
        self.tables[table].apply_column(ready);
        Ok(())
    }
}
