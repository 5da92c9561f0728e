//! The ancient history mark.

ghost use Rattle.std.specs.Prelude.{◌≡◌, ◌≤◌, OnErr};
ghost use Rattle.common_laws.specs.Causes.{HasCause};
ghost use Rattle.col_disk.specs.declared.disk.DiskFault.TheVariants.{Memory};
ghost use Rattle.db_model.specs.Epochs.{last_good, rises};
ghost use Rattle.db_model.specs.Leaving.{MarkLeaves};
ghost use Rattle.db_model.specs.State.{State};
ghost use Rattle.store_core.specs.Events.{Does};
ghost use Rattle.store_core.specs.Running.{unworked, IsState};

use super::Store;
use col_disk::{Disk, DiskFault};
use state_laws::marks_up_to_the_last_good_epoch_are_sound;
use std::alloc::Global;

impl Store {
    /// The ancient history mark becomes an epoch that is no later than the last good one; it is there after a stop once this has answered Ok.
    /// Where it stands there or later, nothing is done.
    pub fn set_mark<D: Disk>(
        &mut self,
        alloc: Global,
        mark: u64,
        disk: &mut D,
    ) -> Result<(), DiskFault>
        ensures does { (state : State) → IsState ⟦<D as Disk>⟧ self.old disk.old state → mark ≤ last_good state.database
            → Does ⟦<D as Disk>⟧ Memory self.old self.new disk.old disk.new result state (MarkLeaves (rises mark state.database) mark state) }
        ensures same { OnErr result (self.new ≡ unworked self.old) }
        ensures cause { HasCause DiskFault.Failed (D.faults disk.old) (D.faults disk.new) result }
    {
        marks_up_to_the_last_good_epoch_are_sound();
        let now = self.mark();
        if mark <= now {
            return Ok(());
        }
        self.mover.drop_work();
        self.tables.raise_mark(alloc, mark, disk)
    }
}
