//! The ancient history mark.

ghost use Rattle.std.specs.Prelude.{◌≡◌, ◌≤◌, None, IfErr};
ghost use Rattle.common_laws.specs.Causes.{HasCause};
ghost use Rattle.db_model.specs.Loading.{Files as LoadFiles};
ghost use Rattle.db_model.specs.Refusals.{CallRefuses};
ghost use Rattle.db_model.specs.State.{State};
ghost use Rattle.sql_tree.specs.declared.statement.Function.{Function};
ghost use Rattle.sql_tree.specs.declared.statement.Statement.{Statement};
ghost use Rattle.store_core.specs.Named.{NamesHeld};
ghost use Rattle.store_core.specs.Running.{IsState};
ghost use Rattle.store_step.specs.Arms.{Answers};
ghost use Rattle.store_step.specs.Marks.{IsMarkOf};

use crate::answer::Answer;
use crate::answering::{on_disk, printed};
use col_disk::{Disk, StoreFault};
use folder_model::{every_image_reopens, last_good_is_reached};
use state_laws::{an_event_may_draw, marks_up_to_the_last_good_epoch_are_sound};
use statement_text::mark_text;
use std::alloc::{AllocError, Global};
use store_core::Store;

/// A mark that is no later than the last good epoch, as it is held.
fn held_mark(mark: u128, good: u64) -> u64
    ensures { mark ≤ good → result ≡ mark }
{
    mark.min(u128::from(good)) as u64
}

/// MAKE_AHM_NOW and SET_AHM_EPOCH that aren't refused, by the epoch that they set the ancient history mark to.
pub fn set_mark<D: Disk>(
    alloc: Global,
    store: &mut Store,
    mark: u128,
    disk: &mut D,
) -> Result<Answer, StoreFault>
    ensures answers { (files : LoadFiles) (state : State) (f : Function) → IsState ⟦<D as Disk>⟧ store.old disk.old state → IsMarkOf state f mark → CallRefuses state f None
        → Answers ⟦<D as Disk>⟧ files (Statement.Call f) store.new disk.old disk.new result state }
    ensures named { IfErr result (NamesHeld ⟦<D as Disk>⟧ store.new disk.new) }
    ensures cause { HasCause StoreFault.Disk (D.faults disk.old) (D.faults disk.new) result }
{
    every_image_reopens::<D>();
    last_good_is_reached();
    marks_up_to_the_last_good_epoch_are_sound();
    an_event_may_draw();
    let epoch = held_mark(mark, store.last_good());
    let text = match mark_text(alloc, epoch) {
        Ok(text) => text,
        Err(AllocError) => return Err(StoreFault::Memory),
    };
    on_disk(printed(text), store.set_mark(alloc, epoch, disk))
}
