//! The mover behind a statement, and the end of a script.

ghost use Rattle.std.specs.Prelude.{◌≡◌, IfErr, OnErr};
ghost use Rattle.common_laws.specs.Causes.{HasCause};
ghost use Rattle.db_model.specs.Loading.{Files as LoadFiles};
ghost use Rattle.db_model.specs.State.{State};
ghost use Rattle.sql_tree.specs.declared.statement.Function.{Function};
ghost use Rattle.sql_tree.specs.declared.statement.Statement.{Statement};
ghost use Rattle.store_core.specs.Named.{NamesHeld};
ghost use Rattle.store_core.specs.Running.{IsState};
ghost use Rattle.store_step.specs.Arms.{moved, Answers};
ghost use Rattle.store_step.specs.Steps.{Ends, MoverStepped};

use crate::answer::Answer;
use crate::answering::{in_moveout, in_store, printed, refused};
use col_disk::{Disk, StoreFault};
use folder_model::every_image_reopens;
use sql_tree::Refusal;
use statement_text::moveout_text;
use std::alloc::{AllocError, Global};
use step_laws::moves_keep_states_sound;
use store_core::{Store, all_rollbacks_stand};

/// What a moveout came to, whether it moved a projection or not.
fn moved(done: Result<bool, StoreFault>) -> Result<(), StoreFault>
    ensures { result ≡ moved done }
{
    match done {
        Ok(_) => Ok(()),
        Err(fault) => Err(fault),
    }
}

/// One step of the mover.
pub fn mover_step<D: Disk>(alloc: Global, store: &mut Store, disk: &mut D) -> Result<(), StoreFault>
    ensures moves { (state : State) → IsState ⟦<D as Disk>⟧ store.old disk.old state → MoverStepped ⟦<D as Disk>⟧ store.new disk.old disk.new result state }
    ensures named { IfErr result (NamesHeld ⟦<D as Disk>⟧ store.new disk.new) }
    ensures cause { HasCause StoreFault.Disk (D.faults disk.old) (D.faults disk.new) result }
{
    moves_keep_states_sound();
    store.step_mover(alloc, disk)
}

/// `\step`.
pub fn step_mover<D: Disk>(
    alloc: Global,
    store: &mut Store,
    disk: &mut D,
) -> Result<Answer, StoreFault>
    ensures answers { (files : LoadFiles) (state : State) → IsState ⟦<D as Disk>⟧ store.old disk.old state → Answers ⟦<D as Disk>⟧ files Statement.Step store.new disk.old disk.new result state }
    ensures named { IfErr result (NamesHeld ⟦<D as Disk>⟧ store.new disk.new) }
    ensures cause { HasCause StoreFault.Disk (D.faults disk.old) (D.faults disk.new) result }
{
    in_store(printed(Vec::new(alloc)), mover_step(alloc, store, disk))
}

/// DO_TM_TASK('moveout').
pub fn moveout<D: Disk>(
    alloc: Global,
    store: &mut Store,
    disk: &mut D,
) -> Result<Answer, StoreFault>
    ensures answers { (files : LoadFiles) (state : State) → IsState ⟦<D as Disk>⟧ store.old disk.old state
        → Answers ⟦<D as Disk>⟧ files (Statement.Call Function.Moveout) store.new disk.old disk.new result state }
    ensures named { IfErr result (NamesHeld ⟦<D as Disk>⟧ store.new disk.new) }
    ensures cause { HasCause StoreFault.Disk (D.faults disk.old) (D.faults disk.new) result }
{
    every_image_reopens::<D>();
    let text = match moveout_text(alloc) {
        Ok(text) => text,
        Err(AllocError) => return Err(StoreFault::Memory),
    };
    let stopped = match refused(alloc, Refusal::NumbersSpent) {
        Ok(stopped) => stopped,
        Err(AllocError) => return Err(StoreFault::Memory),
    };
    in_moveout(printed(text), stopped, store.move_all(alloc, disk))
}

/// The end of a script: what waits for COMMIT in any session is dropped, and all projections are moved out, up to a moveout that would
/// draw where the numbers of files are spent.
pub fn end<D: Disk>(alloc: Global, store: &mut Store, disk: &mut D) -> Result<(), StoreFault>
    ensures ends { (state : State) → IsState ⟦<D as Disk>⟧ store.old disk.old state → Ends ⟦<D as Disk>⟧ store.new disk.old disk.new result state }
    ensures named { IfErr result (NamesHeld ⟦<D as Disk>⟧ store.new disk.new) }
    ensures kept { OnErr result (store.new.seen ≡ store.old.seen) }
    ensures cause { HasCause StoreFault.Disk (D.faults disk.old) (D.faults disk.new) result }
{
    all_rollbacks_stand::<D>();
    store.roll_back_all(alloc);
    moved(store.move_all(alloc, disk))
}
