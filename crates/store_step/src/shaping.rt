//! Statements by which projections and columns come and go.

ghost use Rattle.std.specs.Prelude.{◌≡◌, IfErr};
ghost use Rattle.common_laws.specs.Causes.{HasCause};
ghost use Rattle.db_model.specs.Loading.{Files as LoadFiles};
ghost use Rattle.db_model.specs.State.{State};
ghost use Rattle.sql_tree.specs.declared.statement.Statement.{Statement};
ghost use Rattle.statement_plan.specs.declared.plans.Plan.{Plan};
ghost use Rattle.statement_plan.specs.Planned.{IsPlanned};
ghost use Rattle.store_core.specs.Named.{NamesHeld};
ghost use Rattle.store_core.specs.Running.{frame_of, IsState};
ghost use Rattle.store_step.specs.Arms.{Answers};

use crate::answer::Answer;
use crate::answering::{on_disk, printed};
use change_binder::ProjectionShape;
use col_disk::{Disk, StoreFault};
use col_value::Value;
use folder_model::every_image_reopens;
use sql_tree::{AddColumn, NewProjection};
use state_laws::{
    a_new_column_is_sound, a_new_projection_is_sound, an_event_may_draw, projections_may_be_dropped,
};
use statement_text::{column_added_text, projection_created_text, projection_dropped_text};
use std::alloc::{AllocError, Global};
use store_core::{Store, frames_are_of_the_state, planned_projections_have_places};

/// CREATE PROJECTION that isn't refused, of the table at a place.
pub fn create_projection<D: Disk>(
    alloc: Global,
    store: &mut Store,
    projection: NewProjection,
    place: usize,
    shape: ProjectionShape,
    disk: &mut D,
) -> Result<Answer, StoreFault>
    requires { IsPlanned (frame_of store.old) (Statement.CreateProjection projection) (Plan.CreateProjection place shape) }
    ensures answers { (files : LoadFiles) (state : State) → IsState ⟦<D as Disk>⟧ store.old disk.old state
        → Answers ⟦<D as Disk>⟧ files (Statement.CreateProjection projection) store.new disk.old disk.new result state }
    ensures named { IfErr result (NamesHeld ⟦<D as Disk>⟧ store.new disk.new) }
    ensures cause { HasCause StoreFault.Disk (D.faults disk.old) (D.faults disk.new) result }
{
    every_image_reopens::<D>();
    frames_are_of_the_state::<D>();
    planned_projections_have_places();
    a_new_projection_is_sound();
    an_event_may_draw();
    let text = match projection_created_text(alloc) {
        Ok(text) => text,
        Err(AllocError) => return Err(StoreFault::Memory),
    };
    on_disk(
        printed(text),
        store.create_projection(alloc, place, projection.name, shape, disk),
    )
}

/// ALTER TABLE that isn't refused, of the table at a place.
pub fn add_column<D: Disk>(
    alloc: Global,
    store: &mut Store,
    add: &AddColumn,
    place: usize,
    default: &Value,
    disk: &mut D,
) -> Result<Answer, StoreFault>
    requires { IsPlanned (frame_of store.old) (Statement.AddColumn add.now) (Plan.AddColumn place default.now) }
    ensures answers { (files : LoadFiles) (state : State) → IsState ⟦<D as Disk>⟧ store.old disk.old state
        → Answers ⟦<D as Disk>⟧ files (Statement.AddColumn add.now) store.new disk.old disk.new result state }
    ensures named { IfErr result (NamesHeld ⟦<D as Disk>⟧ store.new disk.new) }
    ensures cause { HasCause StoreFault.Disk (D.faults disk.old) (D.faults disk.new) result }
{
    every_image_reopens::<D>();
    frames_are_of_the_state::<D>();
    a_new_column_is_sound();
    an_event_may_draw();
    let text = match column_added_text(alloc) {
        Ok(text) => text,
        Err(AllocError) => return Err(StoreFault::Memory),
    };
    on_disk(
        printed(text),
        store.add_column(alloc, place, &add.column, default, disk),
    )
}

/// DROP PROJECTION that isn't refused, of the one at a place of the table at a place.
pub fn drop_projection<D: Disk>(
    alloc: Global,
    store: &mut Store,
    name: &[u8],
    table: usize,
    place: usize,
    disk: &mut D,
) -> Result<Answer, StoreFault>
    requires { IsPlanned (frame_of store.old) (Statement.DropProjection name.now) (Plan.DropProjection table place) }
    ensures answers { (files : LoadFiles) (state : State) → IsState ⟦<D as Disk>⟧ store.old disk.old state
        → Answers ⟦<D as Disk>⟧ files (Statement.DropProjection name.now) store.new disk.old disk.new result state }
    ensures named { IfErr result (NamesHeld ⟦<D as Disk>⟧ store.new disk.new) }
    ensures cause { HasCause StoreFault.Disk (D.faults disk.old) (D.faults disk.new) result }
{
    every_image_reopens::<D>();
    frames_are_of_the_state::<D>();
    planned_projections_have_places();
    projections_may_be_dropped();
    an_event_may_draw();
    let text = match projection_dropped_text(alloc) {
        Ok(text) => text,
        Err(AllocError) => return Err(StoreFault::Memory),
    };
    on_disk(
        printed(text),
        store.drop_projection(alloc, name, table, place, disk),
    )
}
