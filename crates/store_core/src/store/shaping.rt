//! Projections that come and go.

ghost use Rattle.std.specs.Prelude.{◌≡◌, ◌<◌, true, map, length, None, Some, List as Items, IfOk, OnErr, IsSomeAnd};
ghost use Rattle.std.specs.List.{All, list_any, slice_get};
ghost use Rattle.common_laws.specs.Causes.{HasCause};
ghost use Rattle.common_laws.specs.Maps.{Contents};
ghost use Rattle.col_disk.specs.declared.disk.DiskFault.TheVariants.{Memory};
ghost use Rattle.col_value.specs.declared.row.Stamped.{Stamped};
ghost use Rattle.row_history.specs.History.{retained};
ghost use Rattle.sql_tree.specs.declared.statement.NewProjection.{NewProjection as Asked};
ghost use Rattle.db_model.specs.State.{State};
ghost use Rattle.db_model.specs.Events.{is_empty_list, projection_created, projection_dropped};
ghost use Rattle.db_model.specs.Numbers.{IsDrawn};
ghost use Rattle.db_model.specs.Refusals.{projection_created_refusal, projection_dropped_refusal};
ghost use Rattle.folder_model.specs.Projections.{HasRows};
ghost use Rattle.statement_plan.specs.Places.{IsProjectionOf, projection_places};
ghost use Rattle.table_store.specs.Held.{projections_of};
ghost use Rattle.store_core.specs.Running.{unworked, IsState};
ghost use Rattle.store_core.specs.Events.{Does};
ghost use Rattle.store_core.specs.Shaping.{is_fresh, part_of};

use super::Store;
use catalog_types::ProjColumn;
use change_binder::ProjectionShape;
use col_disk::{Disk, DiskFault};
use col_value::{Encoding, List, Name};
use exec_scan::retains;
use proj_store::ProjStore;
use state_laws::{a_new_projection_is_sound, an_event_may_draw, projections_may_be_dropped};
use std::alloc::{AllocError, Global};
use table_store::NewProjection;

/// The columns of a new projection, as a catalogue has them.
fn parts_of(alloc: Global, columns: List<(usize, Encoding)>) -> Result<List<ProjColumn>, AllocError>
    ensures { IfOk result (λ v. v ≡ map part_of columns) }
{
    let parts = columns
        .into_vec()
        .into_iter()
        .map(|(ordinal, encoding)| ProjColumn {
            ordinal,
            encoding,
            default: None,
        })
        .collect(alloc)?;
    Ok(List::new(parts))
}

/// Whether a table, one of whose projections is up to date, retains no row from a mark on. The disk isn't called.
fn retains_none(alloc: Global, projections: &[ProjStore], mark: u64) -> Result<bool, AllocError>
    ensures { IfOk result (λ b. (m : Contents) (rows : Items Stamped) → All (HasRows m mark rows) (projections_of projections.now) → list_any is_fresh (projections_of projections.now) ≡ true → b ≡ is_empty_list (retained mark rows)) }
{
    for projection in projections {
        if projection.entry().fresh {
            return Ok(!retains(alloc, projection, mark)?);
        }
    }
    Ok(false)
}

impl Store {
    /// CREATE PROJECTION of this name and shape, of the table at a place; it is there after a stop once this has answered Ok. It is up to
    /// date at once where the table retains no row.
    pub fn create_projection<D: Disk>(
        &mut self,
        alloc: Global,
        table: usize,
        name: Name,
        shape: ProjectionShape,
        disk: &mut D,
    ) -> Result<(), DiskFault>
        requires table { table < length self.old.seen.catalogue.tables }
        requires sort { All (λ i. i < length shape.columns) shape.sort }
        ensures does { (state : State) (p : Asked) → IsState ⟦<D as Disk>⟧ self.old disk.old state → projection_created_refusal state p ≡ None → p.name ≡ name → IsProjectionOf state p table shape
            → Does ⟦<D as Disk>⟧ Memory self.old self.new disk.old disk.new result state (IsDrawn state (projection_created p state)) }
        ensures same { OnErr result (self.new ≡ unworked self.old) }
        ensures cause { HasCause DiskFault.Failed (D.faults disk.old) (D.faults disk.new) result }
    {
        a_new_projection_is_sound();
        an_event_may_draw();
        self.mover.drop_work();
        let mark = self.tables.root().ahm;
        let parts = self.tables.tables()[table].as_slice();
        let fresh = match retains_none(alloc, parts, mark) {
            Ok(fresh) => fresh,
            Err(AllocError) => return Err(DiskFault::Memory),
        };
        let ProjectionShape { columns, sort } = shape;
        let columns = match parts_of(alloc, columns) {
            Ok(columns) => columns,
            Err(AllocError) => return Err(DiskFault::Memory),
        };
        let projection = NewProjection {
            name,
            columns,
            sort,
            fresh,
        };
        self.tables
            .create_projection(alloc, table, projection, disk)
    }

    /// DROP PROJECTION of the one of this name, at a place of the table at a place; it is gone after a stop once this has answered Ok.
    pub fn drop_projection<D: Disk>(
        &mut self,
        alloc: Global,
        name: &[u8],
        table: usize,
        place: usize,
        disk: &mut D,
    ) -> Result<(), DiskFault>
        requires { IsSomeAnd (slice_get self.old.seen.catalogue.tables table) (λ t. place < length t.projections) }
        ensures does { (state : State) → IsState ⟦<D as Disk>⟧ self.old disk.old state → projection_dropped_refusal state name.now ≡ None → projection_places name.now state.database.tables ≡ Some (table, place)
            → Does ⟦<D as Disk>⟧ Memory self.old self.new disk.old disk.new result state (IsDrawn state (projection_dropped name.now state)) }
        ensures same { OnErr result (self.new ≡ unworked self.old) }
        ensures cause { HasCause DiskFault.Failed (D.faults disk.old) (D.faults disk.new) result }
    {
        projections_may_be_dropped();
        an_event_may_draw();
        self.mover.drop_work();
        let asked = match self.mover.asked_but(alloc, name) {
            Ok(asked) => asked,
            Err(AllocError) => return Err(DiskFault::Memory),
        };
        match self.tables.drop_projection(alloc, table, place, disk) {
            Ok(()) => {}
            Err(fault) => return Err(fault),
        }
        self.mover.ask(asked);
        self.mover.drop_job();
        Ok(())
    }
}
