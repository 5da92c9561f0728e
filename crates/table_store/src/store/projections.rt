//! Projections that come and go.

ghost use Rattle.std.specs.Prelude.{◌≡◌, ◌≤◌, ◌<◌, true, map, length, IfOk, OnOk, OnErr, IsSomeAnd};
ghost use Rattle.std.specs.List.{All, slice_get};
ghost use Rattle.catalog_types.specs.Valid.{IsValid};
ghost use Rattle.common_laws.specs.Causes.{HasCause};
ghost use Rattle.col_disk.specs.declared.disk.DiskFault.TheVariants.{Memory};
ghost use Rattle.db_model.specs.Database.{Database};
ghost use Rattle.db_model.specs.Sound.{IsSoundDatabase};
ghost use Rattle.store_commit.specs.Seen.{Stands};
ghost use Rattle.store_commit.specs.Making.{Makes};
ghost use Rattle.table_store.specs.Creating.{bare, place_of};
ghost use Rattle.table_store.specs.Drawing.{DrawsOne};
ghost use Rattle.table_store.specs.Shaping.{RetainsNone, new_entry, new_shape, shaped_at, unshaped_at, with_projection_at};

use super::{TableStore, files_of, version_of};
use crate::moving::entry_copy;
use crate::next::{with_projection_at, without_projection_at};
use crate::shaping::{NewProjection, new_entry, place_among};
use catalog_types::Catalogue;
use col_disk::{Disk, DiskFault};
use proj_store::ProjStore;
use std::alloc::{AllocError, Global};
use store_commit::settle;

/// A new projection before it is committed: the catalogue with it, its place in its table, and its store.
#[derive(Drop)]
struct NewPart {
    catalogue: Catalogue,
    place: usize,
    store: ProjStore,
}

fn prepare_projection(
    alloc: Global,
    root: &Catalogue,
    last: u64,
    table: usize,
    projection: NewProjection,
) -> Result<NewPart, AllocError>
    requires table { table < length root.now.tables }
    requires valid { IsValid root.now }
    requires sort { All (λ i. i < length projection.columns) projection.sort }
    ensures place { IfOk result (λ r. IsSomeAnd (slice_get root.now.tables table) (λ t. (r.place ≡ place_of projection.name (map (λ p. p.name) t.projections)) × (r.place ≤ length t.projections))) }
    ensures catalogue { IfOk result (λ r. r.catalogue ≡ with_projection_at last table r.place (new_entry projection last) root.now) }
    ensures valid { IfOk result (λ r. IsValid r.catalogue) }
    ensures store { IfOk result (λ r. r.store.stored ≡ bare (new_entry projection last)) }
{
    let projections = root.tables.as_slice()[table].projections.as_slice();
    let place = place_among(projections, &projection.name);
    let entry = new_entry(alloc, projection, last);
    let store = ProjStore::bare(alloc, entry_copy(alloc, &entry)?);
    let catalogue = with_projection_at(alloc, root, last, table, place, entry)?;
    Ok(NewPart {
        catalogue,
        place,
        store,
    })
}

impl TableStore {
    /// A projection without rows joins those of the table at a place; it is there after a stop once this has answered Ok. One that is up
    /// to date is for a table that retains no row. What a catalogue can't have is answered as want of memory.
    pub fn create_projection<D: Disk>(
        &mut self,
        alloc: Global,
        table: usize,
        projection: NewProjection,
        disk: &mut D,
    ) -> Result<(), DiskFault>
        requires table { table < length self.old.catalogue.tables }
        requires sort { All (λ i. i < length projection.columns) projection.sort }
        ensures made { (d : Database) → Stands ⟦<D as Disk>⟧ self.old disk.old d → (projection.fresh ≡ true → RetainsNone table d) → IsSoundDatabase (shaped_at table (new_shape projection self.old.catalogue.last) d)
            → Makes ⟦<D as Disk>⟧ Memory self.old self.new disk.old disk.new result d (shaped_at table (new_shape projection self.old.catalogue.last) d) }
        ensures drawn { OnOk result (DrawsOne self.old.catalogue self.new.catalogue) }
        ensures same { OnErr result (self.new ≡ self.old) }
        ensures cause { HasCause DiskFault.Failed (D.faults disk.old) (D.faults disk.new) result }
    {
        let ready = match prepare_projection(alloc, &self.root, self.last, table, projection) {
            Ok(ready) => ready,
            Err(AllocError) => return Err(DiskFault::Memory),
        };
        let NewPart {
            catalogue,
            place,
            store,
        } = ready;
        match self.tables[table].insert(place, store) {
            Ok(()) => {}
            Err(AllocError) => return Err(DiskFault::Memory),
        }
        match settle(
            alloc,
            disk,
            version_of(&self.root),
            &[],
            self.root.next,
            &catalogue,
        ) {
            Ok(()) => {}
            Err(fault) => {
                self.tables[table].remove(place);
                return Err(fault);
            }
        }
        self.root = catalogue;
        Ok(())
    }

    /// The projection at a place of the table at a place goes; it is gone after a stop once this has answered Ok. What a catalogue can't
    /// lack is answered as want of memory.
    pub fn drop_projection<D: Disk>(
        &mut self,
        alloc: Global,
        table: usize,
        place: usize,
        disk: &mut D,
    ) -> Result<(), DiskFault>
        requires { IsSomeAnd (slice_get self.old.catalogue.tables table) (λ t. place < length t.projections) }
        ensures made { (d : Database) → Stands ⟦<D as Disk>⟧ self.old disk.old d → IsSoundDatabase (unshaped_at table place d) → Makes ⟦<D as Disk>⟧ Memory self.old self.new disk.old disk.new result d (unshaped_at table place d) }
        ensures drawn { OnOk result (DrawsOne self.old.catalogue self.new.catalogue) }
        ensures same { OnErr result (self.new ≡ self.old) }
        ensures cause { HasCause DiskFault.Failed (D.faults disk.old) (D.faults disk.new) result }
    {
        let catalogue = match without_projection_at(alloc, &self.root, self.last, table, place) {
            Ok(catalogue) => catalogue,
            Err(AllocError) => return Err(DiskFault::Memory),
        };
        let gone = files_of(alloc, &self.root, table);
        match settle(
            alloc,
            disk,
            version_of(&self.root),
            gone.as_slice(),
            self.root.next,
            &catalogue,
        ) {
            Ok(()) => {}
            Err(fault) => return Err(fault),
        }
        self.root = catalogue;
        self.tables[table].remove(place);
        Ok(())
    }
}
