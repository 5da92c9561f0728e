//! Laws of projections.

ghost use Rattle.std.specs.Prelude.{◌≡◌, ◌<◌, ◌^◌, ℕ, List};
ghost use Rattle.common_laws.specs.Maps.{Contents};
ghost use Rattle.col_value.specs.declared.row.Asked.{Asked};
ghost use Rattle.col_value.specs.declared.row.Stamped.{Stamped};
ghost use Rattle.catalog_types.specs.declared.catalogue.Catalogue.{Catalogue};
ghost use Rattle.catalog_types.specs.declared.catalogue.Projection.{Projection};
ghost use Rattle.catalog_types.specs.declared.catalogue.Table.{Table};
ghost use Rattle.catalog_types.specs.Parts.{IsProjection};
ghost use Rattle.row_history.specs.History.{Takes, Within};
ghost use Rattle.stored_rows.specs.Stored.{Projected, Stores, IsLoaded, IsMemoryAbove, with_rows};
ghost use Rattle.proj_store.specs.Sound.{IsLoadable};
ghost use Rattle.proj_store.specs.Reading.{HasVectors};
ghost use Rattle.proj_store.specs.Loaded.{Loaded};
ghost use Rattle.proj_store.specs.Marking.{Places, IsPrepared, CanMark, with_marks};

/// Each projection of a valid catalogue can be loaded.
pub fn valid_entries_load()
    ensures { (c : Catalogue) (t : Table) (p : Projection) → IsProjection c t p → c.next < 2 ^ 62 → IsLoadable p }
{}

/// A projection that was just loaded, or that stands for rows, keeps the delete vectors of the disk.
pub fn vectors_are_those_of_the_disk()
    ensures loaded { (m : Contents) (p : Projected) → IsLoaded m p → HasVectors m p }
    ensures stores { (m : Contents) (p : Projected) (rows : List Stamped) → Stores m p rows → HasVectors m p }
{}

/// A projection whose prepared places are marked has lost exactly what was wanted, where that was there.
pub fn wanted_rows_are_deleted()
    ensures { (m : Contents) (epoch : ℕ) (p : Projected) (wanted : List Asked) (ready : Places) (old : List Stamped) → IsPrepared m p wanted ready → Stores m p old → Within wanted old
        → (new : List Stamped) × Stores m (with_marks epoch ready p) new × Takes epoch wanted old new }
{}

/// After rows of a commit have come, the places that were prepared before can be marked still.
pub fn rows_may_come_before_marks()
    ensures { (p q : Loaded) (rows : List Stamped) (ready : Places) → CanMark ready p → q.stored ≡ with_rows rows p.stored → q.rooms ≡ p.rooms → CanMark ready q }
{}

/// Marks of a later epoch leave all that is in memory alone above an epoch.
pub fn later_marks_stay_above()
    ensures { (low epoch : ℕ) (p : Projected) (ready : Places) → IsMemoryAbove low p → low < epoch → IsMemoryAbove low (with_marks epoch ready p) }
{}
