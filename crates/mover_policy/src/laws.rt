//! Laws of moveouts and of other jobs.

ghost use Rattle.std.specs.Prelude.{ℕ, ◌≡◌, ◌≤◌, true, List, Some, IsSomeAnd};
ghost use Rattle.std.specs.List.{slice_get};
ghost use Rattle.common_laws.specs.Maps.{Contents};
ghost use Rattle.catalog_types.specs.declared.catalogue.Catalogue.{Catalogue};
ghost use Rattle.stored_rows.specs.Stored.{Projected};
ghost use Rattle.folder_model.specs.Tables.{AreDatabase};
ghost use Rattle.mover_policy.specs.First.{all_projections, behind_in};
ghost use Rattle.db_model.specs.Database.{Database, Shape};
ghost use Rattle.db_model.specs.Mover.{behind, reached_to, with_change, Rises};
ghost use Rattle.db_model.specs.Sound.{IsSoundDatabase};
ghost use Rattle.sound_laws.specs.Moves.{moved_at, reached_at};

/// In a sound database the moveout of the projection at a place of the table at a place is that of the projection of its name.
pub fn moveouts_go_by_names()
    ensures { (d : Database) (i j : ℕ) (s : Shape) → IsSoundDatabase d → IsSomeAnd (slice_get d.tables i) (λ t. slice_get t.shapes j ≡ Some s) → moved_at i j d ≡ with_change s.name (reached_to d.last) d }
{}

/// In a sound database each job on the projection at a place of the table at a place is one on the projection of its name; and where that is
/// up to date, the epoch up to which it is on disk rises.
pub fn jobs_go_by_names()
    ensures same { (d : Database) (epoch i j : ℕ) (s : Shape) → IsSoundDatabase d → IsSomeAnd (slice_get d.tables i) (λ t. slice_get t.shapes j ≡ Some s)
        → reached_at epoch i j d ≡ with_change s.name (reached_to epoch) d }
    ensures rises { (d : Database) (epoch i j : ℕ) (s : Shape) → IsSoundDatabase d → IsSomeAnd (slice_get d.tables i) (λ t. slice_get t.shapes j ≡ Some s)
        → s.fresh ≡ true → s.lge ≤ epoch → epoch ≤ d.last → Rises d (reached_at epoch i j d) }
{}

/// The projections of a database that are behind are those of the catalogue that stands for it, table after table.
pub fn a_catalogue_has_what_is_behind()
    ensures { (m : Contents) (c : Catalogue) (stores : List (List Projected)) (d : Database) → AreDatabase m c stores d → behind d ≡ behind_in c.last (all_projections c.tables) }
{}
