//! Laws of what a store stands for.

ghost use Rattle.std.specs.Prelude.{ℕ, ◌≡◌, ◌⊎◌, ◌<◌, ◌++◌, true, List, map};
ghost use Rattle.std.specs.List.{All};
ghost use Rattle.common_laws.specs.Maps.{Contents};
ghost use Rattle.col_disk.specs.Moved.{Moved, ImageOf, Leaves, NoName};
ghost use Rattle.col_value.specs.declared.value.Value.{Value};
ghost use Rattle.col_value.specs.declared.row.Asked.{Asked};
ghost use Rattle.row_history.specs.History.{inserted_at, mark_all, Within};
ghost use Rattle.catalog_types.specs.declared.catalogue.Table as kept;
ghost use Rattle.catalog_types.specs.declared.catalogue.Catalogue.{Catalogue};
ghost use Rattle.catalog_types.specs.Reached.{least_lge};
ghost use Rattle.catalog_root.specs.Crash.{RootNames, IsOld, IsReplaced, OldOrNew};
ghost use Rattle.catalog_root.specs.Quiet.{IsSpare, IsUseless};
ghost use Rattle.db_model.specs.Database.{Database, Table};
ghost use Rattle.db_model.specs.Epochs.{last_good, cut};
ghost use Rattle.db_model.specs.Sound.{IsSoundDatabase};
ghost use Rattle.stored_rows.specs.Stored.{Projected};
ghost use Rattle.folder_model.specs.Tables.{StandsForTable, AreDatabase};
ghost use Rattle.folder_model.specs.Reopening.{Reopens};
ghost use Rattle.folder_model.specs.Standing.{StandsFor};
ghost use Rattle.folder_model.specs.Changing.{inserted_into, AreDeletedFrom};

use col_disk::Disk;

/// Whatever a crash leaves of a disk over which a store stands for a database, the folder reopens to that database cut at its last good
/// epoch.
pub fn every_image_reopens<D: Disk>()
    ensures { (c : Catalogue) (stores : List (List Projected)) (disk : D) (d : Database)
        → StandsFor c stores (D.holds disk) (ImageOf ⟦<D as Disk>⟧ disk) d → (x : Contents) → ImageOf ⟦<D as Disk>⟧ disk x → Reopens x (cut (last_good d) d) }
{}

/// Whatever a crash leaves at any moment of a commit of a new catalogue, the folder reopens to the database of before or to the new one, each
/// cut at its last good epoch.
pub fn a_commit_reopens<D: Disk>()
    ensures { (c k : Catalogue) (stores others : List (List Projected)) (disk : D) (version : ℕ) (d e : Database)
        → (stands : StandsFor c stores (D.holds disk) (ImageOf ⟦<D as Disk>⟧ disk) d) → AreDatabase stands.files k others e → IsSoundDatabase e → version < k.next
        → (x : Contents) → OldOrNew stands.root version k (ImageOf ⟦<D as Disk>⟧ disk) stands.files x
        → Reopens x (cut (last_good d) d) ⊎ Reopens x (cut (last_good e) e) }
{}

/// The last good epoch of the database is the least that an up-to-date projection of the catalogue has reached.
pub fn last_good_is_reached()
    ensures { (m : Contents) (c : Catalogue) (stores : List (List Projected)) (d : Database) → AreDatabase m c stores d → last_good d ≡ least_lge c }
{}

/// A store stands for its database on while data files are written that its root doesn't list, and files removed that it has no use
/// for.
pub fn other_files_move<D: Disk>()
    ensures { (old new : D) (c : Catalogue) (stores : List (List Projected)) (d : Database)
        → (stands : StandsFor c stores (D.holds old) (ImageOf ⟦<D as Disk>⟧ old) d) → Moved ⟦<D as Disk>⟧ (IsSpare stands.root) (IsUseless stands.root) old new
        → StandsFor c stores (D.holds new) (ImageOf ⟦<D as Disk>⟧ new) d }
{}

/// Whatever a crash leaves while such files are written and removed, the folder reopens to the database cut at its last good epoch.
pub fn moving_files_reopen<D: Disk>()
    ensures { (old new : D) (c : Catalogue) (stores : List (List Projected)) (d : Database)
        → (stands : StandsFor c stores (D.holds old) (ImageOf ⟦<D as Disk>⟧ old) d) → Moved ⟦<D as Disk>⟧ (IsSpare stands.root) (IsUseless stands.root) old new
        → Leaves ⟦<D as Disk>⟧ (λ x. Reopens x (cut (last_good d) d)) old new }
{}

/// A store stands for its database on after a commit that was given up: each image opens as before, and but for the body and the gate of
/// the version it is one from before.
pub fn undone_commits_stand<D: Disk>()
    ensures { (old new : D) (version : ℕ) (c : Catalogue) (stores : List (List Projected)) (d : Database)
        → (stands : StandsFor c stores (D.holds old) (ImageOf ⟦<D as Disk>⟧ old) d) → Moved ⟦<D as Disk>⟧ (RootNames version) NoName old new
        → ((x : Contents) → ImageOf ⟦<D as Disk>⟧ new x → IsOld stands.root version (ImageOf ⟦<D as Disk>⟧ old) x) → StandsFor c stores (D.holds new) (ImageOf ⟦<D as Disk>⟧ new) d }
{}

/// A catalogue that is, with its stores, a sound database over the contents stands for it after its commit.
pub fn commits_stand<D: Disk>()
    ensures { (disk : D) (version : ℕ) (c : Catalogue) (stores : List (List Projected)) (m : Contents) (d : Database)
        → AreDatabase m c stores d → IsSoundDatabase d → version < c.next → IsReplaced (D.holds disk) (ImageOf ⟦<D as Disk>⟧ disk) version c m
        → StandsFor c stores (D.holds disk) (ImageOf ⟦<D as Disk>⟧ disk) d }
{}

/// Rows that a commit inserts join the table and each of its up-to-date projections, with its columns.
pub fn inserts_stand()
    ensures { (m : Contents) (mark epoch : ℕ) (t : kept.Table) (ps : List Projected) (u : Table) (new : List (List Value))
        → All (λ p. p.entry.fresh ≡ true → p.entry.lge < epoch) ps → StandsForTable m mark t ps u
        → StandsForTable m mark t (map (inserted_into epoch new) ps) (record u { rows = u.rows ++ map (inserted_at epoch) new }) }
{}

/// Rows that a commit deletes are deleted of the table and of each of its up-to-date projections, whichever of equal rows it marks.
pub fn deletes_stand()
    ensures { (m : Contents) (mark epoch : ℕ) (t : kept.Table) (old new : List Projected) (u : Table) (asked : List Asked)
        → mark < epoch → Within asked u.rows → AreDeletedFrom m epoch asked old new → StandsForTable m mark t old u
        → StandsForTable m mark t new (record u { rows = mark_all epoch asked u.rows }) }
{}
