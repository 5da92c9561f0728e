//! Laws of cuts.

ghost use Rattle.std.specs.Prelude.{ℕ, ◌≡◌, ◌≤◌, false, List};
ghost use Rattle.common_laws.specs.Maps.{Contents};
ghost use Rattle.col_disk.specs.Moved.{Changed};
ghost use Rattle.catalog_types.specs.declared.catalogue.Catalogue.{Catalogue};
ghost use Rattle.catalog_types.specs.Valid.{IsValid};
ghost use Rattle.catalog_types.specs.Reached.{least_lge, is_past};
ghost use Rattle.catalog_root.specs.declared.found.Found.TheVariants.{Root};
ghost use Rattle.catalog_root.specs.Root.{data_file, Opens};
ghost use Rattle.catalog_root.specs.Quiet.{IsSpare, IsUseless};
ghost use Rattle.db_model.specs.Database.{Database};
ghost use Rattle.stored_rows.specs.Stored.{Projected};
ghost use Rattle.folder_model.specs.Tables.{AreDatabase};
ghost use Rattle.folder_model.specs.Reopening.{IsCutOf};
ghost use Rattle.cut_model.specs.Cut.{IsCutRoot};
ghost use Rattle.cut_model.specs.Loaded.{LoadedStores};

use del_vector::one_vector;

/// By the cut catalogue over the new files the folder reopens to the database to which it reopens by the old one over the old files.
pub fn a_cut_reopens()
    ensures { (m n : Contents) (c r : Catalogue) (d : Database) → IsCutRoot m n c r → c.ahm ≤ least_lge c → IsCutOf m c d → IsCutOf n r d }
{}

/// The epoch of a valid catalogue's cut lies between the ancient history mark and the last epoch.
pub fn a_valid_mark_is_reached()
    ensures mark { (c : Catalogue) → IsValid c → c.ahm ≤ least_lge c }
    ensures last { (c : Catalogue) → IsValid c → least_lge c ≤ c.last }
{}

/// The projections of the cut catalogue, read from the disk, are the database to which the folder reopens.
pub fn a_loaded_cut_is_the_database()
    ensures { (m n : Contents) (c r : Catalogue) (stores : List (List Projected)) (d : Database)
        → IsCutRoot m n c r → IsCutOf m c d → LoadedStores n r stores → AreDatabase n r stores d }
{
    one_vector();
}

/// A valid catalogue that goes past no epoch after that of its cut is its own cut.
pub fn nothing_later_needs_no_cut()
    ensures { (m : Contents) (c : Catalogue) → IsValid c → is_past c (least_lge c) ≡ false → IsCutRoot m m c c }
{}

/// The projections of a valid catalogue that needs no cut, read from the disk, are the database to which the folder reopens.
pub fn a_loaded_folder_is_the_database()
    ensures { (m : Contents) (c : Catalogue) (stores : List (List Projected)) (d : Database)
        → IsValid c → is_past c (least_lge c) ≡ false → IsCutOf m c d → LoadedStores m c stores → AreDatabase m c stores d }
{
    one_vector();
}

/// The folder opens to the same catalogue, and reopens to the same database, while data files are written that the catalogue doesn't list,
/// as those of the numbers that weren't drawn yet, and files removed that it has no use for.
pub fn other_files_stay()
    ensures opens { (m x : Contents) (v : ℕ) (c : Catalogue) → Changed (IsSpare (Root v c)) (IsUseless (Root v c)) m x → Opens m (Root v c) → Opens x (Root v c) }
    ensures is_cut { (m x : Contents) (v : ℕ) (c : Catalogue) (d : Database) → Changed (IsSpare (Root v c)) (IsUseless (Root v c)) m x → IsCutOf m c d → IsCutOf x c d }
    ensures undrawn { (v n : ℕ) (c : Catalogue) → IsValid c → c.next ≤ n → IsSpare (Root v c) (data_file n) }
{}
