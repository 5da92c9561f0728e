ghost use Rattle.std.specs.Prelude.{ℕ, ◌≡◌, Option, Some};
ghost use Rattle.common_laws.specs.Maps.{Contents};
ghost use Rattle.col_disk.specs.declared.disk.StoreFault.TheVariants.{Damaged};
ghost use Rattle.db_model.specs.Database.{Database};
ghost use Rattle.folder_model.specs.Reopening.{Reopens};
ghost use Rattle.store_opening.specs.Opening.{BlamesOpening};

/// Where a folder reopens to a database, its opening blames no file.
pub fn reopening_folders_are_unblamed()
    ensures { (holds : Option Contents) (m : Contents) (d : Database) (q : ℕ) → holds ≡ Some m → Reopens m d → BlamesOpening holds (Damaged q) → ⊥ }
{}
