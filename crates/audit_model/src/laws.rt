//! Laws of the verdict.

ghost use Rattle.std.specs.Prelude.{ℕ, ◌≡◌, ◌↔◌};
ghost use Rattle.common_laws.specs.Maps.{Contents};
ghost use Rattle.catalog_types.specs.declared.catalogue.Catalogue.{Catalogue};
ghost use Rattle.catalog_root.specs.Root.{IsRoot};
ghost use Rattle.db_model.specs.Database.{Database};
ghost use Rattle.folder_model.specs.Reopening.{Reopens};
ghost use Rattle.audit_model.specs.Verdicts.{PassesAudit, IsVerdict, IsYes};
ghost use Rattle.audit_model.specs.declared.verdict.Verdict.{Verdict as AVerdict};

use stored_rows::one_list_of_rows;

/// The folder of a catalogue passes exactly where it reopens to some database.
pub fn a_folder_passes_where_it_reopens()
    ensures { (m : Contents) (v : ℕ) (c : Catalogue) → IsRoot m v c → PassesAudit m c ↔ ((d : Database) × Reopens m d) }
{
    one_list_of_rows();
}

/// The verdict is Yes exactly where the folder reopens to some database, with its epoch and its mark.
pub fn yes_is_said_where_a_folder_reopens()
    ensures reopens { (m : Contents) (verdict : AVerdict) (last ahm : ℕ) → IsVerdict m verdict → IsYes last ahm verdict → (d : Database) × Reopens m d × (d.last ≡ last) × (d.ahm ≡ ahm) }
    ensures yes { (m : Contents) (verdict : AVerdict) (d : Database) → IsVerdict m verdict → Reopens m d → IsYes d.last d.ahm verdict }
{
    one_list_of_rows();
}
