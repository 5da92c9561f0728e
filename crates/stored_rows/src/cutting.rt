//! Laws of earlier rows.

ghost use Rattle.std.specs.Prelude.{ℕ, ◌≡◌, List};
ghost use Rattle.std.specs.List.{All};
ghost use Rattle.common_laws.specs.Maps.{Contents};
ghost use Rattle.col_value.specs.declared.row.Stamped.{Stamped};
ghost use Rattle.row_history.specs.History.{cut_rows};
ghost use Rattle.catalog_types.specs.declared.catalogue.Projection.{Projection};
ghost use Rattle.stored_rows.specs.Held.{Holds};
ghost use Rattle.stored_rows.specs.Early.{IsUpTo, EndsBy};

/// A cut at an epoch leaves rows as they are of which nothing is later, and so the rows of containers that have nothing later.
pub fn a_cut_leaves_earlier_rows()
    ensures rows { (epoch : ℕ) (rows : List Stamped) → All (IsUpTo epoch) rows → cut_rows epoch rows ≡ rows }
    ensures held { (m : Contents) (epoch : ℕ) (p : Projection) (rows : List Stamped) → All (EndsBy epoch) p.containers → Holds m p rows → cut_rows epoch rows ≡ rows }
{}

/// Of what a cut leaves nothing is later, so that cutting again changes nothing.
pub fn a_cut_is_made_once()
    ensures left { (epoch : ℕ) (rows : List Stamped) → All (IsUpTo epoch) (cut_rows epoch rows) }
    ensures again { (epoch : ℕ) (rows : List Stamped) → cut_rows epoch (cut_rows epoch rows) ≡ cut_rows epoch rows }
{}
