//! Laws of stored rows.

ghost use Rattle.std.specs.Prelude.{ℕ, ◌≡◌, List};
ghost use Rattle.std.specs.List.{All};
ghost use Rattle.common_laws.specs.Maps.{Contents};
ghost use Rattle.col_value.specs.declared.row.Stamped.{Stamped};
ghost use Rattle.catalog_types.specs.declared.catalogue.Container.{Container};
ghost use Rattle.catalog_types.specs.declared.catalogue.Projection.{Projection};
ghost use Rattle.row_history.specs.History.{cut_rows};
ghost use Rattle.del_vector.specs.declared.mark.Mark.{Mark};
ghost use Rattle.stored_rows.specs.Listed.{SameFiles, SameEntry};
ghost use Rattle.stored_rows.specs.Held.{HoldsVector, HoldsRows, Holds};
ghost use Rattle.stored_rows.specs.Stored.{Projected, Stores, IsMemoryAbove, IsLoaded};
ghost use Rattle.ros_container.specs.Encodings.{Written};

use del_vector::one_vector;
use ros_container::one_container;

/// Files hold one list of rows, and with what is in memory one list is stored.
pub fn one_list_of_rows()
    ensures vector { (m : Contents) (k : Container) (xs ys : List Mark) → HoldsVector m k xs → HoldsVector m k ys → xs ≡ ys }
    ensures held { (m : Contents) (written : List Written) (ks : List Container) (xs ys : List Stamped) → HoldsRows m written ks xs → HoldsRows m written ks ys → xs ≡ ys }
    ensures stored { (m : Contents) (p : Projected) (xs ys : List Stamped) → Stores m p xs → Stores m p ys → xs ≡ ys }
{
    one_vector();
    one_container();
}

/// The rows are held on where the listed files are as they were.
pub fn other_files_may_change()
    ensures vector { (m n : Contents) (k : Container) (marks : List Mark) → SameFiles m n k → HoldsVector m k marks → HoldsVector n k marks }
    ensures held { (m n : Contents) (p : Projection) (rows : List Stamped) → SameEntry m n p → Holds m p rows → Holds n p rows }
    ensures stored { (m n : Contents) (p : Projected) (rows : List Stamped) → SameEntry m n p.entry → Stores m p rows → Stores n p rows }
{}

/// A projection that was read from the disk stores exactly the rows of its files.
pub fn what_is_read_is_stored()
    ensures stored { (m : Contents) (p : Projected) (rows : List Stamped) → IsLoaded m p → Holds m p.entry rows → Stores m p rows }
    ensures held { (m : Contents) (p : Projected) (rows : List Stamped) → IsLoaded m p → Stores m p rows → Holds m p.entry rows }
{
    one_vector();
}

/// Cut at an epoch above which all is that stands in memory alone, a projection has the rows of its files.
pub fn a_cut_sees_no_memory()
    ensures { (m : Contents) (epoch : ℕ) (p : Projected) (rows : List Stamped) → IsMemoryAbove epoch p → Stores m p rows
        → (held : List Stamped) × Holds m p.entry held × (cut_rows epoch rows ≡ cut_rows epoch held) }
{}
