//! Laws of what a container holds.

ghost use Rattle.std.specs.Prelude.{◌≡◌, ℕ, List};
ghost use Rattle.std.specs.FinMap.{get};
ghost use Rattle.common_laws.specs.Maps.{Contents};
ghost use Rattle.col_value.specs.declared.row.Asked.{Asked};
ghost use Rattle.catalog_types.specs.declared.catalogue.Container.{Container};
ghost use Rattle.ros_container.specs.Encodings.{Written};
ghost use Rattle.ros_container.specs.Files.{IsFileOf};
ghost use Rattle.ros_container.specs.Held.{HoldsContainer};

use col_file::one_column;

/// A container holds one list of rows.
pub fn one_container()
    ensures { (m : Contents) (written : List Written) (k : Container) (xs ys : List Asked) → HoldsContainer m written k xs → HoldsContainer m written k ys → xs ≡ ys }
{
    one_column();
}

/// A container holds its rows on where its files are as they were.
pub fn container_kept()
    ensures { (m n : Contents) (written : List Written) (k : Container) (rows : List Asked) → ((q : ℕ) → IsFileOf k.base k.stored q → get n q ≡ get m q) → HoldsContainer m written k rows → HoldsContainer n written k rows }
{}
