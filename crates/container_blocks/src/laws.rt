//! Laws of blocks.

ghost use Rattle.std.specs.Prelude.{◌≡◌, ◌≤◌, ◌<◌, ◌+◌, ◌*◌, ◌++◌, ℕ, true, List, length, take, Some, IfSome};
ghost use Rattle.std.specs.List.{slice_get, list_all};
ghost use Rattle.common_laws.specs.Maps.{Contents};
ghost use Rattle.catalog_types.specs.declared.catalogue.Container.{Container};
ghost use Rattle.col_file.specs.Read.{is_between};
ghost use Rattle.col_value.specs.declared.row.Asked.{Asked};
ghost use Rattle.pos_index.specs.declared.index.PosIndex.{PosIndex};
ghost use Rattle.pos_index.specs.Index.{blocks};
ghost use Rattle.ros_container.specs.Encodings.{Written};
ghost use Rattle.ros_container.specs.Held.{HoldsContainer};
ghost use Rattle.ros_container.specs.Rows.{stored_values};
ghost use Rattle.container_blocks.specs.Blocks.{rows_in, IsIndexOf, HasIndex};

/// The rows of the blocks, one block after the other, are all rows.
pub fn blocks_are_all_rows()
    ensures next { (rows : List Asked) (b : ℕ) → take (1024 * (b + 1)) rows ≡ take (1024 * b) rows ++ rows_in b rows }
    ensures all { (rows : List Asked) → take (1024 * blocks (length rows)) rows ≡ rows }
{}

/// The values of a block lie from the least to the greatest that the index says.
pub fn values_lie_between()
    ensures { (m : Contents) (written : List Written) (k : Container) (i b : ℕ) (at : PosIndex) (rows : List Asked) → i ≤ length written → IsIndexOf k.rows at → HasIndex written k i at (Some m) → HoldsContainer m written k rows → b < blocks k.rows
        → IfSome (slice_get at.entries b) (λ e. list_all (is_between e) (stored_values (length written) i (rows_in b rows)) ≡ true) }
{}
