//! Laws of bounds.

ghost use Rattle.std.specs.Prelude.{◌≡◌, ◌<◌, ◌++◌, true, List, length};
ghost use Rattle.std.specs.List.{All};
ghost use Rattle.col_value.specs.declared.value.Value.{Value};
ghost use Rattle.row_bounds.specs.Bounds.{within};
ghost use Rattle.row_bounds.specs.declared.bound.Bound.{Bound};

/// The front of a row that has the columns of all bounds lies within them where the row does.
pub fn a_front_lies_within()
    ensures { (bounds : List Bound) (front rest : List Value) → All (λ b. b.column < length front) bounds → within bounds (front ++ rest) ≡ true → within bounds front ≡ true }
{}
