//! Laws of lanes.

ghost use Rattle.std.specs.Prelude.{◌≡◌, ℕ, ℤ, FitsSigned};
ghost use Rattle.std.specs.Int.{w64};
ghost use Rattle.std.specs.Ordering.{int_cmp, nat_cmp};
ghost use Rattle.col_value.specs.Order.{value_cmp};
ghost use Rattle.block_codec.specs.Held.{day_value, number_value};

/// The order of the numbers of a lane is that of the values for which they stand.
pub fn lanes_keep_order()
    ensures { (a b : ℤ) → FitsSigned w64 a → FitsSigned w64 b → value_cmp (number_value a) (number_value b) ≡ int_cmp a b }
{}

/// The order of the days of a lane is that of the values for which they stand.
pub fn day_lanes_keep_order()
    ensures { (a b : ℕ) → value_cmp (day_value a) (day_value b) ≡ nat_cmp a b }
{}
