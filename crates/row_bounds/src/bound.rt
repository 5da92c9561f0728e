//! A bound, and what misses it.

ghost use Rattle.std.specs.Prelude.{◌≡◌, true, false, IsTrue};
ghost use Rattle.std.specs.Option.{option_map_or};
ghost use Rattle.std.specs.Ordering.{is_le, is_lt};
ghost use Rattle.col_value.specs.Order.{value_cmp};
ghost use Rattle.col_value.specs.declared.value.Value.{Value as Item};
ghost use Rattle.row_bounds.specs.Bounds.{lies_in, misses};

use col_value::Value;

/// From which value to which one a column's values have to lie; both ends are among them.
#[derive(Debug, Drop)]
pub struct Bound {
    pub column: usize,
    pub least: Option<Value>,
    pub greatest: Option<Value>,
}

impl Bound {
    /// Whether no value from the least to the greatest of some values lies within the bound.
    pub fn misses(&self, least: &Value, greatest: &Value) -> bool
        ensures out { IsTrue result → (v : Item) → is_le (value_cmp least.now v) ≡ true → is_le (value_cmp v greatest.now) ≡ true → lies_in self.now v ≡ false }
        ensures ends { result ≡ misses self.now least.now greatest.now }
    {
        begins_behind(&self.least, greatest) || ends_before(&self.greatest, least)
    }
}

/// Whether a bound with this least value begins behind `greatest`.
fn begins_behind(begin: &Option<Value>, greatest: &Value) -> bool
    ensures out { IsTrue result → (v : Item) → is_le (value_cmp v greatest.now) ≡ true → option_map_or (λ least. is_le (value_cmp least v)) begin.now true ≡ false }
    ensures ends { result ≡ option_map_or (λ least. is_lt (value_cmp greatest.now least)) begin.now false }
{
    match begin {
        Some(begin) => greatest.order(begin).is_lt(),
        None => false,
    }
}

/// Whether a bound with this greatest value ends before `least`.
fn ends_before(end: &Option<Value>, least: &Value) -> bool
    ensures out { IsTrue result → (v : Item) → is_le (value_cmp least.now v) ≡ true → option_map_or (λ greatest. is_le (value_cmp v greatest)) end.now true ≡ false }
    ensures ends { result ≡ option_map_or (λ greatest. is_lt (value_cmp greatest least.now)) end.now false }
{
    match end {
        Some(end) => end.order(least).is_lt(),
        None => false,
    }
}
