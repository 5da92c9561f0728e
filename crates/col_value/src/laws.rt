//! Laws of the orders, each as the contract of a call that does nothing.
ghost use Rattle.std.specs.Prelude.{◌≡◌, ◌⊎◌, ℕ, List};
ghost use Rattle.std.specs.Cmp.{IsTotalOrder};
ghost use Rattle.std.specs.FinMap.{IsAntisymmetric};
ghost use Rattle.col_value.specs.Days.{IsDay, SaysDay, date_of, ten};
ghost use Rattle.col_value.specs.Listing.{HasOneListing};
ghost use Rattle.col_value.specs.Order.{value_cmp, row_cmp, wide_cmp, wide_row_cmp};

/// Any two values, and any two rows, stand in an order, and it goes on from one to the next.
pub fn orders_are_total()
    ensures value { IsTotalOrder value_cmp }
    ensures row { IsTotalOrder row_cmp }
    ensures wide { IsTotalOrder wide_cmp }
    ensures wide_row { IsTotalOrder wide_row_cmp }
{}

/// Only equal values, and only equal rows, tie.
pub fn orders_are_exact()
    ensures value { IsAntisymmetric value_cmp }
    ensures row { IsAntisymmetric row_cmp }
    ensures wide { IsAntisymmetric wide_cmp }
    ensures wide_row { IsAntisymmetric wide_row_cmp }
{}

/// The same rows, in whatever order they come, have one ascending list.
pub fn one_listing()
    ensures rows { HasOneListing row_cmp }
    ensures wide_rows { HasOneListing wide_row_cmp }
{}

/// 0001-01-01 is day 1, 1970-01-01 day 719163 and 9999-12-31 the last; two days have two texts,
/// and each text is that of a day or of none.
pub fn days_are_known()
    ensures first { date_of 1 ≡ (1, 1, 1) }
    ensures epoch { date_of 719163 ≡ (1970, 1, 1) }
    ensures last { date_of 3652059 ≡ (9999, 12, 31) }
    ensures decided { (text : List ℕ) → ((n : ℕ) × SaysDay text n) ⊎ ((n : ℕ) → SaysDay text n → ⊥) }
    ensures one_text { (n k : ℕ) → IsDay n → IsDay k → ten (date_of n) ≡ ten (date_of k) → n ≡ k }
{}
