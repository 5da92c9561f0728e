//! The laws of the printed order, as contracts of calls that do nothing.
ghost use Rattle.std.specs.Prelude.{ℕ, Bool, List, Option};
ghost use Rattle.query_order.specs.Enough.{IsPrintedOfEnough};
ghost use Rattle.query_order.specs.OneList.{HasOnePrintedList};

/// The same rows, in whatever order they come, have one printed list.
pub fn one_printed_list()
    ensures { (order : List (ℕ × Bool)) (limit : Option ℕ) → HasOnePrintedList order limit }
{}

/// What is printed of rows that are enough is what is printed of all rows.
pub fn enough_is_printed()
    ensures { (order : List (ℕ × Bool)) (limit : Option ℕ) → IsPrintedOfEnough order limit }
{}
