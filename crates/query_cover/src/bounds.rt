//! A law above the definitions, as the contract of a call that does nothing.

ghost use Rattle.std.specs.Prelude.{List};
ghost use Rattle.col_value.specs.declared.value.Value.{Value};
ghost use Rattle.col_value.specs.declared.wide.Wide.{Wide};
ghost use Rattle.sql_bound.specs.declared.query.BoundQuery.{BoundQuery};
ghost use Rattle.sql_bound.specs.Outputs.{output, IsSumTooGreat};
ghost use Rattle.sql_bound.specs.Printed.{IsPrinted};
ghost use Rattle.query_cover.specs.Enough.{AreEnoughFrom};

/// Rows of the FROM items on which no tuple is kept, whatever rows of the others stand before and behind them, change nothing in what a query
/// prints, nor in whether one of its sums passes what a result holds.
pub fn enough_rows_decide()
    ensures printed { (q : BoundQuery) (some rows : List (List (List Value))) (listed : List (List Wide)) → AreEnoughFrom q 0 q.sources some rows → IsPrinted q.order q.limit (output q some) listed → IsPrinted q.order q.limit (output q rows) listed }
    ensures great { (q : BoundQuery) (some rows : List (List (List Value))) → AreEnoughFrom q 0 q.sources some rows → IsSumTooGreat q some → IsSumTooGreat q rows }
    ensures not_great { (q : BoundQuery) (some rows : List (List (List Value))) → AreEnoughFrom q 0 q.sources some rows → IsSumTooGreat q rows → IsSumTooGreat q some }
{}
