//! The laws, as the contracts of calls that do nothing.

ghost use Rattle.std.specs.Prelude.{◌≡◌, ◌≤◌, ◌++◌, ℕ, Option, List, length, map};
ghost use Rattle.std.specs.List.{All};
ghost use Rattle.common_laws.specs.Bags.{SameBag};
ghost use Rattle.col_value.specs.declared.row.Stamped.{Stamped};
ghost use Rattle.col_value.specs.declared.value.Value.{Value};
ghost use Rattle.col_value.specs.declared.wide.Wide.{Wide};
ghost use Rattle.col_value.specs.Order.{projected};
ghost use Rattle.row_history.specs.History.{on_columns, retained, visible};
ghost use Rattle.sql_bound.specs.declared.query.BoundQuery.{BoundQuery};
ghost use Rattle.sql_bound.specs.Outputs.{output, IsSumTooGreat};
ghost use Rattle.sql_bound.specs.Printed.{IsPrinted};
ghost use Rattle.query_cover.specs.Seen.{AreSeen, AreSeenFrom, ArePlaces, placed};

/// What a query prints, and whether one of its sums passes what a result holds, is decided by the columns that it uses, and not by the
/// order in which the rows come.
pub fn used_columns_decide()
    ensures printed { (q : BoundQuery) (seen rows : List (List (List Value))) (listed : List (List Wide)) → AreSeenFrom q 0 q.sources seen rows → IsPrinted q.order q.limit (output q seen) listed → IsPrinted q.order q.limit (output q rows) listed }
    ensures great { (q : BoundQuery) (seen rows : List (List (List Value))) → AreSeenFrom q 0 q.sources seen rows → IsSumTooGreat q seen → IsSumTooGreat q rows }
    ensures not_great { (q : BoundQuery) (seen rows : List (List (List Value))) → AreSeenFrom q 0 q.sources seen rows → IsSumTooGreat q rows → IsSumTooGreat q seen }
{}

/// A projection that has a table's rows from a mark on shows at each epoch from there on what the table shows, with its columns.
pub fn a_projection_shows_the_table()
    ensures { (ordinals : List ℕ) (mark epoch : ℕ) (stored rows : List Stamped) → mark ≤ epoch → SameBag (retained mark stored) (map (on_columns ordinals) (retained mark rows))
        → SameBag (visible epoch stored) (map (λ row. projected row ordinals) (visible epoch rows)) }
{}

/// Where a projection's rows are a table's rows with its columns, the rows that are made of them for a query are seen as the table's; and
/// rows of the table that are added to both stay so.
pub fn placed_rows_are_seen()
    ensures { (q : BoundQuery) (first columns : ℕ) (ordinals : List ℕ) (places : List (Option ℕ)) (shown rows more : List (List Value)) → ArePlaces q first columns ordinals places
        → All (λ row. length row ≡ columns) rows → All (λ row. length row ≡ columns) more → SameBag shown (map (λ row. projected row ordinals) rows)
        → AreSeen q first columns (map (placed places) shown ++ more) (rows ++ more) }
{}
