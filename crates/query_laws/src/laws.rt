//! Laws above the definitions, each as the contract of a call that does nothing.

ghost use Rattle.std.specs.Prelude.{List};
ghost use Rattle.col_value.specs.declared.value.Value.{Value};
ghost use Rattle.sql_bound.specs.declared.expr.Expr.{Expr};
ghost use Rattle.sql_bound.specs.declared.query.BoundQuery.{BoundQuery};
ghost use Rattle.query_laws.specs.Laws.{PrintsTheSame, FailsTheSame, IsBare, PrintsAll, NullIsNotKept};

/// What a query prints, and whether one of its sums passes what a result holds, doesn't depend on the order in which the rows
/// of its FROM items come.
pub fn order_of_rows_is_free()
    ensures printed { (q : BoundQuery) → PrintsTheSame q }
    ensures fault { (q : BoundQuery) → FailsTheSame q }
{}

/// A query without groups, windows, ON, WHERE and LIMIT prints every tuple of the product once.
pub fn bare_query_prints_all()
    ensures { (q : BoundQuery) → IsBare q → PrintsAll q }
{}

/// NULL joins nothing: a tuple on which a side of a kept comparison is NULL is not kept.
pub fn null_joins_nothing()
    ensures { (keep : List Expr) (row : List Value) → NullIsNotKept keep row }
{}
