//! The argument of an aggregate.

ghost use Rattle.std.specs.Prelude.{◌≡◌, true};
ghost use Rattle.col_value.specs.Order.{IsRow};
ghost use Rattle.expr_value.specs.Worths.{wide_of};
ghost use Rattle.exec_group.specs.Accumulators.{argument_in, is_bounded_aggregate};

use col_value::Value;
use expr_value::{Sight, Worth, value_of};
use sql_bound::{Aggregate, Expr};

/// The value of the aggregate's argument in the row; NULL where it has none.
pub fn argument_of<'a>(a: &'a Aggregate, row: &'a [Value]) -> Worth<'a>
    requires bounded { is_bounded_aggregate a.now ≡ true }
    requires row { IsRow row.now }
    ensures { wide_of result ≡ argument_in a.now.arg row.now }
{
    match &a.arg {
        Some(Expr::Col(i)) => Sight::of_row(row).column(*i),
        Some(arg) => value_of(arg, &Sight::of_row(row)),
        None => Worth::Null,
    }
}
