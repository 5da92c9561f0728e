//! The printed list of a query.

ghost use Rattle.std.specs.Prelude.{List, IfOk, OnOk, IsErrOf};
ghost use Rattle.std.specs.List.{All};
ghost use Rattle.col_value.specs.Order.{IsRow};
ghost use Rattle.col_value.specs.declared.value.Value.{Value};
ghost use Rattle.sql_bound.specs.Outputs.{output, IsSumTooGreat};
ghost use Rattle.sql_bound.specs.Printed.{IsPrinted};
ghost use Rattle.query_laws.specs.Bounded.{IsBoundedQuery};
ghost use Rattle.query_run.specs.declared.fault.QueryFault.{QueryFault};
ghost use Rattle.query_run.specs.Outputs.{HasCollected};

use crate::collected::Collected;
use crate::fault::QueryFault;
use crate::output::output;
use crate::walk::collected;
use col_value::{List, Row, WideRow};
use query_order::{enough_is_printed, order_rows};
use sql_bound::BoundQuery;
use std::alloc::Global;

/// The rows that a query prints over these rows of its FROM items, in their order. `SumOutOfRange` comes exactly where in some
/// group, also in one that HAVING drops, the magnitudes of the values of one SUM add to more than 2^127 - 1.
pub fn printed(
    alloc: Global,
    query: &BoundQuery,
    inputs: &[List<Row>],
) -> Result<Vec<WideRow>, QueryFault>
    requires bounded { IsBoundedQuery query.now }
    requires rows { All (All IsRow) inputs.now }
    ensures printed { IfOk result (λ v. IsPrinted query.now.order query.now.limit (output query.now inputs.now) v.items) }
    ensures in_range { OnOk result (IsSumTooGreat query.now inputs.now → ⊥) }
    ensures great { IsErrOf result QueryFault.SumOutOfRange → IsSumTooGreat query.now inputs.now }
{
    let collected = collected(alloc, query, inputs)?;
    printed_of(alloc, query, collected)
}

/// The printed list of what was collected.
pub fn printed_of(
    alloc: Global,
    query: &BoundQuery,
    collected: Collected,
) -> Result<Vec<WideRow>, QueryFault>
    requires bounded { IsBoundedQuery query.now }
    requires some { (inputs : List (List (List Value))) × HasCollected query.now inputs collected }
    ensures printed { IfOk result (λ v. (inputs : List (List (List Value))) → HasCollected query.now inputs collected → IsPrinted query.now.order query.now.limit (output query.now inputs) v.items) }
    ensures in_range { OnOk result ((inputs : List (List (List Value))) → HasCollected query.now inputs collected → IsSumTooGreat query.now inputs → ⊥) }
    ensures great { IsErrOf result QueryFault.SumOutOfRange → (inputs : List (List (List Value))) → HasCollected query.now inputs collected → IsSumTooGreat query.now inputs }
{
    enough_is_printed();
    match output(alloc, query, collected) {
        Ok(rows) => Ok(order_rows(rows, query.order.as_slice(), query.limit)?),
        Err(fault) => Err(fault),
    }
}
