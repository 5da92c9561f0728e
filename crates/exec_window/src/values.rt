//! The values of a window.

ghost use Rattle.std.specs.Prelude.{◌≡◌, true, map, IfOk, OnOk, IsErrOf};
ghost use Rattle.std.specs.List.{All, enumerate_from};
ghost use Rattle.col_value.specs.Order.{IsRow};
ghost use Rattle.exec_group.specs.Accumulators.{is_bounded_aggregate};
ghost use Rattle.sql_bound.specs.Outputs.{window_value};
ghost use Rattle.exec_window.specs.Partitions.{HasGreatPartition};
ghost use Rattle.exec_window.specs.declared.fault.WindowFault.{WindowFault};

use crate::WindowFault;
use crate::settle::settled;
use crate::tuples::sorted;
use crate::walk::walk;
use col_value::{Row, Wide};
use sql_bound::{Aggregate, BoundWindow};
use std::alloc::Global;

/// The value of a window on each of the rows, in their order; over its frame it is the aggregate. `SumOutOfRange` comes exactly where in the
/// partition of some row the magnitudes of the values of a SUM add to more than 2^127 - 1.
pub fn window_values(
    alloc: Global,
    window: &BoundWindow,
    aggregate: &Aggregate,
    rows: &[Row],
) -> Result<Vec<Wide>, WindowFault>
    requires bounded { is_bounded_aggregate aggregate.now ≡ true }
    requires rows { All IsRow rows.now }
    ensures values { IfOk result (λ v. v.items ≡ map (λ t. window_value rows.now t (window.now, aggregate.now)) (enumerate_from 0 rows.now)) }
    ensures in_range { OnOk result (HasGreatPartition window.now aggregate.now rows.now → ⊥) }
    ensures great { IsErrOf result WindowFault.SumOutOfRange → HasGreatPartition window.now aggregate.now rows.now }
{
    let tuples = sorted(alloc, window, rows)?;
    match walk(alloc, window, aggregate, tuples.as_slice()) {
        Ok(steps) => Ok(settled(alloc, window.kind, rows, steps.as_slice())?),
        Err(fault) => Err(fault),
    }
}
