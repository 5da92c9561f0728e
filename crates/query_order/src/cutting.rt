//! Collected rows, cut back to those that can still be printed.

ghost use Rattle.std.specs.Prelude.{List, IfOk, IsTrue, ◌↔◌, ◌+◌, ◌*◌, ◌≤◌};
ghost use Rattle.col_value.specs.declared.wide.Wide.{Wide};
ghost use Rattle.query_order.specs.Enough.{IsEnough, AreFew};

use crate::printing::order_rows;
use col_value::WideRow;
use std::alloc::AllocError;

/// Whether rows are so many more than a limit that a sort of them pays.
fn is_far_over(rows: usize, count: u128) -> bool
    ensures { IsTrue result ↔ (2 * count + 4096 ≤ rows) }
{
    rows as u128 >= count.saturating_mul(2).saturating_add(4096)
}

/// Cuts collected rows back to the first of them, where there is a limit and there are many more rows than it.
#[tactic(auto, using(crate::proofs::Enough::enough_front))]
pub fn cut_back(
    rows: Vec<WideRow>,
    order: &[(usize, bool)],
    limit: Option<u128>,
) -> Result<Vec<WideRow>, AllocError>
    ensures enough { IfOk result (λ v. (all : List (List Wide)) → IsEnough order.now limit all rows.items → IsEnough order.now limit all v.items) }
    ensures few { IfOk result (λ v. AreFew limit v.items) }
{
    match limit {
        Some(count) if is_far_over(rows.len(), count) => order_rows(rows, order, limit),
        _ => Ok(rows),
    }
}
