//! The walk back: peers share what the last of them has, and each value is put where its row stands.

ghost use Rattle.std.specs.Prelude.{◌≡◌, IfOk, map, set};
ghost use Rattle.col_value.specs.declared.wide.Wide.TheVariants.{Null};
ghost use Rattle.exec_window.specs.Walks.{frame_of, shared_of, value_of_step, written};

use crate::walk::Step;
use col_value::{Row, Wide};
use sql_tree::WindowKind;
use std::alloc::{AllocError, Global};

/// The aggregate over a row's frame: what the peers behind it share, or what there is up to it.
fn frame_of(alloc: Global, step: &Step, shared: Option<Wide>) -> Result<Wide, AllocError>
    ensures { IfOk result (λ f. f ≡ frame_of step.now shared) }
{
    match shared {
        Some(frame) => Ok(frame),
        None => step.frame.copy(alloc),
    }
}

/// What a row shares with the one before it, if that is its peer.
fn shared_of(step: &Step, frame: Wide) -> Option<Wide>
    ensures { result ≡ shared_of step.now frame }
{
    if step.peer { Some(frame) } else { None }
}

fn value_of(alloc: Global, kind: WindowKind, step: &Step, frame: &Wide) -> Result<Wide, AllocError>
    ensures { IfOk result (λ v. v ≡ value_of_step kind step.now frame.now) }
{
    match kind {
        WindowKind::RowNumber => Ok(Wide::Int(i128::from(step.numbered) + 1)),
        WindowKind::Rank => Ok(Wide::Int(i128::from(step.before) + 1)),
        WindowKind::CountAll | WindowKind::Count | WindowKind::Sum => frame.copy(alloc),
    }
}

/// As many NULLs as there are rows.
fn nulls(alloc: Global, rows: &[Row]) -> Result<Vec<Wide>, AllocError>
    ensures { IfOk result (λ v. v.items ≡ map (λ r. Null) rows.now) }
{
    let mut out = Vec::with_capacity(alloc, rows.len())?;
    for _row in rows {
        out.push(Wide::Null)?;
    }
    Ok(out)
}

fn put(out: Vec<Wide>, place: usize, value: Wide) -> Vec<Wide>
    ensures { result.items ≡ set out.items place value }
{
    let mut out = out;
    if place < out.len() {
        out[place] = value;
    }
    out
}

#[tactic(auto, using(crate::proofs::Settling::written_last, crate::proofs::Settling::written_none))]
/// The value of a window of this kind on each of the rows, which a walk left so.
pub fn settled(
    alloc: Global,
    kind: WindowKind,
    rows: &[Row],
    steps: &[Step],
) -> Result<Vec<Wide>, AllocError>
    ensures { IfOk result (λ v. v.items ≡ written kind steps.now (map (λ r. Null) rows.now)) }
{
    let mut out = nulls(alloc, rows)?;
    let mut shared = None;
    let mut left = steps;
    while let Some((step, front)) = left.split_last() {
        let frame = frame_of(alloc, step, shared)?;
        out = put(out, step.place, value_of(alloc, kind, step, &frame)?);
        shared = shared_of(step, frame);
        left = front;
    }
    Ok(out)
}
