//! Numbers that were drawn for an entry's files, and that none was drawn twice.

ghost use Rattle.std.specs.Prelude.{◌≡◌, ◌++◌, ◌∷◌, [], map, nat_le, IsTrue, IfOk, OnOk};
ghost use Rattle.std.specs.List.{filter, flat_map};
ghost use Rattle.std.specs.List.Sorted.{IsPermutation};
ghost use Rattle.catalog_types.specs.Lists.{Pairwise};
ghost use Rattle.catalog_types.specs.Numbers.{files, span_of, AreApart};
ghost use Rattle.catalog_laws.specs.Entries.{drawn_of, span_of_run};

use catalog_types::Container;
use std::alloc::{AllocError, Global};

/// The numbers from `first` on and below `end`.
#[derive(Clone, Copy, Debug)]
pub struct Run {
    pub first: u128,
    pub end: u128,
}

fn files(k: &Container) -> Run
    ensures { span_of_run result ≡ files k.now }
{
    let first = u128::from(k.base);
    Run {
        first,
        end: first + 2 * (u128::from(k.stored) + 1),
    }
}

fn vector(m: u64) -> Run
    ensures { span_of_run result ≡ span_of m }
{
    let first = u128::from(m);
    Run {
        first,
        end: first + 1,
    }
}

/// Adds numbers, if they were drawn from a number on.
fn add(out: &mut Vec<Run>, run: Run, first: u64) -> Result<(), AllocError>
    ensures { OnOk result (map span_of_run out.new.items ≡ map span_of_run out.old.items ++ filter (λ s. nat_le first s.first) (span_of_run run ∷ [])) }
{
    if u128::from(first) <= run.first {
        out.push(run)?;
    }
    Ok(())
}

fn add_drawn(out: &mut Vec<Run>, first: u64, k: &Container) -> Result<(), AllocError>
    ensures { OnOk result (map span_of_run out.new.items ≡ map span_of_run out.old.items ++ drawn_of first k.now) }
{
    add(out, files(k), first)?;
    match k.marks {
        Some(m) => add(out, vector(m), first)?,
        None => {}
    }
    Ok(())
}

fn drawn(alloc: Global, first: u64, containers: &[Container]) -> Result<Vec<Run>, AllocError>
    ensures { IfOk result (λ v. map span_of_run v.items ≡ flat_map (drawn_of first) containers.now) }
{
    let mut out = Vec::new(alloc);
    for k in containers {
        add_drawn(&mut out, first, k)?;
    }
    Ok(out)
}

fn in_order(runs: Vec<Run>) -> Result<Vec<Run>, AllocError>
    ensures { IfOk result (λ v. IsPermutation runs.items v.items) }
{
    let mut runs = runs;
    runs.sort_by(|a, b| a.first.cmp(&b.first))?;
    Ok(runs)
}

/// Whether each begins where those before it have ended.
fn are_apart(runs: &[Run]) -> bool
    ensures { IsTrue result → Pairwise AreApart (map span_of_run runs.now) }
{
    let mut low: u128 = 0;
    for run in runs {
        if run.first < low {
            return false;
        }
        low = low.max(run.end);
    }
    true
}

/// Whether no number that was drawn from a number on stands twice.
pub fn are_drawn_once(
    alloc: Global,
    first: u64,
    containers: &[Container],
) -> Result<bool, AllocError>
    ensures { IfOk result (λ once. IsTrue once → Pairwise AreApart (flat_map (drawn_of first) containers.now)) }
{
    let runs = in_order(drawn(alloc, first, containers)?)?;
    Ok(are_apart(runs.as_slice()))
}
