//! Whether a projection's new entry keeps the rules.

ghost use Rattle.std.specs.Prelude.{◌≡◌, ◌≤◌, ◌<◌, ◌+◌, ◌^◌, ◌⊎◌, length, IsTrue, IfOk, IfSome, MatchOption, sum_by};
ghost use Rattle.std.specs.List.{All, Any};
ghost use Rattle.catalog_types.specs.Numbers.{file_count};
ghost use Rattle.catalog_types.specs.Parts.{IsContainer};
ghost use Rattle.catalog_laws.specs.Entries.{HasNumbersBelow, IsEntryAfter, KeepsContainers, KeepsNumbers, KeepsShape, StoresAsBefore};

use crate::among::are_among;
use crate::runs::are_drawn_once;
use catalog_types::{Catalogue, Container, Projection};
use std::alloc::{AllocError, Global};

fn has_rows(k: &Container, lge: u64) -> bool
    ensures { IsTrue result → ((1 ≤ k.now.rows) × (1 ≤ k.now.least_epoch) × (k.now.least_epoch ≤ k.now.greatest_epoch) × (k.now.greatest_epoch ≤ lge)) }
{
    1 <= k.rows
        && 1 <= k.least_epoch
        && k.least_epoch <= k.greatest_epoch
        && k.greatest_epoch <= lge
}

fn has_marks(k: &Container, lge: u64) -> bool
    ensures { IsTrue result → (MatchOption k.now.marks (k.now.greatest_mark ≡ 0) (λ _. 1 ≤ k.now.greatest_mark) × (k.now.greatest_mark ≤ lge)) }
{
    let marked = match k.marks {
        None => k.greatest_mark == 0,
        Some(_) => 1 <= k.greatest_mark,
    };
    marked && k.greatest_mark <= lge
}

fn has_files(k: &Container, next: u64, columns: usize) -> bool
    ensures { IsTrue result → ((1 ≤ k.now.base) × (k.now.base + file_count k.now.stored ≤ next) × (1 ≤ k.now.stored) × (k.now.stored ≤ columns)) }
{
    1 <= k.base
        && u128::from(k.base) + 2 * (u128::from(k.stored) + 1) <= u128::from(next)
        && 1 <= k.stored
        && k.stored <= columns as u64
}

fn has_vector(k: &Container, next: u64) -> bool
    ensures { IsTrue result → IfSome k.now.marks (λ m. (1 ≤ m) × (m < next)) }
{
    match k.marks {
        None => true,
        Some(m) => 1 <= m && m < next,
    }
}

fn is_container(k: &Container, next: u64, columns: usize, lge: u64) -> bool
    ensures { IsTrue result → IsContainer next columns lge k.now }
{
    has_rows(k, lge) && has_marks(k, lge) && has_files(k, next, columns) && has_vector(k, next)
}

fn stores_as(olds: &[Container], k: &Container) -> bool
    ensures { IsTrue result → Any (λ o. o.stored ≡ k.now.stored) olds.now }
{
    olds.iter().any(|o| o.stored == k.stored)
}

fn stores_as_before(columns: usize, olds: &[Container], k: &Container) -> bool
    ensures { IsTrue result → StoresAsBefore columns olds.now k.now }
{
    k.stored == columns as u64 || stores_as(olds, k)
}

fn are_containers(containers: &[Container], next: u64, columns: usize, lge: u64) -> bool
    ensures { IsTrue result → All (IsContainer next columns lge) containers.now }
{
    containers
        .iter()
        .all(|k| is_container(k, next, columns, lge))
}

fn store_as_before(columns: usize, olds: &[Container], news: &[Container]) -> bool
    ensures { IsTrue result → All (StoresAsBefore columns olds.now) news.now }
{
    news.iter().all(|k| stores_as_before(columns, olds, k))
}

/// Whether 4^level of the containers adds to at most `born`.
fn keeps_levels(containers: &[Container], born: u64) -> bool
    ensures { IsTrue result → sum_by (λ k. 4 ^ k.level) containers.now ≤ born }
{
    let mut left = born;
    for k in containers {
        if k.level > 31 {
            return false;
        }
        match left.checked_sub(4u64.pow(k.level)) {
            Some(rest) => left = rest,
            None => return false,
        }
    }
    true
}

fn keeps_containers(next: u64, old: &Projection, new: &Projection) -> bool
    ensures { IsTrue result → KeepsContainers next old.now new.now }
{
    let (containers, columns) = (new.containers.as_slice(), new.columns.as_slice().len());
    are_containers(containers, next, columns, new.lge)
        && store_as_before(columns, old.containers.as_slice(), containers)
        && keeps_levels(containers, new.born)
        && new.born < next
}

fn keeps_numbers(
    alloc: Global,
    first: u64,
    old: &Projection,
    new: &Projection,
) -> Result<bool, AllocError>
    ensures { IfOk result (λ keeps. IsTrue keeps → HasNumbersBelow first old.now → KeepsNumbers first old.now new.now) }
{
    let containers = new.containers.as_slice();
    if !are_among(first, old.containers.as_slice(), containers) {
        return Ok(false);
    }
    are_drawn_once(alloc, first, containers)
}

/// Whether another entry of a projection can stand in its place in the catalogue that comes next, with this last epoch and next number.
/// The new entry alone is looked at, in one pass over its containers; the numbers that were drawn for them are sorted.
pub fn is_entry_after(
    alloc: Global,
    c: &Catalogue,
    last: u64,
    next: u64,
    old: &Projection,
    new: &Projection,
) -> Result<bool, AllocError>
    requires shape { KeepsShape old.now new.now }
    requires numbers { HasNumbersBelow c.now.next old.now }
    ensures { IfOk result (λ is. IsTrue is → IsEntryAfter c.now last next old.now new.now) }
{
    if new.lge < c.ahm || last < new.lge {
        return Ok(false);
    }
    if !keeps_containers(next, old, new) {
        return Ok(false);
    }
    keeps_numbers(alloc, c.next, old, new)
}
