//! Which merge comes next, and which projection of a table is refreshed next.

ghost use Rattle.std.specs.Prelude.{◌≡◌, ◌++◌, ℕ, true, false, not, length, filter, List, MatchOption, option_and_then, position, IsSomeAnd};
ghost use Rattle.std.specs.Bool.{OnTrue, OnFalse};
ghost use Rattle.std.specs.List.{slice_get};
ghost use Rattle.catalog_types.specs.declared.catalogue.Projection.{Projection};
ghost use Rattle.mover_policy.specs.First.{all_projections, projection_at};
ghost use Rattle.mover_policy.specs.Merging.{comes_first, has_four, is_named_first, is_of_level, IsBest, IsDue, IsLowest, IsNext, NoLevel};

use crate::first::{Place, projection_at};
use catalog_types::{Container, Projection, Table};

// A container stands for four times as many moveouts as one a level below, so none is of this level.
const LEVELS: u32 = 32;

/// A merge: the projection at a place, and the level of which four containers give way to one.
#[derive(Clone, Copy, Debug)]
pub struct Merge {
    pub at: Place,
    pub level: u32,
}

/// Whether a container is of a level.
fn is_of(k: &Container, level: u32) -> bool
    ensures { result ≡ is_of_level level k.now }
{
    k.level == level
}

/// How many of these containers are of a level.
fn count_of(containers: &[Container], level: u32) -> usize
    ensures { result ≡ length (filter (is_of_level level) containers.now) }
{
    containers.iter().filter(|k| is_of(k, level)).count()
}

/// Whether four of these containers are of a level.
fn has_four(containers: &[Container], level: u32) -> bool
    ensures { result ≡ has_four containers.now level }
{
    count_of(containers, level) >= 4
}

/// The lowest level of which there are four of these containers.
fn lowest_level(containers: &[Container]) -> Option<u32>
    ensures { MatchOption result (NoLevel containers.now) (λ level. IsLowest containers.now level) }
{
    for level in 0..LEVELS {
        if has_four(containers, level) {
            return Some(level);
        }
    }
    None
}

/// Whether a projection is up to date and has four containers of some level.
fn is_due(p: &Projection) -> bool
    ensures yes { OnTrue result (IsDue p.now) }
    ensures no { OnFalse result (IsDue p.now → ⊥) }
{
    if !p.fresh {
        return false;
    }
    match lowest_level(p.containers.as_slice()) {
        Some(_) => true,
        None => false,
    }
}

/// Whether a name comes before that of the projection at a place, if there is one.
fn is_first(tables: &[Table], p: &Projection, best: Option<Place>) -> bool
    ensures { result ≡ comes_first p.now (option_and_then (projection_at tables.now) best) }
{
    match best {
        Some(at) => match projection_at(tables, at) {
            Some(other) => p.name < other.name,
            None => true,
        },
        None => true,
    }
}

/// Whether a projection is taken in the place of the first so far.
fn is_taken(tables: &[Table], p: &Projection, best: Option<Place>) -> bool
    ensures yes { OnTrue result (IsDue p.now × (comes_first p.now (option_and_then (projection_at tables.now) best) ≡ true)) }
    ensures no { OnFalse result (IsDue p.now → comes_first p.now (option_and_then (projection_at tables.now) best) ≡ false) }
{
    if !is_due(p) {
        return false;
    }
    is_first(tables, p, best)
}

/// The first of those so far and of the projections of the table at a place.
fn first_of_table(
    tables: &[Table],
    table: usize,
    projections: &[Projection],
    best: Option<Place>,
) -> Option<Place>
    requires { IsSomeAnd (slice_get tables.now table) (λ t. t.projections ≡ projections.now) }
    ensures { (seen : List Projection) → IsBest tables.now seen best → IsBest tables.now (seen ++ projections.now) result }
{
    let mut best = best;
    for place in 0..projections.len() {
        if is_taken(tables, &projections[place], best) {
            best = Some(Place { table, place });
        }
    }
    best
}

/// The due projection of the least name.
fn first_due(tables: &[Table]) -> Option<Place>
    ensures { IsBest tables.now (all_projections tables.now) result }
{
    let mut best = None;
    for table in 0..tables.len() {
        best = first_of_table(tables, table, tables[table].projections.as_slice(), best);
    }
    best
}

/// The merge that comes next: of the projections that are up to date and have four containers of some level the one of the least name, on
/// its lowest such level. It takes no memory.
pub fn next_merge(tables: &[Table]) -> Option<Merge>
    ensures { MatchOption result (IsBest tables.now (all_projections tables.now) None) (λ m. IsNext tables.now m) }
{
    let at = match first_due(tables) {
        Some(at) => at,
        None => return None,
    };
    let p = match projection_at(tables, at) {
        Some(p) => p,
        None => return None,
    };
    match lowest_level(p.containers.as_slice()) {
        Some(level) => Some(Merge { at, level }),
        None => None,
    }
}

/// The place of the first projection of a table that isn't up to date. It takes no memory.
pub fn next_stale(projections: &[Projection]) -> Option<usize>
    ensures { result ≡ position (λ p. not p.fresh) projections.now }
{
    projections.iter().position(|p| !p.fresh)
}
