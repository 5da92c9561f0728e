//! Which projection is moved out first.

ghost use Rattle.std.specs.Prelude.{◌≡◌, ◌<◌, ◌&&◌, true, is_some, length, IfSome, Some, IsSomeAnd, option_and_then};
ghost use Rattle.std.specs.List.{slice_get};
ghost use Rattle.std.specs.Option.{option_copied};
ghost use Rattle.db_model.specs.Database.{is_behind};
ghost use Rattle.db_model.specs.Mover.{moves_first};
ghost use Rattle.folder_model.specs.Projections.{shape_of};
ghost use Rattle.mover_policy.specs.First.{all_projections, behind_in, first_in, is_first, projection_at, shape_at};
ghost use Rattle.mover_policy.specs.Taking.{first_from};

use catalog_types::{Projection, Table};

/// Where a projection stands: the place of its table, and its own among those of the table.
#[derive(Clone, Copy, Debug)]
pub struct Place {
    pub table: usize,
    pub place: usize,
}

/// Whether a projection is up to date and has data that isn't on disk.
fn is_behind(p: &Projection, last: u64) -> bool
    ensures { result ≡ is_behind last (shape_of p.now) }
{
    p.fresh && p.lge < last
}

/// Whether a projection is moved out before another: its data reaches less far or, where it reaches as far, its name is less.
fn moves_first(p: &Projection, other: &Projection) -> bool
    ensures { result ≡ moves_first (shape_of p.now) (shape_of other.now) }
{
    p.lge < other.lge || p.lge == other.lge && p.name < other.name
}

/// The projection at a place.
pub fn projection_at(tables: &[Table], at: Place) -> Option<&Projection>
    ensures { option_copied result ≡ projection_at tables.now at }
{
    match tables.get(at.table) {
        Some(table) => table.projections.as_slice().get(at.place),
        None => None,
    }
}

/// Whether a projection is moved out before the one at a place, if there is one.
fn is_first(tables: &[Table], p: &Projection, best: Option<Place>) -> bool
    ensures { result ≡ is_first p.now (option_and_then (projection_at tables.now) best) }
{
    match best {
        Some(at) => match projection_at(tables, at) {
            Some(other) => moves_first(p, other),
            None => true,
        },
        None => true,
    }
}

/// Whether a projection is taken in the place of the first so far.
fn is_taken(tables: &[Table], p: &Projection, best: Option<Place>, last: u64) -> bool
    ensures { result ≡ (is_behind last (shape_of p.now) && is_first p.now (option_and_then (projection_at tables.now) best)) }
{
    is_behind(p, last) && is_first(tables, p, best)
}

/// The first of those so far and of the projections of the table at a place.
fn first_of_table(
    tables: &[Table],
    table: usize,
    projections: &[Projection],
    best: Option<Place>,
    last: u64,
) -> Option<Place>
    requires { IsSomeAnd (slice_get tables.now table) (λ t. t.projections ≡ projections.now) }
    ensures first { shape_at tables.now result ≡ first_from (shape_at tables.now best) (behind_in last projections.now) }
    ensures there { IfSome best (λ at. is_some (projection_at tables.now at) ≡ true) → IfSome result (λ at. is_some (projection_at tables.now at) ≡ true) }
{
    let mut best = best;
    for place in 0..projections.len() {
        if is_taken(tables, &projections[place], best, last) {
            best = Some(Place { table, place });
        }
    }
    best
}

/// The projection that a moveout takes first: of those that are up to date and whose data isn't all on disk, the one whose data reaches
/// least far and, of equal ones, the one of the least name. It takes no memory.
pub fn first_behind(tables: &[Table], last: u64) -> Option<Place>
    ensures first { shape_at tables.now result ≡ first_in (behind_in last (all_projections tables.now)) }
    ensures there { IfSome result (λ at. is_some (projection_at tables.now at) ≡ true) }
{
    let mut best = None;
    for table in 0..tables.len() {
        best = first_of_table(
            tables,
            table,
            tables[table].projections.as_slice(),
            best,
            last,
        );
    }
    best
}
