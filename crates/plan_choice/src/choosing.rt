//! The choice.

ghost use Rattle.std.specs.Prelude.{◌≡◌, ◌&&◌, ◌||◌, not, map, length, filter, drop, IfSome, ◌<◌, Option, Some, None, option_map, option_and_then};
ghost use Rattle.std.specs.List.{slice_get};
ghost use Rattle.db_model.specs.Choice.{first_sorted, is_narrower, chosen_for};
ghost use Rattle.folder_model.specs.Projections.{shape_of};
ghost use Rattle.plan_choice.specs.Choosing.{serves, is_sorted_well, is_candidate, is_better, best_from};

use crate::bounding::is_bounded;
use crate::covering::covers_query;
use catalog_types::{ProjColumn, Projection};
use sql_bound::{BoundQuery, FromItem};

/// Whether a projection may serve: it is up to date, and has the columns that the query uses.
fn serves(q: &BoundQuery, item: FromItem, p: &Projection) -> bool
    ensures { result ≡ serves q.now item p.now }
{
    p.fresh && covers_query(q, item, p.columns.as_slice())
}

/// The place of the table's column that stands at a place of the projection.
pub fn ordinal_at(columns: &[ProjColumn], place: usize) -> Option<usize>
    ensures { result ≡ option_map (λ k. k.ordinal) (slice_get columns.now place) }
{
    columns.get(place).map(|column| column.ordinal)
}

/// The table's column by which the projection is sorted first.
pub fn first_sorted(p: &Projection) -> Option<usize>
    ensures { result ≡ first_sorted (shape_of p.now) }
{
    match p.sort.as_slice().get(0) {
        Some(place) => ordinal_at(p.columns.as_slice(), *place),
        None => None,
    }
}

/// Whether the projection is sorted first by a column that the query bounds.
fn is_sorted_well(q: &BoundQuery, item: FromItem, p: &Projection) -> bool
    ensures { result ≡ is_sorted_well q.now item p.now }
{
    match first_sorted(p) {
        Some(c) => is_bounded(q, item, c),
        None => false,
    }
}

/// Fewer columns, or as many and a lesser name.
fn is_narrower(p: &Projection, other: &Projection) -> bool
    ensures { result ≡ is_narrower (shape_of p.now) (shape_of other.now) }
{
    let (own, others) = (p.columns.as_slice().len(), other.columns.as_slice().len());
    own < others || own == others && p.name < other.name
}

/// Whether a projection is taken in the place of the best so far.
fn is_better(projections: &[Projection], best: Option<usize>, p: &Projection) -> bool
    requires { IfSome best (λ i. i < length projections.now) }
    ensures { result ≡ is_better (option_and_then (slice_get projections.now) best) p.now }
{
    match best {
        Some(i) => is_narrower(p, &projections[i]),
        None => true,
    }
}

/// Whether a projection is taken in the place of the best so far: it may serve, is sorted well where that is asked, and is narrower.
fn is_taken(
    q: &BoundQuery,
    item: FromItem,
    projections: &[Projection],
    best: Option<usize>,
    p: &Projection,
    well: bool,
) -> bool
    requires { IfSome best (λ i. i < length projections.now) }
    ensures { result ≡ (is_candidate q.now item well p.now && is_better (option_and_then (slice_get projections.now) best) p.now) }
{
    serves(q, item, p) && (!well || is_sorted_well(q, item, p)) && is_better(projections, best, p)
}

/// The narrowest of the projections that may serve; of those only that are sorted well, where that is asked.
fn narrowest(
    q: &BoundQuery,
    item: FromItem,
    projections: &[Projection],
    well: bool,
) -> Option<usize>
    ensures best { option_and_then (slice_get projections.now) result ≡ best_from (is_candidate q.now item well) None projections.now }
    ensures within { IfSome result (λ i. i < length projections.now) }
{
    let mut best = None;
    for i in 0..projections.len() {
        if is_taken(q, item, projections, best, &projections[i], well) {
            best = Some(i);
        }
    }
    best
}

/// The place of the projection that a query reads for a FROM item, among those of its table. None exactly where none serves. It takes
/// no memory.
pub fn choose(q: &BoundQuery, item: FromItem, projections: &[Projection]) -> Option<usize>
    ensures chosen { option_and_then (slice_get (map shape_of projections.now)) result ≡ chosen_for q.now item (map shape_of projections.now) }
    ensures within { IfSome result (λ i. i < length projections.now) }
{
    match narrowest(q, item, projections, true) {
        Some(i) => Some(i),
        None => narrowest(q, item, projections, false),
    }
}
