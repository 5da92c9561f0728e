//! Names that are free, and the place of a name.

ghost use Rattle.std.specs.Prelude.{◌≤◌, ◌<◌, length, IsTrue};
ghost use Rattle.std.specs.List.{All};
ghost use Rattle.catalog_types.specs.Names.{IsBelow, names_of};
ghost use Rattle.catalog_laws.specs.Going.{IsFree, IsPlace, Joins};

use catalog_types::{Catalogue, Projection, Table};
use col_value::Name;

/// Whether no table or projection has this name.
pub fn is_free(c: &Catalogue, name: &Name) -> bool
    ensures { IsTrue result → IsFree c.now.tables name.now }
{
    c.table(name.as_slice()).is_none() && c.projection(name.as_slice()).is_none()
}

fn projections_free(c: &Catalogue, projections: &[Projection]) -> bool
    ensures { IsTrue result → All (λ p. IsFree c.now.tables p.name) projections.now }
{
    projections.iter().all(|p| is_free(c, &p.name))
}

/// Whether the names of a table and of its projections are free.
fn are_free(c: &Catalogue, t: &Table) -> bool
    ensures { IsTrue result → All (IsFree c.now.tables) (names_of t.now) }
{
    is_free(c, &t.name) && projections_free(c, t.projections.as_slice())
}

fn is_below(m: &Name, n: &Name) -> bool
    ensures { IsTrue result → IsBelow m.now n.now }
{
    m.as_slice().cmp(&n.as_slice()).is_lt()
}

fn are_below(tables: &[Table], name: &Name) -> bool
    ensures { IsTrue result → All (λ t. IsBelow t.name name.now) tables.now }
{
    tables.iter().all(|t| is_below(&t.name, name))
}

fn are_above(tables: &[Table], name: &Name) -> bool
    ensures { IsTrue result → All (λ t. IsBelow name.now t.name) tables.now }
{
    tables.iter().all(|t| is_below(name, &t.name))
}

/// Whether a table of this name stands at this place among tables in the order of their names.
fn is_place(tables: &[Table], place: usize, name: &Name) -> bool
    requires { place ≤ length tables.now }
    ensures { IsTrue result → IsPlace tables.now place name.now }
{
    let (before, behind) = tables.split_at(place);
    are_below(before, name) && are_above(behind, name)
}

fn has_room(c: &Catalogue) -> bool
    ensures { IsTrue result → length c.now.tables < 1024 }
{
    c.tables.as_slice().len() < 1024
}

/// Whether a table can join those of a catalogue at a place.
pub fn joins(c: &Catalogue, place: usize, t: &Table) -> bool
    requires { place ≤ length c.now.tables }
    ensures { IsTrue result → Joins c.now place t.now }
{
    if !has_room(c) {
        return false;
    }
    if !are_free(c, t) {
        return false;
    }
    is_place(c.tables.as_slice(), place, &t.name)
}
