//! A table of a catalogue at its place.

ghost use Rattle.std.specs.Prelude.{◌≡◌, map, bytes_eq, find, option_map};
ghost use Rattle.std.specs.List.{enumerate_from, list_any};
ghost use Rattle.db_model.specs.Database.{has_columns, ordinals};
ghost use Rattle.db_model.specs.Refusals.{is_last_super, projections_limit};
ghost use Rattle.folder_model.specs.Projections.{shape_of};
ghost use Rattle.statement_plan.specs.Bare.{bare_table};
ghost use Rattle.statement_plan.specs.Places.{has_ordinal, has_projection, other_super, owner_found, shape_found};
ghost use Rattle.db_model.specs.Views.{table_found};

use catalog_types::{Projection, Table};
use name_binder::Found;
use sql_tree::{Refusal, Which};
use std::marker::Model;

// The most projections of a table.
const MOST_PROJECTIONS: usize = 16;

/// A table and its place among all tables.
#[derive(Drop)]
pub(crate) struct Placed<'a> {
    place: usize,
    table: &'a Table,
}

impl<'a> Model for Placed<'a> {
    ghost use Rattle.std.specs.Prelude.{ℕ};
    ghost use Rattle.db_model.specs.Database.{Table};
    ghost use Rattle.statement_plan.specs.Bare.{bare_table};

    ghost Value = { ℕ × Table };

    ghost view = { λ p. (p.place, bare_table p.table.now) };
}

pub(crate) fn same(a: &[u8], b: &[u8]) -> bool
    ensures { result ≡ bytes_eq a.now b.now }
{
    a == b
}

/// Whether one of these projections is called so.
pub(crate) fn is_projection(projections: &[Projection], name: &[u8]) -> bool
    ensures { result ≡ list_any (λ s. bytes_eq s.name name.now) (map shape_of projections.now) }
{
    for projection in projections {
        if same(projection.name.as_slice(), name) {
            return true;
        }
    }
    false
}

/// The place of the projection of a name.
fn projection_at(projections: &[Projection], name: &[u8]) -> Option<usize>
    ensures { result ≡ option_map (λ e. e.0) (find (λ e. bytes_eq e.1.name name.now) (enumerate_from 0 (map shape_of projections.now))) }
{
    for (place, projection) in projections.iter().enumerate() {
        if same(projection.name.as_slice(), name) {
            return Some(place);
        }
    }
    None
}

/// Whether a projection has the table's column of this place.
fn has_column(projection: &Projection, ordinal: usize) -> bool
    ensures { result ≡ has_ordinal (shape_of projection.now) ordinal }
{
    for column in projection.columns.as_slice() {
        if column.ordinal == ordinal {
            return true;
        }
    }
    false
}

/// Whether a projection has all columns of its table.
fn has_all(table: &Table, projection: &Projection) -> bool
    ensures { result ≡ has_columns (shape_of projection.now) (ordinals (bare_table table.now)) }
{
    for (place, _) in table.columns.as_slice().iter().enumerate() {
        if !has_column(projection, place) {
            return false;
        }
    }
    true
}

/// Whether a projection is an up-to-date super projection that isn't called so.
#[tactic(auto, unfolding(crate::specs::Places::other_super))]
fn is_other_super(table: &Table, projection: &Projection, name: &[u8]) -> bool
    ensures { result ≡ other_super name.now (bare_table table.now) (shape_of projection.now) }
{
    projection.fresh && has_all(table, projection) && !same(projection.name.as_slice(), name)
}

/// Whether the table has another up-to-date super projection.
fn has_other_super(table: &Table, name: &[u8]) -> bool
    ensures { result ≡ list_any (other_super name.now (bare_table table.now)) (map shape_of table.now.projections) }
{
    for projection in table.projections.as_slice() {
        if is_other_super(table, projection, name) {
            return true;
        }
    }
    false
}

/// Whether no other up-to-date super projection of the table remains.
fn is_last_super(table: &Table, name: &[u8]) -> bool
    ensures { result ≡ is_last_super name.now (bare_table table.now) }
{
    !has_other_super(table, name)
}

/// The table of a name.
pub(crate) fn table_named<'a>(tables: &'a [Table], name: &[u8]) -> Option<Placed<'a>>
    ensures { result ≡ table_found name.now (map bare_table tables.now) }
{
    for (place, table) in tables.iter().enumerate() {
        if same(table.name.as_slice(), name) {
            return Some(Placed { place, table });
        }
    }
    None
}

/// Whether a projection of the table is called so.
#[tactic(auto, unfolding(crate::specs::Places::has_projection))]
fn has_projection(table: &Table, name: &[u8]) -> bool
    ensures { result ≡ has_projection name.now (bare_table table.now) }
{
    is_projection(table.projections.as_slice(), name)
}

/// The table that has the projection of a name.
pub(crate) fn owner_of<'a>(tables: &'a [Table], name: &[u8]) -> Option<Placed<'a>>
    ensures { result ≡ owner_found name.now (map bare_table tables.now) }
{
    for (place, table) in tables.iter().enumerate() {
        if has_projection(table, name) {
            return Some(Placed { place, table });
        }
    }
    None
}

impl<'a> Placed<'a> {
    /// Its place among all tables.
    pub(crate) fn place(&self) -> usize
        ensures { result ≡ self.now.0 }
    {
        self.place
    }

    /// Its place and its columns.
    pub(crate) fn found(&self) -> Found<'a>
        ensures { result ≡ (self.now.0, self.now.1.columns) }
    {
        Found::new(self.place, self.table.columns.as_slice())
    }

    /// The place of the projection of a name.
    pub(crate) fn projection(&self, name: &[u8]) -> Option<usize>
        ensures { result ≡ option_map (λ e. e.0) (shape_found name.now self.now.1) }
    {
        projection_at(self.table.projections.as_slice(), name)
    }

    /// Whether no other up-to-date super projection remains without that of a name.
    pub(crate) fn is_last_super(&self, name: &[u8]) -> bool
        ensures { result ≡ is_last_super name.now self.now.1 }
    {
        is_last_super(self.table, name)
    }

    /// Where it can have no projection more, the refusal.
    pub(crate) fn limit(&self) -> Option<Refusal>
        ensures { result ≡ projections_limit self.now.1 }
    {
        if self.table.projections.as_slice().len() >= MOST_PROJECTIONS {
            Some(Refusal::Limit(Which::Projections, 16))
        } else {
            None
        }
    }
}
