//! The projections of a table that are up to date: the super projection of least name, and the others.

ghost use Rattle.std.specs.Prelude.{◌≡◌, ◌==◌, length};
ghost use Rattle.std.specs.List.{list_all, list_any, range_with_len};
ghost use Rattle.std.specs.Option.{option_map};
ghost use Rattle.audit_model.specs.Pairs.{is_other, is_super, super_of};

use catalog_types::{ProjColumn, Projection, Table};

fn has_ordinal(columns: &[ProjColumn], ordinal: usize) -> bool
    ensures { result ≡ list_any (λ k. k.ordinal == ordinal) columns.now }
{
    columns.iter().any(|k| k.ordinal == ordinal)
}

fn has_all(columns: &[ProjColumn], count: usize) -> bool
    ensures { result ≡ list_all (λ i. list_any (λ k. k.ordinal == i) columns.now) (range_with_len 0 count) }
{
    (0..count).all(|ordinal| has_ordinal(columns, ordinal))
}

fn is_super(t: &Table, p: &Projection) -> bool
    ensures { result ≡ is_super t.now p.now }
{
    p.fresh && has_all(p.columns.as_slice(), t.columns.as_slice().len())
}

/// The up-to-date projection of least name that has all columns of the table.
pub fn super_of(t: &Table) -> Option<&Projection>
    ensures { option_map (λ p. p.now) result ≡ super_of t.now }
{
    t.projections.as_slice().iter().find(|p| is_super(t, p))
}

/// Whether a projection is up to date and another one.
pub fn is_other(first: &Projection, p: &Projection) -> bool
    ensures { result ≡ is_other first.now p.now }
{
    p.fresh && p.name.as_slice() != first.name.as_slice()
}
