//! The numbers of a store's files: that none stands twice, and how many there are.

ghost use Rattle.std.specs.Prelude.{◌≡◌, ◌↔◌, ◌+◌, ◌-◌, ◌^◌, IsTrue, IfSome, MatchOption, min, ◌++◌, sum_by};
ghost use Rattle.std.specs.List.{All, flat_map};
ghost use Rattle.catalog_types.specs.Lists.{Pairwise, Ahead};
ghost use Rattle.catalog_types.specs.Numbers.{files, span_of, IsClear, container_spans, projection_spans, table_spans, AreApart, HasNumbersOnce, container_count, number_count, store_count};

use crate::catalogue::{Catalogue, Container, Projection, Table};
use crate::span::Span;

fn is_apart(a: Span, b: Span) -> bool
    ensures { IsTrue result ↔ AreApart a b }
{
    a.end <= b.first || b.end <= a.first
}

fn files(k: &Container) -> Span
    ensures { result ≡ files k.now }
{
    let first = u128::from(k.base);
    Span {
        first,
        end: first + 2 * (u128::from(k.stored) + 1),
    }
}

fn span_of(m: u64) -> Span
    ensures { result ≡ span_of m }
{
    let first = u128::from(m);
    Span {
        first,
        end: first + 1,
    }
}

fn clear_of_mark(s: Span, marks: Option<u64>) -> bool
    ensures { IsTrue result ↔ IfSome marks (λ m. AreApart s (span_of m)) }
{
    match marks {
        None => true,
        Some(m) => is_apart(s, span_of(m)),
    }
}

fn clear_of_container(s: Span, k: &Container) -> bool
    ensures { IsTrue result ↔ IsClear s k.now }
{
    is_apart(s, files(k)) && clear_of_mark(s, k.marks)
}

fn clear_of_containers(s: Span, containers: &[Container]) -> bool
    ensures { IsTrue result ↔ All (IsClear s) containers.now }
{
    containers.iter().all(|k| clear_of_container(s, k))
}

fn clear_of_projections(s: Span, projections: &[Projection]) -> bool
    ensures { IsTrue result ↔ All (λ p. All (IsClear s) p.containers) projections.now }
{
    projections
        .iter()
        .all(|p| clear_of_containers(s, p.containers.as_slice()))
}

fn clear_of_tables(s: Span, tables: &[Table]) -> bool
    ensures { IsTrue result ↔ All (λ t. All (λ p. All (IsClear s) p.containers) t.projections) tables.now }
{
    tables
        .iter()
        .all(|t| clear_of_projections(s, t.projections.as_slice()))
}

fn clear_of_each(
    s: Span,
    containers: &[Container],
    projections: &[Projection],
    tables: &[Table],
) -> bool
    ensures { IsTrue result ↔ (All (IsClear s) containers.now × (All (λ p. All (IsClear s) p.containers) projections.now × All (λ t. All (λ p. All (IsClear s) p.containers) t.projections) tables.now)) }
{
    clear_of_containers(s, containers)
        && (clear_of_projections(s, projections) && clear_of_tables(s, tables))
}

/// Whether no number of these containers, projections and tables is in the span.
fn is_clear(s: Span, containers: &[Container], projections: &[Projection], tables: &[Table]) -> bool
    ensures { IsTrue result ↔ All (AreApart s) (flat_map container_spans containers.now ++ (flat_map projection_spans projections.now ++ flat_map table_spans tables.now)) }
{
    clear_of_each(s, containers, projections, tables)
}

fn container_parts(
    k: &Container,
    containers: &[Container],
    projections: &[Projection],
    tables: &[Table],
) -> bool
    ensures { let rest = flat_map container_spans containers.now ++ (flat_map projection_spans projections.now ++ flat_map table_spans tables.now) in IsTrue result ↔ (IfSome k.now.marks (λ m. AreApart (files k.now) (span_of m) × All (AreApart (span_of m)) rest) × All (AreApart (files k.now)) rest) }
{
    let own = files(k);
    let marked = match k.marks {
        None => true,
        Some(m) => is_apart(own, span_of(m))
            && is_clear(span_of(m), containers, projections, tables),
    };
    marked && is_clear(own, containers, projections, tables)
}

fn container_ahead(
    k: &Container,
    containers: &[Container],
    projections: &[Projection],
    tables: &[Table],
) -> bool
    ensures { IsTrue result ↔ Ahead AreApart (container_spans k.now) (flat_map container_spans containers.now ++ (flat_map projection_spans projections.now ++ flat_map table_spans tables.now)) }
{
    container_parts(k, containers, projections, tables)
}

fn containers_ahead(containers: &[Container], projections: &[Projection], tables: &[Table]) -> bool
    ensures { IsTrue result ↔ Ahead AreApart (flat_map container_spans containers.now) (flat_map projection_spans projections.now ++ flat_map table_spans tables.now) }
{
    for (i, k) in containers.iter().enumerate() {
        if !container_ahead(k, containers.split_at(i + 1).1, projections, tables) {
            return false;
        }
    }
    true
}

fn projection_ahead(p: &Projection, projections: &[Projection], tables: &[Table]) -> bool
    ensures { IsTrue result ↔ Ahead AreApart (projection_spans p.now) (flat_map projection_spans projections.now ++ flat_map table_spans tables.now) }
{
    containers_ahead(p.containers.as_slice(), projections, tables)
}

fn projections_ahead(projections: &[Projection], tables: &[Table]) -> bool
    ensures { IsTrue result ↔ Ahead AreApart (flat_map projection_spans projections.now) (flat_map table_spans tables.now) }
{
    for (i, p) in projections.iter().enumerate() {
        if !projection_ahead(p, projections.split_at(i + 1).1, tables) {
            return false;
        }
    }
    true
}

fn table_ahead(t: &Table, tables: &[Table]) -> bool
    ensures { IsTrue result ↔ Ahead AreApart (table_spans t.now) (flat_map table_spans tables.now) }
{
    projections_ahead(t.projections.as_slice(), tables)
}

/// Whether no number of a file stands twice. Each container is held against those behind it.
pub fn has_numbers_once(tables: &[Table]) -> bool
    ensures { IsTrue result ↔ HasNumbersOnce tables.now }
{
    for (i, t) in tables.iter().enumerate() {
        if !table_ahead(t, tables.split_at(i + 1).1) {
            return false;
        }
    }
    true
}

fn container_count(k: &Container) -> u128
    ensures { result ≡ container_count k.now }
{
    let files = 2 * (u128::from(k.stored) + 1);
    match k.marks {
        None => files,
        Some(_) => files + 1,
    }
}

fn projection_count(p: &Projection) -> u128
    ensures { result ≡ min (number_count p.now) (2 ^ 128 - 1) }
{
    let mut count: u128 = 0;
    for k in p.containers.as_slice() {
        count = count.saturating_add(container_count(k));
    }
    count
}

fn table_count(t: &Table) -> u128
    ensures { result ≡ min (sum_by number_count t.now.projections) (2 ^ 128 - 1) }
{
    let mut count: u128 = 0;
    for p in t.projections.as_slice() {
        count = count.saturating_add(projection_count(p));
    }
    count
}

/// How many numbers the files of the store have, or 2^128 - 1 where there are more.
pub fn count_numbers(c: &Catalogue) -> u128
    ensures { result ≡ min (store_count c.now) (2 ^ 128 - 1) }
{
    let mut count: u128 = 0;
    for t in c.tables.as_slice() {
        count = count.saturating_add(table_count(t));
    }
    count
}
