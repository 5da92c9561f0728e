//! The numbers of the files that a catalogue lists.

ghost use Rattle.std.specs.Prelude.{◌≡◌, ◌↔◌, ◌++◌, ◌-◌, ◌^◌, ◌≤◌, min, IsTrue, OnOk, IfOk, Contains};
ghost use Rattle.std.specs.List.{flat_map, range_with_len};
ghost use Rattle.std.specs.List.Sorted.{IsNonDecreasing, IsPermutation};
ghost use Rattle.catalog_types.specs.Numbers.{files, mark};
ghost use Rattle.catalog_root.specs.Listed.{numbers_of, container_numbers, projection_numbers, table_numbers, listed_numbers};

use catalog_types::{Catalogue, Container, Projection, Table};
use std::alloc::{AllocError, Global};

fn put_span(out: &mut Vec<u64>, first: u64, end: u64) -> Result<(), AllocError>
    requires { first ≤ end }
    ensures { OnOk result (out.new.items ≡ out.old.items ++ range_with_len first (end - first)) }
{
    for n in first..end {
        out.push(n)?;
    }
    Ok(())
}

fn put_files(out: &mut Vec<u64>, k: &Container) -> Result<(), AllocError>
    ensures { OnOk result (out.new.items ≡ out.old.items ++ numbers_of (files k.now)) }
{
    let count = k.stored.saturating_add(1).saturating_mul(2);
    put_span(out, k.base, k.base.saturating_add(count))
}

fn put_mark(out: &mut Vec<u64>, marks: Option<u64>) -> Result<(), AllocError>
    ensures { OnOk result (out.new.items ≡ out.old.items ++ flat_map numbers_of (mark marks)) }
{
    match marks {
        Some(m) => put_span(out, m, m.saturating_add(1)),
        None => Ok(()),
    }
}

fn put_container(out: &mut Vec<u64>, k: &Container) -> Result<(), AllocError>
    ensures { OnOk result (out.new.items ≡ out.old.items ++ container_numbers k.now) }
{
    put_files(out, k)?;
    put_mark(out, k.marks)
}

fn put_projection(out: &mut Vec<u64>, p: &Projection) -> Result<(), AllocError>
    ensures { OnOk result (out.new.items ≡ out.old.items ++ projection_numbers p.now) }
{
    for k in p.containers.as_slice() {
        put_container(out, k)?;
    }
    Ok(())
}

fn put_table(out: &mut Vec<u64>, t: &Table) -> Result<(), AllocError>
    ensures { OnOk result (out.new.items ≡ out.old.items ++ table_numbers t.now) }
{
    for p in t.projections.as_slice() {
        put_projection(out, p)?;
    }
    Ok(())
}

fn put_tables(out: &mut Vec<u64>, tables: &[Table]) -> Result<(), AllocError>
    ensures { OnOk result (out.new.items ≡ out.old.items ++ flat_map table_numbers tables.now) }
{
    for t in tables {
        put_table(out, t)?;
    }
    Ok(())
}

/// The numbers of the files that the catalogue lists, in ascending order.
pub fn numbers_in(alloc: Global, c: &Catalogue) -> Result<Vec<u64>, AllocError>
    ensures sorted { IfOk result (λ v. IsNonDecreasing v.items) }
    ensures all { IfOk result (λ v. IsPermutation (listed_numbers c.now) v.items) }
{
    let mut numbers = Vec::new(alloc);
    put_tables(&mut numbers, c.tables.as_slice())?;
    numbers.sort_unstable();
    Ok(numbers)
}

fn put_projections(out: &mut Vec<u64>, projections: &[Projection]) -> Result<(), AllocError> {
    for p in projections {
        put_projection(out, p)?;
    }
    Ok(())
}

/// The numbers of the files of some projections, or none where memory is short.
pub fn file_numbers(alloc: Global, projections: &[Projection]) -> Vec<u64> {
    let mut out = Vec::new(alloc);
    match put_projections(&mut out, projections) {
        Ok(()) => out,
        Err(AllocError) => Vec::new(alloc),
    }
}

fn put_marks(out: &mut Vec<u64>, containers: &[Container]) -> Result<(), AllocError> {
    for k in containers {
        put_mark(out, k.marks)?;
    }
    Ok(())
}

/// The numbers of the delete vectors of a projection, or none where memory is short.
pub fn vector_numbers(alloc: Global, projection: &Projection) -> Vec<u64> {
    let mut out = Vec::new(alloc);
    match put_marks(&mut out, projection.containers.as_slice()) {
        Ok(()) => out,
        Err(AllocError) => Vec::new(alloc),
    }
}

/// Whether a number is one of ascending ones.
pub fn is_among(numbers: &[u64], n: u64) -> bool
    requires { IsNonDecreasing numbers.now }
    ensures { IsTrue result ↔ Contains numbers.now n }
{
    numbers.binary_search(&n).is_ok()
}
