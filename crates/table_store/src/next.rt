//! The catalogue that comes next: valid, since the one before it is. What changes is tested by itself, and all else by nothing.

ghost use Rattle.std.specs.Prelude.{◌≡◌, ◌≤◌, ◌<◌, ◌^◌, [], length, IfOk, IsSomeAnd, IsTrue};
ghost use Rattle.std.specs.List.{slice_get};
ghost use Rattle.catalog_types.specs.Numbers.{projection_spans, table_spans};
ghost use Rattle.catalog_types.specs.Valid.{IsValid};
ghost use Rattle.table_store.specs.Creating.{with_mark, with_table, without_table};
ghost use Rattle.table_store.specs.Moving.{with_entry_at, KeepsRulesAt, KeepsShapeAt};
ghost use Rattle.table_store.specs.Shaping.{with_projection_at, without_projection_at};
ghost use Rattle.table_store.specs.Widening.{with_column_at};

use crate::{creating, dropping, marking, moving, shaping, widening};
use catalog_laws::{goes_on, have_reached, is_entry_after, is_free, joins, valid_at};
use catalog_types::{Catalogue, Projection, Table};
use col_value::{Column, Value};
use std::alloc::{AllocError, Global};

/// The catalogue with one table more, which has no files.
pub fn with_table(
    alloc: Global,
    root: &Catalogue,
    last: u64,
    place: usize,
    table: Table,
) -> Result<Catalogue, AllocError>
    requires valid { IsValid root.now }
    requires place { place ≤ length root.now.tables }
    requires bare { table_spans table ≡ [] }
    ensures catalogue { IfOk result (λ c. c ≡ with_table last place table root.now) }
    ensures valid { IfOk result (λ c. IsValid c) }
{
    if !goes_on(root, last, root.next + 1) {
        return Err(AllocError);
    }
    if !joins(root, place, &table) {
        return Err(AllocError);
    }
    match creating::with_table(alloc, root, last, place, table) {
        Ok(catalogue) => valid_at(alloc, catalogue, place),
        Err(AllocError) => Err(AllocError),
    }
}

/// The catalogue without the table at a place.
pub fn without_table(
    alloc: Global,
    root: &Catalogue,
    last: u64,
    place: usize,
) -> Result<Catalogue, AllocError>
    requires valid { IsValid root.now }
    requires place { place < length root.now.tables }
    ensures catalogue { IfOk result (λ c. c ≡ without_table last place root.now) }
    ensures valid { IfOk result (λ c. IsValid c) }
{
    if !goes_on(root, last, root.next + 1) {
        return Err(AllocError);
    }
    dropping::without_table(alloc, root, last, place)
}

/// The catalogue with this ancient history mark, which each up-to-date projection has reached.
pub fn with_mark(
    alloc: Global,
    root: &Catalogue,
    last: u64,
    mark: u64,
) -> Result<Catalogue, AllocError>
    requires valid { IsValid root.now }
    ensures catalogue { IfOk result (λ c. c ≡ with_mark last mark root.now) }
    ensures valid { IfOk result (λ c. IsValid c) }
{
    if !goes_on(root, last, root.next + 1) {
        return Err(AllocError);
    }
    if last < mark {
        return Err(AllocError);
    }
    if !have_reached(root.tables.as_slice(), mark) {
        return Err(AllocError);
    }
    marking::with_mark(alloc, root, last, mark)
}

/// Whether an entry of the projection at a place of a table keeps the rules in the next catalogue. Its containers are tested, and no other
/// projection: of the epochs of their rows and marks no job is told more than that it wrote them.
fn keeps_rules(
    alloc: Global,
    root: &Catalogue,
    last: u64,
    next: u64,
    table: usize,
    place: usize,
    entry: &Projection,
) -> bool
    requires valid { IsValid root.now }
    requires shape { KeepsShapeAt root.now table place entry.now }
    ensures { IsTrue result → KeepsRulesAt root.now last next table place entry.now }
{
    let old = &root.tables.as_slice()[table].projections.as_slice()[place];
    match is_entry_after(alloc, root, last, next, old, entry) {
        Ok(keeps) => keeps,
        Err(AllocError) => false,
    }
}

/// The catalogue with another entry at a place of a table, whose version is the number before its next one. It takes the place of the one
/// before it.
pub fn into_entry_at(
    alloc: Global,
    root: Catalogue,
    last: u64,
    version: u64,
    table: usize,
    place: usize,
    entry: Projection,
) -> Result<Catalogue, AllocError>
    requires valid { IsValid root }
    requires shape { KeepsShapeAt root table place entry }
    requires version { version < 2 ^ 62 }
    ensures catalogue { IfOk result (λ c. c ≡ with_entry_at last version table place entry root) }
    ensures valid { IfOk result (λ c. IsValid c) }
{
    if !goes_on(&root, last, version + 1) {
        return Err(AllocError);
    }
    if !keeps_rules(alloc, &root, last, version + 1, table, place, &entry) {
        return Err(AllocError);
    }
    Ok(moving::with_entry_at(alloc, root, last, version, table, place, entry))
}

/// The same, of a catalogue that stays.
pub fn with_entry_at(
    alloc: Global,
    root: &Catalogue,
    last: u64,
    version: u64,
    table: usize,
    place: usize,
    entry: Projection,
) -> Result<Catalogue, AllocError>
    requires valid { IsValid root.now }
    requires shape { KeepsShapeAt root.now table place entry }
    requires version { version < 2 ^ 62 }
    ensures catalogue { IfOk result (λ c. c ≡ with_entry_at last version table place entry root.now) }
    ensures valid { IfOk result (λ c. IsValid c) }
{
    match root.copy(alloc) {
        Ok(copy) => into_entry_at(alloc, copy, last, version, table, place, entry),
        Err(AllocError) => Err(AllocError),
    }
}

/// The catalogue where the table at a place has one projection more, which has no files.
pub fn with_projection_at(
    alloc: Global,
    root: &Catalogue,
    last: u64,
    table: usize,
    place: usize,
    entry: Projection,
) -> Result<Catalogue, AllocError>
    requires valid { IsValid root.now }
    requires there { IsSomeAnd (slice_get root.now.tables table) (λ t. place ≤ length t.projections) }
    requires bare { projection_spans entry ≡ [] }
    ensures catalogue { IfOk result (λ c. c ≡ with_projection_at last table place entry root.now) }
    ensures valid { IfOk result (λ c. IsValid c) }
{
    if !goes_on(root, last, root.next + 1) {
        return Err(AllocError);
    }
    if !is_free(root, &entry.name) {
        return Err(AllocError);
    }
    match shaping::with_projection_at(alloc, root, last, table, place, entry) {
        Ok(catalogue) => valid_at(alloc, catalogue, table),
        Err(AllocError) => Err(AllocError),
    }
}

/// The catalogue where the table at a place has one projection less.
pub fn without_projection_at(
    alloc: Global,
    root: &Catalogue,
    last: u64,
    table: usize,
    place: usize,
) -> Result<Catalogue, AllocError>
    requires valid { IsValid root.now }
    requires there { IsSomeAnd (slice_get root.now.tables table) (λ t. place < length t.projections) }
    ensures catalogue { IfOk result (λ c. c ≡ without_projection_at last table place root.now) }
    ensures valid { IfOk result (λ c. IsValid c) }
{
    if !goes_on(root, last, root.next + 1) {
        return Err(AllocError);
    }
    match shaping::without_projection_at(alloc, root, last, table, place) {
        Ok(catalogue) => valid_at(alloc, catalogue, table),
        Err(AllocError) => Err(AllocError),
    }
}

/// The catalogue where the table at a place has one column more.
pub fn with_column_at(
    alloc: Global,
    root: &Catalogue,
    last: u64,
    table: usize,
    column: &Column,
    default: &Value,
) -> Result<Catalogue, AllocError>
    requires valid { IsValid root.now }
    requires there { table < length root.now.tables }
    ensures catalogue { IfOk result (λ c. c ≡ with_column_at last table column.now default.now root.now) }
    ensures valid { IfOk result (λ c. IsValid c) }
{
    if !goes_on(root, last, root.next + 1) {
        return Err(AllocError);
    }
    match widening::with_column_at(alloc, root, last, table, column, default) {
        Ok(catalogue) => valid_at(alloc, catalogue, table),
        Err(AllocError) => Err(AllocError),
    }
}
