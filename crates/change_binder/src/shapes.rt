ghost use Rattle.std.specs.Prelude.{◌≡◌, IfOk, option_map, map, find, is_none, false};
ghost use Rattle.std.specs.List.{list_any};
ghost use Rattle.std.specs.Option.{option_map_or};
ghost use Rattle.sql_binding.specs.Projections.{name_at, column_at, part_names, sort_names, first_lacking, lacking_name, are_same_names, is_bad_projection, is_deltaval, has_differences, is_bad_encoding, has_name, bound_new_part, sort_places, all_places, place_or_0};

use crate::repeated::has_twice;
use col_value::{ColType, Column, Encoding, List, Name};
use sql_tree::{NewPart, NewProjection};
use std::alloc::{AllocError, Global};

/// The place of a column of this name.
fn column_at(columns: &[Column], name: &[u8]) -> Option<usize>
    ensures { result ≡ column_at columns.now name.now }
{
    columns.iter().position(|c| c.name.as_slice() == name)
}

/// The place of a name.
fn name_at(names: &[Name], name: &[u8]) -> Option<usize>
    ensures { result ≡ name_at names.now name.now }
{
    names.iter().position(|n| n.as_slice() == name)
}

/// The first name in the three lists that is no column of the table.
pub(crate) fn lacking_name<'a>(
    columns: &[Column],
    projection: &'a NewProjection,
) -> Option<&'a [u8]>
    ensures { option_map (λ n. n.now) result ≡ lacking_name columns.now projection.now }
{
    if let Some(name) = lacking_part(columns, projection.parts.as_slice()) {
        return Some(name);
    }
    if let Some(name) = first_lacking(columns, projection.selected.as_slice()) {
        return Some(name);
    }
    first_lacking(columns, sort_names(projection))
}

fn lacking_part<'a>(columns: &[Column], parts: &'a [NewPart]) -> Option<&'a [u8]>
    ensures { option_map (λ n. n.now) result ≡ first_lacking columns.now (map (λ c. c.name) parts.entry.now) }
{
    for part in parts {
        if column_at(columns, part.name.as_slice()).is_none() {
            return Some(part.name.as_slice());
        }
    }
    None
}

fn first_lacking<'a>(columns: &[Column], names: &'a [Name]) -> Option<&'a [u8]>
    ensures { option_map (λ n. n.now) result ≡ first_lacking columns.now names.entry.now }
{
    for name in names {
        if column_at(columns, name.as_slice()).is_none() {
            return Some(name.as_slice());
        }
    }
    None
}

/// The names that it is sorted by, where it says so.
fn sort_names(projection: &NewProjection) -> &[Name]
    ensures { result.now ≡ sort_names projection.now }
{
    match &projection.sort {
        None => &[],
        Some(names) => names.as_slice(),
    }
}

/// Whether the lists differ, a column stands twice, or a sort column isn't in it or stands twice.
pub(crate) fn is_bad_projection(
    alloc: Global,
    projection: &NewProjection,
) -> Result<bool, AllocError>
    ensures { IfOk result (λ b. b ≡ is_bad_projection projection.now) }
{
    let names = part_names(alloc, projection.parts.as_slice())?;
    let sort = sort_names(projection);
    Ok(
        !are_same_names(names.as_slice(), projection.selected.as_slice())
            || has_twice(names.as_slice())
            || any_lacks(names.as_slice(), sort)
            || has_twice(sort),
    )
}

/// The names of its columns.
fn part_names(alloc: Global, parts: &[NewPart]) -> Result<Vec<Name>, AllocError>
    ensures { IfOk result (λ v. v.items ≡ map (λ c. c.name) parts.now) }
{
    let mut out = Vec::with_capacity(alloc, parts.len())?;
    for part in parts {
        out.push(part.name.copy(alloc)?)?;
    }
    Ok(out)
}

/// Whether one of the sort columns is no name of the projection.
fn any_lacks(names: &[Name], sort: &[Name]) -> bool
    ensures { result ≡ list_any (λ n. is_none (name_at names.now n)) sort.now }
{
    for name in sort {
        if name_at(names, name.as_slice()).is_none() {
            return true;
        }
    }
    false
}

#[tactic(auto, using(crate::proofs::Settled::same_names))]
fn are_same_names(a: &[Name], b: &[Name]) -> bool
    ensures { result ≡ are_same_names a.now b.now }
{
    a == b
}

/// The name of the first column with DELTAVAL that is neither of numbers nor of dates.
pub(crate) fn bad_encoding<'a>(columns: &[Column], parts: &'a [NewPart]) -> Option<&'a [u8]>
    ensures { option_map (λ n. n.now) result ≡ option_map (λ c. c.name) (find (is_bad_encoding columns.now) parts.entry.now) }
{
    for part in parts {
        if is_bad_encoding(columns, part) {
            return Some(part.name.as_slice());
        }
    }
    None
}

fn is_bad_encoding(columns: &[Column], part: &NewPart) -> bool
    ensures { result ≡ is_bad_encoding columns.now part.now }
{
    is_deltaval(part.encoding) && !column_has_differences(columns, part.name.as_slice())
}

/// Whether the column of this name is of numbers or of dates.
fn column_has_differences(columns: &[Column], name: &[u8]) -> bool
    ensures { result ≡ option_map_or (λ d. has_differences d.kind) (find (has_name name.now) columns.now) false }
{
    for column in columns {
        if column.name.as_slice() == name {
            return has_differences(column.kind);
        }
    }
    false
}

fn has_differences(kind: ColType) -> bool
    ensures { result ≡ has_differences kind }
{
    match kind {
        ColType::Integer => true,
        ColType::Varchar(_) => false,
        ColType::Boolean => false,
        ColType::Date => true,
    }
}

fn is_deltaval(encoding: Encoding) -> bool
    ensures { result ≡ is_deltaval encoding }
{
    match encoding {
        Encoding::DeltaVal => true,
        Encoding::Auto => false,
        Encoding::Rle => false,
        Encoding::BlockDict => false,
        Encoding::Plain => false,
    }
}

/// Its columns by their places in the table, each with its encoding.
pub(crate) fn bound_parts(
    alloc: Global,
    columns: &[Column],
    parts: &[NewPart],
) -> Result<List<(usize, Encoding)>, AllocError>
    ensures { IfOk result (λ l. l ≡ map (bound_new_part columns.now) parts.now) }
{
    let mut out = Vec::with_capacity(alloc, parts.len())?;
    for part in parts {
        out.push((place_of(columns, part.name.as_slice()), part.encoding))?;
    }
    Ok(List::new(out))
}

fn place_of(columns: &[Column], name: &[u8]) -> usize
    ensures { result ≡ place_or_0 (column_at columns.now name.now) }
{
    column_at(columns, name).unwrap_or(0)
}

/// The places among its columns by which it is sorted: all of them in order where it says none.
pub(crate) fn bound_sort(
    alloc: Global,
    projection: &NewProjection,
) -> Result<List<usize>, AllocError>
    ensures { IfOk result (λ l. l ≡ option_map_or (sort_places (part_names projection.now)) projection.now.sort (all_places projection.now.parts)) }
{
    match &projection.sort {
        None => all_places(alloc, projection.parts.as_slice()),
        Some(sort) => {
            let names = part_names(alloc, projection.parts.as_slice())?;
            sort_places(alloc, names.as_slice(), sort.as_slice())
        }
    }
}

fn all_places(alloc: Global, parts: &[NewPart]) -> Result<List<usize>, AllocError>
    ensures { IfOk result (λ l. l ≡ all_places parts.now) }
{
    let mut out = Vec::with_capacity(alloc, parts.len())?;
    for (i, _) in parts.iter().enumerate() {
        out.push(i)?;
    }
    Ok(List::new(out))
}

fn sort_places(alloc: Global, names: &[Name], sort: &[Name]) -> Result<List<usize>, AllocError>
    ensures { IfOk result (λ l. l ≡ sort_places names.now sort.now) }
{
    let mut out = Vec::with_capacity(alloc, sort.len())?;
    for name in sort {
        out.push(name_at(names, name.as_slice()).unwrap_or(0))?;
    }
    Ok(List::new(out))
}
