ghost use Rattle.std.specs.Prelude.{◌≡◌, IfOk, map, not, None};
ghost use Rattle.std.specs.Fmt.{signed_decimal};
ghost use Rattle.std.specs.List.{All};
ghost use Rattle.sql_binding.specs.Firsts.{first_given, given_where};
ghost use Rattle.sql_binding.specs.Outputs.{is_output_number, unknown_key, twice_named, key_place, bound_order};

use crate::outputs::{has_output, is_twice, place_of_output};
use col_value::{List, Name};
use sql_tree::{KeyRef, SortKey};
use std::alloc::{AllocError, Global};

/// What the first key of ORDER BY names that names no output column.
pub(crate) fn first_unknown(
    alloc: Global,
    outputs: &[Option<Name>],
    order: &[SortKey],
) -> Result<Option<Name>, AllocError>
    ensures { IfOk result (λ n. n ≡ first_given (λ k. unknown_key outputs.now k.key) order.now) }
{
    for key in order {
        if let Some(name) = unknown_key(alloc, outputs, &key.key)? {
            return Ok(Some(name));
        }
    }
    Ok(None)
}

fn unknown_key(
    alloc: Global,
    outputs: &[Option<Name>],
    key: &KeyRef,
) -> Result<Option<Name>, AllocError>
    ensures { IfOk result (λ n. n ≡ unknown_key outputs.now key.now) }
{
    match key {
        KeyRef::Number(n) => unknown_number(alloc, outputs.len(), *n),
        KeyRef::Name(name) => {
            if has_output(outputs, name.as_slice()) {
                Ok(None)
            } else {
                Ok(Some(name.copy(alloc)?))
            }
        }
    }
}

fn unknown_number(alloc: Global, count: usize, n: i128) -> Result<Option<Name>, AllocError>
    ensures { IfOk result (λ m. m ≡ given_where (not (is_output_number count n)) (signed_decimal n)) }
{
    if is_output_number(count, n) {
        Ok(None)
    } else {
        Ok(Some(printed(alloc, n)?))
    }
}

/// Whether a number is that of an output column, from 1.
fn is_output_number(count: usize, n: i128) -> bool
    ensures { result ≡ is_output_number count n }
{
    1 <= n && n <= count as i128
}

/// A number in decimal.
fn printed(alloc: Global, n: i128) -> Result<Name, AllocError>
    ensures { IfOk result (λ m. m ≡ signed_decimal n) }
{
    let text = format!(in alloc; "{n}")?;
    Ok(Name::new(Vec::from_slice(alloc, text.as_str().as_bytes())?))
}

/// The first name in ORDER BY that two output columns have.
pub(crate) fn first_twice(
    alloc: Global,
    outputs: &[Option<Name>],
    order: &[SortKey],
) -> Result<Option<Name>, AllocError>
    ensures { IfOk result (λ n. n ≡ first_given (λ k. twice_named outputs.now k.key) order.now) }
{
    for key in order {
        if let Some(name) = twice_named(alloc, outputs, &key.key)? {
            return Ok(Some(name));
        }
    }
    Ok(None)
}

fn twice_named(
    alloc: Global,
    outputs: &[Option<Name>],
    key: &KeyRef,
) -> Result<Option<Name>, AllocError>
    ensures { IfOk result (λ n. n ≡ twice_named outputs.now key.now) }
{
    match key {
        KeyRef::Number(_) => Ok(None),
        KeyRef::Name(name) => name_where(alloc, is_twice(outputs, name.as_slice()), name),
    }
}

/// The name, where that is so.
fn name_where(alloc: Global, so: bool, name: &Name) -> Result<Option<Name>, AllocError>
    ensures { IfOk result (λ n. n ≡ given_where so name.now) }
{
    if so {
        Ok(Some(name.copy(alloc)?))
    } else {
        Ok(None)
    }
}

/// The places of the output columns by which a query is ordered.
pub fn bind_order(
    alloc: Global,
    outputs: &[Option<Name>],
    order: &[SortKey],
) -> Result<List<(usize, bool)>, AllocError>
    requires { All (λ k. unknown_key outputs.now k.key ≡ None) order.now }
    ensures { IfOk result (λ l. l ≡ bound_order outputs.now order.now) }
{
    let mut out = Vec::with_capacity(alloc, order.len())?;
    for key in order {
        out.push((key_place(outputs, &key.key), key.descending))?;
    }
    Ok(List::new(out))
}

fn key_place(outputs: &[Option<Name>], key: &KeyRef) -> usize
    requires { unknown_key outputs.now key.now ≡ None }
    ensures { result ≡ key_place outputs.now key.now }
{
    match key {
        KeyRef::Number(n) => (*n - 1) as usize,
        KeyRef::Name(name) => place_of_output(outputs, name.as_slice()).unwrap_or(0),
    }
}
