//! The tables of both catalogues, compared.

ghost use Rattle.std.specs.Prelude.{◌≡◌, List, ℕ, IfSome, IfNone};
ghost use Rattle.std.specs.List.{AllZip};
ghost use Rattle.std.specs.Ordering.{nat_cmp};
ghost use Rattle.std.specs.Cmp.Lexicographic.{slice_cmp};
ghost use Rattle.catch_model.specs.Refused.{IsLeastName};
ghost use Rattle.catch_schemas.specs.Schemas.{are_same_columns, columns_in, is_same_column, kind_code, AreAscending, IsApart, IsFirstApart, IsSameTable};

use catalog_types::Table;
use col_value::{ColType, Column, Name};
use std::cmp::Ordering;

/// A number of each kind of column.
fn kind_code(kind: ColType) -> u64
    ensures { result ≡ kind_code kind }
{
    match kind {
        ColType::Integer => 0,
        ColType::Boolean => 1,
        ColType::Date => 2,
        ColType::Varchar(most) => 3 + u64::from(most),
    }
}

/// Whether two columns have the same name, are of the same kind, and refuse NULL alike.
fn is_same_column(a: &Column, b: &Column) -> bool
    ensures { result ≡ is_same_column a.now b.now }
{
    a.name.as_slice() == b.name.as_slice()
        && kind_code(a.kind) == kind_code(b.kind)
        && (if a.not_null { b.not_null } else { !b.not_null })
}

/// Whether two lists of columns are the same.
fn are_same_columns(xs: &[Column], ys: &[Column]) -> bool
    ensures { result ≡ are_same_columns xs.now ys.now }
{
    let (mut first, mut second) = (xs, ys);
    while let [x, later @ ..] = first {
        match second {
            [] => return false,
            [y, rest @ ..] => {
                if !is_same_column(x, y) {
                    return false;
                }
                first = later;
                second = rest;
            }
        }
    }
    second.is_empty()
}

#[tactic(auto, using(crate::proofs::Schemas::not_apart, crate::proofs::Schemas::other_columns, crate::proofs::Schemas::lesser_name, crate::proofs::Schemas::greater_name))]
/// The lesser of the names of two tables, or that of both where their columns differ; None where they are one table.
fn apart<'a>(x: &'a Table, y: &'a Table) -> Option<&'a Name>
    ensures some { IfSome result (λ n. IsApart (slice_cmp nat_cmp x.now.name y.now.name) x.now y.now n.now) }
    ensures none { IfNone result (IsSameTable x.now y.now) }
{
    match x.name.as_slice().cmp(&y.name.as_slice()) {
        Ordering::Less => Some(&x.name),
        Ordering::Equal => {
            if are_same_columns(x.columns.as_slice(), y.columns.as_slice()) {
                None
            } else {
                Some(&x.name)
            }
        }
        Ordering::Greater => Some(&y.name),
    }
}

/// The name of the first table, of two ascending lists, that only one of them has, or that has other columns in the other.
fn first_differing<'a>(xs: &'a [Table], ys: &'a [Table]) -> Option<&'a Name>
    ensures some { IfSome result (λ n. IsFirstApart xs.now ys.now n.now) }
    ensures none { IfNone result (AllZip IsSameTable xs.now ys.now) }
{
    let (mut first, mut second) = (xs, ys);
    while let [x, later @ ..] = first {
        match second {
            [] => return Some(&x.name),
            [y, rest @ ..] => {
                if let Some(name) = apart(x, y) {
                    return Some(name);
                }
                first = later;
                second = rest;
            }
        }
    }
    match second {
        [] => None,
        [y, ..] => Some(&y.name),
    }
}

#[tactic(auto, using(crate::proofs::Schemas::first_is_least, crate::proofs::Schemas::none_apart))]
/// The least name of a table that only one of them has, or that has other columns in the other.
pub fn schema_difference<'a>(xs: &'a [Table], ys: &'a [Table]) -> Option<&'a Name>
    ensures differ { IfSome result (λ n. AreAscending xs.now → AreAscending ys.now → IsLeastName (λ m. columns_in m xs.now ≡ columns_in m ys.now) n.now) }
    ensures same { IfNone result ((n : List ℕ) → columns_in n xs.now ≡ columns_in n ys.now) }
{
    match first_differing(xs, ys) {
        Some(name) => Some(name),
        None => None,
    }
}
