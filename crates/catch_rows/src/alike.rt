//! Projections of the same columns, of which nothing is in memory alone.

ghost use Rattle.std.specs.Prelude.{◌≡◌, IsTrue, IfSome, IsSomeAnd};
ghost use Rattle.std.specs.List.{slice_get};
ghost use Rattle.catch_rows.specs.Sharing.{HasNoMarks, IsAlike, HasAllOnDisk};

use catalog_types::ProjColumn;
use col_value::{Encoding, Value};
use proj_store::ProjStore;

fn is_same_encoding(first: Encoding, second: Encoding) -> bool
    ensures { IsTrue result → first ≡ second }
{
    first == second
}

fn is_same_default(first: &Option<Value>, second: &Option<Value>) -> bool
    ensures { IsTrue result → first.now ≡ second.now }
{
    match (first, second) {
        (Some(first), Some(second)) => first.is(second),
        (None, None) => true,
        _ => false,
    }
}

fn is_same_column(first: &ProjColumn, second: &ProjColumn) -> bool
    ensures { IsTrue result → first.now ≡ second.now }
{
    first.ordinal == second.ordinal
        && is_same_encoding(first.encoding, second.encoding)
        && is_same_default(&first.default, &second.default)
}

fn are_same_columns(first: &[ProjColumn], second: &[ProjColumn]) -> bool
    ensures { IsTrue result → first.now ≡ second.now }
{
    let (mut rest, mut others) = (first, second);
    while let ([one, later @ ..], [other, further @ ..]) = (rest, others) {
        if !is_same_column(one, other) {
            return false;
        }
        rest = later;
        others = further;
    }
    rest.is_empty() && others.is_empty()
}

/// Whether no mark of a container came since its delete vector was written.
fn has_no_marks(store: &ProjStore) -> bool
    ensures { IsTrue result → HasNoMarks store.now.stored }
{
    for place in 0..store.entry().containers.as_slice().len() {
        if !store.fresh_marks(place).is_empty() {
            return false;
        }
    }
    true
}

/// Whether nothing of a projection is in memory alone.
fn is_quiet(store: &ProjStore) -> bool
    ensures { IsTrue result → HasAllOnDisk store.now.stored }
{
    store.unsaved().is_empty() && has_no_marks(store)
}

fn is_alike(first: &ProjStore, second: &ProjStore) -> bool
    ensures { IsTrue result → IsAlike first.now.stored second.now.stored }
{
    let (entry, other) = (first.entry(), second.entry());
    other.fresh
        && are_same_columns(entry.columns.as_slice(), other.columns.as_slice())
        && is_quiet(first)
        && is_quiet(second)
}

/// Where a projection stands that is like another one.
pub fn alike_in(store: &ProjStore, parts: &[ProjStore]) -> Option<usize>
    ensures { IfSome result (λ i. IsSomeAnd (slice_get parts.now i) (λ q. IsAlike store.now.stored q.stored)) }
{
    for place in 0..parts.len() {
        if is_alike(store, &parts[place]) {
            return Some(place);
        }
    }
    None
}
