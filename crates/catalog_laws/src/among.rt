//! Containers that stand among others, in their order, or have numbers that were drawn.

ghost use Rattle.std.specs.Prelude.{◌≡◌, ◌≤◌, ◌⊎◌, Some, IsTrue, IfSome};
ghost use Rattle.catalog_laws.specs.Entries.{from_files, has_files, AreAmong, HasFilesOf, IsAmong, IsDrawn};

use catalog_types::Container;

fn has_files(k: &Container, o: &Container) -> bool
    ensures { result ≡ has_files k.now o.now }
{
    o.base == k.base && o.stored == k.stored
}

/// The containers from the first on that has the same files.
fn from_files<'a>(olds: &'a [Container], k: &Container) -> &'a [Container]
    ensures { result.now ≡ from_files k.now olds.now }
{
    let mut rest = olds;
    while let [o, later @ ..] = rest {
        if has_files(k, o) {
            return rest;
        }
        rest = later;
    }
    rest
}

fn vector_drawn(first: u64, k: &Container) -> bool
    ensures { IsTrue result → IfSome k.now.marks (λ m. first ≤ m) }
{
    match k.marks {
        None => true,
        Some(m) => first <= m,
    }
}

fn keeps_vector(first: u64, old: &Container, k: &Container) -> bool
    ensures { IsTrue result → IfSome k.now.marks (λ m. (old.now.marks ≡ Some m) ⊎ (first ≤ m)) }
{
    match k.marks {
        None => true,
        Some(m) => first <= m || old.marks == Some(m),
    }
}

/// What of the containers stands behind the one with the same files; all of them, if the files' numbers were drawn.
fn behind<'a>(first: u64, olds: &'a [Container], k: &Container) -> Option<&'a [Container]>
    ensures { IfSome result (λ r. IsAmong first olds.now k.now r.now) }
{
    if first <= k.base {
        if vector_drawn(first, k) {
            return Some(olds);
        }
        return None;
    }
    match from_files(olds, k) {
        [o, later @ ..] => {
            if keeps_vector(first, o, k) {
                Some(later)
            } else {
                None
            }
        }
        [] => None,
    }
}

/// Whether containers stand among others in their order, but for those whose numbers were drawn.
pub fn are_among(first: u64, olds: &[Container], news: &[Container]) -> bool
    ensures { IsTrue result → AreAmong first olds.now news.now }
{
    let mut left = olds;
    let mut rest = news;
    while let [k, later @ ..] = rest {
        match behind(first, left, k) {
            Some(after) => {
                left = after;
                rest = later;
            }
            None => return false,
        }
    }
    true
}
