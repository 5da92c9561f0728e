ghost use Rattle.std.specs.Prelude.{◌≡◌, option_map, find, not, bytes_eq, take};
ghost use Rattle.std.specs.List.{list_any};
ghost use Rattle.sql_binding.specs.Firsts.{given_where};
ghost use Rattle.sql_binding.specs.Sight.{item_name, is_grouped_by};
ghost use Rattle.sql_binding.specs.Queries.{stray_qualifier, is_stray, is_there, names_of, ungrouped_column};
ghost use Rattle.name_binder.specs.Looks.{looks};
ghost use Rattle.name_binder.specs.Tables.{columns_found};

use crate::groups::is_grouped;
use crate::sources::item_name;
use crate::{Found, SeenColumn};
use sql_tree::{ColRef, Query, Source};

/// What is looked for in the text of a query.
#[derive(Clone, Copy)]
pub(crate) enum Look<'a> {
    /// A table that isn't there, or a qualifier that names no FROM item.
    Tables(&'a [Option<Found<'a>>], &'a [Source]),
    /// A column that isn't in sight, or isn't one of GROUP BY where it has to be.
    Columns(&'a [SeenColumn<'a>], &'a Query),
    /// A name that two columns or two FROM items have.
    Twice(&'a [SeenColumn<'a>], &'a Query),
}

impl<'a> Look<'a> {
    /// What is found at `*`.
    pub(crate) fn star(self) -> Option<&'a [u8]>
        ensures { option_map (λ n. n.now) result ≡ (looks self.entry).star }
    {
        match self {
            Look::Tables(_, _) => None,
            Look::Columns(seen, query) => ungrouped_column(seen, query),
            Look::Twice(_, _) => None,
        }
    }

    /// What is found at the FROM item at this place.
    pub(crate) fn source(self, i: usize, source: &'a Source) -> Option<&'a [u8]>
        ensures { option_map (λ n. n.now) result ≡ (looks self.entry).source i source.now }
    {
        match self {
            Look::Tables(found, _) => given_where(!is_there(found, i), source.table.as_slice()),
            Look::Columns(_, _) => None,
            Look::Twice(_, query) => given_where(
                is_before(query.sources.as_slice(), i, source),
                item_name(source),
            ),
        }
    }
}

/// The name, where that is so.
pub(crate) fn given_where(so: bool, name: &[u8]) -> Option<&[u8]>
    ensures { option_map (λ n. n.now) result ≡ given_where so name.now }
{
    if so { Some(name) } else { None }
}

/// Whether the table of the FROM item at this place was found.
fn is_there(found: &[Option<Found<'_>>], i: usize) -> bool
    ensures { result ≡ is_there (columns_found found.now) i }
{
    match found.get(i) {
        Some(Some(_)) => true,
        Some(None) => false,
        None => false,
    }
}

/// The qualifier, where no FROM item is called so.
pub(crate) fn stray_qualifier<'a>(sources: &[Source], name: &'a ColRef) -> Option<&'a [u8]>
    ensures { option_map (λ n. n.now) result ≡ stray_qualifier (names_of sources.now) name.now }
{
    match &name.qualifier {
        None => None,
        Some(qualifier) => given_where(
            is_stray(sources, qualifier.as_slice()),
            qualifier.as_slice(),
        ),
    }
}

#[tactic(auto, using(crate::proofs::Named::any_name))]
fn is_stray(sources: &[Source], qualifier: &[u8]) -> bool
    ensures { result ≡ is_stray (names_of sources.now) qualifier.now }
{
    !is_name(sources, qualifier)
}

/// Whether a FROM item is called so.
fn is_name(sources: &[Source], name: &[u8]) -> bool
    ensures { result ≡ list_any (λ s. bytes_eq (item_name s) name.now) sources.now }
{
    sources.iter().any(|s| item_name(s) == name)
}

/// Whether a FROM item before this place is called as this one.
fn is_before(sources: &[Source], i: usize, source: &Source) -> bool
    ensures { result ≡ list_any (λ n. bytes_eq n (item_name source.now)) (take i (names_of sources.now)) }
{
    is_name_before(sources, i, item_name(source))
}

fn is_name_before(sources: &[Source], i: usize, name: &[u8]) -> bool
    ensures { result ≡ list_any (λ s. bytes_eq (item_name s) name.now) (take i sources.now) }
{
    sources.iter().take(i).any(|s| item_name(s) == name)
}

/// The first column of a grouped query's `*` that is none of GROUP BY.
fn ungrouped_column<'a>(seen: &'a [SeenColumn<'a>], query: &Query) -> Option<&'a [u8]>
    ensures { option_map (λ n. n.now) result ≡ ungrouped_column query.now seen.entry.now }
{
    if !is_grouped(query) {
        return None;
    }
    first_ungrouped(seen, query.sources.as_slice().len(), query.group.as_slice())
}

fn first_ungrouped<'a>(
    seen: &'a [SeenColumn<'a>],
    last: usize,
    group: &[ColRef],
) -> Option<&'a [u8]>
    ensures { option_map (λ n. n.now) result ≡ option_map (λ s. s.column.name) (find (λ s. not (is_grouped_by last group.now s)) seen.entry.now) }
{
    for column in seen {
        if !column.is_grouped_by(last, group) {
            return Some(column.name());
        }
    }
    None
}
