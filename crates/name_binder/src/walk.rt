ghost use Rattle.std.specs.Prelude.{◌≡◌, option_map};
ghost use Rattle.sql_binding.specs.Search.{first_in_source, first_in_sources};
ghost use Rattle.name_binder.specs.Looks.{looks, first_before_order};

use crate::groups::is_grouped;
use crate::look::Look;
use crate::view::View;
use sql_tree::{Query, Source};

/// What is found first in the text of a query before its ORDER BY.
pub(crate) fn first_before_order<'a>(look: Look<'a>, query: &'a Query) -> Option<&'a [u8]>
    ensures { option_map (λ n. n.now) result ≡ first_before_order (looks look.entry) query.now }
{
    let last = query.sources.as_slice().len();
    let shown = View {
        look,
        last,
        grouped: is_grouped(query),
    };
    let whole = View {
        look,
        last,
        grouped: false,
    };
    if let Some(name) = shown.first_in_items(&query.items) {
        return Some(name);
    }
    if let Some(name) = first_in_sources(look, query.sources.as_slice()) {
        return Some(name);
    }
    if let Some(name) = whole.first_in_condition(&query.keep) {
        return Some(name);
    }
    if let Some(name) = whole.first_in_group(query.group.as_slice()) {
        return Some(name);
    }
    shown.first_in_condition(&query.having)
}

/// What is found first in FROM.
fn first_in_sources<'a>(look: Look<'a>, sources: &'a [Source]) -> Option<&'a [u8]>
    ensures { option_map (λ n. n.now) result ≡ first_in_sources (looks look.entry) sources.entry.now }
{
    for (i, source) in sources.iter().enumerate() {
        if let Some(name) = first_in_source(look, i, source) {
            return Some(name);
        }
    }
    None
}

/// What is found first at a FROM item, or in its ON.
fn first_in_source<'a>(look: Look<'a>, i: usize, source: &'a Source) -> Option<&'a [u8]>
    ensures { option_map (λ n. n.now) result ≡ first_in_source (looks look.entry) (i, source.now) }
{
    if let Some(name) = look.source(i, source) {
        return Some(name);
    }
    let view = View {
        look,
        last: i,
        grouped: false,
    };
    view.first_in_condition(&source.on)
}
