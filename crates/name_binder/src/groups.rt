ghost use Rattle.std.specs.Prelude.{◌≡◌};
ghost use Rattle.std.specs.List.{list_any};
ghost use Rattle.sql_binding.specs.Uses.{have_aggregate, is_grouped, item_has_aggregate};

use sql_tree::{Item, ItemTree, Items, Query};

/// Whether a query has GROUP BY, HAVING or an aggregate among its items.
pub fn is_grouped(query: &Query) -> bool
    ensures { result ≡ is_grouped query.now }
{
    !query.group.as_slice().is_empty() || query.having.is_some() || have_aggregate(&query.items)
}

fn have_aggregate(items: &Items) -> bool
    ensures { result ≡ have_aggregate items.now }
{
    match items {
        Items::Star => false,
        Items::Listed(items) => any_item_has(items.as_slice()),
    }
}

fn any_item_has(items: &[Item]) -> bool
    ensures { result ≡ list_any (λ i. item_has_aggregate i.tree) items.now }
{
    for item in items {
        if item_has_aggregate(&item.tree) {
            return true;
        }
    }
    false
}

/// Whether an aggregate stands in an item, outside of a window.
fn item_has_aggregate(tree: &ItemTree) -> bool
    ensures { result ≡ item_has_aggregate tree.now }
{
    match tree {
        ItemTree::Plain(tree) => tree.has_aggregate(),
        ItemTree::Window(_) => false,
    }
}
