//! What an item lets stand behind it, and which queries are windowed.
#![tactic(auto)]

ghost use Rattle.std.specs.Prelude.{◌≡◌, map};
ghost use Rattle.std.specs.List.{list_any};
ghost use Rattle.sql_tree.specs.Modes.{has_aggregate, term_has_aggregate, is_window, after_item, is_windowed};

use crate::{Item, ItemTree, Items, ListMode, Term, Tree};

impl Tree {
    /// Whether an aggregate stands in the expression.
    #[cycle(aggregates)]
    pub fn has_aggregate(&self) -> bool
        ensures { result ≡ has_aggregate self.now }
    {
        match self {
            Tree::Lit(_) => false,
            Tree::Col(_) => false,
            Tree::Neg(part) => part.get().has_aggregate(),
            Tree::Sum(terms) => any_term_has(terms.as_slice()),
            Tree::Product(parts) => any_has(parts.as_slice()),
            Tree::Compare(left, _, right) => {
                left.get().has_aggregate() || right.get().has_aggregate()
            }
            Tree::IsNull(part) => part.get().has_aggregate(),
            Tree::Not(part) => part.get().has_aggregate(),
            Tree::And(parts) => any_has(parts.as_slice()),
            Tree::Or(parts) => any_has(parts.as_slice()),
            Tree::Agg(_, _) => true,
        }
    }
}

#[cycle(aggregates)]
fn any_has(trees: &[Tree]) -> bool
    ensures { result ≡ list_any (λ b. b) (map has_aggregate trees.now) }
{
    for tree in trees {
        if tree.has_aggregate() {
            return true;
        }
    }
    false
}

#[cycle(aggregates)]
fn any_term_has(terms: &[Term]) -> bool
    ensures { result ≡ list_any (λ b. b) (map term_has_aggregate terms.now) }
{
    for term in terms {
        if term.part.has_aggregate() {
            return true;
        }
    }
    false
}

impl ListMode {
    /// The mode behind one more item.
    pub fn after(self, item: &Item) -> ListMode
        ensures { result ≡ after_item self item.now }
    {
        match &item.tree {
            ItemTree::Window(_) => ListMode::Windowed,
            ItemTree::Plain(tree) => match self {
                ListMode::Free => {
                    if tree.has_aggregate() {
                        return ListMode::Grouped;
                    }
                    ListMode::Free
                }
                ListMode::Grouped => ListMode::Grouped,
                ListMode::Windowed => ListMode::Windowed,
            },
        }
    }
}

impl Items {
    /// Whether a window function stands among the items.
    pub fn is_windowed(&self) -> bool
        ensures { result ≡ is_windowed self.now }
    {
        match self {
            Items::Star => false,
            Items::Listed(items) => any_is_window(items.as_slice()),
        }
    }
}

fn any_is_window(items: &[Item]) -> bool
    ensures { result ≡ list_any is_window items.now }
{
    for item in items {
        match &item.tree {
            ItemTree::Window(_) => return true,
            ItemTree::Plain(_) => {}
        }
    }
    false
}
