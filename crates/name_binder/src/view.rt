ghost use Rattle.std.specs.Prelude.{◌≡◌, ◌||◌, option_map, None, false, true};
ghost use Rattle.std.specs.Option.{option_map_or};
ghost use Rattle.sql_binding.specs.Firsts.{first_given};
ghost use Rattle.sql_binding.specs.Queries.{is_known};
ghost use Rattle.sql_binding.specs.Search.{first_in_items, first_in_condition, first_in_group};
ghost use Rattle.sql_binding.specs.Sight.{fits_twice, is_grouped_by};
ghost use Rattle.sql_binding.specs.Uses.{item_uses, uses, used_outside, window_uses};
ghost use Rattle.name_binder.specs.Looks.{looks, named_in, reach_of, used_where, term_uses};

use crate::SeenColumn;
use crate::look::{Look, given_where, stray_qualifier};
use crate::seen::{first_fit, fits_twice};
use col_value::Boxed;
use sql_tree::{ColRef, Item, ItemTree, Items, Term, Tree, Window, WindowKey};

/// Where it is looked for: `last` is the place of the last FROM item that is in reach, and `grouped` says that a column has to be one
/// of GROUP BY.
#[derive(Clone, Copy)]
pub(crate) struct View<'a> {
    pub look: Look<'a>,
    pub last: usize,
    pub grouped: bool,
}

impl<'a> View<'a> {
    /// What is found at a column.
    fn column(self, inside: bool, name: &'a ColRef) -> Option<&'a [u8]>
        ensures { option_map (λ n. n.now) result ≡ named_in self.entry inside (used_outside name.now) }
    {
        match self.look {
            Look::Tables(_, sources) => stray_qualifier(sources, name),
            Look::Columns(seen, query) => given_where(
                !self.is_known(seen, query.group.as_slice(), inside, name),
                name.name.as_slice(),
            ),
            Look::Twice(seen, _) => {
                given_where(fits_twice(seen, self.last, name), name.name.as_slice())
            }
        }
    }

    /// Whether a column is in sight, and one of GROUP BY where it has to be; inside an aggregate it hasn't.
    fn is_known(
        self,
        seen: &[SeenColumn<'_>],
        group: &[ColRef],
        inside: bool,
        name: &ColRef,
    ) -> bool
        ensures { result ≡ is_known group.now seen.now (reach_of self.entry) (used_where inside (used_outside name.now)) }
    {
        match first_fit(seen, self.last, name) {
            None => false,
            Some(column) => {
                let free = !self.grouped || inside;
                free || self.is_shown(seen, group, name, column)
            }
        }
    }

    /// Whether a name fits twice, or fits this column of GROUP BY.
    fn is_shown(
        self,
        seen: &[SeenColumn<'_>],
        group: &[ColRef],
        name: &ColRef,
        column: &SeenColumn<'_>,
    ) -> bool
        ensures { result ≡ (fits_twice seen.now self.entry.last name.now || is_grouped_by self.entry.last group.now column.now) }
    {
        fits_twice(seen, self.last, name) || column.is_grouped_by(self.last, group)
    }

    pub(crate) fn first_in_items(self, items: &'a Items) -> Option<&'a [u8]>
        ensures { option_map (λ n. n.now) result ≡ first_in_items (looks self.entry.look) (reach_of self.entry) items.now }
    {
        match items {
            Items::Star => self.look.star(),
            Items::Listed(items) => self.first_in_list(items.as_slice()),
        }
    }

    fn first_in_list(self, items: &'a [Item]) -> Option<&'a [u8]>
        ensures { option_map (λ n. n.now) result ≡ first_given (λ i. first_given (named_in self.entry false) (item_uses i.tree)) items.entry.now }
    {
        for item in items {
            if let Some(name) = self.first_in_item(&item.tree) {
                return Some(name);
            }
        }
        None
    }

    fn first_in_item(self, tree: &'a ItemTree) -> Option<&'a [u8]>
        ensures { option_map (λ n. n.now) result ≡ first_given (named_in self.entry false) (item_uses tree.now) }
    {
        match tree {
            ItemTree::Plain(tree) => self.first_in(false, tree),
            ItemTree::Window(window) => self.first_in_window(window),
        }
    }

    #[tactic(auto, using(crate::proofs::Walks::in_window))]
    fn first_in_window(self, window: &'a Window) -> Option<&'a [u8]>
        ensures { option_map (λ n. n.now) result ≡ first_given (named_in self.entry false) (window_uses window.now) }
    {
        if let Some(name) = self.first_in_condition(&window.arg) {
            return Some(name);
        }
        if let Some(name) = self.first_in_group(window.partition.as_slice()) {
            return Some(name);
        }
        self.first_in_keys(window.order.as_slice())
    }

    fn first_in_keys(self, keys: &'a [WindowKey]) -> Option<&'a [u8]>
        ensures { option_map (λ n. n.now) result ≡ first_given (λ k. named_in self.entry false (used_outside k.column)) keys.entry.now }
    {
        for key in keys {
            if let Some(name) = self.column(false, &key.column) {
                return Some(name);
            }
        }
        None
    }

    pub(crate) fn first_in_condition(self, keep: &'a Option<Tree>) -> Option<&'a [u8]>
        ensures { option_map (λ n. n.now) result ≡ first_in_condition (looks self.entry.look) (reach_of self.entry) keep.now }
    {
        match keep {
            None => None,
            Some(tree) => self.first_in(false, tree),
        }
    }

    pub(crate) fn first_in_group(self, group: &'a [ColRef]) -> Option<&'a [u8]>
        ensures { option_map (λ n. n.now) result ≡ first_in_group (looks self.entry.look) (reach_of self.entry) group.entry.now }
    {
        for column in group {
            if let Some(name) = self.column(false, column) {
                return Some(name);
            }
        }
        None
    }

    /// What is found first in an expression, which stands inside an aggregate or not.
    #[cycle(walk)]
    fn first_in(self, inside: bool, tree: &'a Tree) -> Option<&'a [u8]>
        ensures { option_map (λ n. n.now) result ≡ first_given (named_in self.entry inside) (uses tree.now) }
    {
        match tree {
            Tree::Lit(_) => None,
            Tree::Col(column) => self.column(inside, column),
            Tree::Neg(part) => self.first_in(inside, part.get()),
            Tree::Sum(terms) => self.first_in_terms(inside, terms.as_slice()),
            Tree::Product(parts) => self.first_in_trees(inside, parts.as_slice()),
            Tree::Compare(left, _, right) => match self.first_in(inside, left.get()) {
                Some(name) => Some(name),
                None => self.first_in(inside, right.get()),
            },
            Tree::IsNull(part) => self.first_in(inside, part.get()),
            Tree::Not(part) => self.first_in(inside, part.get()),
            Tree::And(parts) => self.first_in_trees(inside, parts.as_slice()),
            Tree::Or(parts) => self.first_in_trees(inside, parts.as_slice()),
            Tree::Agg(_, arg) => self.first_in_arg(arg),
        }
    }

    /// What is found first in the argument of an aggregate.
    #[cycle(walk)]
    fn first_in_arg(self, arg: &'a Option<Boxed<Tree>>) -> Option<&'a [u8]>
        ensures { option_map (λ n. n.now) result ≡ option_map_or (λ t. first_given (named_in self.entry true) (uses t)) arg.now None }
    {
        match arg {
            None => None,
            Some(part) => self.first_in(true, part.get()),
        }
    }

    #[cycle(walk)]
    fn first_in_trees(self, inside: bool, trees: &'a [Tree]) -> Option<&'a [u8]>
        ensures { option_map (λ n. n.now) result ≡ first_given (λ t. first_given (named_in self.entry inside) (uses t)) trees.entry.now }
    {
        for tree in trees {
            if let Some(name) = self.first_in(inside, tree) {
                return Some(name);
            }
        }
        None
    }

    #[cycle(walk)]
    fn first_in_terms(self, inside: bool, terms: &'a [Term]) -> Option<&'a [u8]>
        ensures { option_map (λ n. n.now) result ≡ first_given (λ t. first_given (named_in self.entry inside) (term_uses t)) terms.entry.now }
    {
        for term in terms {
            if let Some(name) = self.first_in_term(inside, term) {
                return Some(name);
            }
        }
        None
    }

    #[cycle(walk)]
    fn first_in_term(self, inside: bool, term: &'a Term) -> Option<&'a [u8]>
        ensures { option_map (λ n. n.now) result ≡ first_given (named_in self.entry inside) (term_uses term.now) }
    {
        self.first_in(inside, &term.part)
    }
}
