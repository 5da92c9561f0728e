ghost use Rattle.std.specs.Prelude.{◌≡◌, IfOk, nat_lt, position, map, Some};
ghost use Rattle.std.specs.List.{list_any};
ghost use Rattle.sql_binding.specs.Outputs.{output_name, plain_name, tree_name, output_names, is_named, count_named};

use crate::SeenColumn;
use col_value::Name;
use sql_tree::{Item, ItemTree, Items, Tree};
use std::alloc::{AllocError, Global};

/// The names of the output columns, where they have one.
pub fn output_names(
    alloc: Global,
    seen: &[SeenColumn<'_>],
    items: &Items,
) -> Result<Vec<Option<Name>>, AllocError>
    ensures { IfOk result (λ v. v.items ≡ output_names seen.now items.now) }
{
    match items {
        Items::Star => column_names(alloc, seen),
        Items::Listed(items) => item_names(alloc, items.as_slice()),
    }
}

fn column_names(alloc: Global, seen: &[SeenColumn<'_>]) -> Result<Vec<Option<Name>>, AllocError>
    ensures { IfOk result (λ v. v.items ≡ map (λ s. Some s.column.name) seen.now) }
{
    let mut out = Vec::with_capacity(alloc, seen.len())?;
    for column in seen {
        out.push(Some(Name::new(Vec::from_slice(alloc, column.name())?)))?;
    }
    Ok(out)
}

fn item_names(alloc: Global, items: &[Item]) -> Result<Vec<Option<Name>>, AllocError>
    ensures { IfOk result (λ v. v.items ≡ map output_name items.now) }
{
    let mut out = Vec::with_capacity(alloc, items.len())?;
    for item in items {
        out.push(output_name(alloc, item)?)?;
    }
    Ok(out)
}

/// The alias, or the name of a plain column.
fn output_name(alloc: Global, item: &Item) -> Result<Option<Name>, AllocError>
    ensures { IfOk result (λ n. n ≡ output_name item.now) }
{
    match &item.alias {
        Some(alias) => Ok(Some(alias.copy(alloc)?)),
        None => tree_name(alloc, &item.tree),
    }
}

/// The name of a plain column; a window has none of its own.
fn tree_name(alloc: Global, tree: &ItemTree) -> Result<Option<Name>, AllocError>
    ensures { IfOk result (λ n. n ≡ tree_name tree.now) }
{
    match tree {
        ItemTree::Plain(tree) => plain_name(alloc, tree),
        ItemTree::Window(_) => Ok(None),
    }
}

fn plain_name(alloc: Global, tree: &Tree) -> Result<Option<Name>, AllocError>
    ensures { IfOk result (λ n. n ≡ plain_name tree.now) }
{
    match tree {
        Tree::Col(reference) => Ok(Some(reference.name.copy(alloc)?)),
        _ => Ok(None),
    }
}

fn is_named(name: &[u8], output: &Option<Name>) -> bool
    ensures { result ≡ is_named name.now output.now }
{
    match output {
        Some(n) => n.as_slice() == name,
        None => false,
    }
}

/// The place of the first output column of this name.
pub(crate) fn place_of_output(outputs: &[Option<Name>], name: &[u8]) -> Option<usize>
    ensures { result ≡ position (is_named name.now) outputs.now }
{
    outputs.iter().position(|o| is_named(name, o))
}

/// Whether an output column has this name.
pub(crate) fn has_output(outputs: &[Option<Name>], name: &[u8]) -> bool
    ensures { result ≡ list_any (is_named name.now) outputs.now }
{
    outputs.iter().any(|o| is_named(name, o))
}

/// Whether two output columns have this name.
pub(crate) fn is_twice(outputs: &[Option<Name>], name: &[u8]) -> bool
    ensures { result ≡ nat_lt 1 (count_named name.now outputs.now) }
{
    outputs.iter().filter(|o| is_named(name, *o)).count() > 1
}
