ghost use Rattle.std.specs.Prelude.{◌≡◌, ◌++◌, IfOk, OnOk};
ghost use Rattle.std.specs.List.{flat_map};
ghost use Rattle.sql_binding.specs.Changes.{naming_query, setting_items, item_of, column_named};

use crate::whole_table::query_over;
use col_value::{List, Name};
use sql_tree::{ColRef, Item, ItemTree, Items, Query, Setting, Tree, Update};
use std::alloc::{AllocError, Global};

/// The query that names what an UPDATE names: for each setting its column, and then what it is set to.
pub(crate) fn naming_query(alloc: Global, update: &Update) -> Result<Query, AllocError>
    ensures { IfOk result (λ q. q ≡ naming_query update.now) }
{
    let items = setting_items(alloc, update.settings.as_slice())?;
    query_over(alloc, &update.table, Items::Listed(items), &update.keep)
}

fn setting_items(alloc: Global, settings: &[Setting]) -> Result<List<Item>, AllocError>
    ensures { IfOk result (λ l. l ≡ flat_map setting_items settings.now) }
{
    let mut out = Vec::new(alloc);
    for setting in settings {
        push_setting(alloc, setting, &mut out)?;
    }
    Ok(List::new(out))
}

fn push_setting(alloc: Global, setting: &Setting, out: &mut Vec<Item>) -> Result<(), AllocError>
    ensures { OnOk result (out.new.items ≡ out.old.items ++ setting_items setting.now) }
{
    let column = column_named(alloc, &setting.column)?;
    out.push(item_of(Tree::Col(column)))?;
    out.push(item_of(setting.tree.copy(alloc)?))?;
    Ok(())
}

fn item_of(tree: Tree) -> Item
    ensures { result ≡ item_of tree }
{
    Item {
        tree: ItemTree::Plain(tree),
        alias: None,
    }
}

/// The column of this name, without a qualifier.
pub(crate) fn column_named(alloc: Global, name: &Name) -> Result<ColRef, AllocError>
    ensures { IfOk result (λ c. c ≡ column_named name.now) }
{
    Ok(ColRef {
        qualifier: None,
        name: name.copy(alloc)?,
    })
}
