//! The entry of a projection that was refreshed.

ghost use Rattle.std.specs.Prelude.{◌≡◌, ◌+◌, ◌++◌, length, IfOk, OnOk};
ghost use Rattle.container_writer.specs.Writing.{listed};
ghost use Rattle.merge_rows.specs.Rewritten.{rewritten_to};

use catalog_types::{Container, Projection, copy_proj_columns};
use col_value::List;
use std::alloc::{AllocError, Global};

fn add(containers: &mut Vec<Container>, container: Option<Container>) -> Result<(), AllocError>
    ensures { OnOk result (containers.new.items ≡ containers.old.items ++ listed container) }
{
    match container {
        Some(container) => containers.push(container)?,
        None => {}
    }
    Ok(())
}

/// One container, and another behind it, where they were made.
fn both(
    alloc: Global,
    first: Option<Container>,
    later: Option<Container>,
) -> Result<Vec<Container>, AllocError>
    ensures { IfOk result (λ v. v.items ≡ listed first ++ listed later) }
{
    let mut out = Vec::new(alloc);
    add(&mut out, first)?;
    add(&mut out, later)?;
    Ok(out)
}

/// How many containers of level 0 were made, with these. More than there are numbers are answered as want of memory.
fn born_with(born: u64, made: &[Container]) -> Result<u64, AllocError>
    ensures { IfOk result (λ n. n ≡ born + length made.now) }
{
    match born.checked_add(made.len() as u64) {
        Some(born) => Ok(born),
        None => Err(AllocError),
    }
}

/// The entry with the containers that were made, up to date up to an epoch.
pub fn refreshed_entry(
    alloc: Global,
    old: &Projection,
    first: Option<Container>,
    later: Option<Container>,
    last: u64,
) -> Result<Projection, AllocError>
    ensures { IfOk result (λ p. p ≡ rewritten_to last (old.now.born + length (listed first ++ listed later)) (listed first ++ listed later) old.now) }
{
    let containers = both(alloc, first, later)?;
    let born = born_with(old.born, containers.as_slice())?;
    Ok(Projection {
        name: old.name.copy(alloc)?,
        columns: List::new(copy_proj_columns(alloc, old.columns.as_slice())?),
        sort: List::new(Vec::from_slice(alloc, old.sort.as_slice())?),
        fresh: true,
        lge: last,
        born,
        containers: List::new(containers),
    })
}
