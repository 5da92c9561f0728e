//! The entry of a projection that was purged.

ghost use Rattle.std.specs.Prelude.{◌≡◌, ◌+◌, ◌++◌, length, IfOk};
ghost use Rattle.container_writer.specs.Writing.{listed};
ghost use Rattle.merge_rows.specs.Rewritten.{reached_by};
ghost use Rattle.purge_job.specs.Purging.{purged_to};

use catalog_types::{Container, Projection, copy_proj_columns};
use col_value::List;
use std::alloc::{AllocError, Global};

/// The greatest of an epoch and all epochs that some containers have.
fn reached(epoch: u64, containers: &[Container]) -> u64
    ensures { result ≡ reached_by epoch containers.now }
{
    let mut greatest = epoch;
    for container in containers {
        greatest = greatest
            .max(container.greatest_epoch)
            .max(container.greatest_mark);
    }
    greatest
}

/// How many containers of level 0 were made, with this one. More than there are numbers are answered as want of memory.
fn born_with(born: u64, memory: &Option<Container>) -> Result<u64, AllocError>
    ensures { IfOk result (λ n. n ≡ born + length (listed memory.now)) }
{
    match memory {
        Some(_) => match born.checked_add(1) {
            Some(born) => Ok(born),
            None => Err(AllocError),
        },
        None => Ok(born),
    }
}

fn with_container(
    containers: Vec<Container>,
    memory: Option<Container>,
) -> Result<Vec<Container>, AllocError>
    ensures { IfOk result (λ v. v.items ≡ containers.items ++ listed memory) }
{
    let mut containers = containers;
    match memory {
        Some(container) => containers.push(container)?,
        None => {}
    }
    Ok(containers)
}

/// The entry with these containers and one behind them, if one was made.
pub fn purged_entry(
    alloc: Global,
    old: &Projection,
    containers: Vec<Container>,
    memory: Option<Container>,
) -> Result<Projection, AllocError>
    ensures { IfOk result (λ p. p ≡ purged_to containers.items memory old.now) }
{
    let born = born_with(old.born, &memory)?;
    let containers = with_container(containers, memory)?;
    let lge = reached(old.lge, containers.as_slice());
    Ok(Projection {
        name: old.name.copy(alloc)?,
        columns: List::new(copy_proj_columns(alloc, old.columns.as_slice())?),
        sort: List::new(Vec::from_slice(alloc, old.sort.as_slice())?),
        fresh: true,
        lge,
        born,
        containers: List::new(containers),
    })
}
