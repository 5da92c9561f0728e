//! The entry of a projection that was moved out.

ghost use Rattle.std.specs.Prelude.{◌≡◌, ◌+◌, ◌++◌, length, IfOk};
ghost use Rattle.container_writer.specs.Writing.{listed};
ghost use Rattle.moveout_job.specs.OnDisk.{moved_to};

use catalog_types::{Container, Projection, copy_proj_columns};
use col_value::List;
use std::alloc::{AllocError, Global};

/// How many containers of level 0 were made, with this one. More than there are numbers are answered as want of memory.
fn born_with(born: u64, made: &Option<Container>) -> Result<u64, AllocError>
    ensures { IfOk result (λ n. n ≡ born + length (listed made.now)) }
{
    match made {
        Some(_) => match born.checked_add(1) {
            Some(born) => Ok(born),
            None => Err(AllocError),
        },
        None => Ok(born),
    }
}

fn with_container(
    containers: Vec<Container>,
    made: Option<Container>,
) -> Result<Vec<Container>, AllocError>
    ensures { IfOk result (λ v. v.items ≡ containers.items ++ listed made) }
{
    let mut containers = containers;
    match made {
        Some(container) => containers.push(container)?,
        None => {}
    }
    Ok(containers)
}

/// An entry with these containers and one behind them, if one was made, which has all rows up to an epoch.
pub fn moved_entry(
    alloc: Global,
    old: &Projection,
    containers: Vec<Container>,
    made: Option<Container>,
    last: u64,
) -> Result<Projection, AllocError>
    ensures { IfOk result (λ p. p ≡ moved_to last containers.items made old.now) }
{
    let born = born_with(old.born, &made)?;
    Ok(Projection {
        name: old.name.copy(alloc)?,
        columns: List::new(copy_proj_columns(alloc, old.columns.as_slice())?),
        sort: List::new(Vec::from_slice(alloc, old.sort.as_slice())?),
        fresh: true,
        lge: last,
        born,
        containers: List::new(with_container(containers, made)?),
    })
}
