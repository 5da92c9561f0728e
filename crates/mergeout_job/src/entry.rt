//! The entry of a projection whose containers were written anew.

ghost use Rattle.std.specs.Prelude.{◌≡◌, ◌+◌, ◌++◌, ◌∷◌, [], length, max, if◌then◌else◌, slice_index_or, false, IfOk, OnOk};
ghost use Rattle.container_writer.specs.Writing.{listed};
ghost use Rattle.merge_rows.specs.Inputs.{replaced};
ghost use Rattle.merge_rows.specs.Rewritten.{reached_by};
ghost use Rattle.mergeout_job.specs.Merged.{with_containers};
ghost use Rattle.mergeout_job.specs.Putting.{put_at};

use catalog_types::{Container, Projection, copy_proj_columns};
use col_value::List;
use container_draft::is_chosen;
use std::alloc::{AllocError, Global};

fn add(containers: &mut Vec<Container>, container: Option<Container>) -> Result<(), AllocError>
    ensures { OnOk result (containers.new.items ≡ containers.old.items ++ listed container) }
{
    match container {
        Some(container) => containers.push(container)?,
        None => {}
    }
    Ok(())
}

/// The output in the place of the first container that is chosen, another one as it is.
fn put(
    out: &mut Vec<Container>,
    made: Option<Container>,
    container: Container,
    chosen: bool,
    first: bool,
) -> Result<(), AllocError>
    ensures { OnOk result (out.new.items ≡ out.old.items ++ put_at chosen first (listed made) container) }
{
    if !chosen {
        return add(out, Some(container));
    }
    if !first {
        return Ok(());
    }
    add(out, made)
}

/// Whether none was chosen yet.
fn is_first(first: bool, chosen: bool) -> bool
    ensures { result ≡ if chosen then false else first }
{
    if chosen { false } else { first }
}

/// The containers with the output in the place of the first that is chosen, without the other chosen ones, and one behind them, if one
/// was made.
pub fn merged(
    alloc: Global,
    inputs: &[bool],
    made: Option<Container>,
    containers: &[Container],
    memory: Option<Container>,
) -> Result<Vec<Container>, AllocError>
    ensures { IfOk result (λ v. v.items ≡ replaced inputs.now (listed made) containers.now ++ listed memory) }
{
    let mut out = Vec::new(alloc);
    let mut first = true;
    for (i, container) in containers.iter().enumerate() {
        let chosen = is_chosen(inputs, i);
        put(&mut out, made, *container, chosen, first)?;
        first = is_first(first, chosen);
    }
    add(&mut out, memory)?;
    Ok(out)
}

/// The greatest of an epoch and all epochs that some containers have.
fn reached(epoch: u64, containers: &[Container]) -> u64
    ensures { result ≡ reached_by epoch containers.now }
{
    let mut greatest = epoch;
    for container in containers {
        greatest = greatest
            .max(container.greatest_epoch)
            .max(container.greatest_mark);
    }
    greatest
}

/// How many containers of level 0 were made, with this one. More than there are numbers are answered as want of memory.
fn born_with(born: u64, memory: &Option<Container>) -> Result<u64, AllocError>
    ensures { IfOk result (λ n. n ≡ born + length (listed memory.now)) }
{
    match memory {
        Some(_) => match born.checked_add(1) {
            Some(born) => Ok(born),
            None => Err(AllocError),
        },
        None => Ok(born),
    }
}

/// The entry with containers that were written anew, of which one may be of level 0.
pub fn entry_with(
    alloc: Global,
    old: &Projection,
    containers: Vec<Container>,
    memory: &Option<Container>,
) -> Result<Projection, AllocError>
    ensures { IfOk result (λ p. p ≡ with_containers containers.items (length (listed memory.now)) old.now) }
{
    let lge = reached(old.lge, containers.as_slice());
    let born = born_with(old.born, memory)?;
    Ok(Projection {
        name: old.name.copy(alloc)?,
        columns: List::new(copy_proj_columns(alloc, old.columns.as_slice())?),
        sort: List::new(Vec::from_slice(alloc, old.sort.as_slice())?),
        fresh: true,
        lge,
        born,
        containers: List::new(containers),
    })
}
