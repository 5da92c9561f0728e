//! The rows of a block that are alive, as a batch.

ghost use Rattle.std.specs.Prelude.{◌≡◌, ◌++◌, ◌∷◌, [], if◌then◌else◌, false, true, length, slice_index_or, IfOk, OnOk};
ghost use Rattle.std.specs.List.{list_all, range_with_len};
ghost use Rattle.exec_scan.specs.Batches.{AreLong, chosen};
ghost use Rattle.exec_scan.specs.Reading.{rows_of};

use crate::batch::Batch;
use crate::shown::put_epoch;
use block_codec::Block;
use std::alloc::{AllocError, Global};

/// How many rows are alive.
fn count_alive(alive: &[bool]) -> usize {
    let mut count = 0usize;
    for a in alive {
        count = count.saturating_add(usize::from(*a));
    }
    count
}

/// Appends a place, if its row is alive.
fn put_place(places: &mut Vec<usize>, alive: bool, place: usize) -> Result<(), AllocError>
    ensures { OnOk result (places.new.items ≡ places.old.items ++ (if alive then place ∷ [] else [])) }
{
    if alive {
        places.push(place)?;
        return Ok(());
    }
    Ok(())
}

/// Whether all rows are alive.
fn are_all_alive(alive: &[bool]) -> bool
    ensures { result ≡ list_all (λ a. a) alive.now }
{
    alive.iter().all(|a| *a)
}

/// So many places, from the first one on.
fn first_places(alloc: Global, count: usize) -> Result<Vec<usize>, AllocError>
    ensures { IfOk result (λ v. v.items ≡ range_with_len 0 count) }
{
    let mut places = vec![in alloc; 0usize; count]?;
    for i in 0..count {
        places[i] = i;
    }
    Ok(places)
}

/// The places of the rows that are alive.
#[tactic(auto, using(crate::proofs::Unhidden::all_chosen))]
fn places_alive(alloc: Global, alive: &[bool]) -> Result<Vec<usize>, AllocError>
    ensures { IfOk result (λ v. v.items ≡ chosen alive.now (range_with_len 0 (length alive.now))) }
{
    if are_all_alive(alive) {
        let places = first_places(alloc, alive.len())?;
        return Ok(places);
    }
    let mut places = Vec::with_capacity(alloc, count_alive(alive))?;
    for i in 0..alive.len() {
        put_place(&mut places, alive[i], i)?;
    }
    Ok(places)
}

/// Whether the row at a place is alive.
fn is_alive(alive: &[bool], i: usize) -> bool
    ensures { result ≡ slice_index_or alive.now i false }
{
    match alive.get(i) {
        Some(a) => *a,
        None => false,
    }
}

/// The epochs of the rows that are alive.
fn chosen_epochs(alloc: Global, alive: &[bool], inserted: &[u64]) -> Result<Vec<u64>, AllocError>
    ensures { IfOk result (λ v. v.items ≡ chosen alive.now inserted.now) }
{
    let mut epochs = Vec::new(alloc);
    for (i, ins) in inserted.iter().enumerate() {
        put_epoch(&mut epochs, is_alive(alive, i), *ins)?;
    }
    Ok(epochs)
}

/// The same, where they are told.
fn epochs_alive(
    alloc: Global,
    stamps: bool,
    alive: &[bool],
    inserted: &[u64],
) -> Result<Vec<u64>, AllocError>
    ensures { IfOk result (λ v. stamps ≡ true → v.items ≡ chosen alive.now inserted.now) }
{
    if !stamps {
        return Ok(Vec::new(alloc));
    }
    let epochs = chosen_epochs(alloc, alive, inserted)?;
    Ok(epochs)
}

/// Those of the rows of a block that are alive, made of its columns, and their epochs, where they are told.
#[tactic(auto, using(crate::proofs::Alive::places_have, crate::proofs::Alive::places_rows))]
pub fn batch_alive(
    alloc: Global,
    stamps: bool,
    alive: &[bool],
    columns: Vec<Option<Block>>,
    inserted: &[u64],
) -> Result<Batch, AllocError>
    requires { AreLong (length alive.now) columns.items }
    ensures rows { IfOk result (λ b. b.rows ≡ chosen alive.now (rows_of columns.items (length alive.now))) }
    ensures inserted { IfOk result (λ b. stamps ≡ true → b.inserted ≡ chosen alive.now inserted.now) }
{
    let epochs = epochs_alive(alloc, stamps, alive, inserted)?;
    let places = places_alive(alloc, alive)?;
    Ok(Batch::of_columns(columns, places, epochs))
}
