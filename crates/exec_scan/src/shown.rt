//! Which rows of a block are shown at an epoch.

ghost use Rattle.std.specs.Prelude.{◌≡◌, ◌<◌, ◌+◌, ◌^◌, ◌++◌, ◌∷◌, ◌↔◌, [], map, false, true, if◌then◌else◌, IfOk, OnOk, IsTrue, nat_le, slice_index_or, None};
ghost use Rattle.std.specs.List.{Any, range_with_len};
ghost use Rattle.std.specs.Option.{option_map_or};
ghost use Rattle.exec_scan.specs.Batches.{is_shown};

use std::alloc::{AllocError, Global};

/// Whether a row was inserted up to an epoch. Where no epochs are given all rows were.
fn is_early(epoch: u64, inserted: &[u64], i: usize) -> bool
    ensures { result ≡ nat_le (slice_index_or inserted.now i 0) epoch }
{
    match inserted.get(i) {
        Some(ins) => *ins <= epoch,
        None => true,
    }
}

/// Whether a row is deleted up to an epoch.
fn is_gone(epoch: u64, deletes: &[Option<u64>], i: usize) -> bool
    ensures { result ≡ option_map_or (λ e. nat_le e epoch) (slice_index_or deletes.now i None) false }
{
    match deletes.get(i) {
        Some(Some(del)) => *del <= epoch,
        Some(None) | None => false,
    }
}

/// Whether the row at a place of a block is shown, whose first row stands at place `first` of the container.
fn is_shown(epoch: u64, inserted: &[u64], deletes: &[Option<u64>], first: usize, i: usize) -> bool
    requires { first + i < 2 ^ 64 }
    ensures { result ≡ is_shown epoch inserted.now deletes.now first i }
{
    is_early(epoch, inserted, i) && !is_gone(epoch, deletes, first + i)
}

/// Which of the first rows of a block are shown, of which the first one stands at place `first` of the container.
pub fn shown_rows(
    alloc: Global,
    epoch: u64,
    inserted: &[u64],
    deletes: &[Option<u64>],
    first: usize,
    count: usize,
) -> Result<Vec<bool>, AllocError>
    requires { first + count < 2 ^ 64 }
    ensures { IfOk result (λ v. v.items ≡ map (is_shown epoch inserted.now deletes.now first) (range_with_len 0 count)) }
{
    if inserted.is_empty() && deletes.is_empty() {
        let shown = vec![in alloc; true; count]?;
        return Ok(shown);
    }
    let mut shown = Vec::with_capacity(alloc, count)?;
    for i in 0..count {
        shown.push(is_shown(epoch, inserted, deletes, first, i))?;
    }
    Ok(shown)
}

/// Whether some row is alive.
pub fn has_any(alive: &[bool]) -> bool
    ensures { IsTrue result ↔ Any (λ a. a ≡ true) alive.now }
{
    alive.iter().any(|a| *a)
}

/// Appends an epoch, if its row is shown.
pub fn put_epoch(epochs: &mut Vec<u64>, shown: bool, epoch: u64) -> Result<(), AllocError>
    ensures { OnOk result (epochs.new.items ≡ epochs.old.items ++ (if shown then epoch ∷ [] else [])) }
{
    if shown {
        epochs.push(epoch)?;
        return Ok(());
    }
    Ok(())
}
