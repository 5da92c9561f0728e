//! The epochs of the rows of a block.

ghost use Rattle.std.specs.Prelude.{◌≡◌, ◌+◌, ◌<◌, ◌*◌, ◌-◌, ℕ, List, pos, min, length, map, false, true, IfOk, IfErr, IfSome, IfNone};
ghost use Rattle.std.specs.List.{All};
ghost use Rattle.block_codec.specs.Held.{number_value};
ghost use Rattle.common_laws.specs.Causes.{HasCause};
ghost use Rattle.col_disk.specs.Moved.{Moved, NoName};
ghost use Rattle.col_value.specs.declared.value.Value.TheVariants.{Int};
ghost use Rattle.pos_index.specs.Index.{blocks};
ghost use Rattle.ros_container.specs.Encodings.{written_of};
ghost use Rattle.ros_container.specs.Held.{BlamesContainer};
ghost use Rattle.ros_container.specs.Readable.{IsReadable};
ghost use Rattle.ros_container.specs.Rows.{IsWithin, IsEpochOf};
ghost use Rattle.container_blocks.specs.Blocks.{IsIndexOf, HasIndex, AreEpochs};

use crate::reading::part;
use block_codec::{Block, number_value};
use catalog_types::{Container, Projection};
use col_disk::{Disk, StoreFault};
use col_value::{Encoding, Value};
use common_laws::Steps;
use pos_index::PosIndex;
use ros_container::{body_of, epoch_of};
use std::alloc::{AllocError, Global};
use std::sync::ledger::Ledger;

/// The epochs that some values are. None where some value is no epoch of the entry.
fn epochs_of(
    alloc: Global,
    entry: &Container,
    values: &Block,
) -> Result<Option<Vec<u64>>, AllocError>
    ensures found { IfOk result (λ o. IfSome o (λ v. map (λ epoch. Int (pos epoch)) v.items ≡ values.now)) }
    ensures within { IfOk result (λ o. IfSome o (λ v. All (IsWithin entry.now) v.items)) }
    ensures none { IfOk result (λ o. IfNone o (All (IsEpochOf entry.now) values.now → ⊥)) }
{
    let mut epochs = Vec::with_capacity(alloc, values.len())?;
    for i in 0..values.len() {
        let cell = values.cell(i);
        match epoch_of(entry, cell.value()) {
            Some(epoch) => epochs.push(epoch)?,
            None => return Ok(None),
        }
    }
    Ok(Some(epochs))
}

/// Whether a value is an epoch of the entry.
fn is_epoch(entry: &Container, value: &Value) -> bool
    ensures yes { result ≡ true → IsEpochOf entry.now value.now }
    ensures no { result ≡ false → IsEpochOf entry.now value.now → ⊥ }
{
    epoch_of(entry, value).is_some()
}

/// Whether each of some values is an epoch of the entry.
fn words_are_epochs(entry: &Container, words: &[Value]) -> bool
    ensures yes { result ≡ true → All (IsEpochOf entry.now) words.now }
{
    for word in words {
        if !is_epoch(entry, word) {
            return false;
        }
    }
    true
}

/// Whether each of some numbers of a lane stands for an epoch of the entry.
fn numbers_are_epochs(entry: &Container, numbers: &[i64]) -> bool
    ensures yes { result ≡ true → All (λ n. IsEpochOf entry.now (number_value n)) numbers.now }
{
    for n in numbers {
        if !is_epoch(entry, &number_value(*n)) {
            return false;
        }
    }
    true
}

/// Whether the lanes of a block show that each of its values is an epoch of the entry.
fn lanes_are_epochs(entry: &Container, values: &Block) -> bool
    ensures yes { result ≡ true → All (IsEpochOf entry.now) values.now }
{
    if let Some((words, _)) = values.coded() {
        return words_are_epochs(entry, words);
    }
    match values.numbers() {
        Some(numbers) => numbers_are_epochs(entry, numbers),
        None => false,
    }
}

/// Whether each value of a block is an epoch of the entry.
fn are_epochs(entry: &Container, values: &Block) -> bool
    ensures yes { result ≡ true → All (IsEpochOf entry.now) values.now }
    ensures no { result ≡ false → All (IsEpochOf entry.now) values.now → ⊥ }
{
    if lanes_are_epochs(entry, values) {
        return true;
    }
    for i in 0..values.len() {
        let cell = values.cell(i);
        if !is_epoch(entry, cell.value()) {
            return false;
        }
    }
    true
}

/// The epochs that inserted the rows of block k, by the index that `index` read of the column behind the projection's
/// columns. `Damaged` names the body of the epochs, which is absent, has no block of such values there, or has a value there
/// that isn't from the entry's least to its greatest epoch. It counts as a step.
pub fn epochs<D: Disk, L: Ledger>(
    alloc: Global,
    disk: &mut D,
    entry: &Container,
    at: &PosIndex,
    shape: &Projection,
    k: usize,
    steps: &mut Steps<L>,
) -> Result<Vec<u64>, StoreFault>
    requires entry { IsReadable shape.now.columns entry.now }
    requires index { IsIndexOf entry.now.rows at.now }
    requires block { k < blocks entry.now.rows }
    ensures found { IfOk result (λ v. HasIndex (written_of shape.now) entry.now (length shape.now.columns) at.now (D.holds disk.old) → AreEpochs (D.holds disk.old) (written_of shape.now) entry.now k v.items) }
    ensures long { IfOk result (λ v. length v.items ≡ min 1024 (entry.now.rows - 1024 * k)) }
    ensures within { IfOk result (λ v. All (IsWithin entry.now) v.items) }
    ensures blamed { IfErr result (λ fault. HasIndex (written_of shape.now) entry.now (length shape.now.columns) at.now (D.holds disk.old) → BlamesContainer (written_of shape.now) entry.now (D.holds disk.old) fault) }
    ensures step { steps.new ≡ steps.old + 1 }
    ensures kept { D.holds disk.new ≡ D.holds disk.old }
    ensures moved { Moved ⟦<D as Disk>⟧ NoName NoName disk.old disk.new }
    ensures cause { HasCause StoreFault.Disk (D.faults disk.old) (D.faults disk.new) result }
{
    let place = entry.stored as usize;
    let values = match part(alloc, disk, entry, at, place, Encoding::Auto, k, steps) {
        Ok(values) => values,
        Err(fault) => return Err(fault),
    };
    match epochs_of(alloc, entry, &values) {
        Ok(Some(epochs)) => Ok(epochs),
        Ok(None) => Err(StoreFault::Damaged(body_of(entry.base, place))),
        Err(AllocError) => Err(StoreFault::Memory),
    }
}

/// Reads the epochs that inserted the rows of block k as `epochs` does, where only their file is in question: Ok says that there are such
/// epochs. `Damaged` names the body of the epochs, which is absent, has no block of such values there, or has a value there
/// that isn't from the entry's least to its greatest epoch. It counts as a step.
pub fn look_at_epochs<D: Disk, L: Ledger>(
    alloc: Global,
    disk: &mut D,
    entry: &Container,
    at: &PosIndex,
    shape: &Projection,
    k: usize,
    steps: &mut Steps<L>,
) -> Result<(), StoreFault>
    requires entry { IsReadable shape.now.columns entry.now }
    requires index { IsIndexOf entry.now.rows at.now }
    requires block { k < blocks entry.now.rows }
    ensures found { IfOk result (λ x. HasIndex (written_of shape.now) entry.now (length shape.now.columns) at.now (D.holds disk.old) → (v : List ℕ) × AreEpochs (D.holds disk.old) (written_of shape.now) entry.now k v × All (IsWithin entry.now) v) }
    ensures blamed { IfErr result (λ fault. HasIndex (written_of shape.now) entry.now (length shape.now.columns) at.now (D.holds disk.old) → BlamesContainer (written_of shape.now) entry.now (D.holds disk.old) fault) }
    ensures step { steps.new ≡ steps.old + 1 }
    ensures kept { D.holds disk.new ≡ D.holds disk.old }
    ensures moved { Moved ⟦<D as Disk>⟧ NoName NoName disk.old disk.new }
    ensures cause { HasCause StoreFault.Disk (D.faults disk.old) (D.faults disk.new) result }
{
    let column = entry.stored as usize;
    let values = match part(alloc, disk, entry, at, column, Encoding::Auto, k, steps) {
        Ok(values) => values,
        Err(fault) => return Err(fault),
    };
    if are_epochs(entry, &values) {
        Ok(())
    } else {
        Err(StoreFault::Damaged(body_of(entry.base, column)))
    }
}
