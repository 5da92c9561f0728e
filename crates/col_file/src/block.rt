//! Reading one block of a column.

ghost use Rattle.std.specs.Prelude.{◌≡◌, ◌≢◌, ◌+◌, ◌<◌, ◌-◌, length, Err, IfOk, IfErr, IfSome, option_map};
ghost use Rattle.std.specs.List.{slice_get};
ghost use Rattle.common_laws.specs.Causes.{HasCause};
ghost use Rattle.col_disk.specs.Calls.{AnswersPart};
ghost use Rattle.col_disk.specs.Moved.{Moved, NoName};
ghost use Rattle.block_choice.specs.Choice.{SpellsAs};
ghost use Rattle.col_file.specs.Read.{Blames, SpellsBlock, IsBlock, AnswersPiece, IsNoPiece, AreValues};

use crate::checks::are_values;
use crate::read::fault_of;
use block_choice::decode;
use block_codec::Block;
use col_disk::{Disk, StoreFault};
use col_value::Encoding;
use common_laws::Steps;
use pos_index::{Entry, PosIndex};
use std::alloc::{AllocError, Global};
use std::sync::ledger::Ledger;

/// The bytes of a file from one place to another, or to its end.
fn read_to<D: Disk>(
    alloc: Global,
    disk: &mut D,
    name: u64,
    at: u64,
    end: u64,
) -> Result<Option<Vec<u8>>, StoreFault>
    ensures answer { IfOk result (AnswersPart name at (end - at) (D.holds disk.old)) }
    ensures blamed { IfErr result (Blames name ⊥) }
    ensures kept { D.holds disk.new ≡ D.holds disk.old }
    ensures moved { Moved ⟦<D as Disk>⟧ NoName NoName disk.old disk.new }
    ensures cause { HasCause StoreFault.Disk (D.faults disk.old) (D.faults disk.new) result }
{
    match disk.read(alloc, name, at, end.saturating_sub(at) as usize) {
        Ok(bytes) => Ok(bytes),
        Err(fault) => Err(fault_of(fault)),
    }
}

/// The bytes of a block: from its place to the next one's, or to the end of the file.
fn piece_of<D: Disk>(
    alloc: Global,
    disk: &mut D,
    name: u64,
    entry: &Entry,
    next: Option<&Entry>,
) -> Result<Option<Vec<u8>>, StoreFault>
    ensures answer { IfOk result (AnswersPiece name entry.now (option_map (λ n. n.now) next.entry) (D.holds disk.old)) }
    ensures blamed { IfErr result (Blames name ⊥) }
    ensures kept { D.holds disk.new ≡ D.holds disk.old }
    ensures moved { Moved ⟦<D as Disk>⟧ NoName NoName disk.old disk.new }
    ensures cause { HasCause StoreFault.Disk (D.faults disk.old) (D.faults disk.new) result }
{
    match next {
        Some(next) => read_to(alloc, disk, name, entry.place, next.place),
        None => match disk.size(name) {
            Ok(Some(end)) => read_to(alloc, disk, name, entry.place, end),
            Ok(None) => Ok(None),
            Err(fault) => Err(fault_of(fault)),
        },
    }
}

/// The values of the block that the bytes are; the name is blamed where they are none of this entry.
#[tactic(auto, using(crate::proofs::Blocks::block_is, crate::proofs::Blocks::block_not))]
fn values_in(
    alloc: Global,
    bytes: &[u8],
    name: u64,
    rows: u64,
    entry: &Entry,
    encoding: Encoding,
) -> Result<Block, StoreFault>
    ensures found { IfOk result (λ v. IsBlock rows entry.now v × SpellsAs encoding v bytes.now) }
    ensures blamed { IfErr result (Blames name (SpellsBlock encoding rows entry.now bytes.now → ⊥)) }
    ensures no_cause { result ≢ Err StoreFault.Disk }
{
    match decode(alloc, encoding, bytes) {
        Ok(Some(values)) => {
            if are_values(&values, rows, entry) {
                Ok(values)
            } else {
                Err(StoreFault::Damaged(name))
            }
        }
        Ok(None) => Err(StoreFault::Damaged(name)),
        Err(AllocError) => Err(StoreFault::Memory),
    }
}

/// The values of the block of this entry, which ends where the next begins.
fn block_values<D: Disk>(
    alloc: Global,
    disk: &mut D,
    name: u64,
    rows: u64,
    entry: &Entry,
    next: Option<&Entry>,
    encoding: Encoding,
) -> Result<Block, StoreFault>
    ensures found { IfOk result (λ v. AreValues encoding name rows entry.now (option_map (λ n. n.now) next.entry) (D.holds disk.old) v) }
    ensures blamed { IfErr result (Blames name (IsNoPiece encoding name rows entry.now (option_map (λ n. n.now) next.entry) (D.holds disk.old))) }
    ensures kept { D.holds disk.new ≡ D.holds disk.old }
    ensures moved { Moved ⟦<D as Disk>⟧ NoName NoName disk.old disk.new }
    ensures cause { HasCause StoreFault.Disk (D.faults disk.old) (D.faults disk.new) result }
{
    match piece_of(alloc, disk, name, entry, next) {
        Ok(Some(bytes)) => values_in(alloc, bytes.as_slice(), name, rows, entry, encoding),
        Ok(None) => Err(StoreFault::Damaged(name)),
        Err(fault) => Err(fault),
    }
}

/// The values of block k of a column. Of the file only the block's bytes are read, from its place to the next block's, of the
/// last to the end of the file. A block of an AUTO column may be in any of the encodings, of another in its own alone.
/// `Damaged(body)` comes only where the file is absent, or the bytes of the block are no block of as many values as the index says, each
/// from the block's least to its greatest.
pub fn read_values<D: Disk>(
    alloc: Global,
    disk: &mut D,
    body: u64,
    at: &PosIndex,
    encoding: Encoding,
    k: usize,
) -> Result<Block, StoreFault>
    requires { k < length at.now.entries }
    ensures found { IfSome (slice_get at.now.entries k) (λ e. IfOk result (λ v. AreValues encoding body at.now.rows e (slice_get at.now.entries (k + 1)) (D.holds disk.old) v)) }
    ensures blamed { IfSome (slice_get at.now.entries k) (λ e. IfErr result (Blames body (IsNoPiece encoding body at.now.rows e (slice_get at.now.entries (k + 1)) (D.holds disk.old)))) }
    ensures kept { D.holds disk.new ≡ D.holds disk.old }
    ensures moved { Moved ⟦<D as Disk>⟧ NoName NoName disk.old disk.new }
    ensures cause { HasCause StoreFault.Disk (D.faults disk.old) (D.faults disk.new) result }
{
    let entries = at.entries.as_slice();
    let next = entries.get(k + 1);
    block_values(alloc, disk, body, at.rows, &entries[k], next, encoding)
}

/// The same, counted as one step.
pub fn read_block<D: Disk, L: Ledger>(
    alloc: Global,
    disk: &mut D,
    body: u64,
    at: &PosIndex,
    encoding: Encoding,
    k: usize,
    steps: &mut Steps<L>,
) -> Result<Block, StoreFault>
    requires { k < length at.now.entries }
    ensures found { IfSome (slice_get at.now.entries k) (λ e. IfOk result (λ v. AreValues encoding body at.now.rows e (slice_get at.now.entries (k + 1)) (D.holds disk.old) v)) }
    ensures blamed { IfSome (slice_get at.now.entries k) (λ e. IfErr result (Blames body (IsNoPiece encoding body at.now.rows e (slice_get at.now.entries (k + 1)) (D.holds disk.old)))) }
    ensures step { steps.new ≡ steps.old + 1 }
    ensures kept { D.holds disk.new ≡ D.holds disk.old }
    ensures moved { Moved ⟦<D as Disk>⟧ NoName NoName disk.old disk.new }
    ensures cause { HasCause StoreFault.Disk (D.faults disk.old) (D.faults disk.new) result }
{
    steps.tick();
    read_values(alloc, disk, body, at, encoding, k)
}
