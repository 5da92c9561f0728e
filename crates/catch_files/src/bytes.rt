//! Whether a file is the same on both disks.

ghost use Rattle.std.specs.Prelude.{◌≡◌, IsTrue, IfOk, IfErr, IsErrOf};
ghost use Rattle.std.specs.Bool.{OnTrue};
ghost use Rattle.std.specs.Option.{option_map};
ghost use Rattle.common_laws.specs.Causes.{HasCause};
ghost use Rattle.col_disk.specs.Calls.{AnswersPart, AnswersSize};
ghost use Rattle.col_disk.specs.Moved.{Moved, NoName};
ghost use Rattle.catch_files.specs.Parting.{IsLong, IsShort, OnBoth, SameFile, SamePiece};

use catch_model::LinkFault;
use col_disk::{Disk, DiskFault};
use std::alloc::Global;

// So many bytes are held of a file at once.
const PIECE: usize = 1 << 20;

fn behind_fault(fault: DiskFault) -> LinkFault
    ensures own { result ≡ LinkFault.BehindDisk → fault ≡ DiskFault.Failed }
    ensures other { result ≡ LinkFault.AheadDisk → ⊥ }
    ensures short { IsShort result }
{
    match fault {
        DiskFault::Failed => LinkFault::BehindDisk,
        DiskFault::Memory => LinkFault::Memory,
    }
}

fn ahead_fault(fault: DiskFault) -> LinkFault
    ensures own { result ≡ LinkFault.AheadDisk → fault ≡ DiskFault.Failed }
    ensures other { result ≡ LinkFault.BehindDisk → ⊥ }
    ensures short { IsShort result }
{
    match fault {
        DiskFault::Failed => LinkFault::AheadDisk,
        DiskFault::Memory => LinkFault::Memory,
    }
}

fn size_behind<A: Disk>(at: &mut A, name: u64) -> Result<Option<u64>, LinkFault>
    ensures answer { IfOk result (AnswersSize name (A.holds at.old)) }
    ensures short { IfErr result IsShort }
    ensures own { IsErrOf result LinkFault.AheadDisk → ⊥ }
    ensures kept { A.holds at.new ≡ A.holds at.old }
    ensures moved { Moved ⟦<A as Disk>⟧ NoName NoName at.old at.new }
    ensures cause { HasCause LinkFault.BehindDisk (A.faults at.old) (A.faults at.new) result }
{
    match at.size(name) {
        Ok(size) => Ok(size),
        Err(fault) => Err(behind_fault(fault)),
    }
}

fn size_ahead<B: Disk>(from: &mut B, name: u64) -> Result<Option<u64>, LinkFault>
    ensures answer { IfOk result (AnswersSize name (B.holds from.old)) }
    ensures short { IfErr result IsShort }
    ensures own { IsErrOf result LinkFault.BehindDisk → ⊥ }
    ensures kept { B.holds from.new ≡ B.holds from.old }
    ensures moved { Moved ⟦<B as Disk>⟧ NoName NoName from.old from.new }
    ensures cause { HasCause LinkFault.AheadDisk (B.faults from.old) (B.faults from.new) result }
{
    match from.size(name) {
        Ok(size) => Ok(size),
        Err(fault) => Err(ahead_fault(fault)),
    }
}

/// A piece of a file, from a place on.
fn piece_behind<A: Disk>(
    alloc: Global,
    at: &mut A,
    name: u64,
    place: u64,
) -> Result<Option<Vec<u8>>, LinkFault>
    ensures answer { IfOk result (AnswersPart name place 1048576 (A.holds at.old)) }
    ensures short { IfErr result IsShort }
    ensures own { IsErrOf result LinkFault.AheadDisk → ⊥ }
    ensures kept { A.holds at.new ≡ A.holds at.old }
    ensures moved { Moved ⟦<A as Disk>⟧ NoName NoName at.old at.new }
    ensures cause { HasCause LinkFault.BehindDisk (A.faults at.old) (A.faults at.new) result }
{
    match at.read(alloc, name, place, PIECE) {
        Ok(piece) => Ok(piece),
        Err(fault) => Err(behind_fault(fault)),
    }
}

fn piece_ahead<B: Disk>(
    alloc: Global,
    from: &mut B,
    name: u64,
    place: u64,
) -> Result<Option<Vec<u8>>, LinkFault>
    ensures answer { IfOk result (AnswersPart name place 1048576 (B.holds from.old)) }
    ensures short { IfErr result IsShort }
    ensures own { IsErrOf result LinkFault.BehindDisk → ⊥ }
    ensures kept { B.holds from.new ≡ B.holds from.old }
    ensures moved { Moved ⟦<B as Disk>⟧ NoName NoName from.old from.new }
    ensures cause { HasCause LinkFault.AheadDisk (B.faults from.old) (B.faults from.new) result }
{
    match from.read(alloc, name, place, PIECE) {
        Ok(piece) => Ok(piece),
        Err(fault) => Err(ahead_fault(fault)),
    }
}

fn are_same(first: Option<Vec<u8>>, second: Option<Vec<u8>>) -> bool
    ensures { IsTrue result → option_map (λ v. v.items) first ≡ option_map (λ v. v.items) second }
{
    match (first, second) {
        (Some(first), Some(second)) => first.as_slice() == second.as_slice(),
        (None, None) => true,
        _ => false,
    }
}

/// Whether a piece is the same in both.
fn is_same_piece<A: Disk, B: Disk>(
    alloc: Global,
    at: &mut A,
    from: &mut B,
    name: u64,
    place: u64,
) -> Result<bool, LinkFault>
    ensures same { IfOk result (λ r. OnTrue r (OnBoth (A.holds at.old) (B.holds from.old) (SamePiece name place))) }
    ensures short { IfErr result IsShort }
    ensures behind_kept { A.holds at.new ≡ A.holds at.old }
    ensures behind_moved { Moved ⟦<A as Disk>⟧ NoName NoName at.old at.new }
    ensures behind_cause { HasCause LinkFault.BehindDisk (A.faults at.old) (A.faults at.new) result }
    ensures ahead_kept { B.holds from.new ≡ B.holds from.old }
    ensures ahead_moved { Moved ⟦<B as Disk>⟧ NoName NoName from.old from.new }
    ensures ahead_cause { HasCause LinkFault.AheadDisk (B.faults from.old) (B.faults from.new) result }
{
    let first = piece_behind(alloc, at, name, place)?;
    let second = piece_ahead(alloc, from, name, place)?;
    Ok(are_same(first, second))
}

/// Whether all bytes are the same of a file that has so many in both.
fn have_same_bytes<A: Disk, B: Disk>(
    alloc: Global,
    at: &mut A,
    from: &mut B,
    name: u64,
    len: u64,
) -> Result<bool, LinkFault>
    ensures same { IfOk result (λ r. OnTrue r (OnBoth (A.holds at.old) (B.holds from.old) (λ m n. IsLong name len m → IsLong name len n → SameFile name m n))) }
    ensures short { IfErr result IsShort }
    ensures behind_kept { A.holds at.new ≡ A.holds at.old }
    ensures behind_moved { Moved ⟦<A as Disk>⟧ NoName NoName at.old at.new }
    ensures behind_cause { HasCause LinkFault.BehindDisk (A.faults at.old) (A.faults at.new) result }
    ensures ahead_kept { B.holds from.new ≡ B.holds from.old }
    ensures ahead_moved { Moved ⟦<B as Disk>⟧ NoName NoName from.old from.new }
    ensures ahead_cause { HasCause LinkFault.AheadDisk (B.faults from.old) (B.faults from.new) result }
{
    let mut done: u64 = 0;
    while len - done > PIECE as u64 {
        if !is_same_piece(alloc, at, from, name, done)? {
            return Ok(false);
        }
        done += PIECE as u64;
    }
    is_same_piece(alloc, at, from, name, done)
}

/// Whether a file is the same in both.
pub fn is_same_file<A: Disk, B: Disk>(
    alloc: Global,
    at: &mut A,
    from: &mut B,
    name: u64,
) -> Result<bool, LinkFault>
    ensures same { IfOk result (λ r. OnTrue r (OnBoth (A.holds at.old) (B.holds from.old) (SameFile name))) }
    ensures short { IfErr result IsShort }
    ensures behind_kept { A.holds at.new ≡ A.holds at.old }
    ensures behind_moved { Moved ⟦<A as Disk>⟧ NoName NoName at.old at.new }
    ensures behind_cause { HasCause LinkFault.BehindDisk (A.faults at.old) (A.faults at.new) result }
    ensures ahead_kept { B.holds from.new ≡ B.holds from.old }
    ensures ahead_moved { Moved ⟦<B as Disk>⟧ NoName NoName from.old from.new }
    ensures ahead_cause { HasCause LinkFault.AheadDisk (B.faults from.old) (B.faults from.new) result }
{
    let first = size_behind(at, name)?;
    let second = size_ahead(from, name)?;
    match (first, second) {
        (Some(len), Some(other)) if len == other => have_same_bytes(alloc, at, from, name, len),
        (None, None) => Ok(true),
        _ => Ok(false),
    }
}
