//! Whether the files of a container are the same on both disks.

ghost use Rattle.std.specs.Prelude.{◌≡◌, IfOk, IfErr};
ghost use Rattle.std.specs.Bool.{OnTrue};
ghost use Rattle.common_laws.specs.Causes.{HasCause};
ghost use Rattle.col_disk.specs.Moved.{Moved, NoName};
ghost use Rattle.stored_rows.specs.Listed.{SameFiles};
ghost use Rattle.catch_files.specs.Parting.{CanName, IsShort, OnBoth, SameColumns, SameVector};

use crate::bytes::is_same_file;
use catalog_types::Container;
use catch_model::LinkFault;
use col_disk::Disk;
use std::alloc::Global;

/// Whether the files of its columns and of its epochs are.
fn have_same_columns<A: Disk, B: Disk>(
    alloc: Global,
    at: &mut A,
    from: &mut B,
    container: &Container,
) -> Result<bool, LinkFault>
    requires { CanName container.now }
    ensures same { IfOk result (λ r. OnTrue r (OnBoth (A.holds at.old) (B.holds from.old) (SameColumns container.now))) }
    ensures short { IfErr result IsShort }
    ensures behind_kept { A.holds at.new ≡ A.holds at.old }
    ensures behind_moved { Moved ⟦<A as Disk>⟧ NoName NoName at.old at.new }
    ensures behind_cause { HasCause LinkFault.BehindDisk (A.faults at.old) (A.faults at.new) result }
    ensures ahead_kept { B.holds from.new ≡ B.holds from.old }
    ensures ahead_moved { Moved ⟦<B as Disk>⟧ NoName NoName from.old from.new }
    ensures ahead_cause { HasCause LinkFault.AheadDisk (B.faults from.old) (B.faults from.new) result }
{
    for j in 0..2 * (container.stored + 1) {
        if !is_same_file(alloc, at, from, 4 * (container.base + j))? {
            return Ok(false);
        }
    }
    Ok(true)
}

/// Whether its delete vector is.
fn have_same_vector<A: Disk, B: Disk>(
    alloc: Global,
    at: &mut A,
    from: &mut B,
    container: &Container,
) -> Result<bool, LinkFault>
    requires { CanName container.now }
    ensures same { IfOk result (λ r. OnTrue r (OnBoth (A.holds at.old) (B.holds from.old) (SameVector container.now))) }
    ensures short { IfErr result IsShort }
    ensures behind_kept { A.holds at.new ≡ A.holds at.old }
    ensures behind_moved { Moved ⟦<A as Disk>⟧ NoName NoName at.old at.new }
    ensures behind_cause { HasCause LinkFault.BehindDisk (A.faults at.old) (A.faults at.new) result }
    ensures ahead_kept { B.holds from.new ≡ B.holds from.old }
    ensures ahead_moved { Moved ⟦<B as Disk>⟧ NoName NoName from.old from.new }
    ensures ahead_cause { HasCause LinkFault.AheadDisk (B.faults from.old) (B.faults from.new) result }
{
    match container.marks {
        Some(number) => is_same_file(alloc, at, from, 4 * number),
        None => Ok(true),
    }
}

/// Whether all its files are.
pub fn have_same_files<A: Disk, B: Disk>(
    alloc: Global,
    at: &mut A,
    from: &mut B,
    container: &Container,
) -> Result<bool, LinkFault>
    requires { CanName container.now }
    ensures same { IfOk result (λ r. OnTrue r (OnBoth (A.holds at.old) (B.holds from.old) (λ m n. SameFiles m n container.now))) }
    ensures short { IfErr result IsShort }
    ensures behind_kept { A.holds at.new ≡ A.holds at.old }
    ensures behind_moved { Moved ⟦<A as Disk>⟧ NoName NoName at.old at.new }
    ensures behind_cause { HasCause LinkFault.BehindDisk (A.faults at.old) (A.faults at.new) result }
    ensures ahead_kept { B.holds from.new ≡ B.holds from.old }
    ensures ahead_moved { Moved ⟦<B as Disk>⟧ NoName NoName from.old from.new }
    ensures ahead_cause { HasCause LinkFault.AheadDisk (B.faults from.old) (B.faults from.new) result }
{
    if !have_same_vector(alloc, at, from, container)? {
        return Ok(false);
    }
    have_same_columns(alloc, at, from, container)
}
