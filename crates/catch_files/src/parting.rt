//! The containers of two lists, but for those that both have in the same files.

ghost use Rattle.std.specs.Prelude.{◌≡◌, ◌++◌, [], Some, IfOk, IfErr, IfSome, IsTrue, OnOk};
ghost use Rattle.std.specs.List.{All, slice_get};
ghost use Rattle.common_laws.specs.Causes.{HasCause};
ghost use Rattle.col_disk.specs.Moved.{Moved, NoName};
ghost use Rattle.stored_rows.specs.Listed.{SameFiles};
ghost use Rattle.catch_files.specs.Parting.{AreParted, CanName, IsShort, OnBoth, Turns};

use crate::files::have_same_files;
use catalog_types::Container;
use catch_model::LinkFault;
use col_disk::Disk;
use std::alloc::{AllocError, Global};

/// The containers of both that aren't shared.
#[derive(Drop)]
pub struct Others {
    pub behind: Vec<Container>,
    pub ahead: Vec<Container>,
}

fn is(first: &Container, second: &Container) -> bool
    ensures { IsTrue result → first.now ≡ second.now }
{
    first.base == second.base
        && first.rows == second.rows
        && first.least_epoch == second.least_epoch
        && first.greatest_epoch == second.greatest_epoch
        && first.level == second.level
        && first.marks == second.marks
        && first.greatest_mark == second.greatest_mark
        && first.stored == second.stored
}

/// Where a list has a container.
fn place_in(containers: &[Container], container: &Container) -> Option<usize>
    ensures { IfSome result (λ i. slice_get containers.now i ≡ Some container.now) }
{
    for i in 0..containers.len() {
        if is(&containers[i], container) {
            return Some(i);
        }
    }
    None
}

/// Where a list has a container whose files are the same.
fn shared_at<A: Disk, B: Disk>(
    alloc: Global,
    containers: &[Container],
    container: &Container,
    at: &mut A,
    from: &mut B,
) -> Result<Option<usize>, LinkFault>
    requires { CanName container.now }
    ensures place { IfOk result (λ o. IfSome o (λ i. slice_get containers.now i ≡ Some container.now)) }
    ensures same { IfOk result (λ o. IfSome o (λ i. OnBoth (A.holds at.old) (B.holds from.old) (λ m n. SameFiles m n container.now))) }
    ensures short { IfErr result IsShort }
    ensures behind_kept { A.holds at.new ≡ A.holds at.old }
    ensures behind_moved { Moved ⟦<A as Disk>⟧ NoName NoName at.old at.new }
    ensures behind_cause { HasCause LinkFault.BehindDisk (A.faults at.old) (A.faults at.new) result }
    ensures ahead_kept { B.holds from.new ≡ B.holds from.old }
    ensures ahead_moved { Moved ⟦<B as Disk>⟧ NoName NoName from.old from.new }
    ensures ahead_cause { HasCause LinkFault.AheadDisk (B.faults from.old) (B.faults from.new) result }
{
    match place_in(containers, container) {
        Some(place) => {
            if have_same_files(alloc, at, from, container)? {
                Ok(Some(place))
            } else {
                Ok(None)
            }
        }
        None => Ok(None),
    }
}

fn add_all(out: &mut Vec<Container>, containers: &[Container]) -> Result<(), AllocError>
    ensures { OnOk result (out.new.items ≡ out.old.items ++ containers.now) }
{
    for container in containers {
        out.push(*container)?;
    }
    Ok(())
}

/// One container of those behind is parted from those ahead: what is left of these is answered.
fn part_one<'a, A: Disk, B: Disk>(
    alloc: Global,
    container: &Container,
    rest: &'a [Container],
    out: &mut Others,
    at: &mut A,
    from: &mut B,
) -> Result<&'a [Container], LinkFault>
    requires { CanName container.now }
    ensures turns { IfOk result (λ left. Turns (A.holds at.old) (B.holds from.old) container.now rest.now left.now out.old.behind.items out.old.ahead.items out.new.behind.items out.new.ahead.items) }
    ensures short { IfErr result IsShort }
    ensures behind_kept { A.holds at.new ≡ A.holds at.old }
    ensures behind_moved { Moved ⟦<A as Disk>⟧ NoName NoName at.old at.new }
    ensures behind_cause { HasCause LinkFault.BehindDisk (A.faults at.old) (A.faults at.new) result }
    ensures ahead_kept { B.holds from.new ≡ B.holds from.old }
    ensures ahead_moved { Moved ⟦<B as Disk>⟧ NoName NoName from.old from.new }
    ensures ahead_cause { HasCause LinkFault.AheadDisk (B.faults from.old) (B.faults from.new) result }
{
    match shared_at(alloc, rest, container, at, from)? {
        Some(place) => {
            add_all(&mut out.ahead, &rest[..place])?;
            Ok(&rest[place + 1..])
        }
        None => {
            out.behind.push(*container)?;
            Ok(rest)
        }
    }
}

/// The containers of both, but for those that both list alike, in the same order, and whose files are the same on both disks.
pub fn parted<A: Disk, B: Disk>(
    alloc: Global,
    behind: &[Container],
    ahead: &[Container],
    at: &mut A,
    from: &mut B,
) -> Result<Others, LinkFault>
    requires { All CanName behind.now }
    ensures parted { IfOk result (λ p. AreParted (A.holds at.old) (B.holds from.old) behind.now ahead.now p.behind.items p.ahead.items) }
    ensures short { IfErr result IsShort }
    ensures behind_kept { A.holds at.new ≡ A.holds at.old }
    ensures behind_moved { Moved ⟦<A as Disk>⟧ NoName NoName at.old at.new }
    ensures behind_cause { HasCause LinkFault.BehindDisk (A.faults at.old) (A.faults at.new) result }
    ensures ahead_kept { B.holds from.new ≡ B.holds from.old }
    ensures ahead_moved { Moved ⟦<B as Disk>⟧ NoName NoName from.old from.new }
    ensures ahead_cause { HasCause LinkFault.AheadDisk (B.faults from.old) (B.faults from.new) result }
{
    let mut out = Others {
        behind: Vec::new(alloc),
        ahead: Vec::new(alloc),
    };
    let mut rest = ahead;
    for container in behind {
        rest = part_one(alloc, container, rest, &mut out, at, from)?;
    }
    add_all(&mut out.ahead, rest)?;
    Ok(out)
}
