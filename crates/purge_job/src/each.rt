//! The containers of a projection, one after the other.

ghost use Rattle.std.specs.Prelude.{◌≡◌, ◌≤◌, ◌+◌, ◌*◌, ◌++◌, length, Some, IfOk, IfErr, OnOk};
ghost use Rattle.std.specs.List.{All};
ghost use Rattle.common_laws.specs.Causes.{HasCause};
ghost use Rattle.common_laws.specs.Maps.{Contents};
ghost use Rattle.col_disk.specs.Moved.{Moved, NoName};
ghost use Rattle.container_cut.specs.Blamed.{BlamesProjection};
ghost use Rattle.container_writer.specs.Writing.{listed, DataFrom};
ghost use Rattle.moveout_job.specs.OnDisk.{IsKeptOrHasVector, IsListedBelow};
ghost use Rattle.ros_container.specs.Encodings.{written_of};
ghost use Rattle.purge_job.specs.Purging.{CanLoad, PurgesEach};

use crate::one::purge_container;
use catalog_types::Container;
use col_disk::{Disk, StoreFault};
use proj_store::ProjStore;
use std::alloc::{AllocError, Global};

/// The containers that took the places of others, and the next number that is free.
#[derive(Drop)]
pub struct AllPurged {
    pub containers: Vec<Container>,
    pub next: u64,
}

fn add(containers: &mut Vec<Container>, container: Option<Container>) -> Result<(), AllocError>
    ensures { OnOk result (containers.new.items ≡ containers.old.items ++ listed container) }
{
    match container {
        Some(container) => containers.push(container)?,
        None => {}
    }
    Ok(())
}

/// What of the containers of a projection is retained from a mark on.
pub fn purge_each<D: Disk>(
    alloc: Global,
    disk: &mut D,
    p: &ProjStore,
    mark: u64,
    next: u64,
) -> Result<AllPurged, StoreFault>
    ensures purged { IfOk result (λ r. PurgesEach mark (written_of p.now.stored.entry) next r.next p.now.stored.entry.containers p.now.stored.beside r.containers.items (D.holds disk.old) (D.holds disk.new)) }
    ensures loads { IfOk result (λ r. All (CanLoad p.now.stored.entry.columns) r.containers.items) }
    ensures vectors { IfOk result (λ r. (n : Contents) → D.holds disk.new ≡ Some n → All (IsKeptOrHasVector r.next n p.now.stored.entry.containers) r.containers.items) }
    ensures fewer { IfOk result (λ r. length r.containers.items ≤ length p.now.stored.entry.containers) }
    ensures next { IfOk result (λ r. next ≤ r.next) }
    ensures upto { IfOk result (λ r. r.next ≤ next + length p.now.stored.entry.containers * (2 * length p.now.stored.entry.columns + 3)) }
    ensures blamed { IfErr result (λ fault. IsListedBelow next p.now.stored.entry → BlamesProjection p.now.stored.entry (D.holds disk.old) fault) }
    ensures moved { Moved ⟦<D as Disk>⟧ (DataFrom next) NoName disk.old disk.new }
    ensures cause { HasCause StoreFault.Disk (D.faults disk.old) (D.faults disk.new) result }
{
    let shape = p.entry();
    let containers = shape.containers.as_slice();
    let mut out = Vec::new(alloc);
    let mut after = next;
    for (i, container) in containers.iter().enumerate() {
        let (held, fresh) = (p.vector(i), p.fresh_marks(i));
        let done = match purge_container(alloc, disk, shape, container, held, fresh, mark, after) {
            Ok(done) => done,
            Err(fault) => return Err(fault),
        };
        after = done.next;
        match add(&mut out, done.container) {
            Ok(()) => {}
            Err(AllocError) => return Err(StoreFault::Memory),
        }
    }
    Ok(AllPurged {
        containers: out,
        next: after,
    })
}
