//! A container at hand.

ghost use Rattle.std.specs.Prelude.{◌≡◌, ◌<◌, ◌+◌, ◌*◌, ◌^◌, length, IfOk, IfErr, Some, option_copied};
ghost use Rattle.std.specs.Option.{IfSome};
ghost use Rattle.std.specs.List.{All, AllZip, slice_get};
ghost use Rattle.common_laws.specs.Causes.{HasCause};
ghost use Rattle.col_disk.specs.Moved.{Moved, NoName};
ghost use Rattle.ros_container.specs.Encodings.{written_of};
ghost use Rattle.ros_container.specs.Held.{BlamesContainer};
ghost use Rattle.ros_container.specs.Readable.{IsReadable};
ghost use Rattle.proj_store.specs.Sound.{MarksItsRows};
ghost use Rattle.stored_rows.specs.Stored.{Beside};
ghost use Rattle.exec_scan.specs.Opened.{IsNeeded, HoldsNeeded, IsOpening, HasOpened};
ghost use Rattle.exec_scan.specs.Scanning.{AreOwn};

use catalog_types::{Container, Projection};
use col_disk::{Disk, StoreFault};
use del_vector::Mark;
use proj_store::{Indexes, SharedIndex, deletes_of};
use std::alloc::{AllocError, Global};
use std::marker::Model;

/// The indexes of the columns of a container that are needed, that of its epochs, and the delete epochs of its rows.
#[derive(Drop)]
pub struct Opened {
    pub indexes: Vec<Option<SharedIndex>>,
    pub epochs: SharedIndex,
    pub deletes: Vec<Option<u64>>,
}

impl Model for Opened {
    ghost use Rattle.exec_scan.specs.Opened.{Opening};

    ghost Value = { Opening };

    ghost view = { λ o. record { indexes = o.indexes.items; epochs = o.epochs; deletes = o.deletes.items } };
}

/// The index of a column, where it is needed.
fn index_at<D: Disk>(
    alloc: Global,
    disk: &mut D,
    known: &Indexes,
    entry: &Container,
    shape: &Projection,
    place: Option<usize>,
) -> Result<Option<SharedIndex>, StoreFault>
    requires numbers { IsReadable shape.now.columns entry.now }
    requires own { IfSome place (λ i. i < length shape.now.columns) }
    ensures needed { IfOk result (IsNeeded entry.now.rows place) }
    ensures held { IfOk result (HoldsNeeded (written_of shape.now) entry.now (D.holds disk.old) place) }
    ensures blamed { IfErr result (BlamesContainer (written_of shape.now) entry.now (D.holds disk.old)) }
    ensures kept { D.holds disk.new ≡ D.holds disk.old }
    ensures moved { Moved ⟦<D as Disk>⟧ NoName NoName disk.old disk.new }
    ensures cause { HasCause StoreFault.Disk (D.faults disk.old) (D.faults disk.new) result }
{
    match place {
        Some(place) => match known.index(alloc, disk, entry, shape, place) {
            Ok(at) => Ok(Some(at)),
            Err(fault) => Err(fault),
        },
        None => Ok(None),
    }
}

/// The index of each column that is needed.
fn indexes_of<D: Disk>(
    alloc: Global,
    disk: &mut D,
    known: &Indexes,
    entry: &Container,
    shape: &Projection,
    places: &[Option<usize>],
) -> Result<Vec<Option<SharedIndex>>, StoreFault>
    requires numbers { IsReadable shape.now.columns entry.now }
    requires own { AreOwn shape.now places.now }
    ensures needed { IfOk result (λ v. AllZip (IsNeeded entry.now.rows) places.now v.items) }
    ensures held { IfOk result (λ v. AllZip (HoldsNeeded (written_of shape.now) entry.now (D.holds disk.old)) places.now v.items) }
    ensures blamed { IfErr result (BlamesContainer (written_of shape.now) entry.now (D.holds disk.old)) }
    ensures kept { D.holds disk.new ≡ D.holds disk.old }
    ensures moved { Moved ⟦<D as Disk>⟧ NoName NoName disk.old disk.new }
    ensures cause { HasCause StoreFault.Disk (D.faults disk.old) (D.faults disk.new) result }
{
    let mut out = Vec::new(alloc);
    for place in places {
        let at = match index_at(alloc, disk, known, entry, shape, *place) {
            Ok(at) => at,
            Err(fault) => return Err(fault),
        };
        match out.push(at) {
            Ok(()) => {}
            Err(_) => return Err(StoreFault::Memory),
        }
    }
    Ok(out)
}

/// A container at hand, with its delete vector and the marks that came since.
pub fn open<D: Disk>(
    alloc: Global,
    disk: &mut D,
    known: &Indexes,
    entry: &Container,
    shape: &Projection,
    held: &[Mark],
    fresh: &[Mark],
    places: &[Option<usize>],
) -> Result<Opened, StoreFault>
    requires numbers { IsReadable shape.now.columns entry.now }
    requires own { AreOwn shape.now places.now }
    requires marks { MarksItsRows entry.now (record { held = held.now; fresh = fresh.now }) }
    ensures opening { IfOk result (IsOpening entry.now.rows places.now) }
    ensures opened { IfOk result (HasOpened (written_of shape.now) entry.now (length shape.now.columns) (record { held = held.now; fresh = fresh.now }) places.now (D.holds disk.old)) }
    ensures blamed { IfErr result (BlamesContainer (written_of shape.now) entry.now (D.holds disk.old)) }
    ensures kept { D.holds disk.new ≡ D.holds disk.old }
    ensures moved { Moved ⟦<D as Disk>⟧ NoName NoName disk.old disk.new }
    ensures cause { HasCause StoreFault.Disk (D.faults disk.old) (D.faults disk.new) result }
{
    let indexes = match indexes_of(alloc, disk, known, entry, shape, places) {
        Ok(indexes) => indexes,
        Err(fault) => return Err(fault),
    };
    let epochs = match known.index(alloc, disk, entry, shape, shape.columns.as_slice().len()) {
        Ok(epochs) => epochs,
        Err(fault) => return Err(fault),
    };
    match deletes_of(alloc, entry.rows as usize, held, fresh) {
        Ok(deletes) => Ok(Opened {
            indexes,
            epochs,
            deletes,
        }),
        Err(AllocError) => Err(StoreFault::Memory),
    }
}
