//! Places of wanted rows in a projection's containers.

ghost use Rattle.std.specs.Prelude.{◌≡◌, ◌≤◌, ◌<◌, ◌+◌, ◌++◌, ◌∷◌, ◌^◌, ℕ, [], None, Some, List, length, map, get_or, IfOk, IfErr, IfSome, IsTrue, OnOk};
ghost use Rattle.std.specs.List.{All, AllZip};
ghost use Rattle.common_laws.specs.Causes.{HasCause};
ghost use Rattle.common_laws.specs.Maps.{Contents};
ghost use Rattle.col_disk.specs.Moved.{Moved, NoName};
ghost use Rattle.col_value.specs.declared.row.Asked.{Asked as ARow};
ghost use Rattle.ros_container.specs.Encodings.{written_of};
ghost use Rattle.pos_index.specs.Index.{blocks};
ghost use Rattle.ros_container.specs.Held.{HoldsContainer, BlamesContainer};
ghost use Rattle.container_blocks.specs.Blocks.{IsIndexOf};
ghost use Rattle.wanted_rows.specs.Wanted.{asked_in, need_in, IsNext};
ghost use Rattle.wanted_rows.specs.Picked.{Picks, PicksFrom, TriesSome};
ghost use Rattle.proj_store.specs.Blocks.{HasIndexes, PicksOn, in_list};
ghost use Rattle.proj_store.specs.Loaded.{beside_of};
ghost use Rattle.proj_store.specs.Sound.{MarksItsRows, IsSound};
ghost use Rattle.ros_container.specs.Readable.{IsReadable};
ghost use Rattle.proj_store.specs.Reading.{BlamesRows};
ghost use Rattle.proj_store.specs.Marking.{PicksIn, PicksEach, ArePlaces};

use crate::blocks::indexes_of;
use crate::candidates::find_candidates;
use crate::deletes::kept_deletes;
use crate::kept::Kept;
use crate::passing::misses_block;
use crate::rows::Candidates;
use catalog_types::{Container, Projection};
use col_disk::{Disk, StoreFault};
use col_value::List;
use pos_index::{PosIndex, blocks_of};
use std::alloc::{AllocError, Global};
use wanted_rows::Wants;

/// Whether the row at a place may be wanted and is the one that is expected next.
fn is_next(some: &Candidates, i: usize, wants: &Wants) -> bool
    ensures { IsTrue result → IfSome (get_or some.now i None) (λ row. IsNext wants.now (asked_in row)) }
{
    match wants.next() {
        Some(asked) => some.is(i, asked),
        None => false,
    }
}

/// Takes the row at a place, where it is wanted; answers whether it did. It isn't made where it is the one that is expected next.
fn try_at(alloc: Global, some: &Candidates, i: usize, wants: &mut Wants) -> Result<bool, AllocError>
    ensures { IfOk result (λ taken. TriesSome taken (get_or some.now i None) (need_in wants.old) (need_in wants.new)) }
{
    if !some.has(i) || wants.is_done() {
        return Ok(false);
    }
    if is_next(some, i, wants) {
        wants.take_next();
        return Ok(true);
    }
    match some.row(alloc, i)? {
        Some(row) => wants.take(alloc, &row),
        None => Ok(false),
    }
}

/// Picks places of candidates that stand from a place on, each once for each time that it is wanted, until no other of them is wanted.
/// The places come behind those that are there.
fn pick_from(
    alloc: Global,
    some: &Candidates,
    first: usize,
    wants: &mut Wants,
    places: &mut Vec<usize>,
) -> Result<(), AllocError>
    requires { first + length some.now < 2 ^ 64 }
    ensures picked { OnOk result (PicksFrom first some.now places.old.items places.new.items (need_in wants.old) (need_in wants.new)) }
    ensures inside { OnOk result ((n : ℕ) → first + length some.now ≤ n → All (λ p. p < n) places.old.items → All (λ p. p < n) places.new.items) }
    ensures fewer { OnOk result ((q : ARow) → need_in wants.new q ≤ need_in wants.old q) }
{
    for i in 0..some.len() {
        if try_at(alloc, some, i, wants)? {
            places.push(first + i)?;
        }
    }
    Ok(())
}

/// Places of block k come to those of the blocks before it. It isn't read where nothing is wanted any more, nor where an index says that
/// none of its rows is.
fn pick_block<D: Disk>(
    alloc: Global,
    disk: &mut D,
    entry: &Projection,
    container: &Container,
    indexes: &[PosIndex],
    deletes: &[Option<u64>],
    k: usize,
    wants: &mut Wants,
    places: &mut Vec<usize>,
) -> Result<(), StoreFault>
    requires numbers { IsReadable entry.now.columns container.now }
    requires many { length indexes.now ≡ length entry.now.columns + 1 }
    requires fit { All (IsIndexOf container.now.rows) indexes.now }
    requires block { k < blocks container.now.rows }
    ensures found { OnOk result (HasIndexes (written_of entry.now) container.now (D.holds disk.old) indexes.now → PicksOn (D.holds disk.old) (written_of entry.now) container.now (in_list deletes.now) k places.old.items places.new.items (need_in wants.old) (need_in wants.new)) }
    ensures inside { OnOk result (ArePlaces container.now places.old.items → ArePlaces container.now places.new.items) }
    ensures fewer { OnOk result ((q : ARow) → need_in wants.new q ≤ need_in wants.old q) }
    ensures blamed { IfErr result (λ fault. HasIndexes (written_of entry.now) container.now (D.holds disk.old) indexes.now → BlamesContainer (written_of entry.now) container.now (D.holds disk.old) fault) }
    ensures kept { D.holds disk.new ≡ D.holds disk.old }
    ensures moved { Moved ⟦<D as Disk>⟧ NoName NoName disk.old disk.new }
    ensures cause { HasCause StoreFault.Disk (D.faults disk.old) (D.faults disk.new) result }
{
    if wants.is_done() {
        return Ok(());
    }
    let columns = entry.columns.as_slice().len();
    if misses_block(indexes, columns, k, wants) {
        return Ok(());
    }
    let some = match find_candidates(alloc, disk, entry, container, indexes, deletes, k, wants) {
        Ok(some) => some,
        Err(fault) => return Err(fault),
    };
    match pick_from(alloc, &some, 1024 * k, wants, places) {
        Ok(()) => Ok(()),
        Err(AllocError) => Err(StoreFault::Memory),
    }
}

/// Places of all blocks of a container, by its indexes and the delete epochs of its rows.
fn pick_blocks<D: Disk>(
    alloc: Global,
    disk: &mut D,
    entry: &Projection,
    container: &Container,
    indexes: &[PosIndex],
    deletes: &[Option<u64>],
    wants: &mut Wants,
) -> Result<Vec<usize>, StoreFault>
    requires numbers { IsReadable entry.now.columns container.now }
    requires many { length indexes.now ≡ length entry.now.columns + 1 }
    requires fit { All (IsIndexOf container.now.rows) indexes.now }
    ensures found { IfOk result (λ places. HasIndexes (written_of entry.now) container.now (D.holds disk.old) indexes.now → (m : Contents) → D.holds disk.old ≡ Some m → (rows : List ARow) → HoldsContainer m (written_of entry.now) container.now rows → Picks (in_list deletes.now) rows places.items (need_in wants.old) (need_in wants.new)) }
    ensures inside { IfOk result (λ places. ArePlaces container.now places.items) }
    ensures fewer { IfOk result (λ places. (q : ARow) → need_in wants.new q ≤ need_in wants.old q) }
    ensures blamed { IfErr result (λ fault. HasIndexes (written_of entry.now) container.now (D.holds disk.old) indexes.now → BlamesContainer (written_of entry.now) container.now (D.holds disk.old) fault) }
    ensures kept { D.holds disk.new ≡ D.holds disk.old }
    ensures moved { Moved ⟦<D as Disk>⟧ NoName NoName disk.old disk.new }
    ensures cause { HasCause StoreFault.Disk (D.faults disk.old) (D.faults disk.new) result }
{
    let mut places = Vec::new(alloc);
    for k in 0..blocks_of(container.rows) as usize {
        match pick_block(
            alloc,
            disk,
            entry,
            container,
            indexes,
            deletes,
            k,
            wants,
            &mut places,
        ) {
            Ok(()) => {}
            Err(fault) => return Err(fault),
        }
    }
    Ok(places)
}

fn no_places(alloc: Global) -> List<usize>
    ensures { result ≡ [] }
{
    List::new(Vec::new(alloc))
}

/// Places of one container, whose rows are read block by block. No index is read where nothing is wanted any more.
fn pick_read<D: Disk>(
    alloc: Global,
    disk: &mut D,
    entry: &Projection,
    container: &Container,
    kept: &Kept,
    wants: &mut Wants,
) -> Result<List<usize>, StoreFault>
    requires numbers { IsReadable entry.now.columns container.now }
    requires kept { MarksItsRows container.now (beside_of kept.now) }
    ensures found { IfOk result (λ places. (m : Contents) → D.holds disk.old ≡ Some m → PicksIn m (written_of entry.now) container.now (beside_of kept.now) places (need_in wants.old) (need_in wants.new)) }
    ensures inside { IfOk result (ArePlaces container.now) }
    ensures fewer { IfOk result (λ places. (q : ARow) → need_in wants.new q ≤ need_in wants.old q) }
    ensures blamed { IfErr result (BlamesContainer (written_of entry.now) container.now (D.holds disk.old)) }
    ensures kept { D.holds disk.new ≡ D.holds disk.old }
    ensures moved { Moved ⟦<D as Disk>⟧ NoName NoName disk.old disk.new }
    ensures cause { HasCause StoreFault.Disk (D.faults disk.old) (D.faults disk.new) result }
{
    if wants.is_done() {
        return Ok(no_places(alloc));
    }
    let indexes = match indexes_of(alloc, disk, entry, container) {
        Ok(indexes) => indexes,
        Err(fault) => return Err(fault),
    };
    let deletes = match kept_deletes(alloc, container, kept) {
        Ok(deletes) => deletes,
        Err(AllocError) => return Err(StoreFault::Memory),
    };
    match pick_blocks(
        alloc,
        disk,
        entry,
        container,
        indexes.as_slice(),
        deletes.as_slice(),
        wants,
    ) {
        Ok(places) => Ok(List::new(places)),
        Err(fault) => Err(fault),
    }
}

/// Places of one container. It is passed over unread where no row of its epochs is wanted.
fn pick_in<D: Disk>(
    alloc: Global,
    disk: &mut D,
    entry: &Projection,
    container: &Container,
    kept: &Kept,
    wants: &mut Wants,
) -> Result<List<usize>, StoreFault>
    requires numbers { IsReadable entry.now.columns container.now }
    requires kept { MarksItsRows container.now (beside_of kept.now) }
    ensures found { IfOk result (λ places. (m : Contents) → D.holds disk.old ≡ Some m → PicksIn m (written_of entry.now) container.now (beside_of kept.now) places (need_in wants.old) (need_in wants.new)) }
    ensures inside { IfOk result (ArePlaces container.now) }
    ensures fewer { IfOk result (λ places. (q : ARow) → need_in wants.new q ≤ need_in wants.old q) }
    ensures blamed { IfErr result (BlamesContainer (written_of entry.now) container.now (D.holds disk.old)) }
    ensures kept { D.holds disk.new ≡ D.holds disk.old }
    ensures moved { Moved ⟦<D as Disk>⟧ NoName NoName disk.old disk.new }
    ensures cause { HasCause StoreFault.Disk (D.faults disk.old) (D.faults disk.new) result }
{
    if wants.may_have_epoch_between(container.least_epoch, container.greatest_epoch) {
        pick_read(alloc, disk, entry, container, kept, wants)
    } else {
        Ok(no_places(alloc))
    }
}

/// Places of one container come behind those of the containers before it.
fn pick_more<D: Disk>(
    alloc: Global,
    disk: &mut D,
    entry: &Projection,
    container: &Container,
    kept: &Kept,
    wants: &mut Wants,
    each: &mut Vec<List<usize>>,
) -> Result<(), StoreFault>
    requires numbers { IsReadable entry.now.columns container.now }
    requires kept { MarksItsRows container.now (beside_of kept.now) }
    ensures more { OnOk result ((places : List ℕ) × (each.new.items ≡ each.old.items ++ places ∷ []) × ArePlaces container.now places × ((m : Contents) → D.holds disk.old ≡ Some m → PicksIn m (written_of entry.now) container.now (beside_of kept.now) places (need_in wants.old) (need_in wants.new))) }
    ensures blamed { IfErr result (BlamesContainer (written_of entry.now) container.now (D.holds disk.old)) }
    ensures kept { D.holds disk.new ≡ D.holds disk.old }
    ensures moved { Moved ⟦<D as Disk>⟧ NoName NoName disk.old disk.new }
    ensures cause { HasCause StoreFault.Disk (D.faults disk.old) (D.faults disk.new) result }
{
    let places = match pick_in(alloc, disk, entry, container, kept, wants) {
        Ok(places) => places,
        Err(fault) => return Err(fault),
    };
    match each.push(places) {
        Ok(()) => {}
        Err(_) => return Err(StoreFault::Memory),
    }
    Ok(())
}

/// Places of one container after the other.
pub fn pick_each<D: Disk>(
    alloc: Global,
    disk: &mut D,
    entry: &Projection,
    kept: &[Kept],
    wants: &mut Wants,
) -> Result<Vec<List<usize>>, StoreFault>
    requires sound { IsSound entry.now (map beside_of kept.now) }
    ensures found { IfOk result (λ each. (m : Contents) → D.holds disk.old ≡ Some m → PicksEach m (written_of entry.now) entry.now.containers (map beside_of kept.now) each.items (need_in wants.old) (need_in wants.new)) }
    ensures inside { IfOk result (λ each. AllZip ArePlaces entry.now.containers each.items) }
    ensures blamed { IfErr result (BlamesRows entry.now (D.holds disk.old)) }
    ensures kept { D.holds disk.new ≡ D.holds disk.old }
    ensures moved { Moved ⟦<D as Disk>⟧ NoName NoName disk.old disk.new }
    ensures cause { HasCause StoreFault.Disk (D.faults disk.old) (D.faults disk.new) result }
{
    let containers = entry.containers.as_slice();
    let mut each = Vec::new(alloc);
    for (i, container) in containers.iter().enumerate() {
        match pick_more(alloc, disk, entry, container, &kept[i], wants, &mut each) {
            Ok(()) => {}
            Err(fault) => return Err(fault),
        }
    }
    Ok(each)
}
