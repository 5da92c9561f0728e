//! How the rows of a block that may be wanted are found.

ghost use Rattle.std.specs.Prelude.{◌≡◌, ◌<◌, ◌+◌, ◌-◌, ◌*◌, true, false, min, length, replicate, None, IfOk, IfErr, IfSome, IsSome, OnOk};
ghost use Rattle.std.specs.List.{All, Any};
ghost use Rattle.common_laws.specs.Causes.{HasCause};
ghost use Rattle.col_disk.specs.Moved.{Moved, NoName};
ghost use Rattle.pos_index.specs.Index.{blocks};
ghost use Rattle.ros_container.specs.Encodings.{written_of};
ghost use Rattle.ros_container.specs.Held.{BlamesContainer};
ghost use Rattle.container_blocks.specs.Blocks.{AreBlock, AreEpochs, HasIndex, IsIndexOf};
ghost use Rattle.wanted_rows.specs.Wanted.{need_in};
ghost use Rattle.ros_container.specs.Readable.{IsReadable};
ghost use Rattle.proj_store.specs.Blocks.{HasIndexes, in_list};
ghost use Rattle.proj_store.specs.Candidates.{AreCandidates, AreRead, HaveRows, Narrows, NarrowsBy, columns_in};

use crate::alive::{has_any, narrow, undeleted};
use crate::rows::Candidates;
use block_codec::Block;
use catalog_types::{Container, Projection};
use col_disk::{Disk, StoreFault};
use container_blocks::uncounted::{block, epochs};
use pos_index::PosIndex;
use std::alloc::{AllocError, Global};
use wanted_rows::Wants;

/// Whether a row of each value of block k may be wanted, as the index says.
fn spares(at: &PosIndex, k: usize, column: usize, wants: &Wants) -> bool {
    match at.entries.as_slice().get(k) {
        Some(entry) => wants.has_all_between(column, &entry.least, &entry.greatest),
        None => false,
    }
}

/// Rows of block k with a value that no wanted row has in a column are alive no more. None is tried where the index spares it.
fn narrow_spared(
    alive: &mut [bool],
    values: &Block,
    at: &PosIndex,
    k: usize,
    column: usize,
    wants: &Wants,
)
    requires { length alive.old ≡ length values.now }
    ensures long { length alive.new ≡ length alive.old }
    ensures narrows { NarrowsBy column values.now (need_in wants.now) alive.old alive.new }
{
    if !spares(at, k, column, wants) {
        narrow(alive, values, column, wants);
    }
}

/// Column i of block k is read, where it isn't yet; rows with a value that no wanted row has there are alive no more. Where only columns are
/// wanted in which all wanted rows have one value, another one isn't read.
fn look<D: Disk>(
    alloc: Global,
    disk: &mut D,
    entry: &Projection,
    container: &Container,
    at: &PosIndex,
    i: usize,
    k: usize,
    wants: &Wants,
    singles: bool,
    alive: &mut [bool],
    column: &mut Option<Block>,
) -> Result<(), StoreFault>
    requires numbers { IsReadable entry.now.columns container.now }
    requires column { i < length entry.now.columns }
    requires index { IsIndexOf container.now.rows at.now }
    requires block { k < blocks container.now.rows }
    requires alive { length alive.old ≡ min 1024 (container.now.rows - 1024 * k) }
    ensures long { length alive.new ≡ length alive.old }
    ensures narrows { OnOk result (HasIndex (written_of entry.now) container.now i at.now (D.holds disk.old) → Narrows (D.holds disk.old) (written_of entry.now) container.now k (need_in wants.now) alive.old alive.new) }
    ensures there { OnOk result (singles ≡ false → IsSome column.new) }
    ensures read { OnOk result (HasIndex (written_of entry.now) container.now i at.now (D.holds disk.old) → IfSome column.old (AreBlock (D.holds disk.old) (written_of entry.now) container.now i k) → IfSome column.new (AreBlock (D.holds disk.old) (written_of entry.now) container.now i k)) }
    ensures blamed { IfErr result (λ fault. HasIndex (written_of entry.now) container.now i at.now (D.holds disk.old) → BlamesContainer (written_of entry.now) container.now (D.holds disk.old) fault) }
    ensures kept { D.holds disk.new ≡ D.holds disk.old }
    ensures moved { Moved ⟦<D as Disk>⟧ NoName NoName disk.old disk.new }
    ensures cause { HasCause StoreFault.Disk (D.faults disk.old) (D.faults disk.new) result }
{
    if column.is_some() || singles && !wants.is_single(i) {
        return Ok(());
    }
    match block(alloc, disk, container, at, entry, i, k) {
        Ok(values) => {
            narrow_spared(alive, &values, at, k, i, wants);
            *column = Some(values);
            Ok(())
        }
        Err(fault) => Err(fault),
    }
}

/// The columns of block k are read for as long as some row is alive, all of them or only those in which all wanted rows have one value; rows
/// with a value that no wanted row has are alive no more.
fn look_each<D: Disk>(
    alloc: Global,
    disk: &mut D,
    entry: &Projection,
    container: &Container,
    indexes: &[PosIndex],
    k: usize,
    wants: &Wants,
    singles: bool,
    alive: &mut [bool],
    columns: &mut [Option<Block>],
) -> Result<(), StoreFault>
    requires numbers { IsReadable entry.now.columns container.now }
    requires many { length indexes.now ≡ length entry.now.columns + 1 }
    requires fit { All (IsIndexOf container.now.rows) indexes.now }
    requires block { k < blocks container.now.rows }
    requires alive { length alive.old ≡ min 1024 (container.now.rows - 1024 * k) }
    requires columns { length columns.old ≡ length entry.now.columns }
    ensures long { length alive.new ≡ length alive.old }
    ensures columns { length columns.new ≡ length columns.old }
    ensures narrows { OnOk result (HasIndexes (written_of entry.now) container.now (D.holds disk.old) indexes.now → Narrows (D.holds disk.old) (written_of entry.now) container.now k (need_in wants.now) alive.old alive.new) }
    ensures read { OnOk result (HasIndexes (written_of entry.now) container.now (D.holds disk.old) indexes.now → AreRead (D.holds disk.old) (written_of entry.now) container.now k columns.old → AreRead (D.holds disk.old) (written_of entry.now) container.now k columns.new) }
    ensures rows { OnOk result (singles ≡ false → HasIndexes (written_of entry.now) container.now (D.holds disk.old) indexes.now → AreRead (D.holds disk.old) (written_of entry.now) container.now k columns.old → HaveRows (D.holds disk.old) (written_of entry.now) container.now k alive.new (columns_in columns.new)) }
    ensures blamed { IfErr result (λ fault. HasIndexes (written_of entry.now) container.now (D.holds disk.old) indexes.now → BlamesContainer (written_of entry.now) container.now (D.holds disk.old) fault) }
    ensures kept { D.holds disk.new ≡ D.holds disk.old }
    ensures moved { Moved ⟦<D as Disk>⟧ NoName NoName disk.old disk.new }
    ensures cause { HasCause StoreFault.Disk (D.faults disk.old) (D.faults disk.new) result }
{
    for i in 0..columns.len() {
        if !has_any(alive) {
            return Ok(());
        }
        match look(
            alloc,
            disk,
            entry,
            container,
            &indexes[i],
            i,
            k,
            wants,
            singles,
            alive,
            &mut columns[i],
        ) {
            Ok(()) => {}
            Err(fault) => return Err(fault),
        }
    }
    Ok(())
}

/// The columns of block k, none of which is read, are read for as long as some row is alive. Those in which all wanted rows have one value
/// come first: where none of the rows has it, no other column is read.
fn look_through<D: Disk>(
    alloc: Global,
    disk: &mut D,
    entry: &Projection,
    container: &Container,
    indexes: &[PosIndex],
    k: usize,
    wants: &Wants,
    alive: &mut [bool],
    columns: &mut [Option<Block>],
) -> Result<(), StoreFault>
    requires numbers { IsReadable entry.now.columns container.now }
    requires many { length indexes.now ≡ length entry.now.columns + 1 }
    requires fit { All (IsIndexOf container.now.rows) indexes.now }
    requires block { k < blocks container.now.rows }
    requires alive { length alive.old ≡ min 1024 (container.now.rows - 1024 * k) }
    requires columns { length columns.old ≡ length entry.now.columns }
    ensures long { length alive.new ≡ length alive.old }
    ensures columns { length columns.new ≡ length columns.old }
    ensures narrows { OnOk result (HasIndexes (written_of entry.now) container.now (D.holds disk.old) indexes.now → Narrows (D.holds disk.old) (written_of entry.now) container.now k (need_in wants.now) alive.old alive.new) }
    ensures rows { OnOk result (HasIndexes (written_of entry.now) container.now (D.holds disk.old) indexes.now → AreRead (D.holds disk.old) (written_of entry.now) container.now k columns.old → HaveRows (D.holds disk.old) (written_of entry.now) container.now k alive.new (columns_in columns.new)) }
    ensures blamed { IfErr result (λ fault. HasIndexes (written_of entry.now) container.now (D.holds disk.old) indexes.now → BlamesContainer (written_of entry.now) container.now (D.holds disk.old) fault) }
    ensures kept { D.holds disk.new ≡ D.holds disk.old }
    ensures moved { Moved ⟦<D as Disk>⟧ NoName NoName disk.old disk.new }
    ensures cause { HasCause StoreFault.Disk (D.faults disk.old) (D.faults disk.new) result }
{
    match look_each(
        alloc, disk, entry, container, indexes, k, wants, true, alive, columns,
    ) {
        Ok(()) => {}
        Err(fault) => return Err(fault),
    }
    look_each(
        alloc, disk, entry, container, indexes, k, wants, false, alive, columns,
    )
}

/// So many columns, none of which is read.
fn none_read(alloc: Global, count: usize) -> Result<Vec<Option<Block>>, AllocError>
    ensures { IfOk result (λ v. v.items ≡ replicate count None) }
{
    let mut columns = Vec::with_capacity(alloc, count)?;
    for _ in 0..count {
        columns.push(None)?;
    }
    Ok(columns)
}

/// The columns of block k, as far as they are read for rows that are alive; rows that aren't wanted are alive no more.
fn read_columns<D: Disk>(
    alloc: Global,
    disk: &mut D,
    entry: &Projection,
    container: &Container,
    indexes: &[PosIndex],
    k: usize,
    wants: &Wants,
    alive: &mut [bool],
) -> Result<Vec<Option<Block>>, StoreFault>
    requires numbers { IsReadable entry.now.columns container.now }
    requires many { length indexes.now ≡ length entry.now.columns + 1 }
    requires fit { All (IsIndexOf container.now.rows) indexes.now }
    requires block { k < blocks container.now.rows }
    requires alive { length alive.old ≡ min 1024 (container.now.rows - 1024 * k) }
    ensures long { length alive.new ≡ length alive.old }
    ensures narrows { IfOk result (λ v. HasIndexes (written_of entry.now) container.now (D.holds disk.old) indexes.now → Narrows (D.holds disk.old) (written_of entry.now) container.now k (need_in wants.now) alive.old alive.new) }
    ensures rows { IfOk result (λ v. HasIndexes (written_of entry.now) container.now (D.holds disk.old) indexes.now → HaveRows (D.holds disk.old) (written_of entry.now) container.now k alive.new (columns_in v.items)) }
    ensures blamed { IfErr result (λ fault. HasIndexes (written_of entry.now) container.now (D.holds disk.old) indexes.now → BlamesContainer (written_of entry.now) container.now (D.holds disk.old) fault) }
    ensures kept { D.holds disk.new ≡ D.holds disk.old }
    ensures moved { Moved ⟦<D as Disk>⟧ NoName NoName disk.old disk.new }
    ensures cause { HasCause StoreFault.Disk (D.faults disk.old) (D.faults disk.new) result }
{
    let mut columns = match none_read(alloc, entry.columns.as_slice().len()) {
        Ok(columns) => columns,
        Err(AllocError) => return Err(StoreFault::Memory),
    };
    let read = columns.as_mut_slice();
    match look_through(
        alloc, disk, entry, container, indexes, k, wants, alive, read,
    ) {
        Ok(()) => Ok(columns),
        Err(fault) => Err(fault),
    }
}

/// The epochs that inserted the rows of block k; they aren't read where no row is alive.
fn stamps<D: Disk>(
    alloc: Global,
    disk: &mut D,
    entry: &Projection,
    container: &Container,
    at: &PosIndex,
    k: usize,
    alive: &[bool],
) -> Result<Vec<u64>, StoreFault>
    requires numbers { IsReadable entry.now.columns container.now }
    requires index { IsIndexOf container.now.rows at.now }
    requires block { k < blocks container.now.rows }
    ensures found { IfOk result (λ v. Any (λ a. a ≡ true) alive.now → HasIndex (written_of entry.now) container.now (length entry.now.columns) at.now (D.holds disk.old) → AreEpochs (D.holds disk.old) (written_of entry.now) container.now k v.items) }
    ensures blamed { IfErr result (λ fault. HasIndex (written_of entry.now) container.now (length entry.now.columns) at.now (D.holds disk.old) → BlamesContainer (written_of entry.now) container.now (D.holds disk.old) fault) }
    ensures kept { D.holds disk.new ≡ D.holds disk.old }
    ensures moved { Moved ⟦<D as Disk>⟧ NoName NoName disk.old disk.new }
    ensures cause { HasCause StoreFault.Disk (D.faults disk.old) (D.faults disk.new) result }
{
    if has_any(alive) {
        epochs(alloc, disk, container, at, entry, k)
    } else {
        Ok(Vec::new(alloc))
    }
}

/// How many of so many rows stand in block k.
fn rows_of(rows: u64, k: usize) -> usize
    requires { k < blocks rows }
    ensures { result ≡ min 1024 (rows - 1024 * k) }
{
    (rows - 1024 * k as u64).min(1024) as usize
}

/// The rows of block k that may be wanted.
pub fn find_candidates<D: Disk>(
    alloc: Global,
    disk: &mut D,
    entry: &Projection,
    container: &Container,
    indexes: &[PosIndex],
    deletes: &[Option<u64>],
    k: usize,
    wants: &Wants,
) -> Result<Candidates, StoreFault>
    requires numbers { IsReadable entry.now.columns container.now }
    requires many { length indexes.now ≡ length entry.now.columns + 1 }
    requires fit { All (IsIndexOf container.now.rows) indexes.now }
    requires block { k < blocks container.now.rows }
    ensures found { IfOk result (λ v. HasIndexes (written_of entry.now) container.now (D.holds disk.old) indexes.now → AreCandidates (D.holds disk.old) (written_of entry.now) container.now (in_list deletes.now) k (need_in wants.now) v) }
    ensures long { IfOk result (λ v. length v ≡ min 1024 (container.now.rows - 1024 * k)) }
    ensures blamed { IfErr result (λ fault. HasIndexes (written_of entry.now) container.now (D.holds disk.old) indexes.now → BlamesContainer (written_of entry.now) container.now (D.holds disk.old) fault) }
    ensures kept { D.holds disk.new ≡ D.holds disk.old }
    ensures moved { Moved ⟦<D as Disk>⟧ NoName NoName disk.old disk.new }
    ensures cause { HasCause StoreFault.Disk (D.faults disk.old) (D.faults disk.new) result }
{
    let mut alive = match undeleted(alloc, rows_of(container.rows, k), deletes, 1024 * k) {
        Ok(alive) => alive,
        Err(AllocError) => return Err(StoreFault::Memory),
    };
    let looked = alive.as_mut_slice();
    let columns = match read_columns(alloc, disk, entry, container, indexes, k, wants, looked) {
        Ok(columns) => columns,
        Err(fault) => return Err(fault),
    };
    let at = &indexes[entry.columns.as_slice().len()];
    match stamps(alloc, disk, entry, container, at, k, alive.as_slice()) {
        Ok(stamps) => Ok(Candidates {
            alive,
            stamps,
            columns,
        }),
        Err(fault) => Err(fault),
    }
}
