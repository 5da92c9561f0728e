//! The two files of a column, judged: the index before the body, and of that block by block.

ghost use Rattle.std.specs.Prelude.{◌≡◌, ◌<◌, ◌+◌, ◌*◌, ◌^◌, ◌≤◌, length, map, Some, IfOk, IfErr, IfSome};
ghost use Rattle.std.specs.List.{All, slice_get};
ghost use Rattle.common_laws.specs.Causes.{HasCause};
ghost use Rattle.col_disk.specs.Moved.{Moved, NoName};
ghost use Rattle.pos_index.specs.Index.{IsIndex};
ghost use Rattle.col_file.specs.Read.{Blames};
ghost use Rattle.audit_model.specs.Listed.{file};
ghost use Rattle.audit_files.specs.Columns.{place_in, encoding_in, parts_in, MayStand, HoldsSuch, HoldsNoSuch, HasSuchBlock, HasNoSuchBlock};
ghost use Rattle.audit_files.specs.Walks.{Judges};

use crate::stored::{StoredColumn, encoding_in, may_stand, place_in};
use catalog_types::{Container, Projection};
use col_disk::{Disk, StoreFault};
use col_file::{read_index, read_values};
use col_value::Encoding;
use pos_index::PosIndex;
use ros_container::{body_of, index_of};
use std::alloc::Global;

/// Judges block k of a body, whose values are let go.
fn judge_block<D: Disk>(
    alloc: Global,
    disk: &mut D,
    entry: &Container,
    column: StoredColumn,
    body: u64,
    at: &PosIndex,
    encoding: Encoding,
    k: usize,
) -> Result<(), StoreFault>
    requires { k < length at.now.entries }
    ensures found { IfSome (slice_get at.now.entries k) (λ e. IfOk result (λ _. HasSuchBlock (MayStand entry.now column) encoding body at.now.rows e (slice_get at.now.entries (k + 1)) (D.holds disk.old))) }
    ensures blamed { IfSome (slice_get at.now.entries k) (λ e. IfErr result (Blames body (HasNoSuchBlock (MayStand entry.now column) encoding body at.now.rows e (slice_get at.now.entries (k + 1)) (D.holds disk.old)))) }
    ensures kept { D.holds disk.new ≡ D.holds disk.old }
    ensures moved { Moved ⟦<D as Disk>⟧ NoName NoName disk.old disk.new }
    ensures cause { HasCause StoreFault.Disk (D.faults disk.old) (D.faults disk.new) result }
{
    let values = match read_values(alloc, disk, body, at, encoding, k) {
        Ok(values) => values,
        Err(fault) => return Err(fault),
    };
    if may_stand(entry, column, &values) {
        Ok(())
    } else {
        Err(StoreFault::Damaged(body))
    }
}

/// Judges a body by the index that was read of it.
fn judge_body<D: Disk>(
    alloc: Global,
    disk: &mut D,
    entry: &Container,
    column: StoredColumn,
    body: u64,
    at: &PosIndex,
    encoding: Encoding,
) -> Result<(), StoreFault>
    requires { IsIndex at.now }
    ensures found { IfOk result (λ _. HoldsSuch (MayStand entry.now column) encoding body at.now (D.holds disk.old)) }
    ensures blamed { IfErr result (Blames body (HoldsNoSuch (MayStand entry.now column) encoding body at.now (D.holds disk.old))) }
    ensures kept { D.holds disk.new ≡ D.holds disk.old }
    ensures moved { Moved ⟦<D as Disk>⟧ NoName NoName disk.old disk.new }
    ensures cause { HasCause StoreFault.Disk (D.faults disk.old) (D.faults disk.new) result }
{
    for k in 0..at.entries.as_slice().len() {
        match judge_block(alloc, disk, entry, column, body, at, encoding, k) {
            Ok(()) => {}
            Err(fault) => return Err(fault),
        }
    }
    Ok(())
}

/// Judges the two files of a column.
pub fn judge_column<D: Disk>(
    alloc: Global,
    disk: &mut D,
    shape: &Projection,
    entry: &Container,
    column: StoredColumn,
) -> Result<(), StoreFault>
    requires place { place_in entry.now column ≤ entry.now.stored }
    requires numbers { entry.now.base + 2 * entry.now.stored + 1 < 2 ^ 62 }
    ensures judged { Judges (D.holds disk.old) (map (file shape.now entry.now) (parts_in column)) result }
    ensures kept { D.holds disk.new ≡ D.holds disk.old }
    ensures moved { Moved ⟦<D as Disk>⟧ NoName NoName disk.old disk.new }
    ensures cause { HasCause StoreFault.Disk (D.faults disk.old) (D.faults disk.new) result }
{
    let place = place_in(entry, column);
    let encoding = encoding_in(shape, column);
    let at = match read_index(alloc, disk, index_of(entry.base, place), entry.rows) {
        Ok(at) => at,
        Err(fault) => return Err(fault),
    };
    judge_body(
        alloc,
        disk,
        entry,
        column,
        body_of(entry.base, place),
        &at,
        encoding,
    )
}
