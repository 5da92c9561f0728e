//! The store ahead commits between the second call and the third.

ghost use Rattle.std.specs.Prelude.{◌↔◌, IfOk, IsTrue};
ghost use Rattle.std.specs.List.{All};
ghost use Rattle.col_value.specs.Order.{IsRow};

use buddy_link::{Link, LinkFault, Store};
use catch_rows::ahead_fault;
use col_disk::{DiskFault, MemDisk, StoreFault};
use col_value::{Asked, ColType, Column, List, Name, Row, Stamped, Value};
use row_matching::table_history;
use std::alloc::{AllocError, Global};
use std::test::Fail;
use value_bytes::is_value;

const TABLE: &[u8] = b"t";

fn is_row(values: &[Value]) -> bool
    ensures { IsTrue result ↔ IsRow values.now }
{
    values.iter().all(|value| is_value(value))
}

fn row(alloc: Global, n: i64) -> Result<Row, AllocError>
    ensures { IfOk result IsRow }
{
    let values = Vec::from_array(alloc, [Value::Int(n)])?;
    if !is_row(values.as_slice()) {
        return Err(AllocError);
    }
    Ok(Row::new(values))
}

fn rows(alloc: Global, n: i64) -> Result<Vec<Row>, AllocError>
    ensures { IfOk result (λ v. All IsRow v.items) }
{
    let mut rows = Vec::new(alloc);
    rows.push(row(alloc, n)?)?;
    Ok(rows)
}

fn columns(alloc: Global) -> Result<List<Column>, AllocError> {
    let name = Name::new(Vec::from_slice(alloc, b"a")?);
    let column = Column {
        name,
        kind: ColType::Integer,
        not_null: false,
    };
    Ok(List::new(Vec::from_array(alloc, [column])?))
}

/// A table of one column.
fn with_table(alloc: Global, store: &mut Store, disk: &mut MemDisk) -> Result<(), DiskFault> {
    let columns = columns(alloc)?;
    let name = Name::new(Vec::from_slice(alloc, TABLE)?);
    store.create_table(alloc, name, columns, disk)
}

fn asked(alloc: Global, deleted: Option<(i64, u64)>) -> Result<Vec<Asked>, AllocError> {
    match deleted {
        Some((n, ins)) => {
            let row = row(alloc, n)?;
            Ok(Vec::from_array(alloc, [Asked { row, ins }])?)
        }
        None => Ok(Vec::new(alloc)),
    }
}

/// A row is inserted, and another one deleted where that is asked for, in one epoch.
fn change(
    alloc: Global,
    store: &mut Store,
    disk: &mut MemDisk,
    inserted: i64,
    deleted: Option<(i64, u64)>,
) -> Result<(), StoreFault> {
    let gone = asked(alloc, deleted)?;
    let rows = rows(alloc, inserted)?;
    store.change_rows(alloc, TABLE, rows, gone)?;
    store.commit(alloc, disk)
}

/// The first epoch, on disk.
fn start(alloc: Global, store: &mut Store, disk: &mut MemDisk) -> Result<(), StoreFault> {
    with_table(alloc, store, disk)?;
    change(alloc, store, disk, 1, None)?;
    store.move_all(alloc, disk)?;
    Ok(())
}

fn go_on(
    alloc: Global,
    store: &mut Store,
    disk: &mut MemDisk,
    inserted: i64,
    deleted: Option<(i64, u64)>,
) -> Result<(), LinkFault> {
    match change(alloc, store, disk, inserted, deleted) {
        Ok(()) => Ok(()),
        Err(fault) => Err(ahead_fault(fault)),
    }
}

/// The third call, behind a commit of the store ahead: epoch 4 inserts 4 and deletes 2.
fn goes_on_between(
    alloc: Global,
    link: &mut Link,
    behind: &mut Store,
    at: &mut MemDisk,
    ahead: &mut Store,
    from: &mut MemDisk,
) -> Result<(u64, u64), LinkFault> {
    let second = link.historical(alloc, behind, at)?;
    go_on(alloc, ahead, from, 4, Some((2, 2)))?;
    let last = link.current(alloc, behind, at, ahead, from)?;
    Ok((second, last))
}

/// Epoch 2 inserts 2; epoch 3 inserts 3 and deletes 1, which epoch 1 inserted.
fn brought_up(
    alloc: Global,
    behind: &mut Store,
    at: &mut MemDisk,
    ahead: &mut Store,
    from: &mut MemDisk,
) -> Result<(u64, u64), LinkFault> {
    go_on(alloc, ahead, from, 2, None)?;
    go_on(alloc, ahead, from, 3, Some((1, 1)))?;
    let mut link = Link::begin(alloc, behind, at, ahead, from)?;
    goes_on_between(alloc, &mut link, behind, at, ahead, from)
}

/// Whether this row stands there once with these epochs.
fn has(rows: &[Stamped], n: i64, ins: u64, del: Option<u64>) -> bool {
    let mut count: u64 = 0;
    for stamped in rows {
        if stamped.row.as_slice().len() == 1
            && stamped.row.as_slice()[0].is(&Value::Int(n))
            && stamped.ins == ins
            && stamped.del == del
        {
            count = count.saturating_add(1);
        }
    }
    count == 1
}

fn has_all(rows: &[Stamped]) -> bool {
    rows.len() == 4
        && has(rows, 1, 1, Some(3))
        && has(rows, 2, 2, Some(4))
        && has(rows, 3, 3, None)
        && has(rows, 4, 4, None)
}

fn tells_all(alloc: Global, store: &Store, disk: &mut MemDisk) -> bool {
    match table_history(alloc, store.stored(), 0, 0, disk) {
        Ok(rows) => has_all(rows.as_slice()),
        Err(_) => false,
    }
}

fn came_to(ends: Result<(u64, u64), LinkFault>) -> (u64, u64) {
    match ends {
        Ok(ends) => ends,
        Err(_) => (0, 0),
    }
}

#[test]
fn a_commit_between_the_second_call_and_the_third(rt: HostRuntime) -> Result<(), Fail> {
    let alloc = rt.alloc();
    let (mut at, mut from) = (MemDisk::new(alloc), MemDisk::new(alloc));
    let mut behind = Store::open(alloc, &mut at)?;
    let mut ahead = Store::open(alloc, &mut from)?;
    start(alloc, &mut behind, &mut at)?;
    start(alloc, &mut ahead, &mut from)?;
    let ends = came_to(brought_up(alloc, &mut behind, &mut at, &mut ahead, &mut from));
    assert_eq!(rt; ends, (3, 4));
    assert!(rt; tells_all(alloc, &ahead, &mut from), "ahead");
    assert!(rt; tells_all(alloc, &behind, &mut at), "behind");
    Ok(())
}
