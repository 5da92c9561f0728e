//! The committed rows that match, batch by batch.

ghost use Rattle.std.specs.Prelude.{ℕ, ◌≡◌, ◌<◌, [], true, Some, List, IfOk, IfErr, OnOk};
ghost use Rattle.std.specs.List.{All};
ghost use Rattle.common_laws.specs.Causes.{HasCause};
ghost use Rattle.common_laws.specs.Maps.{Contents};
ghost use Rattle.col_disk.specs.Moved.{Moved, NoName};
ghost use Rattle.col_value.specs.Order.{IsRow};
ghost use Rattle.col_value.specs.declared.row.Asked.{Asked as ARow};
ghost use Rattle.col_value.specs.declared.row.Stamped.{Stamped};
ghost use Rattle.sql_bound.specs.Bounds.{is_narrow};
ghost use Rattle.sql_bound.specs.Outputs.{is_kept};
ghost use Rattle.stored_rows.specs.Stored.{Stores};
ghost use Rattle.wanted_rows.specs.Wanted.{need_in, tally};
ghost use Rattle.col_disk.specs.Faults.{IsUnblamed};
ghost use Rattle.proj_store.specs.Reading.{BlamesRows};
ghost use Rattle.exec_scan.specs.Scanning.{AreOwn};
ghost use Rattle.row_matching.specs.Seeing.{AreOthers, Keeps, Sifts, SiftsMore, asked, seen_rows, told_rows};

use col_disk::{Disk, StoreFault};
use col_value::{Asked, Row, Value};
use common_laws::Steps;
use exec_scan::{Batch, Scan};
use expr_value::are_true;
use proj_store::ProjStore;
use row_bounds::bounds_of;
use sql_bound::Expr;
use std::alloc::{AllocError, Global};
use std::marker::Brand;
use std::sync::ledger::{Blank, Ledger};
use wanted_rows::Wants;
use write_store::Inserted;

fn row_copy(alloc: Global, values: &[Value]) -> Result<Row, AllocError>
    requires { IsRow values.now }
    ensures row { IfOk result (λ r. r ≡ values.now) }
    ensures valid { IfOk result IsRow }
{
    let mut out = Vec::with_capacity(alloc, values.len())?;
    for value in values {
        out.push(value.copy(alloc)?)?;
    }
    Ok(Row::new(out))
}

/// How often each row is to be taken out.
fn wants_of(alloc: Global, gone: &[Asked]) -> Result<Wants, AllocError>
    ensures { IfOk result (λ w. (q : ARow) → need_in w q ≡ tally q gone.now) }
{
    let mut rows = Vec::with_capacity(alloc, gone.len())?;
    for asked in gone {
        let row = asked.row.copy(alloc)?;
        rows.push(Asked {
            row,
            ins: asked.ins,
        })?;
    }
    Wants::new(alloc, rows)
}

/// Takes a row out, where that is still to be done, and appends it otherwise.
fn keep(
    alloc: Global,
    wants: &mut Wants,
    out: &mut Vec<Asked>,
    asked: Asked,
) -> Result<(), AllocError>
    requires row { IsRow asked.row }
    requires valid { All (λ a. IsRow a.row) out.old.items }
    ensures kept { OnOk result (Keeps asked out.old.items out.new.items (need_in wants.old) (need_in wants.new)) }
    ensures valid { OnOk result (All (λ a. IsRow a.row) out.new.items) }
{
    let Asked { row, ins } = asked;
    let row = Inserted { ins, row };
    if wants.take(alloc, &row)? {
        return Ok(());
    }
    let Inserted { ins, row } = row;
    out.push(Asked { row, ins })?;
    Ok(())
}

/// A row that matches is kept, and another one is passed over.
fn sift(
    alloc: Global,
    keeps: &[Expr],
    wants: &mut Wants,
    out: &mut Vec<Asked>,
    row: &[Value],
    ins: u64,
) -> Result<(), AllocError>
    requires narrow { All (λ e. is_narrow [] e ≡ true) keeps.now }
    requires row { IsRow row.now }
    requires valid { All (λ a. IsRow a.row) out.old.items }
    ensures sifted { OnOk result (Sifts (is_kept keeps.now row.now) (asked row.now ins) out.old.items out.new.items (need_in wants.old) (need_in wants.new)) }
    ensures valid { OnOk result (All (λ a. IsRow a.row) out.new.items) }
{
    if !are_true(keeps, row) {
        return Ok(());
    }
    let row = row_copy(alloc, row)?;
    keep(alloc, wants, out, Asked { row, ins })?;
    Ok(())
}

/// The rows of a batch that match join the others.
fn sift_batch(
    alloc: Global,
    keeps: &[Expr],
    wants: &mut Wants,
    out: &mut Vec<Asked>,
    batch: &Batch,
) -> Result<(), AllocError>
    requires narrow { All (λ e. is_narrow [] e ≡ true) keeps.now }
    requires valid { All (λ a. IsRow a.row) out.old.items }
    ensures sifted { OnOk result (SiftsMore keeps.now (told_rows batch.now.rows batch.now.inserted) (need_in wants.old) out.old.items (need_in wants.new) out.new.items) }
    ensures valid { OnOk result (All (λ a. IsRow a.row) out.new.items) }
{
    let mut row = Vec::new(alloc);
    for i in 0..batch.len() {
        batch.copy_row(alloc, i, &mut row)?;
        sift(alloc, keeps, wants, out, row.as_slice(), batch.inserted(i))?;
    }
    Ok(())
}

/// The rows that match of those that a projection stores, visible at an epoch, without the ones that are gone. For each column of the table
/// `places` has its place in the projection. Blocks of rows that can't match are passed over.
pub fn committed_rows<D: Disk>(
    alloc: Global,
    store: &ProjStore,
    epoch: u64,
    places: Vec<Option<usize>>,
    keeps: &[Expr],
    gone: &[Asked],
    disk: &mut D,
) -> Result<Vec<Asked>, StoreFault>
    requires own { AreOwn store.now.stored.entry places.items }
    requires narrow { All (λ e. is_narrow [] e ≡ true) keeps.now }
    ensures found { IfOk result (λ v. (m : Contents) → D.holds disk.old ≡ Some m → (rows : List Stamped) → Stores m store.now.stored rows → AreOthers keeps.now gone.now (seen_rows epoch places.items rows) v.items) }
    ensures valid { IfOk result (λ v. All (λ a. IsRow a.row) v.items) }
    ensures unblamed { IfErr result (λ fault. (m : Contents) → D.holds disk.old ≡ Some m → (rows : List Stamped) → Stores m store.now.stored rows → IsUnblamed fault) }
    ensures blamed { IfErr result (BlamesRows store.now.stored.entry (D.holds disk.old)) }
    ensures kept { D.holds disk.new ≡ D.holds disk.old }
    ensures moved { Moved ⟦<D as Disk>⟧ NoName NoName disk.old disk.new }
    ensures cause { HasCause StoreFault.Disk (D.faults disk.old) (D.faults disk.new) result }
{
    committed_by::<D, Brand>(
        alloc,
        store,
        epoch,
        places,
        keeps,
        gone,
        disk,
        Blank::new(1),
    )
}

/// The same, counted over a blank.
fn committed_by<D: Disk, L: Ledger>(
    alloc: Global,
    store: &ProjStore,
    epoch: u64,
    places: Vec<Option<usize>>,
    keeps: &[Expr],
    gone: &[Asked],
    disk: &mut D,
    blank: Blank,
) -> Result<Vec<Asked>, StoreFault>
    requires name { blank.name ≡ L.name }
    requires parts { blank.parts ≡ L.parts }
    requires some { 0 < L.parts }
    requires own { AreOwn store.now.stored.entry places.items }
    requires narrow { All (λ e. is_narrow [] e ≡ true) keeps.now }
    ensures found { IfOk result (λ v. (m : Contents) → D.holds disk.old ≡ Some m → (rows : List Stamped) → Stores m store.now.stored rows → AreOthers keeps.now gone.now (seen_rows epoch places.items rows) v.items) }
    ensures valid { IfOk result (λ v. All (λ a. IsRow a.row) v.items) }
    ensures unblamed { IfErr result (λ fault. (m : Contents) → D.holds disk.old ≡ Some m → (rows : List Stamped) → Stores m store.now.stored rows → IsUnblamed fault) }
    ensures blamed { IfErr result (BlamesRows store.now.stored.entry (D.holds disk.old)) }
    ensures kept { D.holds disk.new ≡ D.holds disk.old }
    ensures moved { Moved ⟦<D as Disk>⟧ NoName NoName disk.old disk.new }
    ensures cause { HasCause StoreFault.Disk (D.faults disk.old) (D.faults disk.new) result }
{
    let bounds = match bounds_of(alloc, keeps, places.len()) {
        Ok(bounds) => bounds,
        Err(AllocError) => return Err(StoreFault::Memory),
    };
    let mut wants = match wants_of(alloc, gone) {
        Ok(wants) => wants,
        Err(AllocError) => return Err(StoreFault::Memory),
    };
    let mut steps = Steps::<L>::new(blank);
    let mut scan = Scan::new(epoch, places, bounds, true);
    let mut out = Vec::new(alloc);
    loop {
        let batch = match scan.next(alloc, store, disk, &mut steps) {
            Ok(Some(batch)) => batch,
            Ok(None) => return Ok(out),
            Err(fault) => return Err(fault),
        };
        match sift_batch(alloc, keeps, &mut wants, &mut out, &batch) {
            Ok(()) => {},
            Err(AllocError) => return Err(StoreFault::Memory),
        }
    }
}
