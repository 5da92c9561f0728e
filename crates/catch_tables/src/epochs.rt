//! The rows of a table by the epochs that inserted and deleted them. No row is copied.

ghost use Rattle.std.specs.Prelude.{◌≡◌, map, filter, nat_le, nat_lt, not, IfOk};
ghost use Rattle.std.specs.List.{All};
ghost use Rattle.std.specs.List.Sorted.{IsPermutation};
ghost use Rattle.col_value.specs.Order.{IsRow};
ghost use Rattle.catch_tables.specs.Keyed.{by_delete, by_insert, is_deleted_after, of_epoch, own_delete, own_insert, AreInOrder, AreRows, AreInserts, AreDeletes};

use col_value::Stamped;
use std::alloc::{AllocError, Global};

/// A row where it stands, and the epoch by which it is looked for.
#[derive(Clone, Copy, Debug)]
pub struct Keyed<'a> {
    pub epoch: u64,
    pub stamped: &'a Stamped,
}

/// The rows that were inserted after an epoch.
fn inserted_after(alloc: Global, rows: &[Stamped], after: u64) -> Result<Vec<Keyed<'_>>, AllocError>
    ensures { IfOk result (λ v. map by_insert v.items ≡ map own_insert (filter (λ s. nat_lt after s.ins) rows.now)) }
{
    let mut out = Vec::new(alloc);
    for stamped in rows {
        if after < stamped.ins {
            out.push(Keyed {
                epoch: stamped.ins,
                stamped,
            })?;
        }
    }
    Ok(out)
}

/// The rows that were deleted after an epoch.
fn deleted_after(alloc: Global, rows: &[Stamped], after: u64) -> Result<Vec<Keyed<'_>>, AllocError>
    ensures { IfOk result (λ v. map by_delete v.items ≡ map own_delete (filter (is_deleted_after after) rows.now)) }
{
    let mut out = Vec::new(alloc);
    for stamped in rows {
        if let Some(epoch) = stamped.del {
            if after < epoch {
                out.push(Keyed { epoch, stamped })?;
            }
        }
    }
    Ok(out)
}

fn in_order(rows: Vec<Keyed<'_>>) -> Result<Vec<Keyed<'_>>, AllocError>
    ensures same { IfOk result (λ v. IsPermutation rows.entry.items v.items) }
    ensures ascending { IfOk result (λ v. AreInOrder v.items) }
{
    let mut rows = rows;
    rows.sort_by_key(|k| k.epoch)?;
    Ok(rows)
}

#[tactic(auto, using(crate::proofs::Keys::inserts_sorted, crate::proofs::Keys::rows_sorted))]
/// The rows that were inserted after an epoch, in the order of the epochs that did.
pub fn by_inserts(alloc: Global, rows: &[Stamped], after: u64) -> Result<Vec<Keyed<'_>>, AllocError>
    requires { All (λ s. IsRow s.row) rows.now }
    ensures told { IfOk result (λ v. AreInserts after rows.now v.items) }
    ensures valid { IfOk result (λ v. AreRows v.items) }
    ensures ascending { IfOk result (λ v. AreInOrder v.items) }
{
    let keyed = inserted_after(alloc, rows, after)?;
    in_order(keyed)
}

#[tactic(auto, using(crate::proofs::Keys::deletes_sorted))]
/// The rows that were deleted after an epoch, in the order of the epochs that did.
pub fn by_deletes(alloc: Global, rows: &[Stamped], after: u64) -> Result<Vec<Keyed<'_>>, AllocError>
    ensures told { IfOk result (λ v. AreDeletes after rows.now v.items) }
    ensures ascending { IfOk result (λ v. AreInOrder v.items) }
{
    let keyed = deleted_after(alloc, rows, after)?;
    in_order(keyed)
}

/// Those from an epoch on.
fn at_least<'a, 'b>(rows: &'b [Keyed<'a>], epoch: u64) -> &'b [Keyed<'a>]
    requires { AreInOrder rows.now }
    ensures rest { result.now ≡ filter (λ k. not (nat_lt k.epoch epoch)) rows.now }
    ensures ascending { AreInOrder result.now }
{
    let (_, rest) = rows.split_at(rows.partition_point(|k| k.epoch < epoch));
    rest
}

/// Those up to an epoch.
fn at_most<'a, 'b>(rows: &'b [Keyed<'a>], epoch: u64) -> &'b [Keyed<'a>]
    requires { AreInOrder rows.now }
    ensures { result.now ≡ filter (λ k. nat_le k.epoch epoch) rows.now }
{
    let (front, _) = rows.split_at(rows.partition_point(|k| k.epoch <= epoch));
    front
}

#[tactic(auto, using(crate::proofs::Keys::of_one_epoch))]
/// Those of an epoch.
pub fn of_epoch<'a, 'b>(rows: &'b [Keyed<'a>], epoch: u64) -> &'b [Keyed<'a>]
    requires { AreInOrder rows.now }
    ensures { result.now ≡ of_epoch epoch rows.now }
{
    at_most(at_least(rows, epoch), epoch)
}
