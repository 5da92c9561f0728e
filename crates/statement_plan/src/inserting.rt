//! The rows of an INSERT, and why they can't join the pending ones.

ghost use Rattle.std.specs.Prelude.{◌≡◌, false, IfErr, IfOk, None, option_map};
ghost use Rattle.std.specs.List.{All};
ghost use Rattle.col_value.specs.Order.{IsRow};
ghost use Rattle.sql_binding.specs.Firsts.{first_of};
ghost use Rattle.sql_binding.specs.Inserts.{inserted_rows};
ghost use Rattle.db_model.specs.Refusals.{joining_limit, locked, rows_inserted_refusal};
ghost use Rattle.name_binder.specs.Refusing.{RefusesBy};
ghost use Rattle.statement_plan.specs.Inserting.{is_late, in_order, inserted_refusal};

use crate::frame::Frame;
use change_binder::bind_insert;
use col_value::Row;
use name_binder::{BindFault, Found};
use sql_tree::{Insert, Refusal};
use std::alloc::Global;

/// Whether a refusal is one of what the rows hold, which is looked at behind the limit on rows and behind the lock.
fn is_late(refusal: &Refusal) -> bool
    ensures { result ≡ is_late refusal.now }
{
    match refusal {
        Refusal::IntegerOutOfRange(_) | Refusal::TextTooLong(_) | Refusal::NullRefused(_) => true,
        _ => false,
    }
}

/// The refusal of an INSERT: other reasons come before what the rows hold.
fn in_order(found: Refusal, other: Option<Refusal>) -> Refusal
    ensures { result ≡ in_order found other }
{
    if is_late(&found) {
        match other {
            Some(other) => other,
            None => found,
        }
    } else {
        found
    }
}

/// Why so many rows more can't join a table's pending ones, whatever they hold.
fn other_reason(frame: &Frame<'_>, name: &[u8], more: usize) -> Option<Refusal>
    ensures { result ≡ first_of (joining_limit frame.now name.now more) (locked frame.now name.now false) }
{
    match frame.joining(name, more) {
        Some(limit) => Some(limit),
        None => frame.locked(name, false),
    }
}

/// The rows of an INSERT whose table was found, or was not; another reason comes before what they hold.
fn bound_rows(
    alloc: Global,
    insert: &Insert,
    found: &Option<Found<'_>>,
    other: Option<Refusal>,
) -> Result<Vec<Row>, BindFault>
    ensures bound { IfOk result (λ v. (v.items ≡ inserted_rows insert.now) × (inserted_refusal (option_map (λ t. t.1) found.now) other insert.now ≡ None)) }
    ensures values { IfOk result (λ v. All IsRow v.items) }
    ensures refused { IfErr result (RefusesBy (inserted_refusal (option_map (λ t. t.1) found.now) other insert.now)) }
{
    match bind_insert(alloc, insert, found) {
        Ok(rows) => match other {
            Some(other) => Err(BindFault::Refused(other)),
            None => Ok(rows),
        },
        Err(BindFault::Refused(refusal)) => Err(BindFault::Refused(in_order(refusal, other))),
        Err(BindFault::Memory) => Err(BindFault::Memory),
    }
}

/// The rows of an INSERT, or why they can't join the pending ones.
pub fn plan_insert(alloc: Global, frame: &Frame<'_>, insert: &Insert) -> Result<Vec<Row>, BindFault>
    ensures bound { IfOk result (λ v. (v.items ≡ inserted_rows insert.now) × (rows_inserted_refusal frame.now insert.now ≡ None)) }
    ensures values { IfOk result (λ v. All IsRow v.items) }
    ensures refused { IfErr result (RefusesBy (rows_inserted_refusal frame.now insert.now)) }
{
    let name = insert.table.as_slice();
    let other = other_reason(frame, name, insert.rows.as_slice().len());
    bound_rows(alloc, insert, &frame.found(name), other)
}
