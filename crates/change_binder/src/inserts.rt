ghost use Rattle.std.specs.Prelude.{◌≡◌, true, not, IfOk, IfErr, OnOk, option_map, Some, None};
ghost use Rattle.std.specs.List.{list_all};
ghost use Rattle.name_binder.specs.Refusing.{RefusesBy};
ghost use Rattle.change_binder.specs.Answers.{IsBoundInsert, columns_in};
ghost use Rattle.change_binder.specs.Flaws.{flaw_refusal};
ghost use Rattle.sql_binding.specs.Firsts.{first_given, refused_where};
ghost use Rattle.sql_binding.specs.Inserts.{whole_refusal, literal_refusal, stored_refusal, pairs, wrong_count, is_of_column};

use crate::flaw::Flaw;
use crate::literals::{are_of_columns, first_flaw, wrong_count};
use crate::narrow::narrow_rows;
use col_value::{Column, Row, WideRow};
use name_binder::{BindFault, Found, Naming};
use sql_tree::{Insert, Refusal};
use std::alloc::Global;

/// The rows of an INSERT, whose table was found, or was not. What its rows hold is looked at last: a number out of range, a text too
/// long, a NULL that is refused.
#[tactic(auto, using(crate::proofs::Storing::stored_rows, crate::proofs::Storing::narrowed_rows))]
pub fn bind_insert(
    alloc: Global,
    insert: &Insert,
    found: &Option<Found<'_>>,
) -> Result<Vec<Row>, BindFault>
    ensures bound { IfOk result (λ v. IsBoundInsert (columns_in found.now) insert.now v.items) }
    ensures refused { IfErr result (RefusesBy (whole_refusal (columns_in found.now) insert.now)) }
{
    let Some(table) = found else {
        return Err(Naming::UnknownTable.refuse(alloc, insert.table.as_slice()));
    };
    check_insert(alloc, table.columns(), insert)?;
    Ok(narrow_rows(alloc, insert.rows.as_slice())?)
}

/// Refuses what can't be stored in a table with these columns.
fn check_insert(alloc: Global, columns: &[Column], insert: &Insert) -> Result<(), BindFault>
    ensures ok { OnOk result (whole_refusal (Some columns.now) insert.now ≡ None) }
    ensures refused { IfErr result (RefusesBy (whole_refusal (Some columns.now) insert.now)) }
{
    check_literals(columns, insert)?;
    check_stored(alloc, columns, insert)
}

/// Refuses literals that don't fit the columns, by number or by kind.
fn check_literals(columns: &[Column], insert: &Insert) -> Result<(), BindFault>
    ensures ok { OnOk result (literal_refusal columns.now insert.now ≡ None) }
    ensures refused { IfErr result (RefusesBy (literal_refusal columns.now insert.now)) }
{
    let rows = insert.rows.as_slice();
    check_counts(columns, rows)?;
    check_kinds(columns, rows)
}

/// Refuses literals with a flaw.
fn check_stored(alloc: Global, columns: &[Column], insert: &Insert) -> Result<(), BindFault>
    ensures ok { OnOk result (stored_refusal columns.now insert.now ≡ None) }
    ensures refused { IfErr result (RefusesBy (stored_refusal columns.now insert.now)) }
{
    let rows = insert.rows.as_slice();
    check_flaw(alloc, Flaw::Range, columns, rows)?;
    check_flaw(alloc, Flaw::Length, columns, rows)?;
    check_flaw(alloc, Flaw::Null, columns, rows)
}

/// Refuses a row of another number of values than there are columns.
fn check_counts(columns: &[Column], rows: &[WideRow]) -> Result<(), BindFault>
    ensures ok { OnOk result (first_given (wrong_count columns.now) rows.now ≡ None) }
    ensures refused { IfErr result (RefusesBy (option_map (λ c. Refusal.Arity c.0 c.1) (first_given (wrong_count columns.now) rows.now))) }
{
    match wrong_count(columns, rows) {
        None => Ok(()),
        Some(given) => Err(BindFault::Refused(Refusal::Arity(given as u64, columns.len() as u64))),
    }
}

/// Refuses a literal of another kind than its column.
fn check_kinds(columns: &[Column], rows: &[WideRow]) -> Result<(), BindFault>
    ensures ok { OnOk result (list_all is_of_column (pairs columns.now rows.now) ≡ true) }
    ensures refused { IfErr result (RefusesBy (refused_where (not (list_all is_of_column (pairs columns.now rows.now))) Refusal.TypeMismatch)) }
{
    if are_of_columns(columns, rows) {
        Ok(())
    } else {
        Err(BindFault::Refused(Refusal::TypeMismatch))
    }
}

/// Refuses a literal with this flaw.
fn check_flaw(
    alloc: Global,
    flaw: Flaw,
    columns: &[Column],
    rows: &[WideRow],
) -> Result<(), BindFault>
    ensures ok { OnOk result (flaw_refusal flaw (pairs columns.now rows.now) ≡ None) }
    ensures refused { IfErr result (RefusesBy (flaw_refusal flaw (pairs columns.now rows.now))) }
{
    match first_flaw(flaw, columns, rows) {
        None => Ok(()),
        Some(name) => Err(flaw.naming().refuse(alloc, name.as_slice())),
    }
}
