//! The column that an ALTER TABLE adds.

ghost use Rattle.std.specs.Prelude.{◌≡◌, [], ◌∷◌, IfErr, IfOk, None, OnOk, Some};
ghost use Rattle.change_binder.specs.Answers.{IsBoundDefault};
ghost use Rattle.change_binder.specs.Flaws.{flaw_refusal};
ghost use Rattle.name_binder.specs.Refusing.{RefusesBy};
ghost use Rattle.sql_binding.specs.Additions.{added_pair, addition_refusal, default_refusal, has_column};

use crate::flaw::{Flaw, is_of_column};
use crate::narrow::narrow;
use col_value::{Column, Value};
use name_binder::{BindFault, Naming};
use sql_tree::{AddColumn, Refusal};
use std::alloc::Global;

/// Refuses an ALTER TABLE whose table has these columns: one of them has the new column's name, or the default is of another kind than the
/// new column.
pub fn check_addition(alloc: Global, columns: &[Column], add: &AddColumn) -> Result<(), BindFault>
    ensures ok { OnOk result (addition_refusal (Some columns.now) add.now ≡ None) }
    ensures refused { IfErr result (RefusesBy (addition_refusal (Some columns.now) add.now)) }
{
    let name = add.column.name.as_slice();
    if has_column(columns, name) {
        return Err(Naming::Exists.refuse(alloc, name));
    }
    if !is_of_column(&add.column, &add.default) {
        return Err(BindFault::Refused(Refusal::TypeMismatch));
    }
    Ok(())
}

fn has_column(columns: &[Column], name: &[u8]) -> bool
    ensures { result ≡ has_column columns.now name.now }
{
    columns.iter().any(|column| column.name.as_slice() == name)
}

/// What each row has in an added column, or why it can't be stored there: a number out of range, a text too long, a NULL that is refused.
#[tactic(auto, using(crate::proofs::Storing::stored_default))]
pub fn bind_default(alloc: Global, add: &AddColumn) -> Result<Value, BindFault>
    ensures bound { IfOk result (IsBoundDefault add.now) }
    ensures refused { IfErr result (RefusesBy (default_refusal add.now)) }
{
    check_default(alloc, Flaw::Range, add)?;
    check_default(alloc, Flaw::Length, add)?;
    check_default(alloc, Flaw::Null, add)?;
    Ok(narrow(alloc, &add.default)?)
}

/// Refuses a default with this flaw.
fn check_default(alloc: Global, flaw: Flaw, add: &AddColumn) -> Result<(), BindFault>
    ensures ok { OnOk result (flaw_refusal flaw (added_pair add.now ∷ []) ≡ None) }
    ensures refused { IfErr result (RefusesBy (flaw_refusal flaw (added_pair add.now ∷ []))) }
{
    if flaw.is_in(&add.column, &add.default) {
        Err(flaw.naming().refuse(alloc, add.column.name.as_slice()))
    } else {
        Ok(())
    }
}
