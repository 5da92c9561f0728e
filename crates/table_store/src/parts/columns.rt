//! A column that joins those of a table's projections.

ghost use Rattle.std.specs.Prelude.{◌≡◌, map, IfOk};
ghost use Rattle.std.specs.List.{AllZip};
ghost use Rattle.col_value.specs.Order.{IsValue};
ghost use Rattle.table_store.specs.Changing.{zipped};
ghost use Rattle.table_store.specs.Held.{projections_of};
ghost use Rattle.table_store.specs.Widening.{CanTake, IsWidening, wide_parts, widened_by};

use super::Parts;
use crate::widening::has_all;
use col_value::{Column, Value};
use proj_store::{ProjStore, ReadyColumn};
use std::alloc::{AllocError, Global};

/// Makes ready that a projection gets the next column of its table, if it has all these.
fn prepare_one(
    alloc: Global,
    store: &ProjStore,
    columns: &[Column],
    default: &Value,
) -> Result<Option<ReadyColumn>, AllocError>
    requires { IsValue default.now }
    ensures made { IfOk result (IsWidening columns.now default.now store.now.stored) }
    ensures ready { IfOk result (λ part. CanTake part store.now) }
{
    if !has_all(columns, store.entry()) {
        return Ok(None);
    }
    match store.prepare_column(alloc, columns.len(), default) {
        Ok(ready) => Ok(Some(ready)),
        Err(AllocError) => Err(AllocError),
    }
}

fn prepare_columns(
    alloc: Global,
    stores: &[ProjStore],
    columns: &[Column],
    default: &Value,
) -> Result<Vec<Option<ReadyColumn>>, AllocError>
    requires { IsValue default.now }
    ensures made { IfOk result (λ v. AllZip (IsWidening columns.now default.now) (projections_of stores.now) v.items) }
    ensures ready { IfOk result (λ v. AllZip CanTake v.items stores.now) }
{
    let mut ready = Vec::with_capacity(alloc, stores.len())?;
    for store in stores {
        ready.push(prepare_one(alloc, store, columns, default)?)?;
    }
    Ok(ready)
}

fn apply_one(store: &mut ProjStore, part: Option<ReadyColumn>)
    requires { CanTake part store.old }
    ensures { store.new.stored ≡ widened_by part store.old.stored }
{
    match part {
        Some(ready) => store.apply_column(ready),
        None => {}
    }
}

fn apply_columns(stores: &mut [ProjStore], ready: Vec<Option<ReadyColumn>>)
    requires { AllZip CanTake ready.items stores.old }
    ensures { projections_of stores.new ≡ zipped widened_by ready.items (projections_of stores.old) }
{
    let mut rest = ready;
    while let Some(part) = rest.pop() {
        apply_one(&mut stores[rest.len()], part);
    }
}

impl Parts {
    /// Makes ready that the next column behind these of the table joins those of each projection that has them all; nothing changes.
    pub fn prepare_column(
        &self,
        alloc: Global,
        columns: &[Column],
        default: &Value,
    ) -> Result<Vec<Option<ReadyColumn>>, AllocError>
        requires { IsValue default.now }
        ensures made { IfOk result (λ v. zipped widened_by v.items (projections_of self.now) ≡ wide_parts columns.now default.now (projections_of self.now)) }
        ensures ready { IfOk result (λ v. AllZip CanTake v.items self.now) }
    {
        prepare_columns(alloc, self.projections.as_slice(), columns, default)
    }

    /// The column that was made ready joins those of each projection. It takes no memory.
    pub fn apply_column(&mut self, ready: Vec<Option<ReadyColumn>>)
        requires { AllZip CanTake ready.items self.old }
        ensures { projections_of self.new ≡ zipped widened_by ready.items (projections_of self.old) }
    {
        apply_columns(self.projections.as_mut_slice(), ready);
    }
}
