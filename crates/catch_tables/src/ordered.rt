//! What a table tells, in the order of epochs.

ghost use Rattle.std.specs.Prelude.{◌≡◌, map, IfOk};
ghost use Rattle.std.specs.List.{AllZip};
ghost use Rattle.catch_tables.specs.Keyed.{delete_of, of_epoch, row_of, AreChangesOf, AreRows};

use crate::epochs::{Keyed, by_deletes, by_inserts, of_epoch};
use crate::told::Told;
use col_value::{Asked, Name, Row};
use std::alloc::{AllocError, Global};
use std::marker::Model;

/// The rows of the table of a name that were inserted and that were deleted after an epoch, in the order of the epochs that did.
#[derive(Drop)]
pub struct Ordered<'a> {
    name: &'a Name,
    inserts: Vec<Keyed<'a>>,
    deletes: Vec<Keyed<'a>>,
}

impl<'a> Model for Ordered<'a> {
    ghost use Rattle.catch_tables.specs.Keyed.{Changed, changed, AreInOrder, AreRows};

    ghost Value = { Changed };

    ghost view = { λ o. changed o.name.now o.inserts.items o.deletes.items };

    ghost invariant = { λ o. AreInOrder o.inserts.items × AreInOrder o.deletes.items × AreRows o.inserts.items };
}

impl<'a> Ordered<'a> {
    /// What a table tells, after an epoch.
    fn new(alloc: Global, told: &'a Told, after: u64) -> Result<Ordered<'a>, AllocError>
        ensures { IfOk result (λ o. AreChangesOf after told.now o) }
    {
        Ok(Ordered {
            name: told.name(),
            inserts: by_inserts(alloc, told.rows(), after)?,
            deletes: by_deletes(alloc, told.rows(), after)?,
        })
    }

    pub fn name(&self) -> &Name
        ensures { result.now ≡ self.now.name }
    {
        self.name
    }

    #[tactic(auto, using(crate::proofs::Keys::rows_of_epoch))]
    /// The rows that an epoch inserted.
    pub fn inserts(&self, epoch: u64) -> &[Keyed<'a>]
        ensures same { result.now ≡ of_epoch epoch self.now.inserts }
        ensures valid { AreRows result.now }
    {
        of_epoch(self.inserts.as_slice(), epoch)
    }

    /// The rows that an epoch deleted.
    pub fn deletes(&self, epoch: u64) -> &[Keyed<'a>]
        ensures { result.now ≡ of_epoch epoch self.now.deletes }
    {
        of_epoch(self.deletes.as_slice(), epoch)
    }
}

/// The rows themselves, once more.
pub fn copied_rows(alloc: Global, keyed: &[Keyed<'_>]) -> Result<Vec<Row>, AllocError>
    ensures { IfOk result (λ v. v.items ≡ map row_of keyed.now) }
{
    let mut out = Vec::with_capacity(alloc, keyed.len())?;
    for each in keyed {
        out.push(each.stamped.row.copy(alloc)?)?;
    }
    Ok(out)
}

fn asked(alloc: Global, keyed: &Keyed<'_>) -> Result<Asked, AllocError>
    ensures { IfOk result (λ a. a ≡ delete_of keyed.now) }
{
    Ok(Asked {
        row: keyed.stamped.row.copy(alloc)?,
        ins: keyed.stamped.ins,
    })
}

/// The rows as a DELETE asks for them.
pub fn asked_rows(alloc: Global, keyed: &[Keyed<'_>]) -> Result<Vec<Asked>, AllocError>
    ensures { IfOk result (λ v. v.items ≡ map delete_of keyed.now) }
{
    let mut out = Vec::with_capacity(alloc, keyed.len())?;
    for each in keyed {
        out.push(asked(alloc, each)?)?;
    }
    Ok(out)
}

/// What the tables tell, after an epoch.
pub fn order_all(alloc: Global, tables: &[Told], after: u64) -> Result<Vec<Ordered<'_>>, AllocError>
    ensures { IfOk result (λ v. AllZip (AreChangesOf after) tables.now v.items) }
{
    let mut out = Vec::with_capacity(alloc, tables.len())?;
    for told in tables {
        out.push(Ordered::new(alloc, told, after)?)?;
    }
    Ok(out)
}
