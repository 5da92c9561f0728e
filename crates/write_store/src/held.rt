ghost use Rattle.std.specs.Prelude.{◌≡◌, ◌++◌, [], ◌∷◌, IfOk};
ghost use Rattle.std.specs.Cmp.{partial_equiv_from_equiv, eq_by_cmp_equiv};
ghost use Rattle.std.specs.Ordering.{eq_by_cmp};
ghost use Rattle.write_store.specs.Memory.{stamp, held_of, wider};
ghost use Rattle.write_store.specs.Order.{inserted_cmp, inserted_fed, inserted_fed_alike, inserted_total};

use col_value::{Asked, Row, Stamped, Value};
use std::alloc::{AllocError, Global};
use std::hash::{Hash, Hasher};

/// The row with one value more, at its end.
fn row_with(alloc: Global, row: &Row, last: &Value) -> Result<Row, AllocError>
    ensures { IfOk result (λ r. r ≡ row.now ++ last.now ∷ []) }
{
    let mut values = Vec::with_capacity(alloc, row.as_slice().len().saturating_add(1))?;
    for value in row.as_slice() {
        values.push(value.copy(alloc)?)?;
    }
    values.push(last.copy(alloc)?)?;
    Ok(Row::new(values))
}

/// A row and the epoch that inserted it.
#[derive(Debug, Drop)]
pub struct Inserted {
    pub ins: u64,
    pub row: Row,
}

impl Inserted {
    /// The same row once more.
    pub fn copy(&self, alloc: Global) -> Result<Inserted, AllocError>
        ensures { IfOk result (λ i. i ≡ self.now) }
    {
        Ok(Inserted {
            ins: self.ins,
            row: self.row.copy(alloc)?,
        })
    }
}

impl PartialEq for Inserted {
    ghost eq = { eq_by_cmp inserted_cmp };

    ghost laws = { partial_equiv_from_equiv (eq_by_cmp_equiv inserted_total) };

    fn eq(&self, other: &Self) -> bool {
        self.ins == other.ins && self.row.order(&other.row).is_eq()
    }
}

impl Eq for Inserted {
    ghost laws = { eq_by_cmp_equiv inserted_total };
}

impl Hash for Inserted {
    ghost hash_input = { inserted_fed };

    ghost respects_eq = { inserted_fed_alike };

    fn hash<H: Hasher>(&self, state: &mut H) {
        self.ins.hash(state);
        self.row.hash(state);
    }
}

/// A row in memory, and the epoch that deleted it, if one did.
#[derive(Debug, Drop, PartialEq, Eq)]
pub struct Held {
    pub inserted: Inserted,
    pub del: Option<u64>,
}

impl Held {
    /// A row of a container, with its delete epoch.
    pub fn new(asked: Asked, del: Option<u64>) -> Held
        ensures { result ≡ held_of del asked }
    {
        let Asked { row, ins } = asked;
        Held {
            inserted: Inserted { ins, row },
            del,
        }
    }

    /// A copy of the row, with its epochs.
    pub fn copy(&self, alloc: Global) -> Result<Stamped, AllocError>
        ensures { IfOk result (λ s. s ≡ stamp self.now) }
    {
        Ok(Stamped {
            row: self.inserted.row.copy(alloc)?,
            ins: self.inserted.ins,
            del: self.del,
        })
    }

    /// The row with one value more, and its epochs.
    pub fn copy_with(&self, alloc: Global, last: &Value) -> Result<Held, AllocError>
        ensures { IfOk result (λ h. h ≡ wider last.now self.now) }
    {
        Ok(Held {
            inserted: Inserted {
                ins: self.inserted.ins,
                row: row_with(alloc, &self.inserted.row, last)?,
            },
            del: self.del,
        })
    }

    /// The row with its epochs.
    pub fn into_stamped(self) -> Stamped
        ensures { result ≡ stamp self }
    {
        let Held { inserted, del } = self;
        let Inserted { ins, row } = inserted;
        Stamped { row, ins, del }
    }
}
