//! A catalogue without one of its tables.

ghost use Rattle.std.specs.Prelude.{◌≡◌, ◌<◌, ◌^◌, length, IfOk};
ghost use Rattle.table_store.specs.Creating.{without_table};

use catalog_types::Catalogue;
use col_value::List;
use std::alloc::{AllocError, Global};

/// The catalogue without the table at a place.
pub fn without_table(
    alloc: Global,
    root: &Catalogue,
    last: u64,
    place: usize,
) -> Result<Catalogue, AllocError>
    requires place { place < length root.now.tables }
    requires next { root.now.next < 2 ^ 62 }
    ensures { IfOk result (λ c. c ≡ without_table last place root.now) }
{
    let Catalogue { tables, .. } = root.copy(alloc)?;
    let mut tables = tables.into_vec();
    tables.remove(place);
    Ok(Catalogue {
        last,
        ahm: root.ahm,
        next: root.next + 1,
        tables: List::new(tables),
    })
}
