//! A catalogue with another ancient history mark.

ghost use Rattle.std.specs.Prelude.{◌≡◌, ◌<◌, ◌^◌, IfOk};
ghost use Rattle.table_store.specs.Creating.{with_mark};

use catalog_types::Catalogue;
use std::alloc::{AllocError, Global};

/// The catalogue with this ancient history mark.
pub fn with_mark(
    alloc: Global,
    root: &Catalogue,
    last: u64,
    mark: u64,
) -> Result<Catalogue, AllocError>
    requires { root.now.next < 2 ^ 62 }
    ensures { IfOk result (λ c. c ≡ with_mark last mark root.now) }
{
    let Catalogue { tables, .. } = root.copy(alloc)?;
    Ok(Catalogue {
        last,
        ahm: mark,
        next: root.next + 1,
        tables,
    })
}
