ghost use Rattle.std.specs.Prelude.{◌≤◌, ◌<◌, ◌+◌, ◌^◌, ℕ, length, IfOk, OnOk};
ghost use Rattle.std.specs.List.{All};
ghost use Rattle.col_value.specs.declared.row.Asked.{Asked};
ghost use Rattle.wanted_rows.specs.Wanted.{need_in, asked_in};
ghost use Rattle.wanted_rows.specs.Picked.{asked_of, del_at, Picks, PicksFrom, TriesPlace, TriesSome};

use crate::wants::Wants;
use std::alloc::{AllocError, Global};
use write_store::{Held, Inserted};

/// Takes a row that isn't deleted, where it is wanted; answers whether it did.
fn try_row(
    alloc: Global,
    del: Option<u64>,
    row: &Inserted,
    wants: &mut Wants,
) -> Result<bool, AllocError>
    ensures { IfOk result (λ taken. TriesPlace taken del (asked_in row.now) (need_in wants.old) (need_in wants.new)) }
{
    match del {
        Some(_) => Ok(false),
        None => wants.take(alloc, row),
    }
}

/// Picks places of rows that aren't deleted and are wanted, each once for each time that it is wanted, until no other row that isn't
/// deleted is wanted.
pub fn pick(alloc: Global, rows: &[Held], wants: &mut Wants) -> Result<Vec<usize>, AllocError>
    ensures { IfOk result (λ places. Picks (del_at rows.now) (asked_of rows.now) places.items (need_in wants.old) (need_in wants.new)) }
{
    let mut places = Vec::new(alloc);
    for (i, row) in rows.iter().enumerate() {
        if try_row(alloc, row.del, &row.inserted, wants)? {
            places.push(i)?;
        }
    }
    Ok(places)
}
