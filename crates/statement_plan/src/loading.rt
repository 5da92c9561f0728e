//! The table that a load file is for, and why its rows can't be committed.

ghost use Rattle.std.specs.Prelude.{◌≡◌, None, Some, IfErr, IfOk, OnOk, false, length, option_map};
ghost use Rattle.db_model.specs.Loading.{Load};
ghost use Rattle.db_model.specs.Refusals.{copy_table_refusal, load_refusal, locked};
ghost use Rattle.db_model.specs.Views.{table_found};
ghost use Rattle.name_binder.specs.Refusing.{RefusesBy};

use crate::dropping::known_table;
use crate::frame::Frame;
use col_value::{Name, Row};
use name_binder::BindFault;
use sql_tree::Refusal;
use std::alloc::Global;

/// The place of a table that a load file is for: it has to be there, with no other session in the way.
pub fn loadable_table(alloc: Global, frame: &Frame<'_>, name: &Name) -> Result<usize, BindFault>
    ensures planned { IfOk result (λ place. (option_map (λ e. e.0) (table_found name.now frame.now.database.tables) ≡ Some place) × (copy_table_refusal frame.now name.now ≡ None)) }
    ensures free { OnOk result (locked frame.now name.now false ≡ None) }
    ensures refused { IfErr result (RefusesBy (copy_table_refusal frame.now name.now)) }
{
    let place = known_table(alloc, frame, name)?;
    match frame.locked(name.as_slice(), false) {
        Some(refusal) => Err(BindFault::Refused(refusal)),
        None => Ok(place),
    }
}

/// Why the rows of a load file can't be committed into the table of a name, whatever they hold: the limit on rows, then the epochs. A
/// store's frame has eight sessions.
pub fn load_refusal(frame: &Frame<'_>, name: &[u8], rows: &[Row]) -> Option<Refusal>
    ensures { length frame.now.sessions ≡ 8 → result ≡ load_refusal frame.now name.now (Load.Rows rows.now) }
{
    match frame.joining(name, rows.len()) {
        Some(limit) => Some(limit),
        None => frame.loading(name, rows),
    }
}
