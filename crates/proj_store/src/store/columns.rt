//! A column that joins the others.

ghost use Rattle.std.specs.Prelude.{◌≡◌, IfOk};
ghost use Rattle.col_value.specs.Order.{IsValue};
ghost use Rattle.proj_store.specs.Widening.{CanWiden, widened, with_column};

use super::ProjStore;
use crate::widening::columns_with;
use catalog_types::ProjColumn;
use col_value::{List, Value};
use std::alloc::{AllocError, Global};
use std::marker::Model;
use write_store::WriteStore;

/// The columns of a projection with one more, and its rows in memory with the default of that one.
#[derive(Drop)]
pub struct ReadyColumn {
    columns: List<ProjColumn>,
    unsaved: WriteStore,
}

impl Model for ReadyColumn {
    ghost use Rattle.proj_store.specs.Widening.{Wider};

    ghost Value = { Wider };

    ghost view = { λ r. record { columns = r.columns; rows = r.unsaved.rows } };
}

impl ProjStore {
    /// Makes ready that a column of the table joins the others, with this default in each row; nothing changes.
    pub fn prepare_column(
        &self,
        alloc: Global,
        ordinal: usize,
        default: &Value,
    ) -> Result<ReadyColumn, AllocError>
        requires { IsValue default.now }
        ensures wider { IfOk result (λ ready. widened ready self.now.stored ≡ with_column ordinal default.now self.now.stored) }
        ensures ready { IfOk result (λ ready. CanWiden ready self.now) }
    {
        let columns = columns_with(alloc, self.entry.columns.as_slice(), ordinal, default)?;
        let unsaved = self.unsaved.with_value(alloc, default)?;
        Ok(ReadyColumn { columns, unsaved })
    }

    /// The column that was made ready joins the others. It takes no memory.
    pub fn apply_column(&mut self, ready: ReadyColumn)
        requires { CanWiden ready self.old }
        ensures stored { self.new.stored ≡ widened ready self.old.stored }
        ensures rooms { self.new.rooms ≡ self.old.rooms }
    {
        let ReadyColumn { columns, unsaved } = ready;
        self.entry.columns = columns;
        self.unsaved = unsaved;
    }
}
