//! Laws of sound states.

ghost use Rattle.std.specs.Prelude.{◌≡◌, ◌<◌, [], List, length, None, Some};
ghost use Rattle.std.specs.List.{All};
ghost use Rattle.col_value.specs.declared.column.Column.{Column};
ghost use Rattle.sql_tree.specs.declared.statement.Delete.{Delete};
ghost use Rattle.sql_tree.specs.declared.statement.Update.{Update};
ghost use Rattle.sql_binding.specs.Changes.{bound_settings, update_refusal};
ghost use Rattle.db_model.specs.State.{State};
ghost use Rattle.db_model.specs.Events.{on_table, rows_deleted, rows_updated};
ghost use Rattle.db_model.specs.Refusals.{rows_deleted_refusal, rows_updated_refusal};
ghost use Rattle.db_model.specs.Sound.{IsSound};

/// A state stays sound in a DELETE that isn't refused.
pub fn deletes_are_sound()
    ensures { (state : State) (d : Delete) → rows_deleted_refusal state d ≡ None → IsSound state → IsSound (on_table d.table (rows_deleted d state) state) }
{}

/// A state stays sound in an UPDATE that isn't refused.
pub fn updates_are_sound()
    ensures { (state : State) (u : Update) → rows_updated_refusal state u ≡ None → IsSound state → IsSound (on_table u.table (rows_updated u state) state) }
{}

/// The columns that an UPDATE sets are columns of its table, where it isn't refused for its names.
pub fn set_columns_are_there()
    ensures { (columns : List Column) (u : Update) → update_refusal (Some columns) u ≡ None → All (λ s. s.0 < length columns) (bound_settings columns u) }
{}
