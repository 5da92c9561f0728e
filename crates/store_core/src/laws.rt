//! Laws of a running store, over any disk.

ghost use Rattle.std.specs.Prelude.{ℕ, Bool, ◌≡◌, ◌≤◌, ◌<◌, ◌++◌, [], false, not, filter, length, List, None, Some, IsSomeAnd};
ghost use Rattle.std.specs.List.{All, slice_get};
ghost use Rattle.col_value.specs.declared.value.Value.{Value};
ghost use Rattle.db_model.specs.Database.{Table, table_named};
ghost use Rattle.common_laws.specs.Bags.{SameBag};
ghost use Rattle.col_value.specs.declared.row.Asked.{Asked};
ghost use Rattle.sql_bound.specs.declared.expr.Expr.{Expr};
ghost use Rattle.sql_bound.specs.Outputs.{is_kept};
ghost use Rattle.row_matching.specs.Matching.{committed_matches};
ghost use Rattle.db_model.specs.State.{State, own_changes, pending_rows};
ghost use Rattle.db_model.specs.Events.{changes_dropped, refresh_started, rows_marked, rows_pending};
ghost use Rattle.db_model.specs.Refusals.{load_refusal, locked};
ghost use Rattle.db_model.specs.Sound.{IsSound, IsSoundDatabase, RowFits};
ghost use Rattle.sql_tree.specs.declared.statement.Statement.{Statement};
ghost use Rattle.sql_tree.specs.declared.statement.NewProjection.{NewProjection};
ghost use Rattle.change_binder.specs.declared.projections.ProjectionShape.{ProjectionShape};
ghost use Rattle.statement_plan.specs.Bare.{IsBare};
ghost use Rattle.statement_plan.specs.Planned.{early_refusal, IsPlanned};
ghost use Rattle.statement_plan.specs.declared.plans.Plan.{Plan};
ghost use Rattle.store_core.specs.Running.{Running, IsState, frame_of};
ghost use Rattle.db_model.specs.Epochs.{last_good};
ghost use Rattle.db_model.specs.Loading.{Load};
ghost use Rattle.db_model.specs.Mover.{MovesAll};
ghost use Rattle.db_model.specs.Run.{all_dropped};
ghost use Rattle.store_core.specs.Stepping.{all_stale, with_asked};
ghost use Rattle.store_core.specs.Sessions.{own_of, rows_given, with_current, with_marked, with_none, with_own, with_pending};

use col_disk::Disk;
use state_laws::{
    changes_may_be_dropped, pending_rows_are_sound, refreshed_states_are_sound, sessions_may_change,
};
use statement_plan::{catalogues_give_frames, rows_decide_nothing_here};

/// Where rows that fit become pending in a table that no other session holds in mode X, the store is the state with these rows pending.
pub fn pending_rows_stand<D: Disk>()
    ensures { (disk : D) (r : Running) (state : State) (name : List ℕ) (rows : List (List Value)) (t : Table) → IsState ⟦<D as Disk>⟧ r disk state → table_named name state.database.tables ≡ Some t → All (RowFits t.columns) rows → locked state name false ≡ None
        → IsState ⟦<D as Disk>⟧ (with_pending name rows r) disk (rows_pending name rows state) }
{
    pending_rows_are_sound();
}

/// Where the matched rows of a table are taken from the current session's pending rows and join its pending deletes, and rows that an UPDATE
/// makes of them become pending, in any order, the store is the state in which they are changed so.
pub fn changed_rows_stand<D: Disk>()
    ensures { (disk : D) (r : Running) (state : State) (keep : List Expr) (t : Table) (left made news : List (List Value)) (deletes : List Asked) → IsState ⟦<D as Disk>⟧ r disk state
        → left ≡ filter (λ row. not (is_kept keep row)) (pending_rows t.name (own_of r)) → SameBag made news → SameBag deletes (committed_matches keep state.database.last (own_changes state) t) → IsSound (rows_marked keep news t state)
        → IsState ⟦<D as Disk>⟧ (with_marked t.name (left ++ made) deletes r) disk (rows_marked keep news t state) }
{}

/// Where rows become the current session's pending rows of a table, and deletes join its others, in a way that keeps the state sound, the store is
/// the state with them.
pub fn given_changes_stand<D: Disk>()
    ensures { (disk : D) (r : Running) (state : State) (name : List ℕ) (rows : List (List Value)) (deletes : List Asked) → IsState ⟦<D as Disk>⟧ r disk state → IsSound (rows_given name rows deletes state)
        → IsState ⟦<D as Disk>⟧ (with_marked name rows deletes r) disk (rows_given name rows deletes state) }
{}

/// Where the current session's changes are dropped, the store is the state without them.
pub fn rollbacks_stand<D: Disk>()
    ensures { (disk : D) (r : Running) (state : State) → IsState ⟦<D as Disk>⟧ r disk state → IsState ⟦<D as Disk>⟧ (with_own [] r) disk (changes_dropped state) }
{
    changes_may_be_dropped();
}

/// Where the changes of all sessions are dropped, the store is the state without them.
pub fn all_rollbacks_stand<D: Disk>()
    ensures { (disk : D) (r : Running) (state : State) → IsState ⟦<D as Disk>⟧ r disk state → IsState ⟦<D as Disk>⟧ (with_none r) disk (all_dropped state) }
{}

/// Where another session is the current one, the store is the state in which it is.
pub fn sessions_stand<D: Disk>()
    ensures { (disk : D) (r : Running) (state : State) (n : ℕ) → 1 ≤ n → n ≤ 8 → IsState ⟦<D as Disk>⟧ r disk state → IsState ⟦<D as Disk>⟧ (with_current n r) disk (record state { current = n }) }
{
    sessions_may_change();
}

/// The frame of a store is the state that it is, without its rows: so a plan over the frame is one over the state, and what is refused before
/// a row is looked at is refused for the same reason.
pub fn frames_are_of_the_state<D: Disk>()
    ensures bare { (disk : D) (r : Running) (state : State) → IsState ⟦<D as Disk>⟧ r disk state → IsBare (frame_of r) state }
    ensures plan { (disk : D) (r : Running) (state : State) (s : Statement) (plan : Plan) → IsState ⟦<D as Disk>⟧ r disk state → IsPlanned (frame_of r) s plan → IsPlanned state s plan }
    ensures refusal { (disk : D) (r : Running) (state : State) (s : Statement) → IsState ⟦<D as Disk>⟧ r disk state → early_refusal (frame_of r) s ≡ early_refusal state s }
    ensures lock { (disk : D) (r : Running) (state : State) (name : List ℕ) (want : Bool) → IsState ⟦<D as Disk>⟧ r disk state → locked (frame_of r) name want ≡ locked state name want }
    ensures load { (disk : D) (r : Running) (state : State) (name : List ℕ) (load : Load) → IsState ⟦<D as Disk>⟧ r disk state → load_refusal (frame_of r) name load ≡ load_refusal state name load }
{
    catalogues_give_frames();
    rows_decide_nothing_here();
}

/// After a moveout of all that didn't stop before, all data is on disk up to the newest epoch.
pub fn all_moved_reach_the_last_epoch()
    ensures { (old new : State) → IsSoundDatabase old.database → MovesAll old false new → last_good new.database ≡ new.database.last }
{}

/// The plan of a CREATE PROJECTION has the place of a table, and is sorted by columns of its own; that of a DROP PROJECTION has the place of
/// a projection.
pub fn planned_projections_have_places()
    ensures create { (r : Running) (p : NewProjection) (table : ℕ) (shape : ProjectionShape) → IsPlanned (frame_of r) (Statement.CreateProjection p) (Plan.CreateProjection table shape)
        → (table < length r.seen.catalogue.tables) × All (λ i. i < length shape.columns) shape.sort }
    ensures drop { (r : Running) (name : List ℕ) (table place : ℕ) → IsPlanned (frame_of r) (Statement.DropProjection name) (Plan.DropProjection table place)
        → IsSomeAnd (slice_get r.seen.catalogue.tables table) (λ t. place < length t.projections) }
{}

/// Where all projections that aren't up to date wait for the mover, the store is the state in which they do.
pub fn refreshes_may_be_asked_for<D: Disk>()
    ensures { (disk : D) (r : Running) (state : State) → IsState ⟦<D as Disk>⟧ r disk state → IsState ⟦<D as Disk>⟧ (with_asked (all_stale r.seen.catalogue.tables) r) disk (refresh_started state) }
{
    refreshed_states_are_sound();
}
