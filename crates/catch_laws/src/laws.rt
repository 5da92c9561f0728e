//! Laws of a catch-up.

ghost use Rattle.std.specs.Prelude.{ℕ, ◌≡◌, ◌≤◌, ◌+◌, ◌++◌, [], ◌∷◌, true, List, Some, None};
ghost use Rattle.common_laws.specs.Bags.{SameBag};
ghost use Rattle.col_value.specs.declared.value.Value.{Value};
ghost use Rattle.col_value.specs.declared.row.Asked.{Asked};
ghost use Rattle.db_model.specs.Database.{Database, Table, table_named};
ghost use Rattle.db_model.specs.Events.{changes_committed};
ghost use Rattle.db_model.specs.Sound.{IsSound, IsSoundDatabase};
ghost use Rattle.db_model.specs.State.{State, idle_sessions};
ghost use Rattle.catch_model.specs.Added.{deleted_in, has_change, inserted_in};
ghost use Rattle.catch_model.specs.Caught.{later_mark, IsCaughtUp};
ghost use Rattle.catch_model.specs.Refused.{IsAccepted};
ghost use Rattle.catch_laws.specs.Replay.{with_given, IsAt, Pends};

/// Where nothing is in the way, a state over the database behind, in which no session has changes, is at that's newest epoch.
pub fn a_catch_up_begins()
    ensures { (b : Database) (s : State) → IsAccepted s.database b s.database.last → s.sessions ≡ idle_sessions → IsAt (later_mark s.database b) s.database b s.database.last s }
{}

/// At an epoch nothing of the next one is pending. Where what that inserted into a table and deleted from it becomes pending, in any order, the state is sound,
/// and it has that of one table more; where it was nothing, the state has it as it is.
pub fn an_epoch_is_pending()
    ensures none { (mark : ℕ) (start b : Database) (epoch : ℕ) (s : State) → IsSound s → IsAt mark start b epoch s → Pends mark start b epoch [] s }
    ensures more { (mark : ℕ) (start b : Database) (epoch : ℕ) (done : List Table) (s : State) (t : Table) (rows : List (List Value)) (dels : List Asked) → IsSound s → IsSoundDatabase b → Pends mark start b epoch done s
        → table_named t.name b.tables ≡ Some t → table_named t.name done ≡ None → SameBag rows (inserted_in (epoch + 1) t.rows) → SameBag dels (deleted_in (epoch + 1) t.rows)
        → IsSound (with_given t.name rows dels s) × Pends mark start b epoch (done ++ t ∷ []) (with_given t.name rows dels s) }
    ensures skip { (mark : ℕ) (start b : Database) (epoch : ℕ) (done : List Table) (s : State) (t : Table) → Pends mark start b epoch done s → table_named t.name done ≡ None
        → inserted_in (epoch + 1) t.rows ≡ [] → deleted_in (epoch + 1) t.rows ≡ [] → Pends mark start b epoch (done ++ t ∷ []) s }
{}

/// Where what an epoch changed in all tables is pending, and it changed something, the state is at that epoch behind a commit.
pub fn an_epoch_is_committed()
    ensures { (mark : ℕ) (start b : Database) (epoch : ℕ) (s : State) → IsSound s → IsSoundDatabase b → mark ≤ epoch → Pends mark start b epoch b.tables s → has_change b (epoch + 1) ≡ true
        → IsAt mark start b (epoch + 1) (changes_committed s) }
{}

/// At the newest epoch of the database ahead the state has caught up with it.
pub fn a_catch_up_ends()
    ensures { (mark : ℕ) (start b : Database) (s : State) → IsSoundDatabase b → IsAt mark start b b.last s → IsCaughtUp mark s.database b }
{}
