//! Laws of what is looked at before the rows.

ghost use Rattle.std.specs.Prelude.{ℕ, ◌≡◌, Bool, true, List, Some};
ghost use Rattle.common_laws.specs.Maps.{Contents};
ghost use Rattle.catalog_types.specs.declared.catalogue.Catalogue.{Catalogue};
ghost use Rattle.stored_rows.specs.Stored.{Projected};
ghost use Rattle.folder_model.specs.Tables.{AreDatabase};
ghost use Rattle.db_model.specs.Loading.{Files, Load};
ghost use Rattle.db_model.specs.Refusals.{load_refusal, locked, Refuses};
ghost use Rattle.db_model.specs.State.{State};
ghost use Rattle.sql_tree.specs.declared.refusal.Refusal.{Refusal};
ghost use Rattle.db_model.specs.Views.{bound_in};
ghost use Rattle.sql_tree.specs.declared.statement.Statement.{Statement};
ghost use Rattle.sql_tree.specs.declared.query.Query.{Query};
ghost use Rattle.statement_plan.specs.Bare.{bare_state, IsBare};
ghost use Rattle.statement_plan.specs.declared.plans.Plan.{Plan};
ghost use Rattle.statement_plan.specs.Places.{columns_at};
ghost use Rattle.statement_plan.specs.Planned.{early_refusal, is_settled, IsPlanned};

/// What is looked at before the rows is the same in a state and in the one without its rows, and a plan over the one is a plan over the other.
pub fn rows_decide_nothing_here()
    ensures refusal { (bare state : State) (s : Statement) → IsBare bare state → early_refusal bare s ≡ early_refusal state s }
    ensures tree { (bare state : State) (q : Query) → IsBare bare state → bound_in bare q ≡ bound_in state q }
    ensures plan { (bare state : State) (s : Statement) (plan : Plan) → IsBare bare state → IsPlanned bare s plan → IsPlanned state s plan }
    ensures lock { (bare state : State) (name : List ℕ) (want : Bool) → IsBare bare state → locked bare name want ≡ locked state name want }
    ensures columns { (bare state : State) (name : List ℕ) → IsBare bare state → columns_at name bare.database.tables ≡ columns_at name state.database.tables }
    ensures load { (bare state : State) (name : List ℕ) (load : Load) → IsBare bare state → load_refusal bare name load ≡ load_refusal state name load }
{}

/// A refusal before a row is looked at is the statement's, whatever its load files have; and a statement of a form that is refused for nothing
/// else is refused for just this.
pub fn early_refusals_stand()
    ensures refused { (state : State) (files : Files) (s : Statement) (r : Refusal) → early_refusal state s ≡ Some r → Refuses state files s (Some r) }
    ensures settled { (state : State) (files : Files) (s : Statement) → is_settled s ≡ true → Refuses state files s (early_refusal state s) }
{}

/// A catalogue that stands for a state's database gives, with what the sessions have changed, the state without its rows.
pub fn catalogues_give_frames()
    ensures { (m : Contents) (c : Catalogue) (stores : List (List Projected)) (state : State) → AreDatabase m c stores state.database → IsBare (bare_state c.tables c.last c.ahm state.next state.sessions state.current) state }
{}
