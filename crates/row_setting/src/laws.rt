//! Laws of rows that are set.

ghost use Rattle.std.specs.Prelude.{ℕ, ◌≡◌, List, map};
ghost use Rattle.common_laws.specs.Bags.{SameBag};
ghost use Rattle.col_value.specs.declared.column.Column.{Column};
ghost use Rattle.col_value.specs.declared.value.Value.{Value};
ghost use Rattle.sql_bound.specs.declared.expr.Expr.{Expr};
ghost use Rattle.db_model.specs.Events.{set_row};
ghost use Rattle.db_model.specs.Refusals.{all_pairs, pairs_refusal};

/// In whatever order rows stand, the same values are refused, and the same rows are made.
pub fn settings_see_a_bag()
    ensures refusal { (sets : List (ℕ × Expr)) (columns : List Column) (rows others : List (List Value)) → SameBag rows others → pairs_refusal (all_pairs sets rows columns) ≡ pairs_refusal (all_pairs sets others columns) }
    ensures rows { (sets : List (ℕ × Expr)) (rows others : List (List Value)) → SameBag rows others → SameBag (map (set_row sets) rows) (map (set_row sets) others) }
{}
