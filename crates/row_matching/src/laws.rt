//! Laws of matched rows.

ghost use Rattle.std.specs.Prelude.{ℕ, ◌≡◌, ◌+◌, ◌++◌, List, length, map};
ghost use Rattle.std.specs.List.{AllZip};
ghost use Rattle.common_laws.specs.Bags.{SameBag};
ghost use Rattle.col_value.specs.declared.row.Asked.{Asked};
ghost use Rattle.col_value.specs.declared.value.Value.{Value};
ghost use Rattle.sql_bound.specs.declared.expr.Expr.{Expr};
ghost use Rattle.db_model.specs.Alike.{AreAlikeChanges};
ghost use Rattle.db_model.specs.Database.{Database, Table};
ghost use Rattle.db_model.specs.Sound.{IsSoundDatabase, IsSoundSession};
ghost use Rattle.db_model.specs.State.{Changes};
ghost use Rattle.db_model.specs.Events.{matched_rows};
ghost use Rattle.row_matching.specs.Matching.{AreMatches, AreMatchesIn};

/// The rows that match are the matched rows of DELETE and UPDATE, in any order, and there are as many.
pub fn matches_are_the_matched_rows()
    ensures rows { (keep : List Expr) (last : ℕ) (changes : List Changes) (t : Table) (committed : List Asked) (pending : List (List Value)) → AreMatchesIn keep last changes t committed pending
        → SameBag (map (λ a. a.row) committed ++ pending) (matched_rows keep changes last t) }
    ensures count { (keep : List Expr) (last : ℕ) (changes : List Changes) (t : Table) (committed : List Asked) (pending : List (List Value)) → AreMatchesIn keep last changes t committed pending
        → length committed + length pending ≡ length (matched_rows keep changes last t) }
{}

/// Of changes that are alike the same rows match.
pub fn alike_changes_match_alike()
    ensures { (keep : List Expr) (d : Database) (changes others : List Changes) (i : ℕ) (committed : List Asked) (pending : List (List Value)) → IsSoundDatabase d → IsSoundSession d changes → AllZip AreAlikeChanges changes others
        → AreMatches keep d changes i committed pending → AreMatches keep d others i committed pending }
{}
