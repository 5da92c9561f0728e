ghost use Rattle.std.specs.Prelude.{ℕ, ◌≡◌, ◌≤◌, ◌<◌, ◌++◌, [], List, map};
ghost use Rattle.std.specs.List.{All};
ghost use Rattle.common_laws.specs.Bags.{SameBag};
ghost use Rattle.col_value.specs.declared.value.Value.{Value};
ghost use Rattle.col_value.specs.declared.row.Stamped.{Stamped};
ghost use Rattle.col_value.specs.declared.row.Asked.{Asked};
ghost use Rattle.col_value.specs.Order.{projected};
ghost use Rattle.row_history.specs.History.{visible, retained, cut_rows, on_columns, asked_on, inserted_at, mark_all, Within, Takes};

/// A cut at an epoch from a mark on takes nothing from what is retained, nor does a look at one; rows that came later are cut away.
pub fn rows_up_to_an_epoch()
    ensures cut { (mark epoch : ℕ) (rows : List Stamped) → mark ≤ epoch → retained mark (cut_rows epoch rows) ≡ cut_rows epoch (retained mark rows) }
    ensures seen { (mark epoch : ℕ) (rows : List Stamped) → mark ≤ epoch → visible epoch (retained mark rows) ≡ visible epoch rows }
    ensures later_mark { (mark later : ℕ) (rows : List Stamped) → mark ≤ later → retained later (retained mark rows) ≡ retained later rows }
    ensures joined { (epoch : ℕ) (xs ys : List Stamped) → cut_rows epoch (xs ++ ys) ≡ cut_rows epoch xs ++ cut_rows epoch ys }
    ensures later_rows { (epoch : ℕ) (rows : List Stamped) → All (λ s. epoch < s.ins) rows → cut_rows epoch rows ≡ [] }
{}

/// A projection's columns of rows: their epochs stay, so what is seen, retained and cut is that of the table with these columns.
pub fn rows_of_a_projection()
    ensures seen { (columns : List ℕ) (epoch : ℕ) (rows : List Stamped) → visible epoch (map (on_columns columns) rows) ≡ map (λ row. projected row columns) (visible epoch rows) }
    ensures kept { (columns : List ℕ) (mark : ℕ) (rows : List Stamped) → retained mark (map (on_columns columns) rows) ≡ map (on_columns columns) (retained mark rows) }
    ensures cut { (columns : List ℕ) (epoch : ℕ) (rows : List Stamped) → cut_rows epoch (map (on_columns columns) rows) ≡ map (on_columns columns) (cut_rows epoch rows) }
{}

/// The order of rows is nothing to what is seen, retained and cut.
pub fn rows_as_a_bag()
    ensures seen { (epoch : ℕ) (xs ys : List Stamped) → SameBag xs ys → SameBag (visible epoch xs) (visible epoch ys) }
    ensures kept { (mark : ℕ) (xs ys : List Stamped) → SameBag xs ys → SameBag (retained mark xs) (retained mark ys) }
    ensures cut { (epoch : ℕ) (xs ys : List Stamped) → SameBag xs ys → SameBag (cut_rows epoch xs) (cut_rows epoch ys) }
{}

/// A projection that retains what its table does goes on so where a commit's rows join both, each with its columns.
pub fn inserts_stay_alike()
    ensures { (columns : List ℕ) (mark epoch : ℕ) (stored rows : List Stamped) (new : List (List Value))
        → SameBag (retained mark stored) (map (on_columns columns) (retained mark rows))
        → SameBag (retained mark (stored ++ map (inserted_at epoch) (map (λ row. projected row columns) new))) (map (on_columns columns) (retained mark (rows ++ map (inserted_at epoch) new))) }
{}

/// A projection that retains what its table does goes on so where a commit deletes the same rows of both; and the rows that are
/// deleted one after the other are the rows that were asked for, where these are there.
pub fn deletes_stay_alike()
    ensures alike { (columns : List ℕ) (mark epoch : ℕ) (asked : List Asked) (stored stored_now rows rows_now : List Stamped) → mark < epoch
        → SameBag (retained mark stored) (map (on_columns columns) (retained mark rows))
        → Takes epoch (map (asked_on columns) asked) stored stored_now → Takes epoch asked rows rows_now
        → SameBag (retained mark stored_now) (map (on_columns columns) (retained mark rows_now)) }
    ensures marked { (epoch : ℕ) (asked : List Asked) (rows : List Stamped) → Within asked rows → Takes epoch asked rows (mark_all epoch asked rows) }
{}
