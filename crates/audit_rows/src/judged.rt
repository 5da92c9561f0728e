//! The delete epoch with which a row is judged.

ghost use Rattle.std.specs.Prelude.{ℕ, ◌≡◌, ◌∷◌, [], true, nat_lt, List};
ghost use Rattle.std.specs.Option.{option_map_or};
ghost use Rattle.col_value.specs.declared.value.Value.{Value};
ghost use Rattle.row_history.specs.History.{cut_delete, stamped};
ghost use Rattle.audit_model.specs.Rows.{judged_in};
ghost use Rattle.audit_rows.specs.Blocks.{asked_at};
ghost use Rattle.audit_rows.specs.Judged.{rows_with};

/// A delete epoch up to an epoch.
fn cut_delete(epoch: u64, del: Option<u64>) -> Option<u64>
    ensures { result ≡ cut_delete epoch del }
{
    match del {
        Some(at) => { if at <= epoch { Some(at) } else { None } }
        None => None,
    }
}

/// Whether a row of this delete epoch is retained from a mark on.
fn is_retained(mark: u64, del: Option<u64>) -> bool
    ensures { result ≡ option_map_or (λ e. nat_lt mark e) del true }
{
    match del {
        Some(at) => mark < at,
        None => true,
    }
}

/// The delete epoch with which a row is judged, where it is judged.
pub fn judged_delete(ins: u64, del: Option<u64>, epoch: u64, mark: u64) -> Option<Option<u64>>
    ensures { (columns : List (List Value)) (i : ℕ) → judged_in epoch mark (stamped del (asked_at columns i ins) ∷ []) ≡ rows_with (asked_at columns i ins) result }
{
    if ins > epoch {
        return None;
    }
    let cut = cut_delete(epoch, del);
    if is_retained(mark, cut) {
        Some(cut)
    } else {
        None
    }
}
