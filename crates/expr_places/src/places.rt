ghost use Rattle.std.specs.Prelude.{◌≡◌, map};
ghost use Rattle.std.specs.List.{list_all};
ghost use Rattle.expr_places.specs.Places.{is_between, looks_only, term_looks_only};

use sql_bound::{BoundTerm, Expr};

/// Whether each column at which the expression looks stands at `low` or behind it, and before `high`.
#[cycle(looks)]
pub fn looks_between(e: &Expr, low: usize, high: usize) -> bool
    ensures { result ≡ looks_only (is_between low high) e.now }
{
    match e {
        Expr::Lit(_) | Expr::Key(_) | Expr::Agg(_) => true,
        Expr::Col(i) => low <= *i && *i < high,
        Expr::Neg(part) | Expr::IsNull(part) | Expr::Not(part) => {
            looks_between(part.get(), low, high)
        },
        Expr::Sum(terms) => terms_look_between(terms.as_slice(), low, high),
        Expr::Product(parts) | Expr::And(parts) | Expr::Or(parts) => {
            parts_look_between(parts.as_slice(), low, high)
        },
        Expr::Compare(a, _, b) => {
            looks_between(a.get(), low, high) && looks_between(b.get(), low, high)
        },
    }
}

#[cycle(looks)]
fn parts_look_between(parts: &[Expr], low: usize, high: usize) -> bool
    ensures { result ≡ list_all (λ b. b) (map (looks_only (is_between low high)) parts.now) }
{
    for part in parts {
        if !looks_between(part, low, high) {
            return false;
        }
    }
    true
}

#[cycle(looks)]
fn terms_look_between(terms: &[BoundTerm], low: usize, high: usize) -> bool
    ensures { result ≡ list_all (λ b. b) (map (term_looks_only (is_between low high)) terms.now) }
{
    for term in terms {
        if !looks_between(&term.part, low, high) {
            return false;
        }
    }
    true
}
