//! Whether a query bounds a column by a constant.

ghost use Rattle.std.specs.Prelude.{◌≡◌, ◌==◌, ◌&&◌};
ghost use Rattle.std.specs.List.{list_any};
ghost use Rattle.db_model.specs.Choice.{is_bounding, literal_side, side_of};
ghost use Rattle.plan_choice.specs.Bounding.{IsSide, is_at, bounds_column};

use col_value::Wide;
use sql_bound::{BoundQuery, Expr, FromItem};
use sql_tree::Cmp;

/// What an expression is to a comparison: a number, a constant, or a column alone.
#[derive(Clone, Copy)]
pub struct Side {
    number: bool,
    constant: bool,
    alone: Option<usize>,
}

impl Side {
    fn constant(number: bool, constant: bool) -> Side
        ensures { result ≡ record { number = number; constant = constant; alone = None } }
    {
        Side {
            number,
            constant,
            alone: None,
        }
    }

    /// Whether it is the column of this place of a FROM item.
    pub fn is_at(&self, item: FromItem, c: usize) -> bool
        ensures { result ≡ is_at item c self.now.alone }
    {
        match self.alone {
            Some(i) => item.first <= i && i - item.first < item.columns && i - item.first == c,
            None => false,
        }
    }
}

fn literal(value: &Wide) -> Side
    ensures { IsSide result (literal_side value.now) }
{
    match value {
        Wide::Null => Side::constant(false, false),
        Wide::Bool(_) => Side::constant(false, true),
        Wide::Int(_) => Side::constant(true, true),
        Wide::Date(_) => Side::constant(false, true),
        Wide::Text(_) => Side::constant(false, true),
    }
}

#[cycle(sides)]
pub fn side_of(e: &Expr) -> Side
    ensures { IsSide result (side_of e.now) }
{
    match e {
        Expr::Lit(value) => literal(value),
        Expr::Col(i) => Side {
            number: false,
            constant: false,
            alone: Some(*i),
        },
        Expr::Key(_) => Side::constant(false, false),
        Expr::Agg(_) => Side::constant(false, false),
        Expr::Neg(part) => Side::constant(false, side_of(part.get()).number),
        Expr::Sum(_) => Side::constant(false, false),
        Expr::Product(_) => Side::constant(false, false),
        Expr::Compare(_, _, _) => Side::constant(false, false),
        Expr::IsNull(_) => Side::constant(false, false),
        Expr::Not(_) => Side::constant(false, false),
        Expr::And(_) => Side::constant(false, false),
        Expr::Or(_) => Side::constant(false, false),
    }
}

/// All comparisons but `<>` bound.
fn is_bounding(how: Cmp) -> bool
    ensures { result ≡ is_bounding how }
{
    match how {
        Cmp::Eq => true,
        Cmp::Ne => false,
        Cmp::Lt => true,
        Cmp::Le => true,
        Cmp::Gt => true,
        Cmp::Ge => true,
    }
}

/// Whether a member of the condition bounds the column of this place of a FROM item.
fn bounds(e: &Expr, item: FromItem, c: usize) -> bool
    ensures { result ≡ bounds_column item c e.now }
{
    match e {
        Expr::Lit(_) => false,
        Expr::Col(_) => false,
        Expr::Key(_) => false,
        Expr::Agg(_) => false,
        Expr::Neg(_) => false,
        Expr::Sum(_) => false,
        Expr::Product(_) => false,
        Expr::Compare(a, how, b) => {
            let (a, b) = (side_of(a.get()), side_of(b.get()));
            is_bounding(*how) && (b.constant && a.is_at(item, c) || a.constant && b.is_at(item, c))
        },
        Expr::IsNull(_) => false,
        Expr::Not(_) => false,
        Expr::And(_) => false,
        Expr::Or(_) => false,
    }
}

/// Whether the query bounds the column of this place of a FROM item by a constant.
pub fn is_bounded(q: &BoundQuery, item: FromItem, c: usize) -> bool
    ensures { result ≡ list_any (bounds_column item c) q.now.keep }
{
    for e in q.keep.as_slice() {
        if bounds(e, item, c) {
            return true;
        }
    }
    false
}
