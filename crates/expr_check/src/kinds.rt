ghost use Rattle.std.specs.Prelude.{◌≡◌, map, Option};
ghost use Rattle.std.specs.List.{list_all, slice_get};
ghost use Rattle.sql_bound.specs.declared.expr.Kind.{Kind};
ghost use Rattle.sql_bound.specs.Kinds.{Kinds, kind_of_value, serves, is_of, kind_where, are_comparable, kind_of, is_condition};
ghost use Rattle.expr_check.specs.Terms.{term_kind_of};

use col_value::Wide;
use sql_bound::{BoundTerm, Expr, Kind};
use std::marker::Model;

/// The kinds of the columns of all FROM items, of the GROUP BY columns and of the aggregates.
#[derive(Drop)]
pub struct Places<'a> {
    columns: &'a [Kind],
    keys: &'a [Kind],
    aggs: &'a [Kind],
}

impl<'a> Model for Places<'a> {
    ghost use Rattle.sql_bound.specs.Kinds.{Kinds};

    ghost Value = { Kinds };

    ghost view = { λ p. record { columns = p.columns.now; keys = p.keys.now; aggs = p.aggs.now } };
}

impl<'a> Places<'a> {
    /// The places of a query, or of a part of one.
    pub fn new(columns: &'a [Kind], keys: &'a [Kind], aggs: &'a [Kind]) -> Places<'a>
        ensures { result ≡ record { columns = columns.now; keys = keys.now; aggs = aggs.now } }
    {
        Places {
            columns,
            keys,
            aggs,
        }
    }
}

/// The kind of an expression, or None where it is not typed or names a place that is not there.
#[cycle(kind)]
pub fn kind_of(e: &Expr, places: &Places<'_>) -> Option<Kind>
    ensures { result ≡ kind_of places.now e.now }
{
    match e {
        Expr::Lit(value) => Some(kind_of_value(value)),
        Expr::Col(i) => kind_at(places.columns, *i),
        Expr::Key(i) => kind_at(places.keys, *i),
        Expr::Agg(i) => kind_at(places.aggs, *i),
        Expr::Neg(part) => kind_where(
            is_of(Kind::Number, kind_of(part.get(), places)),
            Kind::Number,
        ),
        Expr::Sum(terms) => kind_where(are_numbers(terms.as_slice(), places), Kind::Number),
        Expr::Product(parts) => kind_where(
            are_of(Kind::Number, parts.as_slice(), places),
            Kind::Number,
        ),
        Expr::Compare(a, _, b) => {
            let (a, b) = (kind_of(a.get(), places), kind_of(b.get(), places));
            kind_where(are_comparable(a, b), Kind::Truth)
        },
        Expr::IsNull(part) => kind_where(kind_of(part.get(), places).is_some(), Kind::Truth),
        Expr::Not(part) => kind_where(is_of(Kind::Truth, kind_of(part.get(), places)), Kind::Truth),
        Expr::And(parts) | Expr::Or(parts) => kind_where(
            are_of(Kind::Truth, parts.as_slice(), places),
            Kind::Truth,
        ),
    }
}

/// Whether all parts are typed, and of a kind that fits there.
#[cycle(kind)]
fn are_of(want: Kind, parts: &[Expr], places: &Places<'_>) -> bool
    ensures { result ≡ list_all (is_of want) (map (kind_of places.now) parts.now) }
{
    for part in parts {
        if !is_of(want, kind_of(part, places)) {
            return false;
        }
    }
    true
}

/// Whether all parts of a sum are numbers.
#[cycle(kind)]
fn are_numbers(terms: &[BoundTerm], places: &Places<'_>) -> bool
    ensures { result ≡ list_all (is_of Kind.Number) (map (term_kind_of places.now) terms.now) }
{
    for term in terms {
        if !is_of(Kind::Number, kind_of(&term.part, places)) {
            return false;
        }
    }
    true
}

/// Whether what stands behind WHERE, ON or HAVING is typed, and a truth value.
pub fn is_condition(e: &Expr, places: &Places<'_>) -> bool
    ensures { result ≡ is_condition places.now e.now }
{
    is_of(Kind::Truth, kind_of(e, places))
}

/// The kind at a place, if it is there.
fn kind_at(kinds: &[Kind], i: usize) -> Option<Kind>
    ensures { result ≡ slice_get kinds.now i }
{
    kinds.get(i).copied()
}

fn kind_of_value(value: &Wide) -> Kind
    ensures { result ≡ kind_of_value value.now }
{
    match value {
        Wide::Null => Kind::Null,
        Wide::Bool(_) => Kind::Truth,
        Wide::Int(_) => Kind::Number,
        Wide::Date(_) => Kind::Date,
        Wide::Text(_) => Kind::Text,
    }
}

/// Whether a value of this kind fits where that kind is wanted; NULL fits everywhere.
fn serves(kind: Kind, want: Kind) -> bool
    ensures { result ≡ serves kind want }
{
    kind == Kind::Null || want == Kind::Null || kind == want
}

fn is_of(want: Kind, kind: Option<Kind>) -> bool
    ensures { result ≡ is_of want kind }
{
    match kind {
        Some(kind) => serves(kind, want),
        None => false,
    }
}

fn kind_where(right: bool, kind: Kind) -> Option<Kind>
    ensures { result ≡ kind_where right kind }
{
    if right { Some(kind) } else { None }
}

fn are_comparable(a: Option<Kind>, b: Option<Kind>) -> bool
    ensures { result ≡ are_comparable a b }
{
    match (a, b) {
        (Some(a), Some(b)) => serves(a, b),
        _ => false,
    }
}
