ghost use Rattle.std.specs.Prelude.{◌≡◌, []};
ghost use Rattle.std.specs.List.{slice_index_or};
ghost use Rattle.col_value.specs.Order.{widened};
ghost use Rattle.col_value.specs.declared.value.Value.TheVariants as value;
ghost use Rattle.col_value.specs.declared.wide.Wide.TheVariants as wide;
ghost use Rattle.sql_bound.specs.Values.{of_row};
ghost use Rattle.expr_value.specs.Parts.{behind_nulls};
ghost use Rattle.expr_value.specs.Worths.{wide_of};

use crate::worth::Worth;
use col_value::{Value, Wide};
use std::marker::Model;

/// What an expression may look at: a row of the columns of all FROM items, or the GROUP BY columns and the aggregates of a
/// group.
#[derive(Drop)]
pub struct Sight<'a> {
    first: usize,
    row: &'a [Value],
    keys: &'a [Value],
    aggs: &'a [Wide],
}

impl<'a> Model for Sight<'a> {
    ghost use Rattle.sql_bound.specs.Values.{Scope};
    ghost use Rattle.expr_value.specs.Parts.{behind_nulls as placed};

    ghost Value = { Scope };

    ghost view = { λ s. record { row = placed s.first s.row.now; keys = s.keys.now; aggs = s.aggs.now } };
}

impl<'a> Sight<'a> {
    /// A row, and no group.
    pub fn of_row(row: &'a [Value]) -> Sight<'a>
        ensures { result ≡ of_row row.now }
    {
        Sight {
            first: 0,
            row,
            keys: &[],
            aggs: &[],
        }
    }

    /// A row that stands behind so many other columns, all NULL, and no group.
    pub fn of_part(first: usize, row: &'a [Value]) -> Sight<'a>
        ensures { result ≡ of_row (behind_nulls first row.now) }
    {
        Sight {
            first,
            row,
            keys: &[],
            aggs: &[],
        }
    }

    /// A row, and the values of windows beside it.
    pub fn of_tuple(row: &'a [Value], windows: &'a [Wide]) -> Sight<'a>
        ensures { result ≡ record { row = row.now; keys = []; aggs = windows.now } }
    {
        Sight {
            first: 0,
            row,
            keys: &[],
            aggs: windows,
        }
    }

    /// A group, and no row.
    pub fn of_group(keys: &'a [Value], aggs: &'a [Wide]) -> Sight<'a>
        ensures { result ≡ record { row = []; keys = keys.now; aggs = aggs.now } }
    {
        Sight {
            first: 0,
            row: &[],
            keys,
            aggs,
        }
    }

    /// A column of the row; NULL where it is not there.
    pub fn column(&self, i: usize) -> Worth<'a>
        ensures { wide_of result ≡ widened (slice_index_or self.now.row i value.Null) }
    {
        part_value_at(self.first, self.row, i)
    }

    /// A column of GROUP BY; NULL where it is not there.
    pub fn key(&self, i: usize) -> Worth<'a>
        ensures { wide_of result ≡ widened (slice_index_or self.now.keys i value.Null) }
    {
        value_at(self.keys, i)
    }

    /// An aggregate; NULL where it is not there.
    pub fn agg(&self, i: usize) -> Worth<'a>
        ensures { wide_of result ≡ slice_index_or self.now.aggs i wide.Null }
    {
        match self.aggs.get(i) {
            Some(value) => Worth::of_wide(value),
            None => Worth::Null,
        }
    }
}

fn value_at<'a>(values: &'a [Value], i: usize) -> Worth<'a>
    ensures { wide_of result ≡ widened (slice_index_or values.now i value.Null) }
{
    match values.get(i) {
        Some(value) => Worth::of_value(value),
        None => Worth::Null,
    }
}

fn part_value_at<'a>(first: usize, values: &'a [Value], i: usize) -> Worth<'a>
    ensures { wide_of result ≡ widened (slice_index_or (behind_nulls first values.now) i value.Null) }
{
    if i < first {
        Worth::Null
    } else {
        value_at(values, i - first)
    }
}
