//! The bounds that conditions set.

ghost use Rattle.std.specs.Prelude.{◌≡◌, ◌<◌, ◌≤◌, ◌<ℤ◌, ◌≤ℤ◌, ◌+◌, ◌-◌, ◌^◌, ◌==◌, ◌+ℤ◌, ◌-ℤ◌, ℕ, ℤ, pos, negsuc, neg_ℤ, if◌then◌else◌, true, Contains, List, None, Some, IfOk, OnOk};
ghost use Rattle.std.specs.List.{All, list_any, slice_index_or};
ghost use Rattle.std.specs.Option.{IfSome};
ghost use Rattle.std.specs.Ordering.{int_eq, is_le};
ghost use Rattle.col_value.specs.declared.value.Value.{Value as Item};
ghost use Rattle.col_value.specs.declared.value.Value.TheVariants.{Null};
ghost use Rattle.col_value.specs.declared.wide.Wide.{Wide as Worth};
ghost use Rattle.col_value.specs.Order.{value_cmp, widened};
ghost use Rattle.sql_tree.specs.declared.tree.Cmp.{Cmp as Comparison};
ghost use Rattle.sql_bound.specs.declared.expr.Expr.{Expr as Condition};
ghost use Rattle.sql_bound.specs.declared.expr.Expr.TheViews.{out-Expr};
ghost use Rattle.sql_bound.specs.Outputs.{is_kept};
ghost use Rattle.sql_bound.specs.Values.{compared, is_true, negated, of_row, value_of};
ghost use Rattle.row_bounds.specs.Bounds.{lies_in, within};
ghost use Rattle.row_bounds.specs.Setting.{before, behind, between, bound_at, bound_to, column_in, compared_bound, constant_in, literal_value, minus_literal, minus_value, set_bound, short_number, turned, IsSet};
ghost use Rattle.row_bounds.specs.declared.bound.Bound.{Bound as Between};

use crate::bound::Bound;
use crate::hull::hulls;
use col_value::{Value, Wide};
use sql_bound::Expr;
use sql_tree::Cmp;
use std::alloc::{AllocError, Global};

/// The bounds that conditions set to the values of a row's first columns, of which there are so many. A condition that compares a column
/// with a constant sets one, and so does each part of an AND; an OR sets those from the least to the greatest value of all its parts.
pub fn bounds_of(alloc: Global, keep: &[Expr], columns: usize) -> Result<Vec<Bound>, AllocError>
    ensures own { IfOk result (λ v. All (λ b. b.column < columns) v.items) }
    ensures kept { IfOk result (λ v. (row : List Item) → is_kept keep.now row ≡ true → within v.items row ≡ true) }
    ensures set { IfOk result (λ v. (b : Between) → IsSet keep.now 0 columns b → Contains v.items b) }
{
    let mut out = Vec::new(alloc);
    add_all(alloc, keep, columns, &mut out)?;
    Ok(out)
}

/// Adds the bounds that a condition sets.
#[cycle(adding)]
fn add_bounds(
    alloc: Global,
    e: &Expr,
    columns: usize,
    out: &mut Vec<Bound>,
) -> Result<(), AllocError>
    requires own { All (λ b. b.column < columns) out.old.items }
    ensures own { OnOk result (All (λ b. b.column < columns) out.new.items) }
    ensures kept { OnOk result ((row : List Item) → is_true (value_of (of_row row) e.now) ≡ true → within out.old.items row ≡ true → within out.new.items row ≡ true) }
    ensures stays { OnOk result ((b : Between) → Contains out.old.items b → Contains out.new.items b) }
    ensures set { OnOk result ((b : Between) → set_bound e.now ≡ Some b → b.column < columns → Contains out.new.items b) }
{
    match e {
        Expr::Compare(a, cmp, b) => add_compared(alloc, a.get(), *cmp, b.get(), columns, out),
        Expr::And(parts) => add_all(alloc, parts.as_slice(), columns, out),
        Expr::Or(parts) => add_some(alloc, parts.as_slice(), columns, out),
        Expr::Lit(_)
        | Expr::Col(_)
        | Expr::Key(_)
        | Expr::Agg(_)
        | Expr::Neg(_)
        | Expr::Sum(_)
        | Expr::Product(_)
        | Expr::IsNull(_)
        | Expr::Not(_) => Ok(()),
    }
}

/// Adds the bounds that each of some conditions sets.
#[cycle(adding)]
fn add_all(
    alloc: Global,
    parts: &[Expr],
    columns: usize,
    out: &mut Vec<Bound>,
) -> Result<(), AllocError>
    requires own { All (λ b. b.column < columns) out.old.items }
    ensures own { OnOk result (All (λ b. b.column < columns) out.new.items) }
    ensures kept { OnOk result ((row : List Item) → is_kept parts.now row ≡ true → within out.old.items row ≡ true → within out.new.items row ≡ true) }
    ensures stays { OnOk result ((b : Between) → Contains out.old.items b → Contains out.new.items b) }
    ensures set { OnOk result ((e : Condition) (b : Between) → Contains parts.now e → set_bound e ≡ Some b → b.column < columns → Contains out.new.items b) }
{
    for part in parts {
        add_bounds(alloc, part, columns, out)?;
    }
    Ok(())
}

/// Adds the bounds of a row on which one of some conditions is true.
#[cycle(adding)]
fn add_some(
    alloc: Global,
    parts: &[Expr],
    columns: usize,
    out: &mut Vec<Bound>,
) -> Result<(), AllocError>
    requires own { All (λ b. b.column < columns) out.old.items }
    ensures own { OnOk result (All (λ b. b.column < columns) out.new.items) }
    ensures kept { OnOk result ((row : List Item) → list_any (λ e. is_true (value_of (of_row row) e)) parts.now ≡ true → within out.old.items row ≡ true → within out.new.items row ≡ true) }
    ensures stays { OnOk result ((b : Between) → Contains out.old.items b → Contains out.new.items b) }
{
    let [first, later @ ..] = parts else {
        return Ok(());
    };
    let mut shared = Vec::new(alloc);
    add_bounds(alloc, first, columns, &mut shared)?;
    for part in later {
        let mut others = Vec::new(alloc);
        add_bounds(alloc, part, columns, &mut others)?;
        shared = hulls(alloc, shared, others.as_slice())?;
    }
    out.append(&mut shared)
}

/// Adds the bound that a comparison sets to one of the first columns, if it sets one.
fn add_compared(
    alloc: Global,
    a: &Expr,
    cmp: Cmp,
    b: &Expr,
    columns: usize,
    out: &mut Vec<Bound>,
) -> Result<(), AllocError>
    requires own { All (λ b. b.column < columns) out.old.items }
    ensures own { OnOk result (All (λ b. b.column < columns) out.new.items) }
    ensures kept { OnOk result ((row : List Item) → is_true (compared cmp (value_of (of_row row) a.now) (value_of (of_row row) b.now)) ≡ true → within out.old.items row ≡ true → within out.new.items row ≡ true) }
    ensures stays { OnOk result ((b : Between) → Contains out.old.items b → Contains out.new.items b) }
    ensures set { OnOk result ((bound : Between) → compared_bound cmp (out-Expr a.now) (out-Expr b.now) ≡ Some bound → bound.column < columns → Contains out.new.items bound) }
{
    if let Some(bound) = bound_of(alloc, a, cmp, b)? {
        if bound.column < columns {
            out.push(bound)?;
        }
    }
    Ok(())
}

/// The bound that a comparison of a column with a constant sets.
fn bound_of(alloc: Global, a: &Expr, cmp: Cmp, b: &Expr) -> Result<Option<Bound>, AllocError>
    ensures lies { IfOk result (λ o. IfSome o (λ bound. (row : List Item) → is_true (compared cmp (value_of (of_row row) a.now) (value_of (of_row row) b.now)) ≡ true → lies_in bound (slice_index_or row bound.column Null) ≡ true)) }
    ensures is { IfOk result (λ o. o ≡ compared_bound cmp (out-Expr a.now) (out-Expr b.now)) }
{
    if let Some(column) = column_of(a) {
        return bound_to(alloc, column, cmp, b);
    }
    if let Some(column) = column_of(b) {
        return bound_to(alloc, column, turned(cmp), a);
    }
    Ok(None)
}

/// The bound of a column that stands so to an expression, where that is a constant.
fn bound_to(alloc: Global, column: usize, cmp: Cmp, e: &Expr) -> Result<Option<Bound>, AllocError>
    ensures lies { IfOk result (λ o. IfSome o (λ bound. (bound.column ≡ column) × ((row : List Item) (v : Item) → is_true (compared cmp (widened v) (value_of (of_row row) e.now)) ≡ true → lies_in bound v ≡ true))) }
    ensures is { IfOk result (λ o. o ≡ bound_to column cmp (constant_in (out-Expr e.now))) }
{
    match constant_of(alloc, e)? {
        Some(value) => bound_at(alloc, column, cmp, value),
        None => Ok(None),
    }
}

/// The column that an expression is.
fn column_of(e: &Expr) -> Option<usize>
    ensures worth { IfSome result (λ c. (row : List Item) → value_of (of_row row) e.now ≡ widened (slice_index_or row c Null)) }
    ensures is { result ≡ column_in (out-Expr e.now) }
{
    match e {
        Expr::Col(c) => Some(*c),
        Expr::Lit(_)
        | Expr::Key(_)
        | Expr::Agg(_)
        | Expr::Neg(_)
        | Expr::Sum(_)
        | Expr::Product(_)
        | Expr::Compare(_, _, _)
        | Expr::IsNull(_)
        | Expr::Not(_)
        | Expr::And(_)
        | Expr::Or(_) => None,
    }
}

/// The constant that an expression is: a literal, or a minus and a number, where that is a value of a table.
fn constant_of(alloc: Global, e: &Expr) -> Result<Option<Value>, AllocError>
    ensures worth { IfOk result (λ o. IfSome o (λ v. (row : List Item) → value_of (of_row row) e.now ≡ widened v)) }
    ensures is { IfOk result (λ o. o ≡ constant_in (out-Expr e.now)) }
{
    match e {
        Expr::Lit(value) => literal_value(alloc, value),
        Expr::Neg(part) => Ok(minus_value(part.get())),
        Expr::Col(_)
        | Expr::Key(_)
        | Expr::Agg(_)
        | Expr::Sum(_)
        | Expr::Product(_)
        | Expr::Compare(_, _, _)
        | Expr::IsNull(_)
        | Expr::Not(_)
        | Expr::And(_)
        | Expr::Or(_) => Ok(None),
    }
}

/// The number that a minus and an expression are, where that is a number's literal.
fn minus_value(e: &Expr) -> Option<Value>
    ensures worth { IfSome result (λ v. (row : List Item) → negated (value_of (of_row row) e.now) ≡ widened v) }
    ensures is { result ≡ minus_value (out-Expr e.now) }
{
    match e {
        Expr::Lit(value) => minus_literal(value),
        Expr::Col(_)
        | Expr::Key(_)
        | Expr::Agg(_)
        | Expr::Neg(_)
        | Expr::Sum(_)
        | Expr::Product(_)
        | Expr::Compare(_, _, _)
        | Expr::IsNull(_)
        | Expr::Not(_)
        | Expr::And(_)
        | Expr::Or(_) => None,
    }
}

/// The comparison that says the same with its sides exchanged.
fn turned(cmp: Cmp) -> Cmp
    ensures same { (a b : Worth) → is_true (compared cmp a b) ≡ true → is_true (compared result b a) ≡ true }
    ensures is { result ≡ turned cmp }
{
    match cmp {
        Cmp::Eq => Cmp::Eq,
        Cmp::Ne => Cmp::Ne,
        Cmp::Lt => Cmp::Gt,
        Cmp::Le => Cmp::Ge,
        Cmp::Gt => Cmp::Lt,
        Cmp::Ge => Cmp::Le,
    }
}

/// The value of a table that widens to a literal; none for NULL, to which nothing compares.
fn literal_value(alloc: Global, literal: &Wide) -> Result<Option<Value>, AllocError>
    ensures widens { IfOk result (λ o. IfSome o (λ v. widened v ≡ literal.now)) }
    ensures is { IfOk result (λ o. o ≡ literal_value literal.now) }
{
    match literal {
        Wide::Null => Ok(None),
        Wide::Bool(b) => Ok(Some(Value::Bool(*b))),
        Wide::Int(n) => Ok(short_number(*n)),
        Wide::Date(d) => Ok(Some(Value::Date(*d))),
        Wide::Text(t) => Ok(Some(Value::Text(t.copy(alloc)?))),
    }
}

/// The value of a table that widens to a number's literal with its sign turned.
fn minus_literal(literal: &Wide) -> Option<Value>
    ensures widens { IfSome result (λ v. widened v ≡ negated literal.now) }
    ensures is { result ≡ minus_literal literal.now }
{
    match literal {
        Wide::Int(n) => minus_number(*n),
        Wide::Null | Wide::Bool(_) | Wide::Date(_) | Wide::Text(_) => None,
    }
}

fn minus_number(n: i128) -> Option<Value>
    ensures { result ≡ short_number (neg_ℤ n) }
{
    if n == i128::MIN {
        return None;
    }
    short_number(-n)
}

fn short_number(n: i128) -> Option<Value>
    ensures { result ≡ short_number n }
{
    if -(1 << 63) <= n && n <= (1 << 63) - 1 {
        Some(Value::Int(n as i64))
    } else {
        None
    }
}

/// The bound of a column that stands so to a value.
fn bound_at(
    alloc: Global,
    column: usize,
    cmp: Cmp,
    value: Value,
) -> Result<Option<Bound>, AllocError>
    ensures lies { IfOk result (λ o. IfSome o (λ bound. (bound.column ≡ column) × ((v : Item) → is_true (compared cmp (widened v) (widened value)) ≡ true → lies_in bound v ≡ true))) }
    ensures is { IfOk result (λ o. o ≡ bound_at column cmp value) }
{
    match cmp {
        Cmp::Eq => {
            let least = Some(value.copy(alloc)?);
            Ok(Some(Bound {
                column,
                least,
                greatest: Some(value),
            }))
        },
        Cmp::Ne => Ok(None),
        Cmp::Lt => Ok(Some(up_to(column, before(value)))),
        Cmp::Le => Ok(Some(up_to(column, value))),
        Cmp::Gt => Ok(Some(from_on(column, behind(value)))),
        Cmp::Ge => Ok(Some(from_on(column, value))),
    }
}

/// The values of a column up to one.
fn up_to(column: usize, greatest: Value) -> Bound
    ensures lies { (result.column ≡ column) × ((v : Item) → is_le (value_cmp v greatest) ≡ true → lies_in result v ≡ true) }
    ensures is { result ≡ between column None (Some greatest) }
{
    Bound {
        column,
        least: None,
        greatest: Some(greatest),
    }
}

/// The values of a column from one on.
fn from_on(column: usize, least: Value) -> Bound
    ensures lies { (result.column ≡ column) × ((v : Item) → is_le (value_cmp least v) ≡ true → lies_in result v ≡ true) }
    ensures is { result ≡ between column (Some least) None }
{
    Bound {
        column,
        least: Some(least),
        greatest: None,
    }
}

/// A value up to which all stand that are less than another one of their kind: of numbers, days and truth values the one before it, so
/// that it is out of the bound itself; of texts, which have none before them, the text.
fn before(value: Value) -> Value
    ensures near { (v : Item) → is_true (compared Comparison.Lt (widened v) (widened value)) ≡ true → is_le (value_cmp v result) ≡ true }
    ensures is { result ≡ before value }
{
    match value {
        Value::Null => Value::Null,
        Value::Bool(_) => Value::Bool(false),
        Value::Int(n) => Value::Int(number_before(n)),
        Value::Date(d) => Value::Date(d.saturating_sub(1)),
        Value::Text(t) => Value::Text(t),
    }
}

/// A value from which on all stand that are greater than another one of their kind, as `before` has it for those that are less.
fn behind(value: Value) -> Value
    ensures near { (v : Item) → is_true (compared Comparison.Gt (widened v) (widened value)) ≡ true → is_le (value_cmp result v) ≡ true }
    ensures is { result ≡ behind value }
{
    match value {
        Value::Null => Value::Null,
        Value::Bool(_) => Value::Bool(true),
        Value::Int(n) => Value::Int(number_behind(n)),
        Value::Date(d) => Value::Date(day_behind(d)),
        Value::Text(t) => Value::Text(t),
    }
}

/// The number before another one; the least number for itself.
fn number_before(n: i64) -> i64
    ensures near { (k : ℤ) → k <ℤ n → k ≤ℤ result }
    ensures is { result ≡ if int_eq n (negsuc (2 ^ 63 - 1)) then n else n -ℤ pos 1 }
{
    if n == i64::MIN { n } else { n - 1 }
}

/// The number behind another one; the greatest number for itself.
fn number_behind(n: i64) -> i64
    ensures near { (k : ℤ) → n <ℤ k → result ≤ℤ k }
    ensures is { result ≡ if int_eq n (pos (2 ^ 63 - 1)) then n else n +ℤ pos 1 }
{
    if n == i64::MAX { n } else { n + 1 }
}

/// The day behind another one; the greatest one that a day's number has room for, for itself.
fn day_behind(d: u32) -> u32
    ensures near { (k : ℕ) → d < k → result ≤ k }
    ensures is { result ≡ if d == 2 ^ 32 - 1 then d else d + 1 }
{
    if d == u32::MAX { d } else { d + 1 }
}
