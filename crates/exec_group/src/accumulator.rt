//! An aggregate that takes one value after another.

ghost use Rattle.std.specs.Prelude.{◌≡◌, ◌+◌, [], false, true, None, Some, if◌then◌else◌, IfOk, OnOk, IsErrOf};
ghost use Rattle.col_value.specs.Order.{wide_cmp, wide_kind};
ghost use Rattle.col_value.specs.declared.wide.Wide.TheVariants as wide;
ghost use Rattle.sql_bound.specs.Outputs.{greater, lesser, number_or_zero};
ghost use Rattle.expr_value.specs.Worths.{wide_of};
ghost use Rattle.exec_group.specs.Accumulators.{accumulated, added, greatest_with, least_with, or_null, sum_or_null, taken, worth_or_null};
ghost use Rattle.exec_group.specs.declared.accumulator.Accumulator.TheVariants as accumulator;
ghost use Rattle.exec_group.specs.declared.fault.GroupFault.{GroupFault};

use crate::GroupFault;
use crate::total::Total;
use col_value::Wide;
use expr_value::Worth;
use sql_tree::AggKind;
use std::alloc::{AllocError, Global};
use std::cmp::Ordering;

/// What an aggregate keeps of the values that it took: for COUNT how many rows or values there were, for SUM their total (None
/// before the first value) or that it is too great, and for MIN and MAX the least and the greatest value so far.
#[derive(Debug, Drop)]
pub enum Accumulator {
    Rows(u64),
    Values(u64),
    Sum(Option<Total>),
    TooGreat,
    Least(Option<Wide>),
    Greatest(Option<Wide>),
}

impl Accumulator {
    /// The aggregate over no row.
    pub fn new(kind: AggKind) -> Accumulator
        ensures { result ≡ accumulated kind 0 [] }
    {
        match kind {
            AggKind::CountAll => Accumulator::Rows(0),
            AggKind::Count => Accumulator::Values(0),
            AggKind::Sum => Accumulator::Sum(None),
            AggKind::Min => Accumulator::Least(None),
            AggKind::Max => Accumulator::Greatest(None),
        }
    }

    /// Takes a row more, in which its argument has this value. A count that no u64 holds finds no memory.
    pub fn take(&mut self, alloc: Global, value: &Worth<'_>) -> Result<(), AllocError>
        ensures { OnOk result (self.new ≡ taken self.old (wide_of value.now)) }
    {
        if self.takes_at_once(value) {
            return Ok(());
        }
        let before = std::mem::replace(self, Accumulator::TooGreat);
        *self = before.taken(alloc, value)?;
        Ok(())
    }

    /// Takes the value where the aggregate stands, if a count or a sum there is only to be raised; answers whether it did.
    fn takes_at_once(&mut self, value: &Worth<'_>) -> bool
        ensures { self.new ≡ (if result then taken self.old (wide_of value.now) else self.old) }
    {
        match self {
            Accumulator::Rows(n) => raises(n),
            Accumulator::Values(n) if !value.is_null() => raises(n),
            Accumulator::Sum(Some(total)) if !value.is_null() => total.adds(number_or_zero(value)),
            _ => false,
        }
    }

    /// Takes a row more, in which its argument is a number: mostly by raising the sum where it stands.
    #[inline(always)]
    pub fn take_number(&mut self, alloc: Global, n: i64) -> Result<(), AllocError>
        ensures { OnOk result (self.new ≡ taken self.old (wide.Int n)) }
    {
        if self.adds(n) {
            return Ok(());
        }
        self.take(alloc, &Worth::Int(i128::from(n)))
    }

    /// Adds a number to a sum, where that isn't too great with it; answers whether it did.
    #[inline(always)]
    fn adds(&mut self, n: i64) -> bool
        ensures { self.new ≡ (if result then taken self.old (wide.Int n) else self.old) }
    {
        match self {
            Accumulator::Sum(Some(total)) => total.adds(i128::from(n)),
            Accumulator::Sum(None) => self.begins(n),
            _ => false,
        }
    }

    /// Begins a sum with a number; answers whether it did.
    #[inline(always)]
    fn begins(&mut self, n: i64) -> bool
        requires { self.old ≡ accumulator.Sum None }
        ensures { self.new ≡ (if result then taken self.old (wide.Int n) else self.old) }
    {
        match Total::none().with(i128::from(n)) {
            Some(total) => {
                *self = Accumulator::Sum(Some(total));
                true
            },
            None => false,
        }
    }

    /// The same over a row more.
    fn taken(self, alloc: Global, value: &Worth<'_>) -> Result<Accumulator, AllocError>
        ensures { IfOk result (λ a. a ≡ taken self (wide_of value.now)) }
    {
        match self {
            Accumulator::Rows(n) => Ok(Accumulator::Rows(raised(n)?)),
            other if value.is_null() => Ok(other),
            Accumulator::Values(n) => Ok(Accumulator::Values(raised(n)?)),
            Accumulator::Sum(total) => Ok(added(total, number_or_zero(value))),
            Accumulator::TooGreat => Ok(Accumulator::TooGreat),
            Accumulator::Least(found) => Ok(Accumulator::Least(Some(least_with(
                alloc, found, value,
            )?))),
            Accumulator::Greatest(found) => Ok(Accumulator::Greatest(Some(greatest_with(
                alloc, found, value,
            )?))),
        }
    }

    /// The aggregate's value. SUM, MIN and MAX over no value are NULL.
    pub fn worth(&self, alloc: Global) -> Result<Wide, GroupFault>
        ensures value { IfOk result (λ w. w ≡ worth_or_null self.now) }
        ensures in_range { OnOk result (self.now ≡ accumulator.TooGreat → ⊥) }
        ensures great { IsErrOf result GroupFault.SumOutOfRange → self.now ≡ accumulator.TooGreat }
    {
        if self.is_great() {
            return Err(GroupFault::SumOutOfRange);
        }
        Ok(self.worth_or_null(alloc)?)
    }

    /// Whether it is a sum that is too great.
    pub fn is_great(&self) -> bool
        ensures great { result ≡ true → self.now ≡ accumulator.TooGreat }
        ensures fits { result ≡ false → self.now ≡ accumulator.TooGreat → ⊥ }
    {
        match self {
            Accumulator::TooGreat => true,
            Accumulator::Rows(_)
            | Accumulator::Values(_)
            | Accumulator::Sum(_)
            | Accumulator::Least(_)
            | Accumulator::Greatest(_) => false,
        }
    }

    /// The aggregate's value; NULL also where it is a sum that is too great.
    pub fn worth_or_null(&self, alloc: Global) -> Result<Wide, AllocError>
        ensures { IfOk result (λ w. w ≡ worth_or_null self.now) }
    {
        match self {
            Accumulator::Rows(n) => Ok(Wide::Int(i128::from(*n))),
            Accumulator::Values(n) => Ok(Wide::Int(i128::from(*n))),
            Accumulator::Sum(total) => Ok(sum_or_null(total)),
            Accumulator::TooGreat => Ok(Wide::Null),
            Accumulator::Least(found) => or_null(alloc, found),
            Accumulator::Greatest(found) => or_null(alloc, found),
        }
    }
}

fn sum_or_null(total: &Option<Total>) -> Wide
    ensures { result ≡ sum_or_null total.now }
{
    match total {
        Some(total) => Wide::Int(total.sum()),
        None => Wide::Null,
    }
}

fn or_null(alloc: Global, found: &Option<Wide>) -> Result<Wide, AllocError>
    ensures { IfOk result (λ w. w ≡ or_null found.now) }
{
    match found {
        Some(value) => value.copy(alloc),
        None => Ok(Wide::Null),
    }
}

/// Raises a count, where a u64 holds it then; answers whether it did.
fn raises(n: &mut u64) -> bool
    ensures { n.new ≡ (if result then n.old + 1 else n.old) }
{
    if *n == u64::MAX {
        return false;
    }
    *n += 1;
    true
}

fn raised(n: u64) -> Result<u64, AllocError>
    ensures { IfOk result (λ m. m ≡ n + 1) }
{
    match n.checked_add(1) {
        Some(m) => Ok(m),
        None => Err(AllocError),
    }
}

fn number_or_zero(value: &Worth<'_>) -> i128
    ensures { result ≡ number_or_zero (wide_of value.now) }
{
    match value {
        Worth::Int(n) => *n,
        Worth::Null | Worth::Bool(_) | Worth::Date(_) | Worth::Text(_) => 0,
    }
}

fn added(total: Option<Total>, number: i128) -> Accumulator
    ensures { result ≡ added total number }
{
    match total.unwrap_or(Total::none()).with(number) {
        Some(total) => Accumulator::Sum(Some(total)),
        None => Accumulator::TooGreat,
    }
}

/// The place of its kind in the order.
fn kind(value: &Worth<'_>) -> u8
    ensures { result ≡ wide_kind (wide_of value.now) }
{
    match value {
        Worth::Null => 0,
        Worth::Bool(_) => 1,
        Worth::Int(_) => 2,
        Worth::Date(_) => 3,
        Worth::Text(_) => 4,
    }
}

/// How two values stand.
fn order(a: &Worth<'_>, b: &Worth<'_>) -> Ordering
    ensures { result ≡ wide_cmp (wide_of a.now) (wide_of b.now) }
{
    match (a, b) {
        (Worth::Bool(a), Worth::Bool(b)) => a.cmp(b),
        (Worth::Int(a), Worth::Int(b)) => a.cmp(b),
        (Worth::Date(a), Worth::Date(b)) => a.cmp(b),
        (Worth::Text(a), Worth::Text(b)) => a.order(b),
        _ => kind(a).cmp(&kind(b)),
    }
}

fn lesser(alloc: Global, found: Wide, value: &Worth<'_>) -> Result<Wide, AllocError>
    ensures { IfOk result (λ w. w ≡ lesser found (wide_of value.now)) }
{
    if order(value, &Worth::of_wide(&found)).is_lt() {
        value.own(alloc)
    } else {
        Ok(found)
    }
}

fn least_with(alloc: Global, found: Option<Wide>, value: &Worth<'_>) -> Result<Wide, AllocError>
    ensures { IfOk result (λ w. w ≡ least_with found (wide_of value.now)) }
{
    match found {
        Some(found) => lesser(alloc, found, value),
        None => value.own(alloc),
    }
}

fn greater(alloc: Global, found: Wide, value: &Worth<'_>) -> Result<Wide, AllocError>
    ensures { IfOk result (λ w. w ≡ greater found (wide_of value.now)) }
{
    if order(&Worth::of_wide(&found), value).is_lt() {
        value.own(alloc)
    } else {
        Ok(found)
    }
}

fn greatest_with(alloc: Global, found: Option<Wide>, value: &Worth<'_>) -> Result<Wide, AllocError>
    ensures { IfOk result (λ w. w ≡ greatest_with found (wide_of value.now)) }
{
    match found {
        Some(found) => greater(alloc, found, value),
        None => value.own(alloc),
    }
}
