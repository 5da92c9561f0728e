//! The values of a block in memory.

ghost use Rattle.std.specs.Prelude.{◌≡◌, ◌<◌, ℤ, Bool, true, length, map, slice_index_or, IfOk, IfSome, IfNone};
ghost use Rattle.std.specs.List.{All, list_all};
ghost use Rattle.col_value.specs.declared.value.Value.{Value as Worth};
ghost use Rattle.col_value.specs.declared.value.Value.TheVariants.{Null};
ghost use Rattle.block_codec.specs.Held.{cell_value, day_value, number_value, picked};

use col_value::Value;
use std::alloc::{AllocError, Global};
use std::marker::Model;

/// How the values of a block are held.
#[derive(Drop)]
pub enum Lanes {
    /// Each of its own.
    Each(Vec<Value>),
    /// Numbers, with -2^63 for NULL.
    Numbers(Vec<i64>),
    /// Days, with 0 for NULL.
    Days(Vec<u32>),
    /// Words, and for each value the place of its word, so that a word that repeats is held once.
    Coded(Vec<Value>, Vec<u64>),
}

/// The values of a block, which contracts see as the list of them.
#[derive(Drop)]
pub struct Block {
    lanes: Lanes,
}

impl Model for Block {
    ghost use Rattle.std.specs.Prelude.{List};
    ghost use Rattle.col_value.specs.declared.value.Value.{Value as Item};
    ghost use Rattle.block_codec.specs.Held.{held, ArePlaces};

    ghost Value = { List Item };

    ghost view = { λ b. held b.lanes };

    ghost invariant = { λ b. ArePlaces b.lanes };
}

/// A value of a block to look at: lent where the block holds it, made where it holds a number or a day.
#[derive(Drop)]
pub enum Cell<'a> {
    Lent(&'a Value),
    Made(Value),
}

impl<'a> Cell<'a> {
    /// The value.
    pub fn value(&self) -> &Value
        ensures { result.now ≡ cell_value self.now }
    {
        match self {
            Cell::Lent(value) => *value,
            Cell::Made(value) => value,
        }
    }
}

/// The value that a number of a lane stands for.
pub fn number_value(n: i64) -> Value
    ensures { result ≡ number_value n }
{
    if n == i64::MIN {
        Value::Null
    } else {
        Value::Int(n)
    }
}

/// The number of a lane that stands for a value, if one does.
pub fn lane_number(value: &Value) -> Option<i64>
    ensures found { IfSome result (λ n. number_value n ≡ value.now) }
    ensures none { IfNone result ((n : ℤ) → number_value n ≡ value.now → ⊥) }
{
    match value {
        Value::Null => Some(i64::MIN),
        Value::Int(n) if *n != i64::MIN => Some(*n),
        _ => None,
    }
}

/// The value that a day of a lane stands for.
pub fn day_value(d: u32) -> Value
    ensures { result ≡ day_value d }
{
    if d == 0 { Value::Null } else { Value::Date(d) }
}

/// The day of a lane that stands for a value, if one does.
pub fn lane_day(value: &Value) -> Option<u32>
    ensures { IfSome result (λ d. day_value d ≡ value.now) }
{
    match value {
        Value::Null => Some(0),
        Value::Date(d) if *d != 0 => Some(*d),
        _ => None,
    }
}

impl Block {
    /// Values of which each is held.
    pub fn of(values: Vec<Value>) -> Block
        ensures { result ≡ values.items }
    {
        Block {
            lanes: Lanes::Each(values),
        }
    }

    /// Numbers, where -2^63 stands for NULL.
    pub fn of_numbers(numbers: Vec<i64>) -> Block
        ensures { result ≡ map number_value numbers.items }
    {
        Block {
            lanes: Lanes::Numbers(numbers),
        }
    }

    /// Days, where 0 stands for NULL.
    pub fn of_days(days: Vec<u32>) -> Block
        ensures { result ≡ map day_value days.items }
    {
        Block {
            lanes: Lanes::Days(days),
        }
    }

    /// The words at places.
    pub fn picked(words: Vec<Value>, places: Vec<u64>) -> Block
        requires { All (λ p. p < length words.items) places.items }
        ensures { result ≡ picked words.items places.items }
    {
        Block {
            lanes: Lanes::Coded(words, places),
        }
    }

    /// How many values there are.
    pub fn len(&self) -> usize
        ensures { result ≡ length self.now }
    {
        match &self.lanes {
            Lanes::Each(values) => values.len(),
            Lanes::Numbers(numbers) => numbers.len(),
            Lanes::Days(days) => days.len(),
            Lanes::Coded(_, places) => places.len(),
        }
    }

    /// The numbers, where such are held: -2^63 stands for NULL, and their order is that of the values.
    pub fn numbers(&self) -> Option<&[i64]>
        ensures { IfSome result (λ ns. map number_value ns.now ≡ self.now) }
    {
        match &self.lanes {
            Lanes::Numbers(numbers) => Some(numbers.as_slice()),
            _ => None,
        }
    }

    /// The days, where such are held: 0 stands for NULL, and their order is that of the values.
    pub fn days(&self) -> Option<&[u32]>
        ensures { IfSome result (λ ds. map day_value ds.now ≡ self.now) }
    {
        match &self.lanes {
            Lanes::Days(days) => Some(days.as_slice()),
            _ => None,
        }
    }

    /// The words and the places of the values among them, where such are held. What holds of each word holds of each value; a word may stand
    /// for none.
    #[tactic(auto, using(crate::proofs::Holding::picked_all))]
    pub fn coded(&self) -> Option<(&[Value], &[u64])>
        ensures picked { IfSome result (λ x. picked x.0.now x.1.now ≡ self.now) }
        ensures within { IfSome result (λ x. All (λ p. p < length x.0.now) x.1.now) }
        ensures each { IfSome result (λ x. (p : Worth → Bool) → list_all p x.0.now ≡ true → list_all p self.now ≡ true) }
    {
        match &self.lanes {
            Lanes::Coded(words, places) => Some((words.as_slice(), places.as_slice())),
            _ => None,
        }
    }

    /// The value at a place.
    pub fn cell(&self, i: usize) -> Cell<'_>
        requires { i < length self.now }
        ensures { cell_value result ≡ slice_index_or self.now i Null }
    {
        match &self.lanes {
            Lanes::Each(values) => Cell::Lent(&values[i]),
            Lanes::Numbers(numbers) => Cell::Made(number_value(numbers[i])),
            Lanes::Days(days) => Cell::Made(day_value(days[i])),
            Lanes::Coded(words, places) => Cell::Lent(&words[places[i] as usize]),
        }
    }

    /// The value at a place, once more.
    pub fn copy_at(&self, alloc: Global, i: usize) -> Result<Value, AllocError>
        requires { i < length self.now }
        ensures { IfOk result (λ v. v ≡ slice_index_or self.now i Null) }
    {
        match &self.lanes {
            Lanes::Each(values) => values[i].copy(alloc),
            Lanes::Numbers(numbers) => Ok(number_value(numbers[i])),
            Lanes::Days(days) => Ok(day_value(days[i])),
            Lanes::Coded(words, places) => words[places[i] as usize].copy(alloc),
        }
    }

    /// The values, each of its own.
    pub fn into_values(self, alloc: Global) -> Result<Vec<Value>, AllocError>
        ensures { IfOk result (λ v. v.items ≡ self) }
    {
        let Block { lanes } = self;
        match lanes {
            Lanes::Each(values) => Ok(values),
            Lanes::Numbers(numbers) => number_values(alloc, numbers.as_slice()),
            Lanes::Days(days) => day_values(alloc, days.as_slice()),
            Lanes::Coded(words, places) => copies(alloc, words.as_slice(), places.as_slice()),
        }
    }
}

/// The values that numbers of a lane stand for.
fn number_values(alloc: Global, numbers: &[i64]) -> Result<Vec<Value>, AllocError>
    ensures { IfOk result (λ v. v.items ≡ map number_value numbers.now) }
{
    let mut out = Vec::with_capacity(alloc, numbers.len())?;
    for n in numbers {
        out.push(number_value(*n))?;
    }
    Ok(out)
}

/// The values that days of a lane stand for.
fn day_values(alloc: Global, days: &[u32]) -> Result<Vec<Value>, AllocError>
    ensures { IfOk result (λ v. v.items ≡ map day_value days.now) }
{
    let mut out = Vec::with_capacity(alloc, days.len())?;
    for d in days {
        out.push(day_value(*d))?;
    }
    Ok(out)
}

/// A copy of the word at each place.
fn copies(alloc: Global, words: &[Value], places: &[u64]) -> Result<Vec<Value>, AllocError>
    requires { All (λ p. p < length words.now) places.now }
    ensures { IfOk result (λ v. v.items ≡ picked words.now places.now) }
{
    let mut out = Vec::with_capacity(alloc, places.len())?;
    for place in places {
        out.push(words[*place as usize].copy(alloc)?)?;
    }
    Ok(out)
}
