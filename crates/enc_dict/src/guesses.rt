//! Guesses at the places of a block's values among its words.
//!
//! A guess is tried before it is taken, and nothing is promised of it.

use col_value::Value;
use std::alloc::{AllocError, Global};

/// How many keys of values there are.
const KEYS: usize = 256;

/// What was seen while the words of a block were found.
#[derive(Drop)]
pub struct Guesses {
    /// By a key of values: where the last of them was found.
    near: Vec<usize>,
    /// By the place of a word: how many came before it.
    numbers: Vec<usize>,
    /// The number of each value's word.
    codes: Vec<usize>,
    /// By its number the place of a word, once all are there.
    places: Vec<usize>,
}

/// A key of a value: values that are alike have the same, and most others of a block another one.
fn key_of(value: &Value) -> u8 {
    match value {
        Value::Null => 2,
        Value::Bool(b) => u8::from(*b),
        Value::Int(n) => n.to_le_bytes()[0],
        Value::Date(d) => d.to_le_bytes()[0],
        Value::Text(text) => match text.as_bytes() {
            [] => 3,
            [only] => *only,
            [first, .., last] => first.wrapping_mul(37).wrapping_add(*last),
        },
    }
}

fn number_at(numbers: &[usize], i: usize) -> usize {
    match numbers.get(i) {
        Some(n) => *n,
        None => 0,
    }
}

fn set_at(numbers: &mut [usize], i: usize, n: usize) {
    if i < numbers.len() {
        numbers[i] = n;
    }
}

impl Guesses {
    /// None yet, with room for those of so many values.
    pub fn new(alloc: Global, count: usize) -> Result<Guesses, AllocError> {
        let mut near = Vec::new(alloc);
        near.resize(KEYS, 0)?;
        let codes = Vec::with_capacity(alloc, count)?;
        Ok(Guesses {
            near,
            numbers: Vec::new(alloc),
            codes,
            places: Vec::new(alloc),
        })
    }

    /// A guess at the place of a value among the words so far.
    pub fn near(&self, value: &Value) -> usize {
        number_at(self.near.as_slice(), key_of(value) as usize)
    }

    /// The next value was found at a place among the words, or put there.
    pub fn keep(&mut self, value: &Value, at: usize, is_new: bool) -> Result<(), AllocError> {
        set_at(self.near.as_mut_slice(), key_of(value) as usize, at);
        let code = if is_new {
            self.numbers.len()
        } else {
            number_at(self.numbers.as_slice(), at)
        };
        self.codes.push(code)?;
        if is_new && at <= self.numbers.len() {
            self.numbers.insert(at, code)?;
        }
        Ok(())
    }

    /// All words are there.
    pub fn settle(&mut self) -> Result<(), AllocError> {
        self.places.resize(self.numbers.len(), 0)?;
        for (place, number) in self.numbers.iter().enumerate() {
            set_at(self.places.as_mut_slice(), *number, place);
        }
        Ok(())
    }

    /// A guess at the place of a value of the block among its words.
    pub fn place(&self, i: usize) -> usize {
        number_at(self.places.as_slice(), number_at(self.codes.as_slice(), i))
    }
}
