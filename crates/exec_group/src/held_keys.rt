//! The keys of groups, in the order in which they were met.

ghost use Rattle.std.specs.Prelude.{◌≡◌, ◌++◌, ◌∷◌, [], Some, None, get_or, replicate, length, position, IfOk, OnOk};
ghost use Rattle.std.specs.Option.{IfSome};
ghost use Rattle.sql_bound.specs.Outputs.{keys_of, same_keys};
ghost use Rattle.exec_group.specs.Codes.{Tells};
ghost use Rattle.exec_group.specs.Columns.{row_of};
ghost use Rattle.exec_group.specs.Groups.{met_one, AreEntered};

use crate::cells::key_at;
use crate::codes::{Codes, codes_of_one, codes_of_two};
use crate::met_numbers::MetNumbers;
use crate::method::GroupMethod;
use crate::number_keys::{
    enter_numbers, find_number, find_row_number, key_lane, number_of, put_number, rows_of,
};
use crate::runs::has_key_twice;
use block_codec::Block;
use col_value::{List, Row, Value};
use row_keys::{KeyTable, key_of};
use std::alloc::{AllocError, Global};
use std::marker::Model;

/// How the keys are held: as numbers, where each is one number or NULL, or one by one.
#[derive(Drop)]
pub enum Form {
    Numbers(MetNumbers),
    Rows(KeyTable),
}

/// Keys, which contracts see as their list.
#[derive(Drop)]
pub struct Keys {
    form: Form,
}

impl Model for Keys {
    ghost use Rattle.std.specs.Prelude.{List};
    ghost use Rattle.col_value.specs.declared.value.Value.{Value as Cell};
    ghost use Rattle.exec_group.specs.NumberKeys.{keys_held};

    ghost Value = { List (List Cell) };

    ghost view = { λ k. keys_held k.form };
}

impl Keys {
    /// No keys of so many columns, which are found by this method where each is one number; they take no memory.
    pub fn new(alloc: Global, columns: usize, method: GroupMethod) -> Keys
        ensures { result ≡ [] }
    {
        if columns == 1 {
            Keys {
                form: Form::Numbers(MetNumbers::new(alloc, method)),
            }
        } else {
            Keys {
                form: Form::Rows(KeyTable::new(alloc)),
            }
        }
    }

    /// How many there are.
    pub fn len(&self) -> usize
        ensures { result ≡ length self.now }
    {
        match &self.form {
            Form::Numbers(numbers) => numbers.numbers().len(),
            Form::Rows(rows) => rows.keys().len(),
        }
    }

    /// The place of a key.
    fn find(&self, key: &Row) -> Option<usize>
        ensures { result ≡ position (λ k. same_keys k key.now) self.now }
    {
        match &self.form {
            Form::Numbers(numbers) => find_number(numbers, key.as_slice()),
            Form::Rows(rows) => rows.find_key(key),
        }
    }

    /// The place of a row's key.
    fn find_row(&self, keys: &[usize], row: &[Value]) -> Option<usize>
        ensures { result ≡ position (λ k. same_keys k (keys_of keys.now row.now)) self.now }
    {
        match &self.form {
            Form::Numbers(numbers) => find_row_number(numbers, keys, row),
            Form::Rows(rows) => rows.find(keys, row),
        }
    }

    /// Puts a key behind the others, of which none is the same.
    pub fn add(&mut self, alloc: Global, key: Row) -> Result<(), AllocError>
        requires { position (λ k. same_keys k key) self.old ≡ None }
        ensures { OnOk result (self.new ≡ self.old ++ key ∷ []) }
    {
        match &mut self.form {
            Form::Numbers(numbers) => match number_of(key.as_slice()) {
                Some(n) => numbers.add(alloc, n),
                None => {
                    let mut rows = rows_of(alloc, numbers.numbers())?;
                    rows.add_key(key)?;
                    self.form = Form::Rows(rows);
                    Ok(())
                },
            },
            Form::Rows(rows) => rows.add_key(key),
        }
    }

    /// The place of a row's key, which is put behind the others where it isn't there.
    pub fn enter_row(
        &mut self,
        alloc: Global,
        keys: &[usize],
        row: &[Value],
    ) -> Result<usize, AllocError>
        ensures met { OnOk result (self.new ≡ met_one self.old (keys_of keys.now row.now)) }
        ensures there { IfOk result (λ g. position (λ k. same_keys k (keys_of keys.now row.now)) self.new ≡ Some g) }
    {
        match self.find_row(keys, row) {
            Some(place) => Ok(place),
            None => {
                let place = self.len();
                self.add(alloc, key_of(alloc, keys, row)?)?;
                Ok(place)
            },
        }
    }

    /// The same of the row at a place of columns.
    fn enter_at(
        &mut self,
        alloc: Global,
        keys: &[usize],
        columns: &[Option<Block>],
        place: usize,
    ) -> Result<usize, AllocError>
        ensures met { OnOk result (self.new ≡ met_one self.old (keys_of keys.now (row_of columns.now place))) }
        ensures there { IfOk result (λ g. position (λ k. same_keys k (keys_of keys.now (row_of columns.now place))) self.new ≡ Some g) }
    {
        let key = key_at(alloc, keys, columns, place)?;
        match self.find(&key) {
            Some(place) => Ok(place),
            None => {
                let place = self.len();
                self.add(alloc, key)?;
                Ok(place)
            },
        }
    }

    /// The same, where the place of the key of one row is known.
    fn enter_beside(
        &mut self,
        alloc: Global,
        keys: &[usize],
        columns: &[Option<Block>],
        place: usize,
        known: Option<(usize, usize)>,
    ) -> Result<usize, AllocError>
        requires known { IfSome known (λ k. position (λ x. same_keys x (keys_of keys.now (row_of columns.now k.0))) self.old ≡ Some k.1) }
        ensures met { OnOk result (self.new ≡ met_one self.old (keys_of keys.now (row_of columns.now place))) }
        ensures there { IfOk result (λ g. position (λ k. same_keys k (keys_of keys.now (row_of columns.now place))) self.new ≡ Some g) }
    {
        if let Some((first, group)) = known {
            if has_key_twice(keys, columns, place, first) {
                return Ok(group);
            }
        }
        self.enter_at(alloc, keys, columns, place)
    }

    /// The places of the keys of the rows at places of columns, of which those that aren't there are put behind the others.
    fn enter_each(
        &mut self,
        alloc: Global,
        keys: &[usize],
        columns: &[Option<Block>],
        places: &[usize],
    ) -> Result<Vec<usize>, AllocError>
        ensures { IfOk result (λ v. AreEntered (λ p. keys_of keys.now (row_of columns.now p)) places.now self.old self.new v.items) }
    {
        let mut out = Vec::with_capacity(alloc, places.len())?;
        let mut known = None;
        for place in places {
            let group = self.enter_beside(alloc, keys, columns, *place, known)?;
            out.push(group)?;
            known = Some((*place, group));
        }
        Ok(out)
    }

    /// The same, where all rows have one key.
    fn enter_one(
        &mut self,
        alloc: Global,
        keys: &[usize],
        columns: &[Option<Block>],
        places: &[usize],
    ) -> Result<Vec<usize>, AllocError>
        requires { keys.now ≡ [] }
        ensures { IfOk result (λ v. AreEntered (λ p. keys_of keys.now (row_of columns.now p)) places.now self.old self.new v.items) }
    {
        match places {
            [] => Ok(Vec::new(alloc)),
            [first, ..] => {
                let group = self.enter_at(alloc, keys, columns, *first)?;
                repeated(alloc, group, places.len())
            }
        }
    }

    /// The place of the key of the row at a place of columns, where that of its code may be noted, and is then.
    fn enter_noted(
        &mut self,
        alloc: Global,
        keys: &[usize],
        columns: &[Option<Block>],
        place: usize,
        noted: &mut Option<usize>,
    ) -> Result<usize, AllocError>
        requires noted { IfSome noted.old (λ g. position (λ k. same_keys k (keys_of keys.now (row_of columns.now place))) self.old ≡ Some g) }
        ensures met { OnOk result (self.new ≡ met_one self.old (keys_of keys.now (row_of columns.now place))) }
        ensures there { IfOk result (λ g. position (λ k. same_keys k (keys_of keys.now (row_of columns.now place))) self.new ≡ Some g) }
        ensures noted { IfOk result (λ g. noted.new ≡ Some g) }
    {
        if let Some(group) = *noted {
            return Ok(group);
        }
        let group = self.enter_at(alloc, keys, columns, place)?;
        *noted = Some(group);
        Ok(group)
    }

    /// The places of the keys of the rows at places of columns, where rows of one code have one key: each is looked up once.
    #[inline(never)]
    fn enter_coded<C: Codes>(
        &mut self,
        alloc: Global,
        keys: &[usize],
        columns: &[Option<Block>],
        codes: &C,
        places: &[usize],
    ) -> Result<Vec<usize>, AllocError>
        requires { Tells (C.code codes.now) (λ p. keys_of keys.now (row_of columns.now p)) }
        ensures { IfOk result (λ v. AreEntered (λ p. keys_of keys.now (row_of columns.now p)) places.now self.old self.new v.items) }
    {
        let mut noted = repeated(alloc, None, codes.size())?;
        let mut out = Vec::with_capacity(alloc, places.len())?;
        for place in places {
            let code = codes.code(*place);
            let group = self.enter_noted(alloc, keys, columns, *place, &mut noted[code])?;
            out.push_reserved(group);
        }
        Ok(out)
    }

    /// The same, by codes where these are few beside the rows, or else one after another.
    fn enter_by<C: Codes>(
        &mut self,
        alloc: Global,
        keys: &[usize],
        columns: &[Option<Block>],
        codes: &C,
        places: &[usize],
    ) -> Result<Vec<usize>, AllocError>
        requires { Tells (C.code codes.now) (λ p. keys_of keys.now (row_of columns.now p)) }
        ensures { IfOk result (λ v. AreEntered (λ p. keys_of keys.now (row_of columns.now p)) places.now self.old self.new v.items) }
    {
        if codes.size() / 4 > places.len() {
            return self.enter_each(alloc, keys, columns, places);
        }
        self.enter_coded(alloc, keys, columns, codes, places)
    }

    /// The same, by the words of the columns where they are held so.
    fn enter_words(
        &mut self,
        alloc: Global,
        keys: &[usize],
        columns: &[Option<Block>],
        places: &[usize],
    ) -> Result<Vec<usize>, AllocError>
        ensures { IfOk result (λ v. AreEntered (λ p. keys_of keys.now (row_of columns.now p)) places.now self.old self.new v.items) }
    {
        if let Some(codes) = codes_of_one(keys, columns) {
            return self.enter_by(alloc, keys, columns, &codes, places);
        }
        if let Some(codes) = codes_of_two(keys, columns) {
            return self.enter_by(alloc, keys, columns, &codes, places);
        }
        self.enter_each(alloc, keys, columns, places)
    }

    /// The same, from a lane of numbers where the keys and the columns are such.
    pub fn enter_columns(
        &mut self,
        alloc: Global,
        keys: &[usize],
        columns: &[Option<Block>],
        places: &[usize],
    ) -> Result<Vec<usize>, AllocError>
        ensures { IfOk result (λ v. AreEntered (λ p. keys_of keys.now (row_of columns.now p)) places.now self.old self.new v.items) }
    {
        if keys.is_empty() {
            return self.enter_one(alloc, keys, columns, places);
        }
        if let Form::Numbers(numbers) = &mut self.form {
            if let Some(lane) = key_lane(keys, columns) {
                return enter_numbers(numbers, alloc, keys, columns, lane, places);
            }
        }
        self.enter_words(alloc, keys, columns, places)
    }

    /// Puts the key at a place into a list, in the place of what it holds; none where there is no such key.
    pub fn copy_key(
        &self,
        alloc: Global,
        place: usize,
        out: &mut Vec<Value>,
    ) -> Result<(), AllocError>
        ensures { OnOk result (out.new.items ≡ get_or self.now place []) }
    {
        out.clear();
        match &self.form {
            Form::Numbers(numbers) => put_number(out, numbers.numbers(), place),
            Form::Rows(rows) => put_row(alloc, out, rows.keys(), place),
        }
    }
}

/// Puts the row at a place of some rows behind a list.
fn put_row(
    alloc: Global,
    out: &mut Vec<Value>,
    rows: &[Row],
    place: usize,
) -> Result<(), AllocError>
    ensures { OnOk result (out.new.items ≡ out.old.items ++ get_or rows.now place []) }
{
    match rows.get(place) {
        Some(row) => put_values(alloc, out, row.as_slice()),
        None => Ok(()),
    }
}

/// Puts values behind a list.
fn put_values(alloc: Global, out: &mut Vec<Value>, values: &[Value]) -> Result<(), AllocError>
    ensures { OnOk result (out.new.items ≡ out.old.items ++ values.now) }
{
    for value in values {
        out.push(value.copy(alloc)?)?;
    }
    Ok(())
}

/// So many times a value.
fn repeated<T: Copy>(alloc: Global, value: T, count: usize) -> Result<Vec<T>, AllocError>
    ensures { IfOk result (λ v. v.items ≡ replicate count value) }
{
    let mut out = Vec::new(alloc);
    out.resize(count, value)?;
    Ok(out)
}
