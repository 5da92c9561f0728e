//! The vector, and its calls.

ghost use Rattle.std.specs.Prelude.{◌≡◌, ◌≤◌, ◌<◌, ◌-◌, List, [], None, length, IfOk, OnOk, IfSome, IfNone};
ghost use Rattle.del_vector.specs.declared.mark.Mark.{Mark as AMark};
ghost use Rattle.del_vector.specs.Marks.{AreMarks, epoch_at, place_of, with_mark, marks_upto, AreApart, IsMerged};
ghost use Rattle.del_vector.specs.Spelling.{spelling, IsSpelled};

use crate::gaps::{put_vector, vector_in};
use crate::mark::Mark;
use crate::merging::merged;
use std::alloc::{AllocError, Global};
use std::marker::Model;

/// The deleted positions of a container, each with its epoch, in ascending order.
#[derive(Drop)]
pub struct DelVector {
    marks: Vec<Mark>,
}

impl Model for DelVector {
    ghost use Rattle.std.specs.Prelude.{◌-◌, vec_len, vec_capacity};
    ghost use Rattle.del_vector.specs.Marks.{AreMarks, Vector, seen};

    ghost Value = { Vector };

    ghost view = { λ v. seen v.marks.items (vec_capacity v.marks - vec_len v.marks) };

    ghost invariant = { λ v. AreMarks v.marks.items };
}

/// How many of the marks stand before a position.
fn place_of(marks: &[Mark], position: u64) -> usize
    requires { AreMarks marks.now }
    ensures place { result ≡ place_of position marks.now }
    ensures fits { result ≤ length marks.now }
{
    marks.partition_point(|mark| mark.position < position)
}

/// The marks up to an epoch.
fn upto(alloc: Global, marks: &[Mark], epoch: u64) -> Result<Vec<Mark>, AllocError>
    ensures { IfOk result (λ v. v.items ≡ marks_upto epoch marks.now) }
{
    let mut kept = Vec::new(alloc);
    for mark in marks {
        if mark.epoch <= epoch {
            kept.push(*mark)?;
        }
    }
    Ok(kept)
}

impl DelVector {
    /// No position is deleted.
    pub fn new(alloc: Global) -> DelVector
        ensures { result.marks ≡ [] }
    {
        DelVector {
            marks: Vec::new(alloc),
        }
    }

    /// How many positions are deleted. It takes no memory.
    pub fn count(&self) -> usize
        ensures { result ≡ length self.now.marks }
    {
        self.marks.len()
    }

    /// The marks in ascending order of their positions. It takes no memory.
    pub fn marks(&self) -> &[Mark]
        ensures { result.now ≡ self.now.marks }
    {
        self.marks.as_slice()
    }

    /// The epoch in which a position was deleted, if it was. It takes no memory.
    pub fn epoch_at(&self, position: u64) -> Option<u64>
        ensures { result ≡ epoch_at self.now.marks position }
    {
        let marks = self.marks.as_slice();
        match marks.get(place_of(marks, position)) {
            Some(mark) => mark.at(position),
            None => None,
        }
    }

    /// Makes room for so many marks.
    pub fn reserve(&mut self, count: usize) -> Result<(), AllocError>
        ensures room { OnOk result (count ≤ self.new.spare) }
        ensures marks { self.new.marks ≡ self.old.marks }
    {
        self.marks.reserve(count)
    }

    /// A position is deleted in an epoch; it wasn't, and there is room. It takes no memory.
    pub fn add(&mut self, position: u64, epoch: u64)
        requires undeleted { epoch_at self.old.marks position ≡ None }
        requires room { 0 < self.old.spare }
        requires epoch { 0 < epoch }
        ensures marks { self.new.marks ≡ with_mark (record { position = position; epoch = epoch }) self.old.marks }
        ensures spare { self.new.spare ≡ self.old.spare - 1 }
    {
        let place = place_of(self.marks.as_slice(), position);
        let _room = self.marks.insert(place, Mark { position, epoch });
    }

    /// The marks of both; no position is marked in both.
    pub fn merge(&self, alloc: Global, other: &DelVector) -> Result<DelVector, AllocError>
        requires { AreApart self.now.marks other.now.marks }
        ensures { IfOk result (λ v. IsMerged self.now.marks other.now.marks v.marks) }
    {
        let marks = merged(alloc, self.marks.as_slice(), other.marks.as_slice())?;
        Ok(DelVector { marks })
    }

    /// The marks up to an epoch.
    pub fn cut(&self, alloc: Global, epoch: u64) -> Result<DelVector, AllocError>
        ensures { IfOk result (λ v. v.marks ≡ marks_upto epoch self.now.marks) }
    {
        let marks = upto(alloc, self.marks.as_slice(), epoch)?;
        Ok(DelVector { marks })
    }

    /// The bytes of a vector that isn't empty: the varint of the number of marks, and for each the varints of its gap (how many
    /// positions lie between it and the one before it) and of its epoch.
    pub fn to_bytes(&self, alloc: Global) -> Result<Vec<u8>, AllocError>
        requires { 0 < length self.now.marks }
        ensures bytes { IfOk result (λ v. v.items ≡ spelling self.now.marks) }
        ensures spelled { IfOk result (λ v. IsSpelled self.now.marks) }
    {
        put_vector(alloc, self.marks.as_slice())
    }

    /// The vector that all of the bytes are. None exactly where they are the spelling of no vector.
    pub fn from_bytes(alloc: Global, bytes: &[u8]) -> Result<Option<DelVector>, AllocError>
        ensures found { IfOk result (λ o. IfSome o (λ v. IsSpelled v.marks × (bytes.now ≡ spelling v.marks))) }
        ensures none { IfOk result (λ o. IfNone o ((ms : List AMark) → IsSpelled ms → bytes.now ≡ spelling ms → ⊥)) }
    {
        match vector_in(alloc, bytes)? {
            Some(marks) => Ok(Some(DelVector { marks })),
            None => Ok(None),
        }
    }
}
