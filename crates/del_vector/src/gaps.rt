//! The bytes of a delete vector.

ghost use Rattle.std.specs.Prelude.{◌≡◌, ◌++◌, ◌<◌, ◌^◌, List, length, true, IfOk, IfSome, IfNone, OnOk};
ghost use Rattle.col_bytes.specs.Parts.{Gives, many, counted_at};
ghost use Rattle.col_bytes.specs.Spellings.{vint};
ghost use Rattle.del_vector.specs.Marks.{AreMarks};
ghost use Rattle.del_vector.specs.Spelling.{gap_spelling, gaps_from, spelling, FitsMark, IsSpelled};
ghost use Rattle.del_vector.specs.Fronts.{gap_at, gaps_of, are_gaps, marks_from, marks_of, reach};
ghost use Rattle.std.specs.List.{All, flat_map};
ghost use Rattle.del_vector.specs.declared.mark.Mark.{Mark as AMark};

use crate::mark::Mark;
use col_bytes::{Stop, put_vint, read_vint, told};
use std::alloc::{AllocError, Global};

/// How many positions lie between a mark and the one before it, and its epoch.
#[derive(Clone, Copy, Debug, PartialEq, Eq)]
pub struct Gap {
    pub gap: u64,
    pub epoch: u64,
}

/// The numbers of a mark can be spelled, by their types. It does nothing.
fn has_spelling(mark: Mark)
    ensures { FitsMark mark }
{}

/// The numbers of marks can be spelled. It does nothing.
fn have_spellings(marks: &[Mark])
    ensures fits { All FitsMark marks.now }
    ensures long { length marks.now < 2 ^ 64 }
{
    for mark in marks {
        has_spelling(*mark);
    }
}

/// Appends each mark by its gap, the first counted from the start. After a refusal a part may stand there.
fn put_marks(out: &mut Vec<u8>, marks: &[Mark]) -> Result<(), AllocError>
    requires { AreMarks marks.now }
    ensures { OnOk result (out.new.items ≡ out.old.items ++ flat_map gap_spelling (gaps_from 0 marks.now)) }
{
    let mut from: u128 = 0;
    for mark in marks {
        let position = u128::from(mark.position);
        put_vint(out, (position - from) as u64)?;
        put_vint(out, mark.epoch)?;
        from = position + 1;
    }
    Ok(())
}

/// The bytes of marks: how many they are, and for each its gap and its epoch.
#[tactic(auto, using(crate::proofs::Reading::long_gaps))]
pub fn put_vector(alloc: Global, marks: &[Mark]) -> Result<Vec<u8>, AllocError>
    requires order { AreMarks marks.now }
    ensures bytes { IfOk result (λ v. v.items ≡ spelling marks.now) }
    ensures spelled { 0 < length marks.now → IsSpelled marks.now }
{
    have_spellings(marks);
    let mut out = Vec::new(alloc);
    put_vint(&mut out, marks.len() as u64)?;
    put_marks(&mut out, marks)?;
    Ok(out)
}

#[tactic(auto, unfolding(crate::specs::Fronts::gap_at))]
fn read_gap(bytes: &[u8]) -> Result<(Gap, &[u8]), Stop>
    ensures { Gives (λ x. (x.0, x.1.now)) result (gap_at bytes.now) }
{
    let (gap, rest) = read_vint(bytes)?;
    let (epoch, rest) = read_vint(rest)?;
    Ok((Gap { gap, epoch }, rest))
}

/// So many gaps of the front, and the bytes behind them.
fn read_gaps(alloc: Global, count: u64, bytes: &[u8]) -> Result<(Vec<Gap>, &[u8]), Stop>
    ensures { Gives (λ x. (x.0.items, x.1.now)) result (many gap_at count bytes.now) }
{
    let mut gaps = Vec::new(alloc);
    let mut rest = bytes;
    for _ in 0..count {
        let (gap, after) = read_gap(rest)?;
        gaps.push(gap)?;
        rest = after;
    }
    Ok((gaps, rest))
}

fn read_counted(alloc: Global, bytes: &[u8]) -> Result<(Vec<Gap>, &[u8]), Stop>
    ensures { Gives (λ x. (x.0.items, x.1.now)) result (counted_at gap_at bytes.now) }
{
    let (count, rest) = read_vint(bytes)?;
    read_gaps(alloc, count, rest)
}

/// Whether positions stay below 2^64 and epochs are at least 1.
fn reach(gaps: &[Gap]) -> bool
    ensures { result ≡ reach 0 gaps.now }
{
    let mut from: u128 = 0;
    for gap in gaps {
        let position = from + u128::from(gap.gap);
        if position >= 1 << 64 || gap.epoch == 0 {
            return false;
        }
        from = position + 1;
    }
    true
}

fn are_gaps(gaps: &[Gap]) -> bool
    ensures { result ≡ are_gaps gaps.now }
{
    !gaps.is_empty() && reach(gaps)
}

#[tactic(auto, unfolding(crate::specs::Fronts::gaps_of))]
fn read_whole(alloc: Global, bytes: &[u8]) -> Result<Vec<Gap>, Stop>
    ensures { Gives (λ x. x.items) result (gaps_of bytes.now) }
{
    let (gaps, rest) = read_counted(alloc, bytes)?;
    if rest.is_empty() && are_gaps(gaps.as_slice()) {
        Ok(gaps)
    } else {
        Err(Stop::Malformed)
    }
}

fn marks_of(alloc: Global, gaps: &[Gap]) -> Result<Vec<Mark>, AllocError>
    requires { reach 0 gaps.now ≡ true }
    ensures { IfOk result (λ v. v.items ≡ marks_from 0 gaps.now) }
{
    let mut marks = Vec::with_capacity(alloc, gaps.len())?;
    let mut from: u128 = 0;
    for gap in gaps {
        let position = from + u128::from(gap.gap);
        marks.push(Mark {
            position: position as u64,
            epoch: gap.epoch,
        })?;
        from = position + 1;
    }
    Ok(marks)
}

/// The marks that all of the bytes are.
fn read_vector(alloc: Global, bytes: &[u8]) -> Result<Vec<Mark>, Stop>
    ensures read { Gives (λ x. x.items) result (marks_of bytes.now) }
    ensures order { IfOk result (λ v. AreMarks v.items) }
{
    let gaps = read_whole(alloc, bytes)?;
    Ok(marks_of(alloc, gaps.as_slice())?)
}

/// The marks that all of the bytes are; None exactly where they are no vector.
pub fn vector_in(alloc: Global, bytes: &[u8]) -> Result<Option<Vec<Mark>>, AllocError>
    ensures found { IfOk result (λ o. IfSome o (λ v. IsSpelled v.items × (bytes.now ≡ spelling v.items))) }
    ensures none { IfOk result (λ o. IfNone o ((ms : List AMark) → IsSpelled ms → bytes.now ≡ spelling ms → ⊥)) }
{
    told(read_vector(alloc, bytes))
}
