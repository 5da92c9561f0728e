//! Marks that come to what is kept of containers.

ghost use Rattle.std.specs.Prelude.{◌≡◌, ◌≤◌, ◌-◌, ◌++◌, length, map, vec_len, vec_capacity, OnOk};
ghost use Rattle.std.specs.List.{AllZip};
ghost use Rattle.proj_store.specs.Loaded.{beside_of, room_of};
ghost use Rattle.proj_store.specs.Marking.{marks_at, marked_beside, all_marked, HasRoom};

use crate::kept::Kept;
use col_value::List;
use del_vector::Mark;
use std::alloc::AllocError;

fn add_marks(fresh: &mut Vec<Mark>, places: &[usize], epoch: u64)
    requires { length places.now ≤ vec_capacity fresh.old - vec_len fresh.old }
    ensures { fresh.new.items ≡ fresh.old.items ++ marks_at epoch places.now }
{
    for place in places {
        fresh.push_reserved(Mark {
            position: *place as u64,
            epoch,
        });
    }
}

impl Kept {
    /// Makes room for so many marks.
    fn reserve(&mut self, count: usize) -> Result<(), AllocError>
        ensures beside { beside_of self.new ≡ beside_of self.old }
        ensures room { OnOk result (count ≤ room_of self.new) }
    {
        self.fresh.reserve(count)
    }

    /// Positions are deleted at an epoch; there is room. It takes no memory.
    fn mark(&mut self, places: &[usize], epoch: u64)
        requires { length places.now ≤ room_of self.old }
        ensures { beside_of self.new ≡ marked_beside epoch (beside_of self.old) places.now }
    {
        add_marks(&mut self.fresh, places, epoch);
    }
}

fn reserve_each(kept: &mut [Kept], each: &[List<usize>]) -> Result<(), AllocError>
    requires { length each.now ≡ length kept.old }
    ensures beside { map beside_of kept.new ≡ map beside_of kept.old }
    ensures room { OnOk result (AllZip HasRoom each.now (map room_of kept.new)) }
{
    for (i, places) in each.iter().enumerate() {
        kept[i].reserve(places.as_slice().len())?;
    }
    Ok(())
}

fn mark_each(kept: &mut [Kept], each: &[List<usize>], epoch: u64)
    requires { AllZip HasRoom each.now (map room_of kept.old) }
    ensures { map beside_of kept.new ≡ all_marked epoch (map beside_of kept.old) each.now }
{
    for (i, places) in each.iter().enumerate() {
        kept[i].mark(places.as_slice(), epoch);
    }
}

/// Makes room for marks at the places of each container.
pub fn reserve_all(kept: &mut Vec<Kept>, each: &[List<usize>]) -> Result<(), AllocError>
    requires { length each.now ≡ length kept.old.items }
    ensures beside { map beside_of kept.new.items ≡ map beside_of kept.old.items }
    ensures room { OnOk result (AllZip HasRoom each.now (map room_of kept.new.items)) }
{
    reserve_each(kept.as_mut_slice(), each)
}

/// The positions of each container at its places are deleted at an epoch; there is room. It takes no memory.
pub fn mark_all(kept: &mut Vec<Kept>, each: &[List<usize>], epoch: u64)
    requires { AllZip HasRoom each.now (map room_of kept.old.items) }
    ensures { map beside_of kept.new.items ≡ all_marked epoch (map beside_of kept.old.items) each.now }
{
    mark_each(kept.as_mut_slice(), each, epoch);
}
