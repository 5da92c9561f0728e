//! What a crash may leave of a disk in memory.

ghost use Rattle.std.specs.Prelude.{◌≡◌, ◌≤◌, false, is_some, IfOk, IfSome, OnOk, length, drop, map};
ghost use Rattle.std.specs.BTreeMap.{insert_entry, is_at};
ghost use Rattle.std.specs.List.{All};
ghost use Rattle.std.specs.Map.{remove_entry};
ghost use Rattle.std.specs.Ordering.{nat_cmp};
ghost use Rattle.common_laws.specs.Maps.{Contents};
ghost use Rattle.col_disk.specs.Calls.{Elsewhere, GoneOrKept};
ghost use Rattle.col_disk.specs.Dids.{ImagesOf, replayed, after};
ghost use Rattle.col_disk.specs.Crashing.{is_sync, StepTo, StepsTo};
ghost use Rattle.col_disk.specs.Memory.{held_by};
ghost use Rattle.col_disk.specs.Picks.{are_picks, may_be, noted, noted_all, unsynced, was_written};

use super::MemDisk;
use crate::Blob;
use crate::did::Did;
use std::alloc::{AllocError, Global};
use std::collections::BTreeMap;

/// What a crash makes of a name that was written or removed since the last good sync.
#[derive(Debug, Drop)]
pub enum Keep {
    Absent,
    /// What it held at that sync: of a name that was only removed.
    Held,
    /// These bytes: of a name that was written.
    Bytes(Blob),
}

// A name that was written or removed since the last good sync.
#[derive(Drop)]
struct Unsynced {
    name: u64,
    is_written: bool,
}

impl MemDisk {
    /// The disk after a crash now, which has one pick for each name that was written or removed since the last good sync, in
    /// ascending order. None where there are more or fewer picks than such names, where `Held` is picked for one that was
    /// written, or `Bytes` for one that was only removed.
    pub fn crash(&self, picks: &[Keep]) -> Result<Option<MemDisk>, AllocError>
        ensures image { IfOk result (λ r. IfSome r (λ d. ImagesOf self.now.done (held_by d))) }
        ensures only { IfOk result (λ r. IfSome r (λ d. (c : Contents) → ImagesOf d.done c → c ≡ held_by d)) }
        ensures picked { IfOk result (λ r. is_some r ≡ are_picks (unsynced self.now.done) picks.now) }
    {
        let names = self.unsynced()?;
        if !are_picks(names.as_slice(), picks) {
            return Ok(None);
        }
        let dids = self.done.as_slice();
        let (early, late) = dids.split_at(synced(dids));
        let mut disk = MemDisk::new(self.alloc);
        disk.replay(early)?;
        disk.replay_picked(late, names.as_slice(), picks)?;
        disk.settle();
        disk.changed = false;
        Ok(Some(disk))
    }

    // the names that were written or removed since the last good sync, in ascending order
    fn unsynced(&self) -> Result<Vec<Unsynced>, AllocError>
        ensures { IfOk result (λ v. map (λ u. (u.name, u.is_written)) v.items ≡ unsynced self.now.done) }
    {
        let mut written = BTreeMap::new(self.alloc);
        note_all(&mut written, self.done.as_slice())?;
        names_of(self.alloc, &written)
    }

    fn redo(&mut self, did: &Did) -> Result<(), AllocError>
        ensures { OnOk result (held_by self.new ≡ after (held_by self.old) did.now) }
    {
        match did {
            Did::Placed(name, bytes) => self.place(*name, bytes.as_slice()),
            Did::Wrote(name, bytes) => self.place(*name, bytes.as_slice()),
            Did::Removed(name) => self.take(*name),
            Did::Kept(_) => Ok(()),
            Did::Synced => Ok(()),
        }
    }

    fn replay(&mut self, dids: &[Did]) -> Result<(), AllocError>
        ensures { OnOk result (held_by self.new ≡ replayed (held_by self.old) dids.now) }
    {
        for did in dids {
            self.redo(did)?;
        }
        Ok(())
    }

    // a write that wasn't synced leaves what is picked
    fn put_picked(&mut self, name: u64, pick: Option<&Keep>) -> Result<(), AllocError>
        ensures { OnOk result (Elsewhere name (held_by self.old) (held_by self.new)) }
    {
        match pick {
            Some(Keep::Bytes(bytes)) => self.place(name, bytes.as_slice()),
            _ => self.take(name),
        }
    }

    fn take_picked(&mut self, name: u64, pick: Option<&Keep>) -> Result<(), AllocError>
        ensures { OnOk result (GoneOrKept name (held_by self.old) (held_by self.new)) }
    {
        match pick {
            Some(Keep::Absent) => self.take(name),
            _ => Ok(()),
        }
    }

    fn redo_picked(
        &mut self,
        did: &Did,
        names: &[Unsynced],
        picks: &[Keep],
    ) -> Result<(), AllocError>
        requires { is_sync did.now ≡ false }
        ensures { OnOk result (StepTo did.now (held_by self.old) (held_by self.new)) }
    {
        match did {
            Did::Placed(name, bytes) => self.place(*name, bytes.as_slice()),
            Did::Wrote(name, _) => self.put_picked(*name, pick_of(*name, names, picks)),
            Did::Removed(name) => self.take_picked(*name, pick_of(*name, names, picks)),
            Did::Kept(name) => self.take_picked(*name, pick_of(*name, names, picks)),
            Did::Synced => Ok(()),
        }
    }

    fn replay_picked(
        &mut self,
        dids: &[Did],
        names: &[Unsynced],
        picks: &[Keep],
    ) -> Result<(), AllocError>
        requires { All (λ d. is_sync d ≡ false) dids.now }
        ensures { OnOk result (StepsTo dids.now (held_by self.old) (held_by self.new)) }
    {
        for did in dids {
            self.redo_picked(did, names, picks)?;
        }
        Ok(())
    }
}

// how many of them stand before the last good sync and with it
fn synced(dids: &[Did]) -> usize
    ensures within { result ≤ length dids.now }
    ensures none { All (λ d. is_sync d ≡ false) (drop result dids.now) }
{
    let mut left = dids.len();
    while left > 0 {
        if is_synced(&dids[left - 1]) {
            return left;
        }
        left -= 1;
    }
    0
}

fn is_synced(did: &Did) -> bool
    ensures { result ≡ is_sync did.now }
{
    match did {
        Did::Synced => true,
        _ => false,
    }
}

fn names_of(alloc: Global, written: &BTreeMap<u64, bool>) -> Result<Vec<Unsynced>, AllocError>
    ensures { IfOk result (λ v. map (λ u. (u.name, u.is_written)) v.items ≡ written.now.entries) }
{
    let mut names = Vec::new(alloc);
    for (name, is_written) in written {
        names.push(Unsynced {
            name: *name,
            is_written: *is_written,
        })?;
    }
    Ok(names)
}

// notes the names, and whether they were written
fn note_all(written: &mut BTreeMap<u64, bool>, dids: &[Did]) -> Result<(), AllocError>
    ensures { OnOk result (written.new.entries ≡ noted_all written.old.entries dids.now) }
{
    for did in dids {
        note(written, did)?;
    }
    Ok(())
}

// notes the name, and whether it was written
fn note(written: &mut BTreeMap<u64, bool>, did: &Did) -> Result<(), AllocError>
    ensures { OnOk result (written.new.entries ≡ noted written.old.entries did.now) }
{
    match did {
        Did::Placed(name, _) => {
            forget(written, *name);
            Ok(())
        }
        Did::Wrote(name, _) => note_as(written, *name, true),
        Did::Removed(name) => note_gone(written, *name),
        Did::Kept(name) => note_gone(written, *name),
        Did::Synced => {
            written.clear();
            Ok(())
        }
    }
}

fn forget(written: &mut BTreeMap<u64, bool>, name: u64)
    ensures { written.new.entries ≡ remove_entry (is_at (nat_cmp name)) written.old.entries }
{
    written.remove(&name);
}

fn note_as(written: &mut BTreeMap<u64, bool>, name: u64, is_written: bool) -> Result<(), AllocError>
    ensures { OnOk result (written.new.entries ≡ insert_entry nat_cmp written.old.entries name is_written) }
{
    written.insert(name, is_written)?;
    Ok(())
}

// what was written and is gone counts as written
fn note_gone(written: &mut BTreeMap<u64, bool>, name: u64) -> Result<(), AllocError>
    ensures { OnOk result (written.new.entries ≡ insert_entry nat_cmp written.old.entries name (was_written written.old.entries name)) }
{
    let before = written.get(&name).copied().unwrap_or(false);
    note_as(written, name, before)
}

fn are_picks(names: &[Unsynced], picks: &[Keep]) -> bool
    ensures { result ≡ are_picks (map (λ u. (u.name, u.is_written)) names.now) picks.now }
{
    let (mut rest, mut left) = (names, picks);
    while let [name, later @ ..] = rest {
        let [pick, more @ ..] = left else {
            return false;
        };
        if !may_be(pick, name.is_written) {
            return false;
        }
        rest = later;
        left = more;
    }
    left.is_empty()
}

fn may_be(pick: &Keep, is_written: bool) -> bool
    ensures { result ≡ may_be pick.now is_written }
{
    match pick {
        Keep::Absent => true,
        Keep::Held => !is_written,
        Keep::Bytes(_) => is_written,
    }
}

// the pick of a name
fn pick_of<'a>(name: u64, names: &[Unsynced], picks: &'a [Keep]) -> Option<&'a Keep> {
    for (at, pick) in picks.iter().enumerate() {
        if at < names.len() && names[at].name == name {
            return Some(pick);
        }
    }
    None
}
