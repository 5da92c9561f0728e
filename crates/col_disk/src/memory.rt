ghost use Rattle.std.specs.Prelude.{◌⊎◌, ◌++◌, ◌∷◌, [], true, false, ◌≡◌, ◌==◌, ◌≤◌, ◌+◌, ◌/◌, IsTrue, IfOk, OnOk, OnErr, IfErr, Some, length, take, drop, vec_len, vec_capacity};
ghost use Rattle.std.specs.Option.{option_map};
ghost use Rattle.std.specs.List.{list_any};
ghost use Rattle.std.specs.FinMap.{get, insert, remove};
ghost use Rattle.common_laws.specs.Causes.{Rose};
ghost use Rattle.common_laws.specs.Maps.{Contents};
ghost use Rattle.col_disk.specs.declared.did.Did.TheVariants.{Placed, Wrote, Removed, Kept, Synced};
ghost use Rattle.col_disk.specs.Dids.{ImagesOf, ImagesSince};
ghost use Rattle.col_disk.specs.Done.{last_shown, earlier_reached};
ghost use Rattle.col_disk.specs.Memory.{held_by, blank, began, fails_next, is_reached as reached};

mod crash;

use crate::did::Did;
use crate::held::Held;
use crate::{Blob, Disk, DiskFault};
use common_laws::rest_of;
pub use crash::Keep;
use std::alloc::{AllocError, Global};
use std::marker::Model;

/// A disk in memory, which tells its contents.
///
/// Its calls are numbered from 0, and it fails at those that it is told to. A write that fails leaves the first half
/// of the bytes at its name; a removal that fails leaves all as it was.
#[derive(Drop)]
pub struct MemDisk {
    held: Held,
    done: Vec<Did>,
    // a sync has something to do
    dirty: bool,
    changed: bool,
    alloc: Global,
    calls: u64,
    failing: Vec<u64>,
    failing_from: Option<u64>,
    faults: u64,
}

impl Model for MemDisk {
    ghost use Rattle.col_disk.specs.Memory.{Memory};
    ghost use Rattle.col_disk.specs.Dids.{IsMemDisk};
    ghost use Rattle.std.specs.Prelude.{vec_len, vec_capacity};

    ghost Value = { Memory };

    ghost view = { λ d. record { done = d.done.items; changed = d.changed; calls = d.calls; failing = d.failing.items; failing_from = d.failing_from; faults = d.faults } };

    ghost invariant = { λ d. IsMemDisk d.held d.done.items d.dirty (vec_len d.done) (vec_capacity d.done) };
}

impl MemDisk {
    /// A disk with no name on it, which never fails.
    pub fn new(alloc: Global) -> MemDisk
        ensures { result ≡ blank }
    {
        MemDisk {
            held: Held::new(alloc),
            done: Vec::new(alloc),
            dirty: false,
            changed: false,
            alloc,
            calls: 0,
            failing: Vec::new(alloc),
            failing_from: None,
            faults: 0,
        }
    }

    /// The same disk with these bytes at the name. It counts as no call.
    pub fn with(self, name: u64, bytes: &[u8]) -> Result<MemDisk, AllocError>
        ensures { IfOk result (λ d. d ≡ record self { done = self.done ++ Placed name bytes.now ∷ [] }) }
    {
        let mut disk = self;
        disk.place(name, bytes)?;
        Ok(disk)
    }

    /// The same disk, of which the calls of these numbers fail, and no others.
    pub fn failing_at(self, calls: &[u64]) -> Result<MemDisk, AllocError>
        ensures { IfOk result (λ d. d ≡ record self { failing = calls.now }) }
    {
        let mut disk = self;
        disk.failing = Vec::from_slice(disk.alloc, calls)?;
        Ok(disk)
    }

    /// The same disk, of which every call from this number on fails.
    pub fn failing_from(self, call: u64) -> MemDisk
        ensures { result ≡ record self { failing_from = Some call } }
    {
        let mut disk = self;
        disk.failing_from = Some(call);
        disk
    }

    /// The bytes of the name, or None where it is absent. It counts as no call.
    pub fn bytes(&self, name: u64) -> Option<&[u8]>
        ensures { option_map (λ b. b.now) result ≡ get (held_by self.now) name }
    {
        self.held.bytes(name)
    }

    /// How many calls it has had.
    pub fn calls(&self) -> u64
        ensures { result ≡ self.now.calls }
    {
        self.calls
    }

    /// How often it has failed.
    pub fn faults(&self) -> u64
        ensures { result ≡ self.now.faults }
    {
        self.faults
    }

    // counts a call, and says whether it fails
    fn begin(&mut self) -> bool
        ensures fails { result ≡ fails_next self.old }
        ensures counted { self.new ≡ began self.old }
        ensures kept { self.new.done ≡ self.old.done }
        ensures remembered { self.new.changed ≡ self.old.changed }
        ensures later { self.old.faults ≤ self.new.faults }
        ensures rose { IsTrue result → Rose self.old.faults self.new.faults }
        ensures unfailed { result ≡ false → self.new.faults ≡ self.old.faults }
    {
        let call = self.calls;
        let fails = is_among(self.failing.as_slice(), call) || is_reached(self.failing_from, call);
        self.calls = self.calls.saturating_add(1);
        if fails {
            self.faults = self.faults.saturating_add(1);
        }
        fails
    }

    // the bytes were there from the beginning
    fn place(&mut self, name: u64, bytes: &[u8]) -> Result<(), AllocError>
        ensures ok { OnOk result (self.new ≡ record self.old { done = self.old.done ++ Placed name bytes.now ∷ [] }) }
        ensures held { OnOk result (held_by self.new ≡ insert (held_by self.old) name bytes.now) }
        ensures err { OnErr result (self.new ≡ self.old) }
    {
        let kept = Blob::new(Vec::from_slice(self.alloc, bytes)?);
        hold(self.alloc, &mut self.held, &mut self.done, name, bytes)?;
        self.done.push_reserved(Did::Placed(name, kept));
        self.dirty = true;
        Ok(())
    }

    fn put(&mut self, name: u64, bytes: &[u8]) -> Result<(), AllocError>
        ensures ok { OnOk result (self.new ≡ record self.old { done = self.old.done ++ Wrote name bytes.now ∷ []; changed = true }) }
        ensures err { OnErr result (self.new ≡ self.old) }
    {
        let kept = Blob::new(Vec::from_slice(self.alloc, bytes)?);
        hold(self.alloc, &mut self.held, &mut self.done, name, bytes)?;
        self.done.push_reserved(Did::Wrote(name, kept));
        self.changed = true;
        self.dirty = true;
        Ok(())
    }

    fn take(&mut self, name: u64) -> Result<(), AllocError>
        ensures ok { OnOk result (self.new ≡ record self.old { done = self.old.done ++ Removed name ∷ []; changed = true }) }
        ensures held { OnOk result (held_by self.new ≡ remove (held_by self.old) name) }
        ensures err { OnErr result (self.new ≡ self.old) }
    {
        self.done.reserve(2)?;
        self.held.take(name);
        self.done.push_reserved(Did::Removed(name));
        self.changed = true;
        self.dirty = true;
        Ok(())
    }

    // a removal that fails
    fn keep(&mut self, name: u64) -> Result<(), AllocError>
        ensures ok { OnOk result (self.new ≡ record self.old { done = self.old.done ++ Kept name ∷ []; changed = true }) }
        ensures err { OnErr result (self.new ≡ self.old) }
    {
        self.done.reserve(2)?;
        self.done.push_reserved(Did::Kept(name));
        self.changed = true;
        self.dirty = true;
        Ok(())
    }

    // a good sync: where it has something to do, it is noted, for which there is room
    fn settle(&mut self)
        ensures noted { (self.new ≡ self.old) ⊎ (self.new ≡ record self.old { done = self.old.done ++ Synced ∷ [] }) }
        ensures settled { (c : Contents) → ImagesOf self.new.done c → c ≡ held_by self.new }
    {
        if self.dirty {
            self.done.push_reserved(Did::Synced);
            self.dirty = false;
        }
    }
}

// the name holds the bytes, and there is room to note it
fn hold(
    alloc: Global,
    held: &mut Held,
    done: &mut Vec<Did>,
    name: u64,
    bytes: &[u8],
) -> Result<(), AllocError>
    ensures put { OnOk result (held.new ≡ insert held.old name bytes.now) }
    ensures same { OnErr result (held.new ≡ held.old) }
    ensures items { done.new.items ≡ done.old.items }
    ensures len { vec_len done.new ≡ vec_len done.old }
    ensures capacity { vec_capacity done.old ≤ vec_capacity done.new }
    ensures room { OnOk result (vec_len done.new + 2 ≤ vec_capacity done.new) }
{
    let blob = Blob::new(Vec::from_slice(alloc, bytes)?);
    done.reserve(2)?;
    held.put(name, blob)
}

fn is_among(calls: &[u64], call: u64) -> bool
    ensures { result ≡ list_any (λ n. n == call) calls.now }
{
    calls.iter().any(|n| *n == call)
}

fn is_reached(from: Option<u64>, call: u64) -> bool
    ensures { result ≡ reached from call }
{
    match from {
        Some(from) => from <= call,
        None => false,
    }
}

// at most `len` bytes from byte `at` on
fn part_of(bytes: &[u8], at: u64, len: usize) -> &[u8]
    ensures { result.now ≡ take len (drop at bytes.now) }
{
    if at >= bytes.len() as u64 {
        return &[];
    }
    let rest = rest_of(bytes, at as usize);
    if len < rest.len() {
        rest.split_at(len).0
    } else {
        rest
    }
}

fn first_half(bytes: &[u8]) -> &[u8]
    ensures { result.now ≡ take (length bytes.now / 2) bytes.now }
{
    bytes.split_at(bytes.len() / 2).0
}

impl Disk for MemDisk {
    ghost holds = { λ d. Some (held_by d) };

    ghost faults = { λ d. d.faults };

    ghost clock = { λ d. length d.done };

    ghost since = { λ d t c. ImagesSince d.done t c };

    ghost changed = { λ d. d.changed };

    ghost laws = { record { shows = λ d m told. last_shown d.done m told; reaches = λ d t u c le within is. earlier_reached d.done t u c le is } };

    fn size(&mut self, name: u64) -> Result<Option<u64>, DiskFault> {
        if self.begin() {
            return Err(DiskFault::Failed);
        }
        match self.held.bytes(name) {
            Some(bytes) => Ok(Some(bytes.len() as u64)),
            None => Ok(None),
        }
    }

    fn read(
        &mut self,
        alloc: Global,
        name: u64,
        at: u64,
        len: usize,
    ) -> Result<Option<Vec<u8>>, DiskFault> {
        if self.begin() {
            return Err(DiskFault::Failed);
        }
        match self.held.bytes(name) {
            Some(bytes) => match Vec::from_slice(alloc, part_of(bytes, at, len)) {
                Ok(part) => Ok(Some(part)),
                Err(AllocError) => Err(DiskFault::Memory),
            },
            None => Ok(None),
        }
    }

    fn write(&mut self, name: u64, bytes: &[u8]) -> Result<(), DiskFault> {
        if self.begin() {
            return match self.put(name, first_half(bytes)) {
                Ok(()) => Err(DiskFault::Failed),
                Err(AllocError) => Err(DiskFault::Memory),
            };
        }
        match self.put(name, bytes) {
            Ok(()) => Ok(()),
            Err(AllocError) => Err(DiskFault::Memory),
        }
    }

    fn remove(&mut self, name: u64) -> Result<(), DiskFault> {
        if self.begin() {
            return match self.keep(name) {
                Ok(()) => Err(DiskFault::Failed),
                Err(AllocError) => Err(DiskFault::Memory),
            };
        }
        match self.take(name) {
            Ok(()) => Ok(()),
            Err(AllocError) => Err(DiskFault::Memory),
        }
    }

    fn names(&mut self, alloc: Global) -> Result<Vec<u64>, DiskFault> {
        if self.begin() {
            return Err(DiskFault::Failed);
        }
        match self.held.names(alloc) {
            Ok(names) => Ok(names),
            Err(AllocError) => Err(DiskFault::Memory),
        }
    }

    fn sync(&mut self) -> Result<(), DiskFault> {
        if self.begin() {
            return Err(DiskFault::Failed);
        }
        self.settle();
        Ok(())
    }
}
