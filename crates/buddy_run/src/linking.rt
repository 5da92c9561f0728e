//! The catch-up, from the words to the printed line.

ghost use Rattle.std.specs.Prelude.{ℕ, ◌≡◌, ◌≢◌, ◌≤◌, ◌⊎◌, length, Some, IfOk, IfErr, OnOk, IsErrOf};
ghost use Rattle.common_laws.specs.Causes.{HasCause, Rose};
ghost use Rattle.common_laws.specs.Maps.{Contents};
ghost use Rattle.common_laws.specs.Told.{Appends, AppendsFront};
ghost use Rattle.col_disk.specs.Moved.{Leaves, Moved, NoName};
ghost use Rattle.db_model.specs.Database.{Database};
ghost use Rattle.db_model.specs.State.{State, opened_with};
ghost use Rattle.folder_model.specs.Reopening.{Reopens};
ghost use Rattle.buddy_link.specs.Running.{IsState};
ghost use Rattle.store_opening.specs.Opening.{IsStill};
ghost use Rattle.buddy_run.specs.declared.status.LinkStatus.TheVariants.{Usage as usage, SinkFault as sink_fault, DiskFault as disk_fault};
ghost use Rattle.catch_files.specs.Parting.{IsShort};
ghost use Rattle.catch_text.specs.Lines as lines;
ghost use Rattle.buddy_run.specs.Ends.{BringsUp, LinkIsOnTheWay, IsOpened, IsSinkStop, IsStillOrCut, LinkEnds, ReopensEither, StopsBy, IsToldBy, StopEnds, IsDiskFault};

use crate::status::LinkStatus;
use buddy_link::{Link, LinkFault, Store};
use catch_text::{caught_text, refusal_text};
use col_disk::{Disk, StoreFault};
use col_io::{Sink, SinkFault, write_all};
use std::alloc::{AllocError, Global};

/// How far a catch-up came: from which epoch of the folder behind, to which one that was the newest of the folder ahead at the begin, and to
/// which one at last.
#[derive(Clone, Copy, Debug)]
pub struct Brought {
    pub first: u64,
    pub second: u64,
    pub last: u64,
}

fn open_behind<A: Disk>(alloc: Global, behind: &mut A) -> Result<Store, LinkFault>
    ensures opened { IfOk result (λ s. (m : Contents) (a : Database) → A.holds behind.old ≡ Some m → Reopens m a → (parts : ℕ) × IsState ⟦<A as Disk>⟧ s behind.new (opened_with s.seen.catalogue.next parts a)) }
    ensures any_moment { (m : Contents) (a : Database) → A.holds behind.old ≡ Some m → Reopens m a → Leaves ⟦<A as Disk>⟧ (IsStill ⟦<A as Disk>⟧ behind.old a) behind.old behind.new }
    ensures short { IfErr result (λ fault. (m : Contents) (a : Database) → A.holds behind.old ≡ Some m → Reopens m a → IsShort fault) }
    ensures own { IsErrOf result LinkFault.AheadDisk → ⊥ }
    ensures cause { HasCause LinkFault.BehindDisk (A.faults behind.old) (A.faults behind.new) result }
{
    match Store::open(alloc, behind) {
        Ok(store) => Ok(store),
        Err(StoreFault::Disk) => Err(LinkFault::BehindDisk),
        Err(StoreFault::Damaged(name)) => Err(LinkFault::Damaged(name)),
        Err(StoreFault::Memory) => Err(LinkFault::Memory),
    }
}

fn open_ahead<B: Disk>(alloc: Global, ahead: &mut B) -> Result<Store, LinkFault>
    ensures opened { IfOk result (λ s. (n : Contents) (b : Database) → B.holds ahead.old ≡ Some n → Reopens n b → (parts : ℕ) × IsState ⟦<B as Disk>⟧ s ahead.new (opened_with s.seen.catalogue.next parts b)) }
    ensures any_moment { (n : Contents) (b : Database) → B.holds ahead.old ≡ Some n → Reopens n b → Leaves ⟦<B as Disk>⟧ (IsStill ⟦<B as Disk>⟧ ahead.old b) ahead.old ahead.new }
    ensures short { IfErr result (λ fault. (n : Contents) (b : Database) → B.holds ahead.old ≡ Some n → Reopens n b → IsShort fault) }
    ensures own { IsErrOf result LinkFault.BehindDisk → ⊥ }
    ensures cause { HasCause LinkFault.AheadDisk (B.faults ahead.old) (B.faults ahead.new) result }
{
    match Store::open(alloc, ahead) {
        Ok(store) => Ok(store),
        Err(StoreFault::Disk) => Err(LinkFault::AheadDisk),
        Err(StoreFault::Damaged(name)) => Err(LinkFault::Damaged(name)),
        Err(StoreFault::Memory) => Err(LinkFault::Memory),
    }
}

/// A store over the folder behind is brought up to one over the folder ahead.
fn follow<A: Disk, B: Disk>(
    alloc: Global,
    store: &mut Store,
    behind: &mut A,
    source: &Store,
    ahead: &mut B,
) -> Result<Brought, LinkFault>
    ensures brings { (a b : State) → IsState ⟦<A as Disk>⟧ store.old behind.old a → IsState ⟦<B as Disk>⟧ source.now ahead.old b → IsOpened a → BringsUp ⟦<A as Disk>⟧ behind.new a.database b.database result }
    ensures any_moment { (a b : State) → IsState ⟦<A as Disk>⟧ store.old behind.old a → IsState ⟦<B as Disk>⟧ source.now ahead.old b → IsOpened a → Leaves ⟦<A as Disk>⟧ (ReopensEither a.database b.database) behind.old behind.new }
    ensures ahead_moved { Moved ⟦<B as Disk>⟧ NoName NoName ahead.old ahead.new }
    ensures behind_cause { HasCause LinkFault.BehindDisk (A.faults behind.old) (A.faults behind.new) result }
    ensures ahead_cause { HasCause LinkFault.AheadDisk (B.faults ahead.old) (B.faults ahead.new) result }
{
    let first = store.last();
    let mut link = match Link::begin(alloc, store, behind, source, ahead) {
        Ok(link) => link,
        Err(fault) => return Err(fault),
    };
    let second = match link.historical(alloc, store, behind) {
        Ok(second) => second,
        Err(fault) => return Err(fault),
    };
    match link.current(alloc, store, behind, source, ahead) {
        Ok(last) => Ok(Brought {
            first,
            second,
            last,
        }),
        Err(fault) => Err(fault),
    }
}

/// The folder behind is brought up to the folder ahead.
fn bring_up<A: Disk, B: Disk>(
    alloc: Global,
    behind: &mut A,
    ahead: &mut B,
) -> Result<Brought, LinkFault>
    ensures brings { (m n : Contents) (a b : Database) → A.holds behind.old ≡ Some m → Reopens m a → B.holds ahead.old ≡ Some n → Reopens n b → BringsUp ⟦<A as Disk>⟧ behind.new a b result }
    ensures any_moment { (m n : Contents) (a b : Database) → A.holds behind.old ≡ Some m → Reopens m a → B.holds ahead.old ≡ Some n → Reopens n b → Leaves ⟦<A as Disk>⟧ (LinkIsOnTheWay ⟦<A as Disk>⟧ behind.old a b) behind.old behind.new }
    ensures ahead_stays { (n : Contents) (b : Database) → B.holds ahead.old ≡ Some n → Reopens n b → Leaves ⟦<B as Disk>⟧ (IsStillOrCut ⟦<B as Disk>⟧ ahead.old b) ahead.old ahead.new }
    ensures behind_cause { HasCause LinkFault.BehindDisk (A.faults behind.old) (A.faults behind.new) result }
    ensures ahead_cause { HasCause LinkFault.AheadDisk (B.faults ahead.old) (B.faults ahead.new) result }
{
    let mut store = match open_behind(alloc, behind) {
        Ok(store) => store,
        Err(fault) => return Err(fault),
    };
    let source = match open_ahead(alloc, ahead) {
        Ok(source) => source,
        Err(fault) => return Err(fault),
    };
    follow(alloc, &mut store, behind, &source, ahead)
}

/// Writes a line. After a fault a front of it was taken.
fn tell<S: Sink>(out: &mut S, text: &[u8]) -> Result<(), LinkStatus>
    ensures whole { OnOk result (Appends (S.taken out.old) (S.taken out.new) text.now) }
    ensures front { IfErr result (λ status. IsSinkStop status × AppendsFront (S.taken out.old) (S.taken out.new) text.now) }
    ensures sink { IsErrOf result sink_fault → Rose (S.faults out.old) (S.faults out.new) }
{
    match write_all(out, text) {
        Ok(()) => Ok(()),
        Err(SinkFault::Failed) => Err(LinkStatus::SinkFault),
        Err(SinkFault::Memory) => Err(LinkStatus::Memory),
    }
}

/// Writes why the catch-up is refused.
fn tell_refusal<S: Sink>(alloc: Global, out: &mut S, fault: &LinkFault) -> LinkStatus
    ensures tells { IsToldBy result (lines.refusal_text fault.now) (S.taken out.old) (S.taken out.new) }
    ensures sink { result ≡ sink_fault → Rose (S.faults out.old) (S.faults out.new) }
{
    match refusal_text(alloc, fault) {
        Ok(text) => match tell(out, text.as_slice()) {
            Ok(()) => LinkStatus::Refused,
            Err(status) => status,
        },
        Err(AllocError) => LinkStatus::Memory,
    }
}

/// The status of a catch-up that didn't come to its end; why it is refused is written.
fn stopped<S: Sink>(alloc: Global, out: &mut S, fault: &LinkFault) -> LinkStatus
    ensures ends { (a b : Database) → StopsBy a b fault.now → StopEnds result a b fault.now (S.taken out.old) (S.taken out.new) }
    ensures sink { result ≡ sink_fault → Rose (S.faults out.old) (S.faults out.new) }
    ensures own { result ≡ usage → ⊥ }
    ensures disk { result ≡ disk_fault → IsDiskFault fault.now }
{
    match fault {
        LinkFault::BehindDisk | LinkFault::AheadDisk => LinkStatus::DiskFault,
        LinkFault::Damaged(name) => LinkStatus::Damaged(*name),
        LinkFault::Memory => LinkStatus::Memory,
        LinkFault::SchemaDiffers(_)
        | LinkFault::NotBehind { .. }
        | LinkFault::HistoryGone { .. }
        | LinkFault::Differs { .. }
        | LinkFault::Gap(_)
        | LinkFault::TooMany(_)
        | LinkFault::NumbersSpent => tell_refusal(alloc, out, fault),
    }
}

/// Brings the folder `behind`, which is an older state of the folder `ahead`, up to that one, and prints `CAUGHT UP e f last`, or why it
/// can't be. The words are the program's name and the two folders. The folder ahead stays what it is, but that its opening may cut what
/// a stop left behind its last good epoch.
pub fn link<S: Sink, A: Disk, B: Disk>(
    alloc: Global,
    words: &[String],
    out: &mut S,
    behind: &mut A,
    ahead: &mut B,
) -> LinkStatus
    ensures usage { result ≡ usage → length words.now ≢ 3 }
    ensures idle { length words.now ≢ 3 → (result ≡ usage) × (behind.new ≡ behind.old) × (ahead.new ≡ ahead.old) × (out.new ≡ out.old) }
    ensures ends { (m n : Contents) (a b : Database) → length words.now ≡ 3 → A.holds behind.old ≡ Some m → Reopens m a → B.holds ahead.old ≡ Some n → Reopens n b → LinkEnds result ⟦<A as Disk>⟧ behind.new a b (S.taken out.old) (S.taken out.new) }
    ensures any_moment { (m n : Contents) (a b : Database) → A.holds behind.old ≡ Some m → Reopens m a → B.holds ahead.old ≡ Some n → Reopens n b → Leaves ⟦<A as Disk>⟧ (LinkIsOnTheWay ⟦<A as Disk>⟧ behind.old a b) behind.old behind.new }
    ensures ahead_stays { (n : Contents) (b : Database) → B.holds ahead.old ≡ Some n → Reopens n b → Leaves ⟦<B as Disk>⟧ (IsStillOrCut ⟦<B as Disk>⟧ ahead.old b) ahead.old ahead.new }
    ensures sink { result ≡ sink_fault → Rose (S.faults out.old) (S.faults out.new) }
    ensures fault { result ≡ disk_fault → Rose (A.faults behind.old) (A.faults behind.new) ⊎ Rose (B.faults ahead.old) (B.faults ahead.new) }
{
    if words.len() != 3 {
        return LinkStatus::Usage;
    }
    match bring_up(alloc, behind, ahead) {
        Ok(
            Brought {
                first,
                second,
                last,
            },
        ) => match caught_text(alloc, first, second, last) {
            Ok(text) => match tell(out, text.as_slice()) {
                Ok(()) => LinkStatus::Done,
                Err(status) => status,
            },
            Err(AllocError) => LinkStatus::Memory,
        },
        Err(fault) => stopped(alloc, out, &fault),
    }
}
