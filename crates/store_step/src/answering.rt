//! Answers, made before or behind what a statement does.

ghost use Rattle.std.specs.Prelude.{◌≡◌, IfErr, IfOk};
ghost use Rattle.db_model.specs.Answers.{listing_text};
ghost use Rattle.col_disk.specs.Faults.{store_fault};
ghost use Rattle.store_step.specs.Arms.{of_memory, of_text, stopped_or, told};
ghost use Rattle.store_step.specs.Texts.{IsMade, IsMissed, IsUnplanned, Refused, Says};

use crate::answer::{Answer, StepFault};
use col_disk::{DiskFault, StoreFault};
use col_value::WideRow;
use name_binder::BindFault;
use sql_tree::Refusal;
use statement_text::listing;
use std::alloc::{AllocError, Global};
use store_core::SelectFault;

/// The ERROR line of a refusal.
pub fn refused(alloc: Global, refusal: Refusal) -> Result<Answer, AllocError>
    ensures { IfOk result (Refused refusal) }
{
    let mut text = Vec::new(alloc);
    refusal.print(&mut text)?;
    Ok(Answer {
        text,
        refusal: Some(refusal),
    })
}

/// The ERROR line of a statement that is refused for what it says.
pub fn unplanned(alloc: Global, fault: BindFault) -> Result<Answer, AllocError>
    ensures { IsUnplanned fault result }
{
    match fault {
        BindFault::Refused(refusal) => refused(alloc, refusal),
        BindFault::Memory => Err(AllocError),
    }
}

/// The list of a query's rows.
pub fn listed(alloc: Global, rows: &[WideRow]) -> Result<Answer, AllocError>
    ensures { IfOk result (Says (listing_text rows.now)) }
{
    let text = listing(alloc, rows)?;
    Ok(Answer {
        text,
        refusal: None,
    })
}

/// A text that isn't a refusal's.
pub fn printed(text: Vec<u8>) -> Answer
    ensures { Says text.items result }
{
    Answer {
        text,
        refusal: None,
    }
}

/// An answer for which memory alone may have been short.
pub fn in_memory(answer: Result<Answer, AllocError>) -> Result<Answer, StoreFault>
    ensures { result ≡ of_memory answer }
{
    match answer {
        Ok(answer) => Ok(answer),
        Err(AllocError) => Err(StoreFault::Memory),
    }
}

/// An answer for what the disk was to do.
pub fn on_disk(answer: Answer, done: Result<(), DiskFault>) -> Result<Answer, StoreFault>
    ensures { result ≡ told store_fault answer done }
{
    match done {
        Ok(()) => Ok(answer),
        Err(DiskFault::Failed) => Err(StoreFault::Disk),
        Err(DiskFault::Memory) => Err(StoreFault::Memory),
    }
}

/// An answer for what the store was to do on its disk.
pub fn in_store(answer: Answer, done: Result<(), StoreFault>) -> Result<Answer, StoreFault>
    ensures { result ≡ told (λ fault. fault) answer done }
{
    match done {
        Ok(()) => Ok(answer),
        Err(fault) => Err(fault),
    }
}

/// The answer of a moveout of all, which says whether it stopped.
pub fn in_moveout(
    moved: Answer,
    stopped: Answer,
    done: Result<bool, StoreFault>,
) -> Result<Answer, StoreFault>
    ensures { result ≡ stopped_or moved stopped done }
{
    match done {
        Ok(false) => Ok(moved),
        Ok(true) => Ok(stopped),
        Err(fault) => Err(fault),
    }
}

/// The answer, its fault as that of a statement text.
pub fn of_text(answer: Result<Answer, StoreFault>) -> Result<Answer, StepFault>
    ensures { result ≡ of_text answer }
{
    match answer {
        Ok(answer) => Ok(answer),
        Err(StoreFault::Disk) => Err(StepFault::Disk),
        Err(StoreFault::Damaged(name)) => Err(StepFault::Damaged(name)),
        Err(StoreFault::Memory) => Err(StepFault::Memory),
    }
}

/// The list of a query's rows, or the ERROR line where a sum is too great.
pub fn selected(
    alloc: Global,
    rows: Result<Vec<WideRow>, SelectFault>,
) -> Result<Answer, StoreFault>
    ensures rows { IfOk rows (λ v. IsMade (Says (listing_text v.items)) result) }
    ensures fault { IfErr rows (λ f. IsMissed f result) }
{
    match rows {
        Ok(rows) => in_memory(listed(alloc, rows.as_slice())),
        Err(SelectFault::SumOutOfRange) => in_memory(refused(alloc, Refusal::SumOutOfRange)),
        Err(SelectFault::Disk) => Err(StoreFault::Disk),
        Err(SelectFault::Damaged(name)) => Err(StoreFault::Damaged(name)),
        Err(SelectFault::Memory) => Err(StoreFault::Memory),
    }
}
