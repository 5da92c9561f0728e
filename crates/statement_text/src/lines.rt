//! Texts of a word and a number.

ghost use Rattle.std.specs.Prelude.{◌≡◌, ◌+◌, ◌++◌, if◌then◌else◌, codes, IfOk};
ghost use Rattle.std.specs.Fmt.{decimal};
ghost use Rattle.db_model.specs.Answers.{commit_line, epoch_line, insert_line};
ghost use Rattle.db_model.specs.Printing.{counted_line};

use std::alloc::{AllocError, Global};

/// `INSERT n`
pub fn insert_text(alloc: Global, count: usize) -> Result<Vec<u8>, AllocError>
    ensures { IfOk result (λ v. v.items ≡ insert_line count) }
{
    let line = format!(in alloc; "INSERT {count}\n")?;
    Vec::from_slice(alloc, line.as_bytes())
}

/// `COMMIT EPOCH e`, for the epoch behind the last one
fn closed_text(alloc: Global, last: u64) -> Result<Vec<u8>, AllocError>
    ensures { IfOk result (λ v. v.items ≡ commit_line (last + 1)) }
{
    let epoch = u128::from(last) + 1;
    let line = format!(in alloc; "COMMIT EPOCH {epoch}\n")?;
    Vec::from_slice(alloc, line.as_bytes())
}

/// What a COMMIT prints: the epoch behind the last one, if it closes that, and else `COMMIT` alone.
pub fn commit_text(alloc: Global, closes: bool, last: u64) -> Result<Vec<u8>, AllocError>
    ensures { IfOk result (λ v. v.items ≡ (if closes then commit_line (last + 1) else codes "COMMIT\n")) }
{
    if closes {
        closed_text(alloc, last)
    } else {
        Vec::from_slice(alloc, b"COMMIT\n")
    }
}

/// `EPOCH n`, for the epoch behind the last one
pub fn epoch_text(alloc: Global, last: u64) -> Result<Vec<u8>, AllocError>
    ensures { IfOk result (λ v. v.items ≡ epoch_line (last + 1)) }
{
    let epoch = u128::from(last) + 1;
    let line = format!(in alloc; "EPOCH {epoch}\n")?;
    Vec::from_slice(alloc, line.as_bytes())
}

/// `LGE n`
pub fn lge_text(alloc: Global, epoch: u64) -> Result<Vec<u8>, AllocError>
    ensures { IfOk result (λ v. v.items ≡ counted_line (codes "LGE ") epoch) }
{
    let line = format!(in alloc; "LGE {epoch}\n")?;
    Vec::from_slice(alloc, line.as_bytes())
}

/// `AHM n`
pub fn mark_text(alloc: Global, epoch: u64) -> Result<Vec<u8>, AllocError>
    ensures { IfOk result (λ v. v.items ≡ counted_line (codes "AHM ") epoch) }
{
    let line = format!(in alloc; "AHM {epoch}\n")?;
    Vec::from_slice(alloc, line.as_bytes())
}

/// `DELETE n`
pub fn deleted_text(alloc: Global, count: usize) -> Result<Vec<u8>, AllocError>
    ensures { IfOk result (λ v. v.items ≡ counted_line (codes "DELETE ") count) }
{
    let line = format!(in alloc; "DELETE {count}\n")?;
    Vec::from_slice(alloc, line.as_bytes())
}

/// `UPDATE n`
pub fn updated_text(alloc: Global, count: usize) -> Result<Vec<u8>, AllocError>
    ensures { IfOk result (λ v. v.items ≡ counted_line (codes "UPDATE ") count) }
{
    let line = format!(in alloc; "UPDATE {count}\n")?;
    Vec::from_slice(alloc, line.as_bytes())
}

/// `COPY n`
fn loaded_text(alloc: Global, loaded: usize) -> Result<Vec<u8>, AllocError>
    ensures { IfOk result (λ v. v.items ≡ codes "COPY " ++ (decimal loaded ++ codes "\n")) }
{
    let line = format!(in alloc; "COPY {loaded}\n")?;
    Vec::from_slice(alloc, line.as_bytes())
}

/// `COPY n EPOCH e`, for the epoch behind the last one
fn loaded_epoch_text(alloc: Global, loaded: usize, last: u64) -> Result<Vec<u8>, AllocError>
    ensures { IfOk result (λ v. v.items ≡ codes "COPY " ++ (decimal loaded ++ (codes " EPOCH " ++ (decimal (last + 1) ++ codes "\n")))) }
{
    let epoch = u128::from(last) + 1;
    let line = format!(in alloc; "COPY {loaded} EPOCH {epoch}\n")?;
    Vec::from_slice(alloc, line.as_bytes())
}

/// What a COPY of so many rows prints: the epoch behind the last one, if its commit closes that, and else their number alone.
pub fn copy_text(
    alloc: Global,
    loaded: usize,
    commits: bool,
    last: u64,
) -> Result<Vec<u8>, AllocError>
    ensures { IfOk result (λ v. v.items ≡ codes "COPY " ++ (decimal loaded ++ (if commits then codes " EPOCH " ++ (decimal (last + 1) ++ codes "\n") else codes "\n"))) }
{
    if commits {
        loaded_epoch_text(alloc, loaded, last)
    } else {
        loaded_text(alloc, loaded)
    }
}
