//! The lines of verdicts.

ghost use Rattle.std.specs.Prelude.{◌≡◌, ◌++◌, codes, IfOk, OnOk};
ghost use Rattle.std.specs.Fmt.{decimal};
ghost use Rattle.col_value.specs.Prints.{row_text};
ghost use Rattle.verdict_text.specs.Lines.{bad_row_text, differ_text, epoch_value, file_text, names_text, numbers_text, stamped_row, verdict_text, yes_text};

use audit_model::Verdict;
use col_value::{List, Name, Stamped, Wide, WideRow};
use std::alloc::{AllocError, Global};

/// A number in decimal digits.
pub fn print_number(alloc: Global, n: u64, out: &mut Vec<u8>) -> Result<(), AllocError>
    ensures { OnOk result (out.new.items ≡ out.old.items ++ decimal n) }
{
    let text = format!(in alloc; "{n}")?;
    out.extend_from_slice(text.as_bytes())
}

/// Two numbers, and the end of the line.
pub fn print_numbers(
    alloc: Global,
    first: u64,
    second: u64,
    out: &mut Vec<u8>,
) -> Result<(), AllocError>
    ensures { OnOk result (out.new.items ≡ out.old.items ++ numbers_text first second) }
{
    print_number(alloc, first, out)?;
    out.extend_from_slice(b" ")?;
    print_number(alloc, second, out)?;
    out.extend_from_slice(b"\n")
}

fn print_names(first: &Name, second: &Name, out: &mut Vec<u8>) -> Result<(), AllocError>
    ensures { OnOk result (out.new.items ≡ out.old.items ++ names_text first.now second.now) }
{
    out.extend_from_slice(first.as_slice())?;
    out.extend_from_slice(b" ")?;
    out.extend_from_slice(second.as_slice())
}

fn print_yes(alloc: Global, last: u64, ahm: u64, out: &mut Vec<u8>) -> Result<(), AllocError>
    ensures { OnOk result (out.new.items ≡ out.old.items ++ yes_text last ahm) }
{
    out.extend_from_slice(b"AUDIT YES ")?;
    print_numbers(alloc, last, ahm, out)
}

fn print_file(alloc: Global, name: u64, out: &mut Vec<u8>) -> Result<(), AllocError>
    ensures { OnOk result (out.new.items ≡ out.old.items ++ file_text name) }
{
    out.extend_from_slice(b"AUDIT NO FILE ")?;
    print_number(alloc, name, out)?;
    out.extend_from_slice(b"\n")
}

fn print_bad_row(
    alloc: Global,
    table: &Name,
    projection: &Name,
    base: u64,
    pos: u64,
    out: &mut Vec<u8>,
) -> Result<(), AllocError>
    ensures { OnOk result (out.new.items ≡ out.old.items ++ bad_row_text table.now projection.now base pos) }
{
    out.extend_from_slice(b"AUDIT NO ROW ")?;
    print_names(table, projection, out)?;
    out.extend_from_slice(b" ")?;
    print_numbers(alloc, base, pos, out)
}

/// An epoch, or NULL where there is none.
fn epoch_value(epoch: Option<u64>) -> Wide
    ensures { result ≡ epoch_value epoch }
{
    match epoch {
        Some(epoch) => Wide::Int(i128::from(epoch)),
        None => Wide::Null,
    }
}

fn stamped_row(alloc: Global, stamped: &Stamped) -> Result<WideRow, AllocError>
    ensures { IfOk result (λ r. r ≡ stamped_row stamped.now) }
{
    let mut row = stamped.row.widen(alloc)?.into_vec();
    row.push(Wide::Int(i128::from(stamped.ins)))?;
    row.push(epoch_value(stamped.del))?;
    Ok(List::new(row))
}

/// The line of a stored row: its values, then the epoch that inserted it and the one that deleted it.
pub fn print_row(alloc: Global, stamped: &Stamped, out: &mut Vec<u8>) -> Result<(), AllocError>
    ensures { OnOk result (out.new.items ≡ out.old.items ++ row_text (stamped_row stamped.now)) }
{
    let row = stamped_row(alloc, stamped)?;
    row.print(out)
}

/// The table, both projections, and how often the row stands in each.
fn print_pair(
    alloc: Global,
    table: &Name,
    first: &Name,
    second: &Name,
    counts: (u64, u64),
    out: &mut Vec<u8>,
) -> Result<(), AllocError>
    ensures { OnOk result (out.new.items ≡ out.old.items ++ (codes "AUDIT NO PAIR " ++ (table.now ++ (codes " " ++ (names_text first.now second.now ++ (codes " " ++ numbers_text counts.0 counts.1)))))) }
{
    out.extend_from_slice(b"AUDIT NO PAIR ")?;
    out.extend_from_slice(table.as_slice())?;
    out.extend_from_slice(b" ")?;
    print_names(first, second, out)?;
    out.extend_from_slice(b" ")?;
    print_numbers(alloc, counts.0, counts.1, out)
}

fn print_verdict(alloc: Global, verdict: &Verdict, out: &mut Vec<u8>) -> Result<(), AllocError>
    ensures { OnOk result (out.new.items ≡ out.old.items ++ verdict_text verdict.now) }
{
    match verdict {
        Verdict::Yes { last, ahm } => print_yes(alloc, *last, *ahm, out),
        Verdict::File(name) => print_file(alloc, *name, out),
        Verdict::BadRow {
            table,
            projection,
            base,
            pos,
        } => print_bad_row(alloc, table, projection, *base, *pos, out),
        Verdict::Differ {
            table,
            first,
            second,
            first_count,
            second_count,
            row,
        } => {
            print_pair(
                alloc,
                table,
                first,
                second,
                (*first_count, *second_count),
                out,
            )?;
            print_row(alloc, row, out)
        }
    }
}

/// The text of a verdict.
pub fn verdict_text(alloc: Global, verdict: &Verdict) -> Result<Vec<u8>, AllocError>
    ensures { IfOk result (λ v. v.items ≡ verdict_text verdict.now) }
{
    let mut text = Vec::new(alloc);
    print_verdict(alloc, verdict, &mut text)?;
    Ok(text)
}
