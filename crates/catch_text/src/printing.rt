//! The lines.

ghost use Rattle.std.specs.Prelude.{◌≡◌, ◌++◌, IfOk, OnOk};
ghost use Rattle.std.specs.Fmt.{decimal};
ghost use Rattle.verdict_text.specs.Lines.{numbers_text, stamped_row};
ghost use Rattle.col_value.specs.Prints.{row_text};
ghost use Rattle.catch_text.specs.Lines.{caught_text, differs_text, gap_text, gone_text, many_text, not_behind_text, refusal_text, schema_text};

use catch_model::LinkFault;
use col_value::{Name, Stamped};
use std::alloc::{AllocError, Global};
use verdict_text::{print_number, print_numbers, print_row};

fn print_schema(name: &Name, out: &mut Vec<u8>) -> Result<(), AllocError>
    ensures { OnOk result (out.new.items ≡ out.old.items ++ schema_text name.now) }
{
    out.extend_from_slice(b"SCHEMA ")?;
    out.extend_from_slice(name.as_slice())?;
    out.extend_from_slice(b"\n")
}

fn print_not_behind(
    alloc: Global,
    behind: u64,
    ahead: u64,
    out: &mut Vec<u8>,
) -> Result<(), AllocError>
    ensures { OnOk result (out.new.items ≡ out.old.items ++ not_behind_text behind ahead) }
{
    out.extend_from_slice(b"NOT BEHIND ")?;
    print_numbers(alloc, behind, ahead, out)
}

fn print_gone(alloc: Global, at: u64, ahm: u64, out: &mut Vec<u8>) -> Result<(), AllocError>
    ensures { OnOk result (out.new.items ≡ out.old.items ++ gone_text at ahm) }
{
    out.extend_from_slice(b"GONE ")?;
    print_numbers(alloc, at, ahm, out)
}

fn print_differs(
    alloc: Global,
    table: &Name,
    row: &Stamped,
    out: &mut Vec<u8>,
) -> Result<(), AllocError>
    ensures { OnOk result (out.new.items ≡ out.old.items ++ differs_text table.now row.now) }
{
    out.extend_from_slice(b"DIFFERS ")?;
    out.extend_from_slice(table.as_slice())?;
    out.extend_from_slice(b"\n")?;
    print_row(alloc, row, out)
}

fn print_gap(alloc: Global, n: u64, out: &mut Vec<u8>) -> Result<(), AllocError>
    ensures { OnOk result (out.new.items ≡ out.old.items ++ gap_text n) }
{
    out.extend_from_slice(b"GAP ")?;
    print_number(alloc, n, out)?;
    out.extend_from_slice(b"\n")
}

fn print_many(alloc: Global, n: u64, out: &mut Vec<u8>) -> Result<(), AllocError>
    ensures { OnOk result (out.new.items ≡ out.old.items ++ many_text n) }
{
    out.extend_from_slice(b"MANY ")?;
    print_number(alloc, n, out)?;
    out.extend_from_slice(b"\n")
}

fn print_refusal(alloc: Global, fault: &LinkFault, out: &mut Vec<u8>) -> Result<(), AllocError>
    ensures { OnOk result (out.new.items ≡ out.old.items ++ refusal_text fault.now) }
{
    match fault {
        LinkFault::SchemaDiffers(name) => print_schema(name, out),
        LinkFault::NotBehind { behind, ahead } => print_not_behind(alloc, *behind, *ahead, out),
        LinkFault::HistoryGone { at, ahm } => print_gone(alloc, *at, *ahm, out),
        LinkFault::Differs { table, row } => print_differs(alloc, table, row, out),
        LinkFault::Gap(n) => print_gap(alloc, *n, out),
        LinkFault::TooMany(n) => print_many(alloc, *n, out),
        LinkFault::NumbersSpent => out.extend_from_slice(b"NUMBERS\n"),
        LinkFault::BehindDisk | LinkFault::AheadDisk | LinkFault::Damaged(_) | LinkFault::Memory =>
            Ok(()),
    }
}

/// What is printed where a catch-up is refused.
pub fn refusal_text(alloc: Global, fault: &LinkFault) -> Result<Vec<u8>, AllocError>
    ensures { IfOk result (λ v. v.items ≡ refusal_text fault.now) }
{
    let mut text = Vec::new(alloc);
    print_refusal(alloc, fault, &mut text)?;
    Ok(text)
}

fn print_caught(
    alloc: Global,
    e: u64,
    f: u64,
    last: u64,
    out: &mut Vec<u8>,
) -> Result<(), AllocError>
    ensures { OnOk result (out.new.items ≡ out.old.items ++ caught_text e f last) }
{
    out.extend_from_slice(b"CAUGHT UP ")?;
    print_number(alloc, e, out)?;
    out.extend_from_slice(b" ")?;
    print_numbers(alloc, f, last, out)
}

/// What is printed where the folder behind has caught up: the epochs from which and up to which it was brought, and the newest one.
pub fn caught_text(alloc: Global, e: u64, f: u64, last: u64) -> Result<Vec<u8>, AllocError>
    ensures { IfOk result (λ v. v.items ≡ caught_text e f last) }
{
    let mut text = Vec::new(alloc);
    print_caught(alloc, e, f, last, &mut text)?;
    Ok(text)
}
