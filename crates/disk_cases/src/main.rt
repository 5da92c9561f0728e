//! Reads cases from standard input, each calls of a disk, and prints what they answer, a line for a case. What it has to print was written by
//! hand.
//!
//! A case begins with `memory` or `folder`, and then come its calls, with a blank between two of them: `w20=text` writes, `z20` asks for a size,
//! `r20,1,3` reads 3 bytes from place 1 on, `d20` removes, `n` lists the names and `s` syncs. A disk in memory may have files from the beginning
//! (`h1=old`), fail at calls (`f2,99`) or from a call on (`F4`), tell how often it failed (`!`), and be crashed (`c`) with a pick for each name that may have
//! changed: `-` absent, `=` held, or a text. In the folder of a disk, `o08` writes a file beside the disk and `m9` makes a folder there; each case has a folder of its own.
#![tactic(auto)]

use col_disk::{Blob, DirDisk, Disk, DiskFault, Keep, MemDisk};
use std::alloc::{AllocError, Global};
use std::fs::File;
use std::rt::Files;
use std::{fs, io};

/// Two parts of a text, the second one empty where the sign isn't there.
fn halves<'a>(text: &'a str, sign: char) -> (&'a str, &'a str) {
    text.split_once(sign).unwrap_or((text, ""))
}

fn number(text: &str) -> u64 {
    text.parse().unwrap_or(0)
}

/// What a call that gives nothing answers.
fn done(alloc: Global, answer: Result<(), DiskFault>) -> Result<String, AllocError> {
    match answer {
        Ok(()) => String::from_str(alloc, "ok"),
        Err(fault) => told(alloc, fault),
    }
}

fn told(alloc: Global, fault: DiskFault) -> Result<String, AllocError> {
    format!(in alloc; "{fault}")
}

/// Bytes as a text, `absent` where there are none.
fn shown(alloc: Global, bytes: Option<&[u8]>) -> Result<String, AllocError> {
    match bytes {
        Some(bytes) => format!(in alloc; "'{}'", std::str::from_utf8(bytes).unwrap_or("?")),
        None => String::from_str(alloc, "absent"),
    }
}

fn names<D: Disk>(alloc: Global, disk: &mut D) -> Result<String, AllocError> {
    let names = match disk.names(alloc) {
        Ok(names) => names,
        Err(fault) => return told(alloc, fault),
    };
    let mut out = String::from_str(alloc, "[")?;
    for name in names.as_slice() {
        let text = format!(in alloc; " {name}")?;
        out.push_str(text.as_str())?;
    }
    out.push_str(" ]")?;
    Ok(out)
}

fn size<D: Disk>(alloc: Global, disk: &mut D, name: u64) -> Result<String, AllocError> {
    match disk.size(name) {
        Ok(Some(bytes)) => format!(in alloc; "{bytes}"),
        Ok(None) => String::from_str(alloc, "absent"),
        Err(fault) => told(alloc, fault),
    }
}

fn read<D: Disk>(alloc: Global, disk: &mut D, rest: &str) -> Result<String, AllocError> {
    let (name, part) = halves(rest, ',');
    let (at, len) = halves(part, ',');
    match disk.read(alloc, number(name), number(at), number(len) as usize) {
        Ok(Some(bytes)) => shown(alloc, Some(bytes.as_slice())),
        Ok(None) => shown(alloc, None),
        Err(fault) => told(alloc, fault),
    }
}

/// What a call answers that every disk has.
fn answer<D: Disk>(alloc: Global, disk: &mut D, call: &str) -> Result<String, AllocError> {
    let rest = call.get(1..).unwrap_or("");
    match call.as_bytes().first() {
        Some(b'w') => {
            let (name, text) = halves(rest, '=');
            done(alloc, disk.write(number(name), text.as_bytes()))
        }
        Some(b'd') => done(alloc, disk.remove(number(rest))),
        Some(b's') => done(alloc, disk.sync()),
        Some(b'z') => size(alloc, disk, number(rest)),
        Some(b'r') => read(alloc, disk, rest),
        Some(b'n') => names(alloc, disk),
        _ => String::from_str(alloc, "?"),
    }
}

/// The numbers of a list.
fn numbers(alloc: Global, text: &str) -> Result<Vec<u64>, AllocError> {
    let mut out = Vec::new(alloc);
    for part in text.split(',') {
        out.push(number(part))?;
    }
    Ok(out)
}

/// What a crash keeps of each name.
fn picks(alloc: Global, text: &str) -> Result<Vec<Keep>, AllocError> {
    let mut out = Vec::new(alloc);
    for part in text.split(',') {
        let keep = match part {
            "" => continue,
            "-" => Keep::Absent,
            "=" => Keep::Held,
            torn => Keep::Bytes(Blob::new(Vec::from_slice(alloc, torn.as_bytes())?)),
        };
        out.push(keep)?;
    }
    Ok(out)
}

/// Does a call of a disk in memory, and appends what it answers.
fn in_memory(
    alloc: Global,
    disk: MemDisk,
    call: &str,
    out: &mut String,
) -> Result<MemDisk, AllocError> {
    let rest = call.get(1..).unwrap_or("");
    let mut disk = match call.as_bytes().first() {
        Some(b'h') => {
            let (name, text) = halves(rest, '=');
            return disk.with(number(name), text.as_bytes());
        }
        Some(b'f') => return disk.failing_at(numbers(alloc, rest)?.as_slice()),
        Some(b'F') => return Ok(disk.failing_from(number(rest))),
        _ => disk,
    };
    let (text, disk) = match call.as_bytes().first() {
        Some(b'!') => (
            format!(in alloc; "{} of {}", disk.faults(), disk.calls())?,
            disk,
        ),
        Some(b'c') => match disk.crash(picks(alloc, rest)?.as_slice())? {
            Some(left) => (String::from_str(alloc, "crashed")?, left),
            None => (String::from_str(alloc, "no crash")?, disk),
        },
        _ => (answer(alloc, &mut disk, call)?, disk),
    };
    add(out, text.as_str())?;
    Ok(disk)
}

/// Appends an answer, with a blank before it where others stand there.
fn add(out: &mut String, text: &str) -> Result<(), AllocError> {
    if !out.is_empty() {
        out.push_str(" ")?;
    }
    out.push_str(text)
}

fn case_in_memory(alloc: Global, calls: &str) -> Result<String, AllocError> {
    let mut out = String::new(alloc);
    let mut disk = MemDisk::new(alloc);
    for call in calls.split(' ') {
        disk = in_memory(alloc, disk, call, &mut out)?;
    }
    Ok(out)
}

fn case_in_folder<R: Files<File = File> + Clone + Drop>(
    rt: &R,
    alloc: Global,
    path: &str,
    calls: &str,
) -> io::Result<String> {
    let mut out = String::new(alloc);
    let mut disk = DirDisk::at(rt, alloc, path)?;
    for call in calls.split(' ') {
        let beside = format!(in alloc; "{path}/{}", call.get(1..).unwrap_or(""))?;
        match call.as_bytes().first() {
            Some(b'o') => fs::write(rt, beside.as_str(), "no")?,
            Some(b'm') => fs::create_dir(rt, beside.as_str())?,
            Some(b'a') => disk = DirDisk::at(rt, alloc, path)?,
            _ => {
                let text = answer(alloc, &mut disk, call)?;
                add(&mut out, text.as_str())?;
            }
        }
    }
    Ok(out)
}

fn main(rt: HostRuntime) -> io::Result<()> {
    let alloc = rt.alloc();
    let mut number: u64 = 0;
    for line in rt.lines(alloc) {
        let line = line?;
        let (kind, calls) = halves(line.as_str(), ' ');
        number = number.saturating_add(1);
        let out = if kind == "memory" {
            case_in_memory(alloc, calls)?
        } else {
            let path = format!(in alloc; "cases/{number}")?;
            case_in_folder(&rt, alloc, path.as_str(), calls)?
        };
        println!(rt; "{}", out.as_str())?;
    }
    Ok(())
}
