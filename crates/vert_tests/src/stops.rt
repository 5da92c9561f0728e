//! Runs that stop, and runs that don't begin.

use crate::running::{NONE, Trouble, ran, words};
use col_disk::{Disk, MemDisk};
use col_io::{MemFiles, MemSink};
use run_words::dir_of;
use std::test::Fail;
use vert_cli::{Outcome, Session, Status, run};

const SCRIPT: &[u8] =
    b"CREATE TABLE t (a INTEGER); INSERT INTO t VALUES (2), (1); SELECT a FROM t; nothing; COMMIT";

const TEXT: &[u8] = b"CREATE TABLE\nINSERT 2\n1\n2\n(2 rows)\nERROR 1 Syntax 1\nCOMMIT EPOCH 1\n";

// The sink takes five bytes at a time, and each of its calls fails in turn.
#[test]
fn each_write_fails_in_turn(rt: HostRuntime) -> Result<(), Fail> {
    let alloc = rt.alloc();
    for call in 0..15 {
        let trouble = Trouble {
            reads: &[],
            writes: &[call],
            most: 5,
        };
        let (status, out) = ran(alloc, SCRIPT, &trouble)?;
        assert_eq!(rt; status, Status::SinkFault, "{call}");
        assert_eq!(rt; out.faults(), 1);
        let taken = out.bytes();
        assert!(rt;
            TEXT.starts_with(taken) && taken.len() as u64 <= 5 * (call + 1),
            "{call}"
        );
    }
    let trouble = Trouble {
        reads: &[],
        writes: &[15],
        most: 5,
    };
    let (status, out) = ran(alloc, SCRIPT, &trouble)?;
    assert_eq!(rt; status, Status::Refused);
    assert!(rt; out.bytes() == TEXT);
    Ok(())
}

#[test]
fn the_script_cannot_be_read(rt: HostRuntime) -> Result<(), Fail> {
    let trouble = Trouble {
        reads: &[0],
        writes: &[],
        most: 9,
    };
    let (status, out) = ran(rt.alloc(), SCRIPT, &trouble)?;
    assert_eq!(rt; status, Status::ReadFault);
    assert_eq!(rt; out.bytes().len(), 0);
    Ok(())
}

#[test]
fn other_words(rt: HostRuntime) -> Result<(), Fail> {
    let alloc = rt.alloc();
    let mut files = MemFiles::new(alloc, Vec::new(alloc));
    files.put(alloc, "s.sql", Vec::from_slice(alloc, SCRIPT)?)?;
    let mut out = MemSink::new(alloc, 100, Vec::new(alloc));
    let mut disk = MemDisk::new(alloc);
    for (all, want, code) in [
        (["vert", "DIR", "none.sql"].as_slice(), Status::NoScript, 3),
        (&["vert"], Status::Usage, 2),
        (&["vert", "s.sql"], Status::Usage, 2),
        (&["vert", "DIR", "s.sql", "s.sql"], Status::Usage, 2),
    ] {
        let words = words(alloc, all)?;
        let status = run(alloc, words.as_slice(), &mut files, &mut out, &mut disk);
        assert_eq!(rt; status, want);
        assert_eq!(rt; status.code(), code);
        assert_eq!(rt; out.bytes().len(), 0);
    }
    Ok(())
}

#[test]
fn the_word_dir(rt: HostRuntime) -> Result<(), Fail> {
    let alloc = rt.alloc();
    for (all, want) in [
        (["vert", "d", "s.sql"].as_slice(), Some("d")),
        (&["vert", "--mover", "3", "--halt", "d", "s.sql"], Some("d")),
        (&["vert", "--mover=3", "d"], Some("d")),
        (
            &["vert", "--gen", "--", "--seed", "5", "--", "--d"],
            Some("--d"),
        ),
        (&["vert", "--mover", "3"], None),
        (&["--mover"], None),
    ] {
        let words = words(alloc, all)?;
        assert!(rt; dir_of(words.as_slice()) == want);
    }
    Ok(())
}

// A session that makes a table, and one after it.
#[test]
fn two_sessions(rt: HostRuntime) -> Result<(), Fail> {
    let alloc = rt.alloc();
    let mut files = MemFiles::new(alloc, Vec::new(alloc));
    let mut out = MemSink::new(alloc, 100, Vec::new(alloc));
    let mut disk = MemDisk::new(alloc);
    for (text, done) in [
        (b"CREATE TABLE t (a INTEGER)".as_slice(), true),
        (b"SELECT a FROM t", true),
        (b"SELECT a FROM s", false),
    ] {
        let mut session = Session::open(alloc, &mut disk).map_err(|_| "not opened")?;
        let outcome = session
            .execute(alloc, text, &mut files, &mut disk, &mut out)
            .map_err(|_| "stopped")?;
        assert_eq!(rt; matches!(outcome, Outcome::Done), done);
        session.close(alloc, &mut disk).map_err(|_| "not closed")?;
        assert_eq!(rt; disk.names(alloc)?.as_slice(), [5, 6].as_slice());
    }
    assert!(rt; out.bytes() == b"CREATE TABLE\n(0 rows)\nERROR 2 UnknownTable s\n".as_slice());
    Ok(())
}
