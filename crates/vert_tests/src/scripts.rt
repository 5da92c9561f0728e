//! Scripts that run to their end.

use crate::running::{NONE, ran};
use std::test::Fail;
use vert_cli::Status;

const ROW: &str =
    "CREATE TABLE t (a INTEGER); INSERT INTO t VALUES (2), (1); COMMIT; SELECT a FROM t;";

const ROW_TEXT: &str = "CREATE TABLE\nINSERT 2\nCOMMIT EPOCH 1\n1\n2\n(2 rows)\n";

#[test]
fn worked_scripts(rt: HostRuntime) -> Result<(), Fail> {
    let alloc = rt.alloc();
    for (more, status, text) in [
        ("", Status::Done, ""),
        (" AT EPOCH 0 SELECT a FROM t;", Status::Done, "(0 rows)\n"),
        (
            " AT EPOCH 2 SELECT a FROM t;",
            Status::Refused,
            "ERROR 14 EpochInFuture 2 1\n",
        ),
        (
            "INSERT INTO t VALUES (-3)\n;select a from t",
            Status::Done,
            "INSERT 1\n-3\n1\n2\n(3 rows)\n",
        ),
        (
            "SELECT b FROM t; COMMIT",
            Status::Refused,
            "ERROR 4 UnknownColumn b\nCOMMIT\n",
        ),
    ] {
        let script = format!(in alloc; "{ROW}{more}")?;
        let want = format!(in alloc; "{ROW_TEXT}{text}")?;
        let (got, out) = ran(alloc, script.as_bytes(), &NONE)?;
        assert!(rt; out.bytes() == want.as_bytes(), "{more}");
        assert_eq!(rt; got, status);
    }
    Ok(())
}

// An empty script, a `;` in a comment and in a text, an unfinished text, a NUL byte, and bytes that are not UTF-8.
#[test]
fn odd_scripts(rt: HostRuntime) -> Result<(), Fail> {
    let alloc = rt.alloc();
    for (script, status, text) in [
        (b"".as_slice(), Status::Done, ""),
        (b" ;-- COMMIT;\n;", Status::Done, ""),
        (
            b"COMMIT -- one; two\n; COMMIT",
            Status::Done,
            "COMMIT\nCOMMIT\n",
        ),
        (
            b"'a;b'; COMMIT",
            Status::Refused,
            "ERROR 1 Syntax 1\nCOMMIT\n",
        ),
        (
            b"COMMIT; SELECT 'a;",
            Status::Refused,
            "COMMIT\nERROR 1 Syntax 2\n",
        ),
        (
            b"COMMIT\0; COMMIT",
            Status::Refused,
            "ERROR 1 Syntax 2\nCOMMIT\n",
        ),
        (
            b"\xff; COMMIT; '\xc3'",
            Status::Refused,
            "ERROR 1 Syntax 1\nCOMMIT\nERROR 1 Syntax 1\n",
        ),
    ] {
        let (got, out) = ran(alloc, script, &NONE)?;
        assert!(rt; out.bytes() == text.as_bytes(), "{text}");
        assert_eq!(rt; got, status);
    }
    Ok(())
}

#[test]
fn the_most_statements(rt: HostRuntime) -> Result<(), Fail> {
    let alloc = rt.alloc();
    let mut script = Vec::new(alloc);
    for _ in 0..4096 {
        script.extend_from_slice(b"COMMIT;")?;
    }
    let (status, out) = ran(alloc, script.as_slice(), &NONE)?;
    assert_eq!(rt; status, Status::Done);
    assert_eq!(rt; out.bytes().len(), 28_672);
    script.extend_from_slice(b"COMMIT")?;
    let (status, out) = ran(alloc, script.as_slice(), &NONE)?;
    assert_eq!(rt; status, Status::TooLarge);
    assert_eq!(rt; out.bytes().len(), 0);
    Ok(())
}
