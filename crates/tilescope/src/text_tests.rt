use crate::run::run_plain;
use crate::search_tests::CATALAN;
use crate::tests::{INSERTION, UNIT, words};
use outside::{MemSink, MemSource, SteadySink, SteadySource};
use std::alloc::{AllocError, Global};
use std::process::Abort;
use std::test::Fail;

/// A text with one piece changed; the text itself where the piece is not there.
fn changed(alloc: Global, text: &str, old: &str, new: &str) -> Result<Vec<u8>, AllocError> {
    let mut out = Vec::new(alloc);
    match text.split_once(old) {
        Some((front, rest)) => {
            out.extend_from_slice(front.as_bytes())?;
            out.extend_from_slice(new.as_bytes())?;
            out.extend_from_slice(rest.as_bytes())?;
        }
        None => out.extend_from_slice(text.as_bytes())?,
    }
    Ok(out)
}

/// Runs a command line over a text, and compares its status and what it writes.
fn expect(
    rt: &impl Abort,
    alloc: Global,
    line: &str,
    text: Vec<u8>,
    status: u8,
    written: &str,
) -> Result<(), Fail> {
    let words = words(alloc, line)?;
    let mut source = SteadySource::new(text);
    let mut sink = SteadySink::new(alloc);
    let ended = run_plain(alloc, words.as_slice(), &mut source, &mut sink);
    assert_eq!(rt; ended.status, status, "at {written}");
    assert!(rt; ended.ledger.is_none(), "at {written}");
    assert_eq!(rt; sink.held().ok_or("lost")?, written.as_bytes(), "at {line}");
    Ok(())
}

#[test]
fn texts_are_accepted(rt: HostRuntime) -> Result<(), Fail> {
    let alloc = rt.alloc();
    let rows = [
        ("check 1", UNIT, "accepted 1 4\n"),
        ("terms 1", UNIT, "terms 1 0 0 0\n"),
        ("check 12,21", INSERTION, "accepted 3 4\n"),
        ("terms 21_12", INSERTION, "terms 1 1 0 0\n"),
        ("check 132", CATALAN, "accepted 6 7\n"),
        ("terms 132", CATALAN, "terms 1 1 2 5 14 42 132\n"),
    ];
    for (line, text, written) in rows {
        let text = Vec::from_slice(alloc, text.as_bytes())?;
        expect(&rt, alloc, line, text, 0, written)?;
    }
    Ok(())
}

#[test]
fn texts_are_refused(rt: HostRuntime) -> Result<(), Fail> {
    let alloc = rt.alloc();
    let rows = [
        ("check 1", UNIT, "C0 R0", "C0  R0", "rejected grammar 3\n"),
        (
            "check 1",
            UNIT,
            "grid 0 0",
            "grid 9 0",
            "rejected limit 6\n",
        ),
        ("check 12", UNIT, "", "", "rejected basis\n"),
        ("check 123", CATALAN, "", "", "rejected basis\n"),
        ("check 1", UNIT, "grid 0 0", "grid 1 0", "rejected root\n"),
        (
            "check 1",
            UNIT,
            "rule unit",
            "rule void",
            "rejected rule 0\n",
        ),
        (
            "check 1",
            UNIT,
            "terms 1 0",
            "terms 1 big",
            "rejected grammar 10\n",
        ),
        (
            "check 1",
            UNIT,
            "terms 1 0 0 0",
            "terms 1 big",
            "rejected terms 1\n",
        ),
        (
            "check 12,21",
            INSERTION,
            "0 rank 2",
            "0 rank 1",
            "rejected rank 0 1\n",
        ),
        (
            "terms 12,21",
            INSERTION,
            "to 1 M",
            "to 2 M",
            "rejected rule 0\n",
        ),
    ];
    for (line, text, old, new, written) in rows {
        let text = changed(alloc, text, old, new)?;
        expect(&rt, alloc, line, text, 3, written)?;
    }
    Ok(())
}

/// What is said of a text that breaks off in one of its first eleven lines.
const BROKEN_OFF: [&str; 11] = [
    "rejected grammar 1\n",
    "rejected grammar 2\n",
    "rejected grammar 3\n",
    "rejected grammar 4\n",
    "rejected grammar 5\n",
    "rejected grammar 6\n",
    "rejected grammar 7\n",
    "rejected grammar 8\n",
    "rejected grammar 9\n",
    "rejected grammar 10\n",
    "rejected grammar 11\n",
];

#[test]
fn each_front_of_a_text_is_refused(rt: HostRuntime) -> Result<(), Fail> {
    let alloc = rt.alloc();
    let mut front = Vec::new(alloc);
    let mut lines = 0;
    for byte in UNIT.as_bytes() {
        let said = BROKEN_OFF.get(lines).ok_or("more lines")?;
        expect(
            &rt,
            alloc,
            "check 1",
            Vec::from_slice(alloc, &front)?,
            3,
            *said,
        )?;
        front.push(*byte)?;
        if *byte == b'\n' {
            lines += 1;
        }
    }
    Ok(())
}

#[test]
fn changed_lines_are_refused(rt: HostRuntime) -> Result<(), Fail> {
    let alloc = rt.alloc();
    let rows = [
        ("entry 5 rank 4", "entry 5 rank 3", "rejected rank 5 0\n"),
        ("tilescope 1", "tilescope 2", "rejected grammar 1\n"),
        ("root -", "root M", "rejected root\n"),
        ("entries 6", "entries 06", "rejected grammar 4\n"),
        ("to 5 M", "to 9 M", "rejected limit 29\n"),
        ("to 5 M", "to 5 -", "rejected rule 3\n"),
        ("42 132", "42 131", "rejected terms 6\n"),
        ("terms 1", "terms 01", "rejected grammar 42\n"),
        ("end\n", "end\nend\n", "rejected grammar 44\n"),
        ("basis 021", "basis 012", "rejected basis\n"),
    ];
    for (old, new, written) in rows {
        let text = changed(alloc, CATALAN, old, new)?;
        expect(&rt, alloc, "check 132", text, 3, written)?;
    }
    Ok(())
}

#[test]
fn other_words_are_refused(rt: HostRuntime) -> Result<(), Fail> {
    let alloc = rt.alloc();
    let rows = [
        ("check", "usage words\n"),
        ("check 11", "usage basis repeated 1\n"),
        ("terms 1 2", "usage words\n"),
        ("check 12 --terms 3", "usage words\n"),
    ];
    for (line, written) in rows {
        expect(&rt, alloc, line, Vec::new(alloc), 2, written)?;
    }
    Ok(())
}

/// Checks the text of the unit tiling out of a source that fails at one call, and compares its status and what is
/// written.
fn expect_read(
    rt: &impl Abort,
    alloc: Global,
    call: u64,
    status: u8,
    written: &str,
) -> Result<(), Fail> {
    let words = words(alloc, "check 1")?;
    let mut fail = Vec::new(alloc);
    fail.push(call)?;
    let mut source = MemSource::new(Vec::from_slice(alloc, UNIT.as_bytes())?, 16, fail);
    let mut sink = SteadySink::new(alloc);
    let ended = run_plain(alloc, words.as_slice(), &mut source, &mut sink);
    assert_eq!(rt; ended.status, status, "at {call}");
    assert_eq!(rt; sink.held().ok_or("lost")?, written.as_bytes(), "at {call}");
    Ok(())
}

#[test]
fn a_read_fails(rt: HostRuntime) -> Result<(), Fail> {
    let alloc = rt.alloc();
    expect_read(&rt, alloc, 0, 4, "")?;
    expect_read(&rt, alloc, 2, 4, "")?;
    expect_read(&rt, alloc, 7, 4, "")?;
    expect_read(&rt, alloc, 8, 0, "accepted 1 4\n")
}

#[test]
fn a_verdict_is_not_written_whole(rt: HostRuntime) -> Result<(), Fail> {
    let alloc = rt.alloc();
    let words = words(alloc, "check 1")?;
    let mut fail = Vec::new(alloc);
    fail.push(2)?;
    let mut source = SteadySource::new(Vec::from_slice(alloc, UNIT.as_bytes())?);
    let mut sink = MemSink::new(alloc, 100, 4, fail)?;
    let ended = run_plain(alloc, words.as_slice(), &mut source, &mut sink);
    assert_eq!(rt; ended.status, 5);
    assert_eq!(rt; sink.held(), b"accepted".as_slice());
    Ok(())
}
