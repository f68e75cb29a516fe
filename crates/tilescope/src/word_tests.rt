//! The words of a command line, and the commands that list.
use crate::run::run_plain;
use crate::search_tests::CATALAN;
use crate::tests::{UNIT, words};
use outside::{SteadySink, SteadySource};
use std::alloc::Global;
use std::process::Abort;
use std::test::Fail;

/// What a command line writes, and its status.
fn written(alloc: Global, line: &str) -> Result<(u8, Vec<u8>), Fail> {
    let words = words(alloc, line)?;
    let mut source = SteadySource::new(Vec::new(alloc));
    let mut sink = SteadySink::new(alloc);
    let ended = run_plain(alloc, words.as_slice(), &mut source, &mut sink);
    let held = sink.held().ok_or("lost")?;
    Ok((ended.status, Vec::from_slice(alloc, held)?))
}

/// Runs a command line, and compares its status and what it writes.
fn expect(rt: &impl Abort, alloc: Global, line: &str, status: u8, text: &str) -> Result<(), Fail> {
    let (ended, bytes) = written(alloc, line)?;
    assert_eq!(rt; ended, status, "at {line}");
    assert_eq!(rt; bytes.as_slice(), text.as_bytes(), "at {line}");
    Ok(())
}

#[test]
fn words_are_refused(rt: HostRuntime) -> Result<(), Fail> {
    let alloc = rt.alloc();
    let rows = [
        ("search 112", "usage basis repeated 1\n"),
        ("search 1234567890", "usage basis long 9\n"),
        ("search 13,,2", "usage basis empty\n"),
        ("search 1x2", "usage basis byte 1\n"),
        ("search 12 --workers 2", "usage option workers\n"),
        ("search 12 --budget 0", "usage option budget\n"),
        ("search 12 --terms 201", "usage option terms\n"),
        ("search 12 --pack rr", "usage option pack\n"),
        ("sample 1000001", "usage option number\n"),
        ("find 12", "usage words\n"),
        ("search", "usage words\n"),
        ("search 12 --terms 1 --terms 1", "usage words\n"),
        ("search 11 --workers 2", "usage basis repeated 1\n"),
        (
            "search 12 --workers 65 --budget 0",
            "usage option workers\n",
        ),
        ("search 12 --pack rr --budget 0", "usage option budget\n"),
    ];
    for (line, text) in rows {
        expect(&rt, alloc, line, 2, text)?;
    }
    Ok(())
}

#[test]
fn budgets_and_defaults(rt: HostRuntime) -> Result<(), Fail> {
    let alloc = rt.alloc();
    let rows = [
        ("search 132 --pack f", 1, "none exhausted 1 1 0\n"),
        ("search 132 --pack rsf --budget 1", 1, "none budget 1 4 2\n"),
        ("search 12 --pack rf --budget 4", 1, "none budget 4 5 5\n"),
        ("search 132 --pack i", 1, "none exhausted 3 3 2\n"),
        (
            "search 132 --pack rsf --budget 7 --terms 6",
            1,
            "none budget 7 11 9\n",
        ),
        ("search 132 --pack rsf --budget 8 --terms 6", 0, CATALAN),
        ("search 132 --terms 6 --pack rsf --workers 1", 0, CATALAN),
        ("search 1 --terms 3", 0, UNIT),
    ];
    for (line, status, text) in rows {
        expect(&rt, alloc, line, status, text)?;
    }
    let (status, bytes) = written(alloc, "search 12 --pack rf --budget 5")?;
    assert_eq!(rt; status, 0);
    assert!(rt;
        bytes
            .as_slice()
            .ends_with(b"terms 1 1 1 1 1 1 1 1 1 1 1\nend\n")
    );
    let (status, bytes) = written(alloc, "search 132")?;
    assert_eq!(rt; status, 0);
    assert!(rt;
        bytes
            .as_slice()
            .ends_with(b"terms 1 1 2 5 14 42 132 429 1430 4862 16796\nend\n")
    );
    Ok(())
}

#[test]
fn avoiders_are_counted(rt: HostRuntime) -> Result<(), Fail> {
    let alloc = rt.alloc();
    let rows = [
        ("count 132 --terms 5", 0, "count 1 1 2 5 14 42\n"),
        ("count 1 --terms 2", 0, "count 1 0 0\n"),
        ("count 132", 0, "count 1 1 2 5 14 42 132\n"),
        ("count 12 --terms 0", 0, "count 1\n"),
        ("count 12 --terms 10", 2, "usage option terms\n"),
    ];
    for (line, status, text) in rows {
        expect(&rt, alloc, line, status, text)?;
    }
    Ok(())
}

/// Whether a line of a sample is of a basis, and where it says found, has these terms.
fn is_line(line: &str, basis: &str, terms: &str) -> bool {
    match line.strip_prefix(basis) {
        Some(rest) => !rest.starts_with(" found") || rest.ends_with(terms),
        None => false,
    }
}

#[test]
fn a_sample_has_forty_lines_and_one(rt: HostRuntime) -> Result<(), Fail> {
    let alloc = rt.alloc();
    let (status, bytes) = written(alloc, "sample 0")?;
    assert_eq!(rt; status, 0);
    let text = str::from_utf8(bytes.as_slice())?;
    let mut lines = Vec::new(alloc);
    let mut found = Vec::new(alloc);
    for line in text.lines() {
        if line.contains(" found ") {
            found.push(line)?;
        }
        lines.push(line)?;
    }
    assert_eq!(rt; lines.len(), 41);
    assert!(rt; is_line(lines[0], "012 ", " 1 1 2 5 14 42 132"));
    assert!(rt; is_line(lines[1], "021,210 ", " 1 1 2 4 7 11 16"));
    assert!(rt; is_line(lines[2], "210 ", " 1 1 2 5 14 42 132"));
    let successes = found.len();
    let total = format!(in alloc; "total {successes} 40")?;
    assert_eq!(rt; lines[40], total.as_str());
    Ok(())
}
