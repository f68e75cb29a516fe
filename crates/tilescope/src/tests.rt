use crate::run::run_plain;
use outside::{MemSink, SteadySink, SteadySource};
use std::alloc::{AllocError, Global};
use std::process::Abort;
use std::test::Fail;

pub(crate) const INSERTION: &str = "tilescope 1
basis 01,10
root -
entries 3
entry 0 rank 2
grid 1 1
obs 01:00.00 10:00.00
req -
rule insert 0:00
to 1 M C0 R0
to 2 -
entry 1 rank 1
grid 0 0
obs -
req -
rule unit
entry 2 rank 1
grid 1 1
obs 01:00.00 10:00.00
req 0:00
rule point
terms 1 1 0 0
end
";

pub(crate) const UNIT: &str = "tilescope 1
basis 0
root C0 R0
entries 1
entry 0 rank 1
grid 0 0
obs -
req -
rule unit
terms 1 0 0 0
end
";

/// The words of a command line.
pub(crate) fn words(alloc: Global, line: &str) -> Result<Vec<String>, AllocError> {
    let mut words = Vec::new(alloc);
    for word in line.split(' ') {
        words.push(String::from_str(alloc, word)?)?;
    }
    Ok(words)
}

/// Runs a command line, and compares its status and what it writes.
fn expect(rt: &impl Abort, alloc: Global, line: &str, status: u8, text: &str) -> Result<(), Fail> {
    let words = words(alloc, line)?;
    let mut source = SteadySource::new(Vec::new(alloc));
    let mut sink = SteadySink::new(alloc);
    let ended = run_plain(alloc, words.as_slice(), &mut source, &mut sink);
    assert_eq!(rt; ended.status, status, "at {line}");
    assert_eq!(rt; ended.ledger.is_some(), status < 2, "at {line}");
    assert_eq!(rt; sink.held().ok_or("lost")?, text.as_bytes(), "at {line}");
    Ok(())
}

#[test]
fn first_rows(rt: HostRuntime) -> Result<(), Fail> {
    let alloc = rt.alloc();
    let rows = [
        ("search 12,21 --pack i --terms 3", 0, INSERTION),
        ("search 12,21 --pack in --terms 3", 0, INSERTION),
        ("search 1 --pack i --terms 3", 0, UNIT),
        (
            "search 132 --pack i --terms 10",
            1,
            "none exhausted 3 3 2\n",
        ),
        (
            "search 132 --pack in --terms 10",
            1,
            "none exhausted 3 3 2\n",
        ),
        (
            "search 132 --pack f --terms 10",
            1,
            "none exhausted 1 1 0\n",
        ),
        ("search 132 --pack q --terms 10", 2, "usage option pack\n"),
        ("search 132 --pack ii --terms 10", 2, "usage option pack\n"),
        ("search 12 --pack i --terms 201", 2, "usage option terms\n"),
        (
            "search 112 --pack i --terms 3",
            2,
            "usage basis repeated 1\n",
        ),
    ];
    for (line, status, text) in rows {
        expect(&rt, alloc, line, status, text)?;
    }
    Ok(())
}

#[test]
fn further_rows(rt: HostRuntime) -> Result<(), Fail> {
    let alloc = rt.alloc();
    let rows = [
        ("search 21_12,12 --pack i --terms 3", 0, INSERTION),
        (
            "search 3,12 --pack i --terms 3",
            0,
            "tilescope 1
basis 0,01
root M C0 R0
entries 1
entry 0 rank 1
grid 0 0
obs -
req -
rule unit
terms 1 0 0 0
end
",
        ),
        (
            "search 12,21 --pack i --terms 03",
            2,
            "usage option terms\n",
        ),
        (
            "search 12,21 --pack i --terms +3",
            2,
            "usage option terms\n",
        ),
        ("search 12,21 --terms 3 --pack i", 0, INSERTION),
        ("find 12 --pack i --terms 3", 2, "usage words\n"),
    ];
    for (line, status, text) in rows {
        expect(&rt, alloc, line, status, text)?;
    }
    Ok(())
}

#[test]
fn a_write_fails(rt: HostRuntime) -> Result<(), Fail> {
    let alloc = rt.alloc();
    let words = words(alloc, "search 1 --pack i --terms 3")?;
    let mut fail = Vec::new(alloc);
    fail.push(1)?;
    let mut source = SteadySource::new(Vec::new(alloc));
    let mut sink = MemSink::new(alloc, 1000, 64, fail)?;
    let ended = run_plain(alloc, words.as_slice(), &mut source, &mut sink);
    assert_eq!(rt; ended.status, 5);
    assert!(rt; ended.ledger.is_some());
    assert_eq!(rt; sink.held(), &UNIT.as_bytes()[..64]);
    Ok(())
}

#[test]
fn a_usage_line_is_not_written(rt: HostRuntime) -> Result<(), Fail> {
    let alloc = rt.alloc();
    let words = words(alloc, "search 1 --pack rr --terms 3")?;
    let mut fail = Vec::new(alloc);
    fail.push(0)?;
    let mut source = SteadySource::new(Vec::new(alloc));
    let mut sink = MemSink::new(alloc, 1000, 64, fail)?;
    let ended = run_plain(alloc, words.as_slice(), &mut source, &mut sink);
    assert_eq!(rt; ended.status, 5);
    assert!(rt; ended.ledger.is_none());
    Ok(())
}
