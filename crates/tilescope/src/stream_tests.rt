// Texts that are checked as they come from a source.
use crate::run::run_plain;
use crate::search_tests::{CATALAN, CATALAN_TO_200};
use crate::stream::{StreamFault, check_source};
use crate::tests::{INSERTION, UNIT, words};
use outside::{MemSource, SteadySink, SteadySource};
use perm_core::read_basis;
use spec_checker::{CheckFault, Checked};
use spec_text::put_terms;
use std::alloc::{AllocError, Global};
use std::process::Abort;
use std::test::Fail;

/// A source in memory of this text, which gives so many bytes a call, and fails at one call at most.
fn source_of(
    alloc: Global,
    text: &str,
    most: usize,
    fail: Option<u64>,
) -> Result<MemSource, AllocError> {
    let mut calls = Vec::new(alloc);
    if let Some(call) = fail {
        calls.push(call)?;
    }
    let text = Vec::from_slice(alloc, text.as_bytes())?;
    Ok(MemSource::new(text, most.max(1), calls))
}

/// What is answered for a source and the permutation of one point, with a limit of at most 4,096 bytes.
fn answer(alloc: Global, source: &mut MemSource, limit: u64) -> Result<Checked, StreamFault> {
    let Ok(basis) = read_basis(alloc, "1") else {
        return Err(StreamFault::Memory);
    };
    check_source(alloc, basis.as_slice(), source, limit.min(4096))
}

/// A source of the text of the unit tiling, that gives `most` bytes a call and fails at one of them, and what
/// comes of it with a limit.
#[derive(Drop)]
struct Reading {
    most: usize,
    fail: Option<u64>,
    limit: u64,
    fault: Option<StreamFault>,
    left: usize,
    calls: u64,
}

const fn reads_as(
    (most, fail, limit): (usize, Option<u64>, u64),
    fault: Option<StreamFault>,
    left: usize,
    calls: u64,
) -> Reading {
    Reading {
        most,
        fail,
        limit,
        fault,
        left,
        calls,
    }
}

/// That what comes of a source is what is expected.
fn expect(rt: &impl Abort, alloc: Global, reading: Reading) -> Result<(), Fail> {
    let Reading {
        most,
        fail,
        limit,
        fault,
        left,
        calls,
    } = reading;
    let mut source = source_of(alloc, UNIT, most, fail)?;
    match answer(alloc, &mut source, limit) {
        Ok(found) => {
            assert_eq!(rt; fault, None, "{most} a call, limit {limit}");
            assert_eq!(rt; found.entries, 1);
            let mut line = Vec::new(alloc);
            put_terms(&mut line, found.terms.as_slice())?;
            assert_eq!(rt; line.as_slice(), b"terms 1 0 0 0\n".as_slice());
        }
        Err(why) => assert_eq!(rt; Some(why), fault, "{most} a call, limit {limit}"),
    }
    assert_eq!(rt; source.left().len(), left, "{most} a call, limit {limit}");
    assert_eq!(rt; source.calls(), calls, "{most} a call, limit {limit}");
    Ok(())
}

const PASSED: Option<StreamFault> = Some(StreamFault::TooLong { limit: 104 });

const FAILED: Option<StreamFault> = Some(StreamFault::Read);

#[test]
fn a_limit_of_104_is_passed_and_one_of_105_is_not(rt: HostRuntime) -> Result<(), Fail> {
    let alloc = rt.alloc();
    assert_eq!(rt; UNIT.len(), 105);
    let table = [
        reads_as((4096, None, 104), PASSED, 0, 1),
        reads_as((4096, None, 105), None, 0, 2),
        reads_as((4096, None, 106), None, 0, 2),
        reads_as((16, None, 104), PASSED, 0, 7),
        reads_as((16, None, 105), None, 0, 8),
        reads_as((1, None, 104), PASSED, 0, 105),
        reads_as((1, None, 105), None, 0, 106),
        reads_as(
            (4096, None, 0),
            Some(StreamFault::TooLong { limit: 0 }),
            104,
            1,
        ),
        reads_as(
            (16, None, 20),
            Some(StreamFault::TooLong { limit: 20 }),
            84,
            2,
        ),
    ];
    for reading in table {
        expect(&rt, alloc, reading)?;
    }
    Ok(())
}

#[test]
fn a_call_of_the_source_fails(rt: HostRuntime) -> Result<(), Fail> {
    let alloc = rt.alloc();
    let table = [
        reads_as((16, Some(0), 105), FAILED, 105, 1),
        reads_as((16, Some(3), 105), FAILED, 57, 4),
        reads_as((16, Some(7), 105), FAILED, 0, 8),
        reads_as((16, Some(8), 105), None, 0, 8),
        reads_as((1, Some(104), 105), FAILED, 1, 105),
        reads_as((1, Some(105), 105), FAILED, 0, 106),
        reads_as((1, Some(106), 105), None, 0, 106),
        reads_as((1, Some(104), 104), FAILED, 1, 105),
        reads_as((1, Some(105), 104), PASSED, 0, 105),
    ];
    for reading in table {
        expect(&rt, alloc, reading)?;
    }
    Ok(())
}

/// Why a text is refused that gives so many bytes a call.
fn fault_of(alloc: Global, text: &str, most: usize) -> Result<Option<StreamFault>, AllocError> {
    let mut source = source_of(alloc, text, most, None)?;
    Ok(answer(alloc, &mut source, 4096).err())
}

#[test]
fn refused_texts_are_read_to_their_end(rt: HostRuntime) -> Result<(), Fail> {
    let alloc = rt.alloc();
    let table = [
        ("", CheckFault::Grammar { line: 1 }),
        ("tilescope 1\nbasis 0", CheckFault::Grammar { line: 2 }),
        (
            "tilescope 1\nbasis 0\nroot C0  R0\nentries 1\n",
            CheckFault::Grammar { line: 3 },
        ),
        (
            "tilescope 1\nbasis 0\nroot -\nentries 0\nterms 1\nend\n",
            CheckFault::Limit { line: 4 },
        ),
        (
            "tilescope 1\nbasis 0\nroot -\nentries 0\nterms 1\nend\n\n",
            CheckFault::Grammar { line: 7 },
        ),
        (INSERTION, CheckFault::OtherBasis),
    ];
    for (text, fault) in table {
        for most in [1, 7, 4096] {
            assert_eq!(rt;
                fault_of(alloc, text, most)?,
                Some(StreamFault::Check(fault))
            );
        }
    }
    Ok(())
}

/// Runs a command line over a text that gives one byte a call, and compares its status and what it writes.
fn expect_bytewise(
    rt: &impl Abort,
    alloc: Global,
    line: &str,
    text: &str,
    status: u8,
    written: &str,
) -> Result<(), Fail> {
    let words = words(alloc, line)?;
    let mut source = source_of(alloc, text, 1, None)?;
    let mut sink = SteadySink::new(alloc);
    let ended = run_plain(alloc, words.as_slice(), &mut source, &mut sink);
    assert_eq!(rt; ended.status, status, "at {line}");
    assert_eq!(rt; source.calls(), text.len() as u64 + 1, "at {line}");
    assert_eq!(rt; sink.held().ok_or("lost")?, written.as_bytes(), "at {line}");
    Ok(())
}

#[test]
fn commands_over_a_source_of_single_bytes(rt: HostRuntime) -> Result<(), Fail> {
    let alloc = rt.alloc();
    let rows = [
        ("check 1", UNIT, 0, "accepted 1 4\n"),
        ("terms 1", UNIT, 0, "terms 1 0 0 0\n"),
        ("check 12,21", INSERTION, 0, "accepted 3 4\n"),
        ("terms 21_12", INSERTION, 0, "terms 1 1 0 0\n"),
        ("check 132", CATALAN, 0, "accepted 6 7\n"),
        ("terms 132", CATALAN, 0, "terms 1 1 2 5 14 42 132\n"),
        ("check 12", UNIT, 3, "rejected basis\n"),
        ("check 1", "tilescope 1\n", 3, "rejected grammar 2\n"),
    ];
    for (line, text, status, written) in rows {
        expect_bytewise(&rt, alloc, line, text, status, written)?;
    }
    Ok(())
}

/// The text of the avoiders of 021 with all its exact terms and these behind them.
fn with_terms(alloc: Global, last: &str) -> Result<Vec<u8>, Fail> {
    let (front, _) = CATALAN.split_once("terms ").ok_or("no terms")?;
    let mut out = Vec::from_slice(alloc, front.as_bytes())?;
    let (exact, _) = CATALAN_TO_200.split_once(" big").ok_or("no last term")?;
    out.extend_from_slice(exact.as_bytes())?;
    out.extend_from_slice(last.as_bytes())?;
    out.extend_from_slice(b"\nend\n")?;
    Ok(out)
}

#[test]
fn terms_that_end_with_a_big_one(rt: HostRuntime) -> Result<(), Fail> {
    let alloc = rt.alloc();
    let words = words(alloc, "check 132")?;
    let rows = [
        ("", 0, "accepted 6 70\n"),
        (" big", 0, "accepted 6 71\n"),
        (
            " 340282366920938463463374607431768211455",
            3,
            "rejected terms 70\n",
        ),
        (" 0", 3, "rejected terms 70\n"),
        (" 0 big", 3, "rejected terms 70\n"),
        (" big 0", 3, "rejected grammar 42\n"),
    ];
    for (last, status, written) in rows {
        let mut source = SteadySource::new(with_terms(alloc, last)?);
        let mut sink = SteadySink::new(alloc);
        let ended = run_plain(alloc, words.as_slice(), &mut source, &mut sink);
        assert_eq!(rt; ended.status, status, "at{last}");
        assert_eq!(rt; sink.held().ok_or("lost")?, written.as_bytes(), "at{last}");
    }
    Ok(())
}
