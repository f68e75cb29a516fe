// Whole texts, their proper prefixes, and single lines that are changed.
use crate::{TextFault, read_text};
use std::alloc::Global;
use std::test::Fail;

/// The permutations that contain no point.
const POINTLESS: &[u8] =
    b"tilescope 1\nbasis 0\nroot C0 R0\nentries 1\nentry 0 rank 1\ngrid 0 0\nobs -\nreq -\nrule unit\nterms 1 0 0 0\nend\n";

/// Those that contain neither 01 nor 10.
const SHORT: &[u8] =
    b"tilescope 1\nbasis 01,10\nroot -\nentries 3\nentry 0 rank 2\ngrid 1 1\nobs 01:00.00 10:00.00\nreq -\nrule insert 0:00\nto 1 M C0 R0\nto 2 -\nentry 1 rank 1\ngrid 0 0\nobs -\nreq -\nrule unit\nentry 2 rank 1\ngrid 1 1\nobs 01:00.00 10:00.00\nreq 0:00\nrule point\nterms 1 1 0 0\nend\n";

/// Those that avoid 021.
const CATALAN: &[u8] =
    b"tilescope 1\nbasis 021\nroot -\nentries 6\nentry 0 rank 3\ngrid 1 1\nobs 021:00.00.00\nreq -\nrule place N 0:00^0\nto 1 M C0 R0\nto 2 M K11 M R2\nentry 1 rank 1\ngrid 0 0\nobs -\nreq -\nrule unit\nentry 2 rank 2\ngrid 3 2\nobs 0:01 0:10 0:21 01:00.20 01:11.11 10:11.11 021:00.00.00 021:20.20.20\nreq 0:11\nrule factor 00.20 11\nto 3 C1 R1\nto 4 C0 C1 R0\nentry 3 rank 5\ngrid 2 1\nobs 01:00.10 021:00.00.00 021:10.10.10\nreq -\nrule rowcut 0 10\nto 5 M\nentry 4 rank 1\ngrid 1 1\nobs 01:00.00 10:00.00\nreq 0:00\nrule point\nentry 5 rank 4\ngrid 2 2\nobs 0:00 0:11 021:01.01.01 021:10.10.10\nreq -\nrule factor 01 10\nto 0 C1 R0\nto 0 C0 R1\nterms 1 1 2 5 14 42 132\nend\n";

/// What is wrong with a text of fewer than 4,096 bytes.
fn fault_of(alloc: Global, text: &[u8]) -> Result<Option<TextFault>, Fail> {
    if text.len() > 4096 {
        return Err(Fail::from("long"));
    }
    Ok(read_text(alloc, text).err())
}

#[test]
fn whole_texts_are_read(rt: HostRuntime) -> Result<(), Fail> {
    let alloc = rt.alloc();
    for text in [POINTLESS, SHORT, CATALAN] {
        assert_eq!(rt; fault_of(alloc, text)?, None);
    }
    Ok(())
}

/// The number of line feeds, and one more.
fn line_behind(front: &[u8]) -> u32 {
    let mut line = 1u32;
    for byte in front {
        if *byte == b'\n' {
            line = line.saturating_add(1);
        }
    }
    line
}

#[test]
fn every_prefix_ends_early(rt: HostRuntime) -> Result<(), Fail> {
    let alloc = rt.alloc();
    for text in [POINTLESS, SHORT, CATALAN] {
        for place in 0..text.len() {
            let front = &text[..place];
            let line = line_behind(front);
            let fault = fault_of(alloc, front)?;
            assert_eq!(rt; fault, Some(TextFault::Grammar { line }), "at {place}");
        }
    }
    Ok(())
}

/// The text with another line in place of the one of this number, from 1; without it, where there is none.
fn with_line(alloc: Global, text: &[u8], number: u32, other: &[u8]) -> Result<Vec<u8>, Fail> {
    let mut changed = Vec::new(alloc);
    let mut at = 1u32;
    for line in text.split(|byte| *byte == b'\n') {
        if at == number {
            changed.extend_from_slice(other)?;
        } else {
            changed.extend_from_slice(line)?;
        }
        changed.push(b'\n')?;
        at = at.saturating_add(1);
    }
    changed.truncate(changed.len().saturating_sub(1));
    Ok(changed)
}

const fn grammar(line: u32) -> Option<TextFault> {
    Some(TextFault::Grammar { line })
}

const fn limit(line: u32) -> Option<TextFault> {
    Some(TextFault::Limit { line })
}

#[test]
fn a_changed_line_is_found(rt: HostRuntime) -> Result<(), Fail> {
    let alloc = rt.alloc();
    let table: [(&[u8], u32, &[u8], Option<TextFault>); 34] = [
        (CATALAN, 1, b"tilescope 2", grammar(1)),
        (CATALAN, 3, b"root M", None),
        (CATALAN, 4, b"entries 06", grammar(4)),
        (CATALAN, 29, b"to 9 M", limit(29)),
        (CATALAN, 29, b"to 5 -", None),
        (CATALAN, 42, b"terms 01", grammar(42)),
        (CATALAN, 43, b"end\nend", grammar(44)),
        (POINTLESS, 1, b"tilescope 1\r", grammar(1)),
        (POINTLESS, 1, b"tilescope 1\xff", grammar(1)),
        (SHORT, 2, b"basis 01,0", grammar(2)),
        (POINTLESS, 3, b"root C0  R0", grammar(3)),
        (POINTLESS, 3, b"root C0 R0 C0", None),
        (POINTLESS, 4, b"entries 0", grammar(5)),
        (POINTLESS, 4, b"entries 0\nterms 1\nend\n", grammar(7)),
        (POINTLESS, 4, b"entries 100001", grammar(10)),
        (
            POINTLESS,
            4,
            b"entries 999999999999999999999999999999999999999",
            grammar(10),
        ),
        (POINTLESS, 5, b"entry 1 rank 1", grammar(5)),
        (POINTLESS, 5, b"entry 1 rank 4294967296", grammar(5)),
        (POINTLESS, 5, b"entry 0 rank 4294967295", None),
        (POINTLESS, 5, b"entry 0 rank 4294967296", limit(5)),
        (
            POINTLESS,
            5,
            b"entry 0 rank 1111111111111111111111111111111111111111",
            grammar(5),
        ),
        (POINTLESS, 6, b"grid 9 0", limit(6)),
        (POINTLESS, 6, b"grid 1 0", None),
        (POINTLESS, 7, b"obs 0:00", limit(7)),
        (POINTLESS, 9, b"rule insert 0:00", grammar(10)),
        (POINTLESS, 9, b"rule place N\nto 0 -", limit(9)),
        (POINTLESS, 9, b"rule place N", grammar(10)),
        (POINTLESS, 9, b"rule factor", grammar(9)),
        (POINTLESS, 9, b"rule rowcut 8 00\nto 0 -", limit(9)),
        (
            POINTLESS,
            10,
            b"terms 340282366920938463463374607431768211455",
            None,
        ),
        (
            POINTLESS,
            10,
            b"terms 340282366920938463463374607431768211456",
            limit(10),
        ),
        (POINTLESS, 10, b"terms 1 big", None),
        (POINTLESS, 10, b"terms 1 big 0", grammar(10)),
        (POINTLESS, 10, b"terms", grammar(10)),
    ];
    for (text, number, other, fault) in table {
        let changed = with_line(alloc, text, number, other)?;
        assert_eq!(rt; fault_of(alloc, changed.as_slice())?, fault, "at {number}");
    }
    Ok(())
}

#[test]
fn limits_come_after_the_grammar(rt: HostRuntime) -> Result<(), Fail> {
    let alloc = rt.alloc();
    let none = b"tilescope 1\nbasis 0\nroot -\nentries 0\nterms 1\nend\n".as_slice();
    assert_eq!(rt; fault_of(alloc, none)?, limit(4));
    let broken = b"tilescope 1\nbasis 0\nroot -\nentries 0\nterms 1\nstop\n".as_slice();
    assert_eq!(rt; fault_of(alloc, broken)?, grammar(6));
    Ok(())
}
