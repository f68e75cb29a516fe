// Texts that are accepted, and texts spoilt in one place.
use crate::{CheckFault, check, checked};
use perm_core::read_basis;
use std::alloc::{AllocError, Global};
use std::test::Fail;

/// The words of a basis, a text, and why it is refused for the basis, where it is.
const CASES: [(&str, &[u8], Option<CheckFault>); 20] = [
    (
        "1",
        b"tilescope 1\nbasis 0\nroot C0 R0\nentries 1\nentry 0 rank 1\ngrid 0 0\nobs -\nreq -\nrule unit\nterms 1 0 0 0\nend\n",
        None,
    ),
    (
        "12,21",
        b"tilescope 1\nbasis 01,10\nroot -\nentries 3\nentry 0 rank 2\ngrid 1 1\nobs 01:00.00 10:00.00\nreq -\nrule insert 0:00\nto 1 M C0 R0\nto 2 -\nentry 1 rank 1\ngrid 0 0\nobs -\nreq -\nrule unit\nentry 2 rank 1\ngrid 1 1\nobs 01:00.00 10:00.00\nreq 0:00\nrule point\nterms 1 1 0 0\nend\n",
        None,
    ),
    (
        "1",
        b"tilescope 1\nbasis 0,0123456789\nroot C0 R0\nentries 1\nentry 0 rank 1\ngrid 0 0\nobs -\nreq -\nrule unit\nterms 1 0 0 0\nend\n",
        Some(CheckFault::Limit { line: 2 }),
    ),
    (
        "1",
        b"tilescope 1\nbasis 0\nroot C0 R0\nentries 1\nentry 0 rank 1\ngrid 0 0\nobs -\nreq",
        Some(CheckFault::Grammar { line: 8 }),
    ),
    (
        "1",
        b"tilescope 1\nbasis 0\nroot C0 R0\nentries 1\nentry 0 rank 0\ngrid 0 0\nobs -\nreq -\nrule unit\nterms 1 0 0 0\nend\n",
        None,
    ),
    (
        "1",
        b"tilescope 1\nbasis 01234,01243,01324,01342,01423,01432,02134,02143,02314,02341,02413,02431,03124,03142,03214,03241,03412,03421,04123,04132,04213,04231,04312,04321,10234,10243,10324,10342,10423,10432,12034,12043\nroot C0 R0\nentries 1\nentry 0 rank 1\ngrid 0 0\nobs -\nreq -\nrule unit\nterms 1 0 0 0\nend\n",
        Some(CheckFault::OtherBasis),
    ),
    (
        "1",
        b"tilescope 1\nbasis 0\nroot C0 R0\nentries 1\nentry 0 rank 1\ngrid 0 0\nobs -\nreq e\nrule unit\nterms 1 0 0 0\nend\n",
        Some(CheckFault::Root),
    ),
    (
        "1",
        b"tilescope 1\nbasis 0\nroot C0 R0\nentries 1\nentry 0 rank 1\ngrid 0 0\nobs -\nreq -\nrule unit\nterms 2 0 0 0\nend\n",
        Some(CheckFault::Terms { length: 0 }),
    ),
    (
        "1",
        b"tilescope 1\nbasis 0\nroot C0 R0\nentries 1\nentry 0 rank 1\ngrid 0 0\nobs -\nreq -\nrule unit\nterms 1 0 0 0 340282366920938463463374607431768211455\nend\n",
        Some(CheckFault::Terms { length: 4 }),
    ),
    (
        "1",
        b"tilescope 1\nbasis 0\nroot C0 R0\nentries 1\nentry 0 rank 1\ngrid 0 0\nobs -\nreq -\nrule unit\nterms 1 1 0 0\nend\n",
        Some(CheckFault::Terms { length: 1 }),
    ),
    (
        "1",
        b"tilescope 1\nbasis 0\nroot C0 R0\nentries 1\nentry 0 rank 1\ngrid 0 0\nobs -\nreq -\nrule unit\nterms 1 7 0 0\nend\n",
        Some(CheckFault::Terms { length: 1 }),
    ),
    (
        "1",
        b"tilescope 1\nbasis 0\nroot C0 R0\nentries 1\nentry 0 rank 1\ngrid 0 1\nobs -\nreq -\nrule unit\nterms 1 0 0 0\nend\n",
        Some(CheckFault::Root),
    ),
    (
        "1",
        b"tilescope 1\nbasis 0\nroot C0 R0\nentries 1\nentry 0 rank 1\ngrid 0 0\nobs -\nreq -\nrule unit\nterms big\nend\n",
        Some(CheckFault::Terms { length: 0 }),
    ),
    (
        "12,21",
        b"tilescope 1\nbasis 01,10\nroot -\nentries 3\nentry 0 rank 2\ngrid 1 1\nobs 01:00.00 10:00.00\nreq -\nrule insert 0:00\nto 1 M C0 R0\nto 2 -\nentry 1 rank 1\ngrid 0 0\nobs -\nreq -\nrule unit\nentry 2 rank 3\ngrid 1 1\nobs 01:00.00 10:00.00\nreq 0:00\nrule point\nterms 1 1 0 0\nend\n",
        Some(CheckFault::Rank { entry: 0, child: 2 }),
    ),
    (
        "12,21",
        b"tilescope 1\nbasis 01,10\nroot -\nentries 3\nentry 0 rank 2\ngrid 1 1\nobs 01:00.00 10:00.00\nreq -\nrule insert 0:00\nto 1 M C0 R0\nto 2 -\nentry 1 rank 1\ngrid 0 0\nobs -\nreq -\nrule unit\nentry 2 rank 2\ngrid 1 1\nobs 01:00.00 10:00.00\nreq 0:00\nrule point\nterms 1 1 0 0\nend\n",
        Some(CheckFault::Rank { entry: 0, child: 2 }),
    ),
    (
        "12,21",
        b"tilescope 1\nbasis 012345678\nroot -\nentries 3\nentry 0 rank 2\ngrid 1 1\nobs 01:00.00 10:00.00\nreq -\nrule insert 0:00\nto 1 M C0 R0\nto 2 -\nentry 1 rank 1\ngrid 0 0\nobs -\nreq -\nrule unit\nentry 2 rank 1\ngrid 1 1\nobs 01:00.00 10:00.00\nreq 0:00\nrule point\nterms 1 1 0 0\nend\n",
        Some(CheckFault::OtherBasis),
    ),
    (
        "12,21",
        b"tilescope 1\nbasis 01,10\nroot -\nentries 3\nentry 0 rank 2\ngrid 1 1\nobs 01:00.00 10:00.00\nreq -\nrule insert 0:00\nto 1 M C0 R0\nto 2 -\nentry 1 rank 1\ngrid 0 0\nobs -\nreq -\nrule unit\nentry 2 rank 1\ngrid 1 1\nobs 01:00.00 10:00.00\nreq 0:00\nrule insert e\nto 1 -\nto 0 -\nterms 1 1 0 0\nend\n",
        Some(CheckFault::Rule { entry: 2 }),
    ),
    (
        "12,21",
        b"tilescope 1\nbasis 01,10\nroot -\nentries 3\nentry 0 rank 2\ngrid 1 1\nobs 01:00.00 10:00.00\nreq -\nrule insert 0:00\nto 1 M C0 R0\nto 2 -\nentry 1 rank 1\ngrid 8 0\nobs -\nreq -\nrule unit\nentry 2 rank 1\ngrid 1 1\nobs 01:00.00 10:00.00\nreq 0:00\nrule point\nterms 1 1 0 0\nend\n",
        Some(CheckFault::Rule { entry: 0 }),
    ),
    (
        "12,21",
        b"tilescope 1\nbasis 01,10\nroot -\nentries 3\nentry 0 rank 2\ngrid 1 1\nobs 01:00.00 10:00.00\nreq -\nrule insert 0:00\nto 1 M C0 R0\nto 2 -\nentry 1 rank 2\ngrid 0 0\nobs -\nreq -\nrule unit\nentry 2 rank 1\ngrid 1 1\nobs 01:00.00 10:00.00\nreq 0:00\nrule point\nterms 1 1 0 0\nend\n",
        Some(CheckFault::Rank { entry: 0, child: 1 }),
    ),
    (
        "12,21",
        b"tilescope 1\nbasis 01,10\nroot -\nentries 3\nentry 0 rank 0\ngrid 1 1\nobs 01:00.00 10:00.00\nreq -\nrule insert 0:00\nto 1 M C0 R0\nto 2 -\nentry 1 rank 1\ngrid 0 0\nobs -\nreq -\nrule unit\nentry 2 rank 1\ngrid 1 1\nobs 01:00.00 10:00.00\nreq 0:00\nrule point\nterms 1 1 0 0\nend\n",
        Some(CheckFault::Rank { entry: 0, child: 1 }),
    ),
];

/// Why a text of at most 4,096 bytes is refused for a basis, where it is.
fn fault_of(alloc: Global, words: &str, text: &[u8]) -> Result<Option<CheckFault>, AllocError> {
    let Ok(basis) = read_basis(alloc, words) else {
        return Err(AllocError);
    };
    if text.len() > 4096 {
        return Err(AllocError);
    }
    match check(alloc, basis.as_slice(), text) {
        Ok(_) => Ok(None),
        Err(CheckFault::Memory) => Err(AllocError),
        Err(fault) => Ok(Some(fault)),
    }
}

#[test]
fn texts_are_checked(rt: HostRuntime) -> Result<(), Fail> {
    for (words, text, fault) in CASES {
        assert_eq!(rt; fault_of(rt.alloc(), words, text)?, fault, "at {words}");
    }
    Ok(())
}

/// The number of entries and of terms of an accepted text of at most 4,096 bytes.
fn numbers_of(alloc: Global, words: &str, text: &[u8]) -> Result<(u32, usize), AllocError> {
    let Ok(basis) = read_basis(alloc, words) else {
        return Err(AllocError);
    };
    if text.len() > 4096 {
        return Err(AllocError);
    }
    let Ok(told) = checked(alloc, basis.as_slice(), text) else {
        return Err(AllocError);
    };
    Ok((told.entries, told.terms.len()))
}

#[test]
fn entries_and_terms_are_told(rt: HostRuntime) -> Result<(), Fail> {
    let (words, text, _) = CASES[1];
    assert_eq!(rt; numbers_of(rt.alloc(), words, text)?, (3, 4));
    Ok(())
}
