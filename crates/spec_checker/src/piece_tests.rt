// Texts that come in pieces, cut anywhere.
use crate::{CheckFault, Checked, Checking};
use perm_core::read_basis;
use spec_text::put_terms;
use std::alloc::{AllocError, Global};
use std::test::Fail;

/// The permutations that contain no point.
const POINTLESS: &[u8] =
    b"tilescope 1\nbasis 0\nroot C0 R0\nentries 1\nentry 0 rank 1\ngrid 0 0\nobs -\nreq -\nrule unit\nterms 1 0 0 0\nend\n";

/// Those that avoid 021.
const CATALAN: &[u8] =
    b"tilescope 1\nbasis 021\nroot -\nentries 6\nentry 0 rank 3\ngrid 1 1\nobs 021:00.00.00\nreq -\nrule place N 0:00^0\nto 1 M C0 R0\nto 2 M K11 M R2\nentry 1 rank 1\ngrid 0 0\nobs -\nreq -\nrule unit\nentry 2 rank 2\ngrid 3 2\nobs 0:01 0:10 0:21 01:00.20 01:11.11 10:11.11 021:00.00.00 021:20.20.20\nreq 0:11\nrule factor 00.20 11\nto 3 C1 R1\nto 4 C0 C1 R0\nentry 3 rank 5\ngrid 2 1\nobs 01:00.10 021:00.00.00 021:10.10.10\nreq -\nrule rowcut 0 10\nto 5 M\nentry 4 rank 1\ngrid 1 1\nobs 01:00.00 10:00.00\nreq 0:00\nrule point\nentry 5 rank 4\ngrid 2 2\nobs 0:00 0:11 021:01.01.01 021:10.10.10\nreq -\nrule factor 01 10\nto 0 C1 R0\nto 0 C0 R1\nterms 1 1 2 5 14 42 132\nend\n";

/// Goes on with a short piece of a short text.
fn feed(checking: &mut Checking, piece: &[u8]) -> Result<(), AllocError> {
    if checking.bytes_read() > 4096 || piece.len() > 4096 {
        return Err(AllocError);
    }
    checking.feed(piece)
}

/// A checking that has read nothing.
fn begun(alloc: Global, words: &str) -> Result<Checking, AllocError> {
    let Ok(basis) = read_basis(alloc, words) else {
        return Err(AllocError);
    };
    Checking::new(alloc, basis.as_slice())
}

/// What is found of a text that comes in pieces of so many bytes.
fn in_pieces(alloc: Global, words: &str, text: &[u8], size: usize) -> Result<Checked, CheckFault> {
    if size == 0 {
        return Err(CheckFault::Memory);
    }
    let mut checking = begun(alloc, words)?;
    for piece in text.chunks(size) {
        feed(&mut checking, piece)?;
    }
    checking.finish()
}

/// What is found of a text that comes in two pieces, with an empty one between them.
fn in_two(alloc: Global, words: &str, text: &[u8], place: usize) -> Result<Checked, CheckFault> {
    if place > text.len() {
        return Err(CheckFault::Memory);
    }
    let mut checking = begun(alloc, words)?;
    feed(&mut checking, &text[..place])?;
    feed(&mut checking, b"")?;
    feed(&mut checking, &text[place..])?;
    checking.finish()
}

/// The line of the terms that were found.
fn terms_of(alloc: Global, found: &Checked) -> Result<Vec<u8>, AllocError> {
    let mut line = Vec::new(alloc);
    put_terms(&mut line, found.terms.as_slice())?;
    Ok(line)
}

#[test]
fn pieces_of_any_size(rt: HostRuntime) -> Result<(), Fail> {
    let alloc = rt.alloc();
    for size in 1..65 {
        let found = in_pieces(alloc, "132", CATALAN, size)?;
        assert_eq!(rt; found.entries, 6, "in pieces of {size}");
        assert_eq!(rt;
            terms_of(alloc, &found)?.as_slice(),
            b"terms 1 1 2 5 14 42 132\n".as_slice()
        );
    }
    Ok(())
}

#[test]
fn two_pieces_cut_anywhere(rt: HostRuntime) -> Result<(), Fail> {
    let alloc = rt.alloc();
    for place in 0..POINTLESS.len() + 1 {
        let found = in_two(alloc, "1", POINTLESS, place)?;
        assert_eq!(rt; found.entries, 1, "cut at {place}");
        assert_eq!(rt;
            terms_of(alloc, &found)?.as_slice(),
            b"terms 1 0 0 0\n".as_slice()
        );
    }
    Ok(())
}

#[test]
fn faults_over_cuts(rt: HostRuntime) -> Result<(), Fail> {
    let alloc = rt.alloc();
    let table: [(&[u8], CheckFault); 4] = [
        (
            b"tilescope 1\nbasis 0\nroot C0  R0\nentries 1\n",
            CheckFault::Grammar { line: 3 },
        ),
        (
            b"tilescope 1\nbasis 0\nroot -\nentries 0\nterms 1\nend",
            CheckFault::Grammar { line: 6 },
        ),
        (
            b"tilescope 1\nbasis 0\nroot -\nentries 0\nterms 1\nend\n",
            CheckFault::Limit { line: 4 },
        ),
        (
            b"tilescope 1\nbasis 0\nroot -\nentries 0\nterms 1\nend\n\n",
            CheckFault::Grammar { line: 7 },
        ),
    ];
    for (text, fault) in table {
        for size in 1..20 {
            assert_eq!(rt;
                in_pieces(alloc, "1", text, size).err(),
                Some(fault),
                "in pieces of {size}"
            );
        }
    }
    Ok(())
}
