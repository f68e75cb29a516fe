// Texts with a repeated tiling and with an entry that none names, and terms to where they are big.
use crate::{CheckFault, Checked, checked};
use perm_core::read_basis;
use std::alloc::{AllocError, Global};
use std::test::Fail;

/// The lines of a text of the avoiders of 021 up to the entries, with 6 entries.
const FRONT: &[u8] =
    b"tilescope 1\nbasis 021\nroot -\nentries 6\nentry 0 rank 3\ngrid 1 1\nobs 021:00.00.00\nreq -\nrule place N 0:00^0\nto 1 M C0 R0\nto 2 M K11 M R2\nentry 1 rank 1\ngrid 0 0\nobs -\nreq -\nrule unit\nentry 2 rank 2\ngrid 3 2\nobs 0:01 0:10 0:21 01:00.20 01:11.11 10:11.11 021:00.00.00 021:20.20.20\nreq 0:11\nrule factor 00.20 11\nto 3 C1 R1\nto 4 C0 C1 R0\nentry 3 rank 5\ngrid 2 1\nobs 01:00.10 021:00.00.00 021:10.10.10\nreq -\nrule rowcut 0 10\nto 5 M\nentry 4 rank 1\ngrid 1 1\nobs 01:00.00 10:00.00\nreq 0:00\nrule point\nentry 5 rank 4\ngrid 2 2\nobs 0:00 0:11 021:01.01.01 021:10.10.10\nreq -\nrule factor 01 10\nto 0 C1 R0\nto 0 C0 R1\n";

/// The text with a seventh entry that is entry 0 again, which entry 5 names.
const REPEATED: &[u8] =
    b"tilescope 1\nbasis 021\nroot -\nentries 7\nentry 0 rank 3\ngrid 1 1\nobs 021:00.00.00\nreq -\nrule place N 0:00^0\nto 1 M C0 R0\nto 2 M K11 M R2\nentry 1 rank 1\ngrid 0 0\nobs -\nreq -\nrule unit\nentry 2 rank 2\ngrid 3 2\nobs 0:01 0:10 0:21 01:00.20 01:11.11 10:11.11 021:00.00.00 021:20.20.20\nreq 0:11\nrule factor 00.20 11\nto 3 C1 R1\nto 4 C0 C1 R0\nentry 3 rank 5\ngrid 2 1\nobs 01:00.10 021:00.00.00 021:10.10.10\nreq -\nrule rowcut 0 10\nto 5 M\nentry 4 rank 1\ngrid 1 1\nobs 01:00.00 10:00.00\nreq 0:00\nrule point\nentry 5 rank 4\ngrid 2 2\nobs 0:00 0:11 021:01.01.01 021:10.10.10\nreq -\nrule factor 01 10\nto 0 C1 R0\nto 6 C0 R1\nentry 6 rank 3\ngrid 1 1\nobs 021:00.00.00\nreq -\nrule place N 0:00^0\nto 1 M C0 R0\nto 2 M K11 M R2\nterms 1 1 2 5\nend\n";

/// The text with a seventh entry that no entry names.
const UNCALLED: &[u8] =
    b"tilescope 1\nbasis 021\nroot -\nentries 7\nentry 0 rank 3\ngrid 1 1\nobs 021:00.00.00\nreq -\nrule place N 0:00^0\nto 1 M C0 R0\nto 2 M K11 M R2\nentry 1 rank 1\ngrid 0 0\nobs -\nreq -\nrule unit\nentry 2 rank 2\ngrid 3 2\nobs 0:01 0:10 0:21 01:00.20 01:11.11 10:11.11 021:00.00.00 021:20.20.20\nreq 0:11\nrule factor 00.20 11\nto 3 C1 R1\nto 4 C0 C1 R0\nentry 3 rank 5\ngrid 2 1\nobs 01:00.10 021:00.00.00 021:10.10.10\nreq -\nrule rowcut 0 10\nto 5 M\nentry 4 rank 1\ngrid 1 1\nobs 01:00.00 10:00.00\nreq 0:00\nrule point\nentry 5 rank 4\ngrid 2 2\nobs 0:00 0:11 021:01.01.01 021:10.10.10\nreq -\nrule factor 01 10\nto 0 C1 R0\nto 0 C0 R1\nentry 6 rank 1\ngrid 0 0\nobs e\nreq -\nrule void\nterms 1 1 2 5\nend\n";

/// The Catalan numbers below 2^128: the next one is the first that is not.
const CATALAN: &[u8] =
    b"1 1 2 5 14 42 132 429 1430 4862 16796 58786 208012 742900 2674440 9694845 35357670 129644790 477638700 1767263190 6564120420 24466267020 91482563640 343059613650 1289904147324 4861946401452 18367353072152 69533550916004 263747951750360 1002242216651368 3814986502092304 14544636039226909 55534064877048198 212336130412243110 812944042149730764 3116285494907301262 11959798385860453492 45950804324621742364 176733862787006701400 680425371729975800390 2622127042276492108820 10113918591637898134020 39044429911904443959240 150853479205085351660700 583300119592996693088040 2257117854077248073253720 8740328711533173390046320 33868773757191046886429490 131327898242169365477991900 509552245179617138054608572 1978261657756160653623774456 7684785670514316385230816156 29869166945772625950142417512 116157871455782434250553845880 451959718027953471447609509424 1759414616608818870992479875972 6852456927844873497549658464312 26700952856774851904245220912664 104088460289122304033498318812080 405944995127576985730643443367112 1583850964596120042686772779038896 6182127958584855650487080847216336 24139737743045626825711458546273312 94295850558771979787935384946380125 368479169875816659479009042713546950 1440418573150919668872489894243865350 5632681584560312734993915705849145100 22033725021956517463358552614056949950 86218923998960285726185640663701108500 337485502510215975556783793455058624700";

/// What a text of at most 8,192 bytes says, checked for the basis 132.
fn told(alloc: Global, text: &[u8]) -> Result<Checked, CheckFault> {
    let Ok(basis) = read_basis(alloc, "132") else {
        return Err(CheckFault::Memory);
    };
    if text.len() > 8192 {
        return Err(CheckFault::Memory);
    }
    checked(alloc, basis.as_slice(), text)
}

/// Why a text is refused for that basis, where it is.
fn fault_of(alloc: Global, text: &[u8]) -> Option<CheckFault> {
    match told(alloc, text) {
        Ok(_) => None,
        Err(fault) => Some(fault),
    }
}

/// The text with these terms.
fn with_terms(alloc: Global, terms: &[u8], last: &[u8]) -> Result<Vec<u8>, AllocError> {
    let mut text = Vec::from_slice(alloc, FRONT)?;
    text.extend_from_slice(b"terms ")?;
    text.extend_from_slice(terms)?;
    text.extend_from_slice(last)?;
    text.extend_from_slice(b"\nend\n")?;
    Ok(text)
}

#[test]
fn an_entry_again_and_one_that_none_names(rt: HostRuntime) -> Result<(), Fail> {
    let alloc = rt.alloc();
    let sixth = Some(CheckFault::Rule { entry: 6 });
    assert_eq!(rt; fault_of(alloc, REPEATED), sixth);
    assert_eq!(rt; fault_of(alloc, UNCALLED), sixth);
    Ok(())
}

#[test]
fn terms_up_to_a_big_one(rt: HostRuntime) -> Result<(), Fail> {
    let alloc = rt.alloc();
    let text = with_terms(alloc, CATALAN, b" big")?;
    let found = told(alloc, text.as_slice())?;
    assert_eq!(rt; found.entries, 6);
    assert_eq!(rt; found.terms.len(), 71);
    Ok(())
}

#[test]
fn terms_that_are_wrong_where_one_is_big(rt: HostRuntime) -> Result<(), Fail> {
    let alloc = rt.alloc();
    let rows: [(&[u8], u32); 3] = [
        (b" 340282366920938463463374607431768211455", 70),
        (b" 0 big", 70),
        (b" 0 0", 70),
    ];
    for (last, length) in rows {
        let text = with_terms(alloc, CATALAN, last)?;
        assert_eq!(rt;
            fault_of(alloc, text.as_slice()),
            Some(CheckFault::Terms { length })
        );
    }
    let early = with_terms(alloc, b"1 1 2 5", b" big")?;
    let fourth = CheckFault::Terms { length: 4 };
    assert_eq!(rt; fault_of(alloc, early.as_slice()), Some(fourth));
    Ok(())
}
