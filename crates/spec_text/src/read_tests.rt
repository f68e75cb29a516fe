// Whole texts that are read, and written again.
ghost use Rattle.std.specs.Prelude.{◌≤◌, length, IfOk};

use crate::{SpecFile, TextFault, lines_are_answered, put_class, read_spec, write_spec};
use css_prune::{Entry, Spec};
use std::alloc::Global;
use std::test::Fail;
use tile_rules::Tiles;

/// The permutations that contain no point.
const POINTLESS: &[u8] =
    b"tilescope 1\nbasis 0\nroot C0 R0\nentries 1\nentry 0 rank 1\ngrid 0 0\nobs -\nreq -\nrule unit\nterms 1 0 0 0\nend\n";

/// Those that contain neither 01 nor 10.
const SHORT: &[u8] =
    b"tilescope 1\nbasis 01,10\nroot -\nentries 3\nentry 0 rank 2\ngrid 1 1\nobs 01:00.00 10:00.00\nreq -\nrule insert 0:00\nto 1 M C0 R0\nto 2 -\nentry 1 rank 1\ngrid 0 0\nobs -\nreq -\nrule unit\nentry 2 rank 1\ngrid 1 1\nobs 01:00.00 10:00.00\nreq 0:00\nrule point\nterms 1 1 0 0\nend\n";

/// Those that avoid 021.
const CATALAN: &[u8] =
    b"tilescope 1\nbasis 021\nroot -\nentries 6\nentry 0 rank 3\ngrid 1 1\nobs 021:00.00.00\nreq -\nrule place N 0:00^0\nto 1 M C0 R0\nto 2 M K11 M R2\nentry 1 rank 1\ngrid 0 0\nobs -\nreq -\nrule unit\nentry 2 rank 2\ngrid 3 2\nobs 0:01 0:10 0:21 01:00.20 01:11.11 10:11.11 021:00.00.00 021:20.20.20\nreq 0:11\nrule factor 00.20 11\nto 3 C1 R1\nto 4 C0 C1 R0\nentry 3 rank 5\ngrid 2 1\nobs 01:00.10 021:00.00.00 021:10.10.10\nreq -\nrule rowcut 0 10\nto 5 M\nentry 4 rank 1\ngrid 1 1\nobs 01:00.00 10:00.00\nreq 0:00\nrule point\nentry 5 rank 4\ngrid 2 2\nobs 0:00 0:11 021:01.01.01 021:10.10.10\nreq -\nrule factor 01 10\nto 0 C1 R0\nto 0 C0 R1\nterms 1 1 2 5 14 42 132\nend\n";

/// What a text of fewer than 4,096 bytes says.
fn read(alloc: Global, text: &[u8]) -> Result<SpecFile, TextFault>
    ensures { IfOk result (λ file. length file.entries ≤ 100000) }
{
    if text.len() > 4096 {
        return Err(TextFault::Memory);
    }
    read_spec(alloc, text)
}

/// The text of what was read, where its entries are a specification.
fn written(alloc: Global, file: SpecFile) -> Result<Vec<u8>, Fail>
    requires { length file.entries ≤ 100000 }
{
    let Ok(spec) = Spec::of(file.entries.into_vec()) else {
        return Err(Fail::from("the entries are a specification"));
    };
    let text = write_spec(
        alloc,
        file.basis.as_slice(),
        file.root_trace.as_slice(),
        &spec,
        file.terms.as_slice(),
    )?;
    Ok(text)
}

#[test]
fn texts_are_read_and_written_again(rt: HostRuntime) -> Result<(), Fail> {
    let alloc = rt.alloc();
    for text in [POINTLESS, SHORT, CATALAN] {
        let file = read(alloc, text)?;
        assert_eq!(rt; written(alloc, file)?.as_slice(), text);
    }
    Ok(())
}

/// The lines of the class of a child.
fn child_lines(
    alloc: Global,
    entries: &[Entry<Tiles>],
    entry: usize,
    slot: usize,
) -> Result<Vec<u8>, Fail> {
    let Some(entry) = entries.get(entry) else {
        return Err(Fail::from("an entry"));
    };
    let Some(child) = entry.rule.children().get(slot) else {
        return Err(Fail::from("a child"));
    };
    let mut lines = Vec::new(alloc);
    put_class(&mut lines, child)?;
    Ok(lines)
}

#[test]
fn children_are_the_named_classes(rt: HostRuntime) -> Result<(), Fail> {
    let alloc = rt.alloc();
    let file = read(alloc, CATALAN)?;
    let table: [(usize, usize, &[u8]); 7] = [
        (0, 0, b"grid 0 0\nobs -\nreq -\n"),
        (
            0,
            1,
            b"grid 3 2\nobs 0:01 0:10 0:21 01:00.20 01:11.11 10:11.11 021:00.00.00 021:20.20.20\nreq 0:11\n",
        ),
        (
            2,
            0,
            b"grid 2 1\nobs 01:00.10 021:00.00.00 021:10.10.10\nreq -\n",
        ),
        (2, 1, b"grid 1 1\nobs 01:00.00 10:00.00\nreq 0:00\n"),
        (
            3,
            0,
            b"grid 2 2\nobs 0:00 0:11 021:01.01.01 021:10.10.10\nreq -\n",
        ),
        (5, 0, b"grid 1 1\nobs 021:00.00.00\nreq -\n"),
        (5, 1, b"grid 1 1\nobs 021:00.00.00\nreq -\n"),
    ];
    for (entry, slot, lines) in table {
        let found = child_lines(alloc, file.entries.as_slice(), entry, slot)?;
        assert_eq!(rt; found.as_slice(), lines, "{entry} {slot}");
    }
    Ok(())
}

#[test]
fn faults_have_their_lines(rt: HostRuntime) -> Result<(), Fail> {
    let alloc = rt.alloc();
    lines_are_answered::<u32>();
    let table: [(&[u8], TextFault); 4] = [
        (b"", TextFault::Grammar { line: 1 }),
        (
            b"tilescope 1\nbasis 0\nroot -\nentries 0\nterms 1\nend\n",
            TextFault::Limit { line: 4 },
        ),
        (
            b"tilescope 1\nbasis 0\nroot -\nentries 0\nterms 1\nend",
            TextFault::Grammar { line: 6 },
        ),
        (
            b"tilescope 1\nbasis 0\nroot -\nentries 1\nentry 0 rank 1\ngrid 0 0\nobs -\nreq -\nrule infer 0:00\nto 1 -\nterms 1\nend\n",
            TextFault::Limit { line: 10 },
        ),
    ];
    for (text, fault) in table {
        assert_eq!(rt; read(alloc, text).err(), Some(fault));
    }
    Ok(())
}
