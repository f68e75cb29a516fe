use crate::{
    ItemFault, basis_line, entries_line, entry_line, grid_line, obs_line, req_line, root_line,
    rule_line, terms_line, to_line,
};
use css_terms::Term;
use gridded::{Cell, Gridded};
use perm_core::Perm;
use rule_kinds::Kind;
use std::alloc::Global;
use std::test::Fail;
use steps::Step;

const ORIGIN: Cell = Cell { x: 0, y: 0 };

/// The fault of an answer.
fn fault<T: Drop>(answer: Result<T, ItemFault>) -> Option<ItemFault> {
    match answer {
        Ok(_) => None,
        Err(fault) => Some(fault),
    }
}

/// The fault of a line of text, by its first word; that of an entry is read as entry 7.
fn fault_of(alloc: Global, line: &str) -> Option<ItemFault> {
    let line = line.as_bytes();
    match line {
        [b'b', ..] => fault(basis_line(alloc, line)),
        [b'e', b'n', b't', b'r', b'i', ..] => fault(entries_line(line)),
        [b'e', ..] => fault(entry_line(line, 7)),
        [b'g', ..] => fault(grid_line(alloc, line)),
        [b'o', ..] => fault(obs_line(alloc, line)),
        [b'r', b'o', ..] => fault(root_line(alloc, line)),
        [b'r', b'e', ..] => fault(req_line(alloc, line)),
        [b'r', ..] => fault(rule_line(alloc, 1, line)),
        [b't', b'e', ..] => fault(terms_line(alloc, line)),
        _ => fault(to_line(alloc, line)),
    }
}

#[test]
fn lines_that_are_read(rt: HostRuntime) -> Result<(), Fail> {
    let alloc = rt.alloc();
    for line in [
        "basis 01,10",
        "basis 0",
        "basis 021",
        "basis 012345678",
        "basis 0123,0132,3210",
        "root -",
        "root C0 R0",
        "root V M K00 L C7 R7",
        "root C9 K89",
        "entries 1",
        "entries 100000",
        "entry 7 rank 0",
        "entry 7 rank 4294967295",
        "grid 0 0",
        "grid 8 8",
        "obs -",
        "obs e",
        "obs 01:00.00 10:00.00",
        "obs 0:01 0:10 0:21 01:00.20 01:11.11 10:11.11 021:00.00.00 021:20.20.20",
        "obs 0:99",
        "req -",
        "req x",
        "req 0:00",
        "req x e|0:00",
        "req 0:00|0:10 01:00.10",
        "rule unit",
        "rule point",
        "rule void",
        "rule insert 0:00",
        "rule insert e",
        "rule place N 0:00^0",
        "rule place S 01:00.11^1 0:21^0",
        "rule place E 0:00^0 0:00^0",
        "rule place W 021:00.00.00^2",
        "rule rowcut 0 10",
        "rule colcut 7 70.77",
        "rule factor 00.20 11",
        "rule factor 11 00.20",
        "rule factor 00 00",
        "rule infer 0:11 01:11.11 10:11.11",
        "rule infer e",
        "to 2 -",
        "to 1 M C0 R0",
        "to 4294967295 M",
        "terms 1 1 2 5 14 42 132",
        "terms 0",
        "terms big",
        "terms 1 340282366920938463463374607431768211455 big",
    ] {
        assert_eq!(rt; fault_of(alloc, line), None, "{line}");
    }
    Ok(())
}

#[test]
fn lines_out_of_range(rt: HostRuntime) -> Result<(), Fail> {
    let alloc = rt.alloc();
    for line in [
        "basis 0123456789",
        "basis 01,0123456789",
        "entries 0",
        "entries 100001",
        "entries 999999999999999999999999999999999999999",
        "entry 7 rank 4294967296",
        "grid 9 0",
        "grid 0 340282366920938463463374607431768211456",
        "obs 0:00 0123456789:00.00.00.00.00.00.00.00.00.00",
        "req 0:00 0123456789:00.00.00.00.00.00.00.00.00.00",
        "rule insert 0:08",
        "rule insert 0123456789:00.00.00.00.00.00.00.00.00.00",
        "rule place N",
        "rule place N 0:80^0",
        "rule place N 0123456789:00.00.00.00.00.00.00.00.00.00^9",
        "rule rowcut 8 00",
        "rule rowcut 0 08",
        "rule colcut 999999999999999999999999999999999999999 00",
        "rule factor 00 99",
        "rule infer 0:09",
        "to 4294967296 -",
        "terms 340282366920938463463374607431768211456",
        "terms 1 680564733841876926926749214863536422912",
    ] {
        assert_eq!(rt; fault_of(alloc, line), Some(ItemFault::Range), "{line}");
    }
    Ok(())
}

#[test]
fn lines_of_no_form(rt: HostRuntime) -> Result<(), Fail> {
    let alloc = rt.alloc();
    for line in [
        "basis",
        "basis ",
        "basis 01,01",
        "basis 10,01",
        "basis 01,0",
        "basis 02",
        "basis 00",
        "basis 01 10",
        "basis 01,",
        "basis 01234567890",
        "root",
        "root ",
        "root - M",
        "root M  M",
        "root M ",
        "root M\r",
        "root C10",
        "root K1",
        "root X",
        "entries",
        "entries 01",
        "entries 00",
        "entries +1",
        "entries 1000000000000000000000000000000000000000",
        "entry 6 rank 0",
        "entry 07 rank 0",
        "entry 7 rank",
        "entry 7 rang 0",
        "entry 7 rank 00",
        "grid 1",
        "grid 1 1 1",
        "grid 1\t1",
        "obs",
        "obs - 0:00",
        "obs 0:00 0:00",
        "obs 0:10 0:01",
        "obs 0:00 0123456789:00.00.00.00.00.00.00.00.00.00 1:00",
        "obs 0123456789:00.00.00.00.00.00.00.00.00.00 1023456789:00.00.00.00.00.00.00.00.00.00 0:00",
        "obs 01:00",
        "obs 01:00.00.00",
        "obs 00:00.00",
        "obs 01:10.00",
        "obs 10:00.01",
        "obs 01:01.00",
        "obs e:",
        "req",
        "req x x",
        "req 0:00 x",
        "req 0:00|0:00",
        "req 0:10|0:00",
        "req 0:00|0:10 0:00",
        "rule",
        "rule unit 0",
        "rule insert",
        "rule insert 0:00 0:01",
        "rule place",
        "rule place X 0:00^0",
        "rule place N 0:00^1",
        "rule place N e^0",
        "rule place N 0:00",
        "rule place N 0:00^00",
        "rule rowcut 0",
        "rule rowcut 0 00.00",
        "rule rowcut 0 10.00",
        "rule rowcut 00 00",
        "rule factor",
        "rule factor 00.",
        "rule infer",
        "rule infer 0:11 0:11",
        "rule infer 01:11.11 0:11",
        "rule turn",
        "to",
        "to 2",
        "to 2 - -",
        "to x -",
        "terms",
        "terms big 1",
        "terms 1 01",
        "terms 1 big big",
        "terms -",
    ] {
        assert_eq!(rt; fault_of(alloc, line), Some(ItemFault::Form), "{line}");
    }
    Ok(())
}

#[test]
fn lines_of_the_first_entry(rt: HostRuntime) -> Result<(), Fail> {
    let alloc = rt.alloc();
    let up = Perm::of(alloc, &[0, 1])?;
    let down = Perm::of(alloc, &[1, 0])?;
    let basis = basis_line(alloc, b"basis 01,10")?;
    assert_eq!(rt; basis.as_slice(), [up, down].as_slice());
    assert_eq!(rt; root_line(alloc, b"root -")?.len(), 0);
    assert_eq!(rt; entries_line(b"entries 3"), Ok(3));
    assert_eq!(rt; entry_line(b"entry 0 rank 2", 0), Ok(2));
    assert_eq!(rt; grid_line(alloc, b"grid 1 1"), Ok((1, 1)));
    let rise = Gridded::of(alloc, &[0, 1], &[ORIGIN, ORIGIN])?;
    let fall = Gridded::of(alloc, &[1, 0], &[ORIGIN, ORIGIN])?;
    let obstructions = obs_line(alloc, b"obs 01:00.00 10:00.00")?;
    assert_eq!(rt; obstructions.as_slice(), [rise, fall].as_slice());
    assert_eq!(rt; req_line(alloc, b"req -")?.len(), 0);
    let point = Gridded::of(alloc, &[0], &[ORIGIN])?;
    assert_eq!(rt;
        rule_line(alloc, 1, b"rule insert 0:00"),
        Ok(Kind::Insert(point))
    );
    let (child, trace) = to_line(alloc, b"to 1 M C0 R0")?;
    assert_eq!(rt; child, 1);
    assert_eq!(rt;
        trace.as_slice(),
        [Step::Min, Step::Column(0), Step::Row(0)].as_slice()
    );
    let terms = terms_line(alloc, b"terms 1 1 0 big")?;
    let zero = Term::Exact(0);
    let one = Term::Exact(1);
    assert_eq!(rt; terms.as_slice(), [one, one, zero, Term::Big].as_slice());
    Ok(())
}
