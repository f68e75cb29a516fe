// Single lines with the values that they say.
use crate::{ItemFault, obs_line, rule_line, to_line};
use gridded::{Cell, CellSet, Gridded};
use rule_kinds::{Direction, Kind, Pointed};
use sequences::Sequence;
use std::alloc::{AllocError, Global};
use std::test::Fail;

const ORIGIN: Cell = Cell { x: 0, y: 0 };

const RIGHT: Cell = Cell { x: 1, y: 0 };

const ABOVE: Cell = Cell { x: 0, y: 1 };

const LAST: Cell = Cell { x: 7, y: 7 };

/// What the line `rule` says.
fn kind_of(alloc: Global, line: &str) -> Result<Kind, ItemFault> {
    rule_line(alloc, 1, line.as_bytes())
}

/// The set of two cells.
fn two(first: Cell, second: Cell) -> Result<CellSet, AllocError> {
    if first.x > 7 || first.y > 7 || second.x > 7 || second.y > 7 {
        return Err(AllocError);
    }
    Ok(CellSet::none().with(first).with(second))
}

/// A pattern with one of its places.
fn pointing(pattern: Gridded, place: u8) -> Result<Pointed, AllocError> {
    if u32::from(place) >= pattern.len() {
        return Err(AllocError);
    }
    Ok(Pointed::of(pattern, place))
}

#[test]
fn one_pattern_and_no_step(rt: HostRuntime) -> Result<(), Fail> {
    let alloc = rt.alloc();
    let patterns = obs_line(alloc, b"obs 01:00.00")?;
    let rise = Gridded::of(alloc, &[0, 1], &[ORIGIN, ORIGIN])?;
    assert_eq!(rt; patterns.as_slice(), [rise].as_slice());
    let (child, trace) = to_line(alloc, b"to 2 -")?;
    assert_eq!(rt; child, 2);
    assert_eq!(rt; trace.len(), 0);
    Ok(())
}

#[test]
fn kinds_without_cells(rt: HostRuntime) -> Result<(), Fail> {
    let alloc = rt.alloc();
    assert_eq!(rt; kind_of(alloc, "rule unit"), Ok(Kind::Unit));
    assert_eq!(rt; kind_of(alloc, "rule point"), Ok(Kind::Point));
    assert_eq!(rt; kind_of(alloc, "rule void"), Ok(Kind::Void));
    Ok(())
}

#[test]
fn placements_in_each_direction(rt: HostRuntime) -> Result<(), Fail> {
    let alloc = rt.alloc();
    let rows = [
        ("rule place N 10:01.10^1 0:00^0", Direction::North),
        ("rule place S 10:01.10^1 0:00^0", Direction::South),
        ("rule place E 10:01.10^1 0:00^0", Direction::East),
        ("rule place W 10:01.10^1 0:00^0", Direction::West),
    ];
    let fall = Gridded::of(alloc, &[1, 0], &[ABOVE, RIGHT])?;
    let first = pointing(fall, 1)?;
    let second = pointing(Gridded::point_at(ORIGIN), 0)?;
    for (line, direction) in rows {
        let pointed = Sequence::of(vec![in alloc; first, second]?);
        assert_eq!(rt;
            kind_of(alloc, line),
            Ok(Kind::Place(pointed, direction)),
            "{line}"
        );
    }
    Ok(())
}

#[test]
fn cuts_and_factors(rt: HostRuntime) -> Result<(), Fail> {
    let alloc = rt.alloc();
    let below = two(ORIGIN, RIGHT)?;
    let corners = two(ORIGIN, LAST)?;
    assert_eq!(rt;
        kind_of(alloc, "rule rowcut 0 00.10"),
        Ok(Kind::RowCut(0, below))
    );
    assert_eq!(rt;
        kind_of(alloc, "rule colcut 7 00.77"),
        Ok(Kind::ColumnCut(7, corners))
    );
    let sets = Sequence::of(vec![in alloc; corners, below]?);
    assert_eq!(rt;
        kind_of(alloc, "rule factor 00.77 00.10"),
        Ok(Kind::Factor(sets))
    );
    Ok(())
}

#[test]
fn inferred_patterns(rt: HostRuntime) -> Result<(), Fail> {
    let alloc = rt.alloc();
    let point = Gridded::point_at(LAST);
    let rise = Gridded::of(alloc, &[0, 1], &[ORIGIN, RIGHT])?;
    let patterns = Sequence::of(vec![in alloc; point, rise]?);
    assert_eq!(rt;
        kind_of(alloc, "rule infer 0:77 01:00.10"),
        Ok(Kind::Infer(patterns))
    );
    Ok(())
}
