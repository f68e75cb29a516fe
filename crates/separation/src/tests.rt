ghost use Rattle.std.specs.Prelude.{◌<◌};

use crate::{build, can_cut, columns, cut_in_two, rows};
use gridded::{Axis, Cell, CellSet, Gridded};
use rule_kinds::{Kind, RawFault};
use std::alloc::Global;
use std::test::Fail;
use tiling_core::Tiling;

const ORIGIN: Cell = Cell { x: 0, y: 0 };

const RIGHT: Cell = Cell { x: 1, y: 0 };

const ABOVE: Cell = Cell { x: 0, y: 1 };

const FAR: Cell = Cell { x: 1, y: 1 };

/// The right one of two points is higher.
const RISING: [u8; 2] = [0, 1];

/// The right one of two points is lower.
const FALLING: [u8; 2] = [1, 0];

/// Pairs of points with these letters, in these cells.
fn pairs(alloc: Global, letters: [u8; 2], cells: &[[Cell; 2]]) -> Result<Vec<Gridded>, Fail> {
    let mut patterns = Vec::new(alloc);
    for pair in cells {
        patterns.push(Gridded::of(alloc, &letters, pair)?)?;
    }
    Ok(patterns)
}

/// A tiling with these obstructions alone.
fn with_obstructions(
    alloc: Global,
    width: u8,
    height: u8,
    obstructions: Vec<Gridded>,
) -> Result<Tiling, Fail> {
    if obstructions.len() > 8 {
        return Err(Fail::from(RawFault::NotApplicable));
    }
    Ok(Tiling::of(alloc, width, height, obstructions, Vec::new(alloc))?)
}

/// A tiling with these pairs of points as its obstructions.
fn with_pairs(
    alloc: Global,
    width: u8,
    height: u8,
    letters: [u8; 2],
    cells: &[[Cell; 2]],
) -> Result<Tiling, Fail> {
    with_obstructions(alloc, width, height, pairs(alloc, letters, cells)?)
}

/// The 2x2 tiling with these pairs of points, and no points in two cells.
fn child(
    alloc: Global,
    letters: [u8; 2],
    cells: &[[Cell; 2]],
    empty: [Cell; 2],
) -> Result<Tiling, Fail> {
    let mut obstructions = pairs(alloc, letters, cells)?;
    obstructions.push(Gridded::of(alloc, &[0], &empty[..1])?)?;
    obstructions.push(Gridded::of(alloc, &[0], &empty[1..])?)?;
    with_obstructions(alloc, 2, 2, obstructions)
}

/// The set of one cell.
fn only(cell: Cell) -> CellSet
    requires left { cell.x < 8 }
    requires low { cell.y < 8 }
{
    CellSet::none().with(cell)
}

#[test]
fn the_least_cuts_of_a_row(rt: HostRuntime) -> Result<(), Fail> {
    let alloc = rt.alloc();
    let row = with_pairs(alloc, 2, 1, RISING, &[[ORIGIN, RIGHT]])?;
    let wanted = vec![in alloc; Kind::RowCut(0, only(RIGHT))]?;
    assert!(rt; rows(alloc, &row)? == wanted);
    assert_eq!(rt; columns(alloc, &row)?.len(), 0);
    Ok(())
}

#[test]
fn the_least_cuts_of_a_column(rt: HostRuntime) -> Result<(), Fail> {
    let alloc = rt.alloc();
    let column = with_pairs(alloc, 1, 2, FALLING, &[[ABOVE, ORIGIN], [ABOVE, ABOVE]])?;
    let wanted = vec![in alloc; Kind::ColumnCut(0, only(ORIGIN))]?;
    assert!(rt; columns(alloc, &column)? == wanted);
    assert_eq!(rt; rows(alloc, &column)?.len(), 0);
    Ok(())
}

#[test]
fn two_least_cuts_of_one_row(rt: HostRuntime) -> Result<(), Fail> {
    let alloc = rt.alloc();
    let last = Cell { x: 2, y: 0 };
    let cells = [[ORIGIN, RIGHT], [ORIGIN, last], [RIGHT, last]];
    let row = with_pairs(alloc, 3, 1, RISING, &cells)?;
    let wanted = vec![in alloc;
        Kind::RowCut(0, only(RIGHT).with(last)),
        Kind::RowCut(0, only(last)),
    ]?;
    assert!(rt; rows(alloc, &row)? == wanted);
    Ok(())
}

#[test]
fn the_halves_of_a_row(rt: HostRuntime) -> Result<(), Fail> {
    let alloc = rt.alloc();
    let row = with_pairs(alloc, 2, 1, RISING, &[[ORIGIN, RIGHT]])?;
    let cells = [[ORIGIN, RIGHT], [ORIGIN, FAR], [ABOVE, FAR]];
    let wanted = vec![in alloc; child(alloc, RISING, &cells, [ORIGIN, FAR])?]?;
    assert!(rt; build(alloc, &row, &Kind::RowCut(0, only(RIGHT)))? == wanted);
    Ok(())
}

#[test]
fn the_halves_of_a_column(rt: HostRuntime) -> Result<(), Fail> {
    let alloc = rt.alloc();
    let column = with_pairs(alloc, 1, 2, FALLING, &[[ABOVE, ORIGIN]])?;
    let cells = [[ABOVE, ORIGIN], [ABOVE, RIGHT], [FAR, RIGHT]];
    let wanted = child(alloc, FALLING, &cells, [ABOVE, RIGHT])?;
    let first = only(ORIGIN);
    if !can_cut(Axis::Column, &column, 0, first) {
        return Err(Fail::from(RawFault::NotApplicable));
    }
    assert!(rt; cut_in_two(alloc, Axis::Column, &column, 0, first)? == wanted);
    Ok(())
}

#[test]
fn refused_are_other_sets_and_other_kinds(rt: HostRuntime) -> Result<(), Fail> {
    let alloc = rt.alloc();
    let row = with_pairs(alloc, 2, 1, RISING, &[[ORIGIN, RIGHT]])?;
    let left = Kind::RowCut(0, only(ORIGIN));
    let all = Kind::RowCut(0, only(ORIGIN).with(RIGHT));
    let kinds = vec![in alloc; left, all, Kind::RowCut(1, only(RIGHT)), Kind::Unit]?;
    for kind in &kinds {
        assert_eq!(rt; build(alloc, &row, kind), Err(RawFault::NotApplicable));
    }
    Ok(())
}

#[test]
fn eight_lines_are_too_many(rt: HostRuntime) -> Result<(), Fail> {
    let alloc = rt.alloc();
    let right = Cell { x: 1, y: 3 };
    for height in 7..9 {
        let tiling = with_pairs(alloc, 2, height, RISING, &[[Cell { x: 0, y: 3 }, right]])?;
        assert_eq!(rt; can_cut(Axis::Row, &tiling, 3, only(right)), height == 7);
    }
    Ok(())
}
