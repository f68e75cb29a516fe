use crate::{build, can_place, columns, placed, placed_thinned, points, rows};
use gridded::{Cell, Gridded};
use rule_kinds::{Direction, Kind, Pointed, RawFault};
use sequences::Sequence;
use std::alloc::{AllocError, Global};
use std::test::Fail;
use tiling_core::Tiling;

/// The point at the cell of two digits, column and row.
fn dot(number: u8) -> Gridded {
    Gridded::point_at(Cell {
        x: number / 10,
        y: number % 10,
    })
}

/// The pattern 10:00.00.
fn pair() -> Gridded {
    let corner = Cell { x: 0, y: 0 };
    Gridded::falling(corner, corner)
}

/// The grid with nothing forbidden.
fn grid(alloc: Global, width: u8, height: u8) -> Result<Tiling, Fail> {
    Ok(Tiling::of(alloc, width, height, Vec::new(alloc), Vec::new(alloc))?)
}

/// A pattern with one of its places.
fn pointing(pattern: Gridded, place: u8) -> Result<Pointed, AllocError> {
    if u32::from(place) >= pattern.len() {
        return Err(AllocError);
    }
    Ok(Pointed::of(pattern, place))
}

/// The child with the pattern, where it can be placed in a grid with nothing forbidden.
fn child(alloc: Global, side: u8, pointed: Pointed, direction: Direction) -> Result<Tiling, Fail> {
    let tiling = grid(alloc, side, side)?;
    let pointed = [pointed];
    if !can_place(&tiling, &pointed, direction) {
        return Ok(tiling);
    }
    match placed(alloc, &tiling, &pointed, direction)?.pop() {
        Some(child) => Ok(child),
        None => Ok(tiling),
    }
}

/// Whether the point of 01 is placed in the 2x2 grid so that ten patterns are forbidden, with these points farther.
fn forbids(alloc: Global, direction: Direction, first: u8, second: u8) -> Result<bool, Fail> {
    let child = child(alloc, 2, pointing(dot(1), 0)?, direction)?;
    Ok(
        child.obstructions().len() == 10
            && child.forbids(&dot(first))
            && child.forbids(&dot(second)),
    )
}

#[test]
fn a_point_is_placed_in_each_direction(rt: HostRuntime) -> Result<(), Fail> {
    let alloc = rt.alloc();
    assert!(rt; forbids(alloc, Direction::North, 3, 23)?);
    assert!(rt; forbids(alloc, Direction::South, 1, 21)?);
    assert!(rt; forbids(alloc, Direction::East, 21, 23)?);
    assert!(rt; forbids(alloc, Direction::West, 1, 3)?);
    Ok(())
}

#[test]
fn a_pair_is_placed_by_either_point(rt: HostRuntime) -> Result<(), Fail> {
    let alloc = rt.alloc();
    let higher = child(alloc, 1, pointing(pair(), 1)?, Direction::North)?;
    let top = Cell { x: 2, y: 2 };
    assert!(rt; higher.obstructions().len() == 12 && higher.forbids(&Gridded::falling(top, top)));
    let lower = child(alloc, 1, pointing(pair(), 0)?, Direction::South)?;
    assert!(rt; lower.obstructions().len() == 12 && lower.forbids(&pair()));
    Ok(())
}

/// The placement of the points at these cells.
fn placing(alloc: Global, numbers: &[u8], direction: Direction) -> Result<Kind, AllocError> {
    let mut pointed = Vec::new(alloc);
    for number in numbers {
        pointed.push(pointing(dot(*number), 0)?)?;
    }
    Ok(Kind::Place(Sequence::of(pointed), direction))
}

/// Whether a kind is refused in a grid of one row with nothing forbidden.
fn is_refused(alloc: Global, width: u8, kind: &Kind) -> Result<bool, Fail> {
    Ok(build(alloc, &grid(alloc, width, 1)?, kind) == Err(RawFault::NotApplicable))
}

#[test]
fn placements_are_refused(rt: HostRuntime) -> Result<(), Fail> {
    let alloc = rt.alloc();
    assert!(rt; is_refused(alloc, 1, &placing(alloc, &[0, 0], Direction::North)?)?);
    assert!(rt; is_refused(alloc, 1, &placing(alloc, &[10], Direction::North)?)?);
    assert!(rt; is_refused(alloc, 2, &placing(alloc, &[0, 10], Direction::East)?)?);
    assert!(rt; is_refused(alloc, 7, &placing(alloc, &[0], Direction::North)?)?);
    assert!(rt; is_refused(alloc, 0, &Kind::Unit)?);
    Ok(())
}

#[test]
fn two_points_of_a_row_are_placed_together(rt: HostRuntime) -> Result<(), Fail> {
    let alloc = rt.alloc();
    let kind = placing(alloc, &[0, 10], Direction::North)?;
    assert_eq!(rt; build(alloc, &grid(alloc, 2, 1)?, &kind)?.len(), 3);
    Ok(())
}

#[test]
fn lines_with_active_cells_are_placed(rt: HostRuntime) -> Result<(), Fail> {
    let alloc = rt.alloc();
    let tiling = grid(alloc, 2, 1)?;
    let in_rows = rows(alloc, &tiling)?;
    assert!(rt; in_rows.len() == 2 && in_rows[1] == placing(alloc, &[0, 10], Direction::South)?);
    let in_columns = columns(alloc, &tiling)?;
    assert!(rt; in_columns.len() == 4 && in_columns[2] == placing(alloc, &[10], Direction::East)?);
    assert_eq!(rt; points(alloc, &tiling)?.len(), 0);
    Ok(())
}

/// The 1x1 tiling in which the pattern 10:00.00 is required.
fn with_pair(alloc: Global) -> Result<Tiling, Fail> {
    let lists = vec![in alloc; Sequence::of(vec![in alloc; pair()]?)]?;
    Ok(Tiling::of(alloc, 1, 1, Vec::new(alloc), lists)?)
}

#[test]
fn both_points_of_a_required_pair_are_placed(rt: HostRuntime) -> Result<(), Fail> {
    let alloc = rt.alloc();
    let kinds = points(alloc, &with_pair(alloc)?)?;
    let last = vec![in alloc; pointing(pair(), 1)?]?;
    assert!(rt; kinds.len() == 8 && kinds[7] == Kind::Place(Sequence::of(last), Direction::West));
    Ok(())
}

/// The pattern 10:00.00 has 36 preimages, of which 12 have no point beside the middle; seven other patterns are
/// forbidden in the child of the point.
#[test]
fn what_has_a_point_beside_the_middle_is_left_out(rt: HostRuntime) -> Result<(), Fail> {
    let alloc = rt.alloc();
    let obstructions = vec![in alloc; pair()]?;
    let tiling = Tiling::of(alloc, 1, 1, obstructions, Vec::new(alloc))?;
    let pointed = [pointing(dot(0), 0)?];
    if !can_place(&tiling, &pointed, Direction::North) {
        return Err(AllocError.into());
    }
    let whole = placed(alloc, &tiling, &pointed, Direction::North)?;
    let thinned = placed_thinned(alloc, &tiling, &pointed, Direction::North)?;
    assert!(rt; whole.len() == 2 && whole[1].obstructions().len() == 43);
    assert!(rt; thinned.len() == 2 && !thinned[0].1 && thinned[0].0 == whole[0]);
    assert!(rt; thinned[1].1 && thinned[1].0.obstructions().len() == 19);
    Ok(())
}
