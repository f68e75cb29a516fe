ghost use Rattle.std.specs.Prelude.{◌<◌, length};

use crate::{Direction, Kind, Pointed, RawFault, raw_children};
use gridded::{Cell, CellSet, Gridded, GriddedFault};
use normal_form::normalise;
use sequences::Sequence;
use std::alloc::Global;
use std::test::Fail;
use steps::Step;
use tiling_core::Tiling;

const CORNER: Cell = Cell { x: 0, y: 0 };

const ABOVE: Cell = Cell { x: 0, y: 1 };

const BESIDE: Cell = Cell { x: 1, y: 0 };

const FAR: Cell = Cell { x: 1, y: 1 };

/// One point.
fn dot(alloc: Global, cell: Cell) -> Result<Gridded, GriddedFault> {
    Gridded::of(alloc, &[0], &[cell])
}

/// Two points, the right one higher.
fn rising(alloc: Global, left: Cell, right: Cell) -> Result<Gridded, GriddedFault> {
    Gridded::of(alloc, &[0, 1], &[left, right])
}

/// The set of one cell.
fn only(cell: Cell) -> CellSet
    requires left { cell.x < 8 }
    requires low { cell.y < 8 }
{
    CellSet::none().with(cell)
}

/// The row of two cells, no point of the right one above one of the left.
fn row(alloc: Global) -> Result<Tiling, Fail> {
    let obstructions = vec![in alloc; rising(alloc, CORNER, BESIDE)?]?;
    Ok(Tiling::of(alloc, 2, 1, obstructions, Vec::new(alloc))?)
}

#[test]
fn a_row_is_cut_in_two(rt: HostRuntime) -> Result<(), Fail> {
    let alloc = rt.alloc();
    let children = raw_children(alloc, &row(alloc)?, &Kind::RowCut(0, only(BESIDE)))?;
    let obstructions = vec![in alloc;
        dot(alloc, CORNER)?,
        dot(alloc, FAR)?,
        rising(alloc, CORNER, BESIDE)?,
        rising(alloc, CORNER, FAR)?,
        rising(alloc, ABOVE, FAR)?,
    ]?;
    let child = Tiling::of(alloc, 2, 2, obstructions, Vec::new(alloc))?;
    assert_eq!(rt; children, vec![in alloc; child]?);
    Ok(())
}

#[test]
fn the_upper_cell_is_not_cut_off(rt: HostRuntime) -> Result<(), Fail> {
    let alloc = rt.alloc();
    let kinds = vec![in alloc;
        Kind::RowCut(0, only(CORNER)),
        Kind::RowCut(1, only(BESIDE)),
        Kind::ColumnCut(0, only(CORNER)),
    ]?;
    for kind in &kinds {
        assert_eq!(rt;
            raw_children(alloc, &row(alloc)?, kind),
            Err(RawFault::NotApplicable)
        );
    }
    Ok(())
}

#[test]
fn a_column_is_cut_in_two(rt: HostRuntime) -> Result<(), Fail> {
    let alloc = rt.alloc();
    let obstructions = vec![in alloc; rising(alloc, CORNER, ABOVE)?]?;
    let column = Tiling::of(alloc, 1, 2, obstructions, Vec::new(alloc))?;
    let children = raw_children(alloc, &column, &Kind::ColumnCut(0, only(ABOVE)))?;
    let obstructions = vec![in alloc;
        dot(alloc, CORNER)?,
        dot(alloc, FAR)?,
        rising(alloc, CORNER, ABOVE)?,
        rising(alloc, CORNER, FAR)?,
        rising(alloc, BESIDE, FAR)?,
    ]?;
    let child = Tiling::of(alloc, 2, 2, obstructions, Vec::new(alloc))?;
    assert_eq!(rt; children, vec![in alloc; child]?);
    Ok(())
}

/// The 2x2 tiling with these obstructions.
fn square(alloc: Global, obstructions: Vec<Gridded>) -> Result<Tiling, Fail>
    requires { length obstructions.items < 268435456 }
{
    Ok(Tiling::of(alloc, 2, 2, obstructions, Vec::new(alloc))?)
}

#[test]
fn cells_that_share_no_line_are_factors(rt: HostRuntime) -> Result<(), Fail> {
    let alloc = rt.alloc();
    let corner = dot(alloc, CORNER)?;
    let far = dot(alloc, FAR)?;
    let beside = dot(alloc, BESIDE)?;
    let above = dot(alloc, ABOVE)?;
    let whole = square(alloc, vec![in alloc; corner, far]?)?;
    let sets = vec![in alloc; only(ABOVE), only(BESIDE)]?;
    let factors = raw_children(alloc, &whole, &Kind::Factor(Sequence::of(sets)))?;
    let left = square(alloc, vec![in alloc; corner, beside, far]?)?;
    let right = square(alloc, vec![in alloc; corner, above, far]?)?;
    assert_eq!(rt; factors, vec![in alloc; left, right]?);
    Ok(())
}

/// Three points in one cell, the first the lowest and the second the highest.
fn first_lowest(alloc: Global, cell: Cell) -> Result<Gridded, GriddedFault> {
    Gridded::of(alloc, &[0, 2, 1], &[cell, cell, cell])
}

/// The tiling of a highest point at (1, 1) with points to its left and right, the ones on the left above the others.
fn around_the_highest(alloc: Global) -> Result<Tiling, Fail> {
    let obstructions = vec![in alloc;
        dot(alloc, ABOVE)?,
        dot(alloc, BESIDE)?,
        dot(alloc, Cell { x: 2, y: 1 })?,
        rising(alloc, CORNER, Cell { x: 2, y: 0 })?,
        rising(alloc, FAR, FAR)?,
        Gridded::of(alloc, &[1, 0], &[FAR, FAR])?,
        first_lowest(alloc, CORNER)?,
        first_lowest(alloc, Cell { x: 2, y: 0 })?,
    ]?;
    let highest = vec![in alloc; Sequence::of(vec![in alloc; dot(alloc, FAR)?]?)]?;
    Ok(Tiling::of(alloc, 3, 2, obstructions, highest)?)
}

/// The void tiling.
fn void(alloc: Global) -> Result<Tiling, Fail> {
    let nothing = vec![in alloc; Gridded::of(alloc, &[], &[])?]?;
    Ok(Tiling::of(alloc, 0, 0, nothing, Vec::new(alloc))?)
}

#[test]
fn the_highest_point_is_placed_again(rt: HostRuntime) -> Result<(), Fail> {
    let alloc = rt.alloc();
    let whole = around_the_highest(alloc)?;
    let pointed = vec![in alloc; Pointed::of(Gridded::point_at(FAR), 0)]?;
    let kind = Kind::Place(Sequence::of(pointed), Direction::North);
    let mut left = Vec::new(alloc);
    let mut traces = Vec::new(alloc);
    for child in raw_children(alloc, &whole, &kind)? {
        let (tiling, trace) = normalise(alloc, child)?;
        left.push(tiling)?;
        traces.push(trace)?;
    }
    assert_eq!(rt; left, vec![in alloc; void(alloc)?, whole]?);
    let nothing = vec![in alloc; Step::Min, Step::Lists, Step::Void]?;
    let again = vec![in alloc;
        Step::Min,
        Step::Clean(Cell { x: 2, y: 2 }),
        Step::Min,
        Step::Lists,
        Step::Column(1),
        Step::Column(2),
        Step::Row(1),
        Step::Row(2),
    ]?;
    assert_eq!(rt; traces, vec![in alloc; nothing, again]?);
    Ok(())
}

/// The 4x3 tiling of one point at a cell, which is spelled by two digits, as are the cells without points.
fn one_point_in(alloc: Global, place: u8, cells: &[u8]) -> Result<Tiling, Fail> {
    let at = Cell {
        x: place / 10,
        y: place % 10,
    };
    let mut obstructions = vec![in alloc; rising(alloc, at, at)?, Gridded::falling(at, at)]?;
    for cell in cells {
        obstructions.push(Gridded::point_at(Cell {
            x: cell / 10,
            y: cell % 10,
        }))?;
    }
    if obstructions.len() > 20 {
        return Err(Fail::from("few cells"));
    }
    let list = vec![in alloc; Sequence::of(vec![in alloc; Gridded::point_at(at)]?)]?;
    Ok(Tiling::of(alloc, 4, 3, obstructions, list)?)
}

#[test]
fn the_lowest_point_of_a_row_is_placed(rt: HostRuntime) -> Result<(), Fail> {
    let alloc = rt.alloc();
    let whole = Tiling::of(alloc, 2, 1, Vec::new(alloc), Vec::new(alloc))?;
    let left = Pointed::of(Gridded::point_at(CORNER), 0);
    let right = Pointed::of(Gridded::point_at(BESIDE), 0);
    let kind = Kind::Place(Sequence::of(vec![in alloc; left, right]?), Direction::South);
    let points = vec![in alloc; dot(alloc, CORNER)?, dot(alloc, BESIDE)?]?;
    let wanted = vec![in alloc;
        Tiling::of(alloc, 2, 1, points, Vec::new(alloc))?,
        one_point_in(alloc, 11, &[0, 1, 10, 12, 20, 21, 30, 31])?,
        one_point_in(alloc, 21, &[0, 1, 10, 11, 20, 22, 30, 31])?,
    ]?;
    assert_eq!(rt; raw_children(alloc, &whole, &kind)?, wanted);
    Ok(())
}
