ghost use Rattle.std.specs.Prelude.{◌≡◌, ◌==◌, ◌++◌, cond, [], ◌∷◌, map, filter, IfOk};
ghost use Rattle.gridded.specs.declared.axis.Axis.TheVariants as axis;
ghost use Rattle.gridded.specs.Axes.{line_of};
ghost use Rattle.rule_kinds.specs.Lines.{lines};
ghost use Rattle.rule_kinds.specs.Kinds.{axis_of};
ghost use Rattle.rule_kinds.specs.Conditions.{applies};
ghost use Rattle.rule_kinds.specs.Choices.{line_placements};
ghost use Rattle.rule_kinds.specs.declared.kind.Direction.TheVariants.{North, South, East, West};
ghost use Rattle.placement.specs.Placing.{place_kind, cell_point};

use crate::directions::axis_of;
use crate::listing::add_both;
use gridded::{Axis, Cell, Gridded};
use rule_kinds::{Direction, Kind, Pointed};
use std::alloc::{AllocError, Global};
use tiling_core::{Tiling, active};

/// How many lines of an axis there are.
fn lines(tiling: &Tiling, axis: Axis) -> u8
    ensures { result ≡ lines axis tiling.now }
{
    match axis {
        Axis::Column => tiling.width(),
        Axis::Row => tiling.height(),
    }
}

/// Adds the point at a cell that lies on a line of an axis.
fn add_on_line(
    axis: Axis,
    line: u8,
    cell: Cell,
    points: &mut Vec<Pointed>,
) -> Result<(), AllocError>
    ensures { IfOk result (λ _. points.new.items ≡ points.old.items ++ cond (line_of axis cell == line) (cell_point cell ∷ []) []) }
{
    if cell.line(axis) == line {
        points.push(Pointed::of(Gridded::point_at(cell), 0))?;
    }
    Ok(())
}

/// The points at those of some cells that lie on a line of an axis.
fn points_on(
    alloc: Global,
    cells: &[Cell],
    axis: Axis,
    line: u8,
) -> Result<Vec<Pointed>, AllocError>
    ensures { IfOk result (λ points. points.items ≡ map cell_point (filter (λ c. line_of axis c == line) cells.now)) }
{
    let mut points = Vec::new(alloc);
    for cell in cells {
        add_on_line(axis, line, *cell, &mut points)?;
    }
    Ok(points)
}

/// For each line with an active cell, the placements of its points in two directions that compare such lines, where
/// they apply.
fn line_placements(
    alloc: Global,
    tiling: &Tiling,
    first: Direction,
    second: Direction,
) -> Result<Vec<Kind>, AllocError>
    requires { axis_of second ≡ axis_of first }
    ensures { IfOk result (λ kinds. kinds.items ≡ filter (applies tiling.now) (map place_kind (line_placements (axis_of first) first second tiling.now))) }
{
    let axis = axis_of(first);
    let cells = active(tiling).cells(alloc)?;
    let mut kinds = Vec::new(alloc);
    for line in 0..lines(tiling, axis) {
        let points = points_on(alloc, &cells, axis, line)?;
        add_both(alloc, tiling, &points, first, second, &mut kinds)?;
    }
    Ok(kinds)
}

/// The placements that are tried for the rows of a tiling: for each row from 0 on that has an active cell, that of the
/// points at its active cells in order, North and then South, where they apply. The refusal is want of memory
/// (docs/RULES.md, "Kinds of rules").
pub fn rows(alloc: Global, tiling: &Tiling) -> Result<Vec<Kind>, AllocError>
    ensures { IfOk result (λ kinds. kinds.items ≡ filter (applies tiling.now) (map place_kind (line_placements axis.Row North South tiling.now))) }
{
    line_placements(alloc, tiling, Direction::North, Direction::South)
}

/// The placements that are tried for the columns of a tiling: for each column from 0 on that has an active cell, that
/// of the points at its active cells in order, East and then West, where they apply. The refusal is want of memory
/// (docs/RULES.md, "Kinds of rules").
pub fn columns(alloc: Global, tiling: &Tiling) -> Result<Vec<Kind>, AllocError>
    ensures { IfOk result (λ kinds. kinds.items ≡ filter (applies tiling.now) (map place_kind (line_placements axis.Column East West tiling.now))) }
{
    line_placements(alloc, tiling, Direction::East, Direction::West)
}
