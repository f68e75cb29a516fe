// What a tiling forbids, and where the points of a pattern lie.
ghost use Rattle.std.specs.Prelude.{◌≡◌, ◌≤◌};
ghost use Rattle.std.specs.List.{list_any};
ghost use Rattle.gridded.specs.Grids.{holds};
ghost use Rattle.tiling_core.specs.Patterns.{forbids};
ghost use Rattle.gridded.specs.Axes.{is_on, cell_on};
ghost use Rattle.gridded.specs.Places.{touches};
ghost use Rattle.gridded.specs.Axes.{line_of, across};
ghost use Rattle.tiling_core.specs.Tiles.{IsTiling};
ghost use Rattle.steps.specs.Steps.{misses, sides};

use gridded::{Axis, Cell, Gridded, holds};
use tiling_core::Tiling;

/// Whether a pattern is an obstruction. Takes no memory.
pub(crate) fn forbids(tiling: &Tiling, pattern: &Gridded) -> bool
    ensures { result ≡ forbids tiling.now pattern.now }
{
    tiling.obstructions().iter().any(|g| *pattern == *g)
}

/// Whether one of the patterns is held. Takes no memory.
pub(crate) fn holds_one(g: &Gridded, patterns: &[Gridded]) -> bool
    ensures { result ≡ list_any (holds g.now) patterns.now }
{
    patterns.iter().any(|pattern| holds(g, pattern))
}

/// Whether a cell is on a line.
fn is_on(cell: Cell, axis: Axis, line: u8) -> bool
    ensures { result ≡ is_on axis line cell }
{
    cell.line(axis) == line
}

/// Whether a pattern has a point on a line.
fn touches(g: &Gridded, axis: Axis, line: u8) -> bool
    ensures { result ≡ touches (is_on axis line) g.now }
{
    g.cells().iter().any(|cell| is_on(*cell, axis, line))
}

/// Whether a pattern has no point on a line. Takes no memory.
pub(crate) fn misses(g: &Gridded, axis: Axis, line: u8) -> bool
    ensures { result ≡ misses axis line g.now }
{
    !touches(g, axis, line)
}

/// The numbers of columns and of rows.
pub(crate) fn sides(tiling: &Tiling) -> Cell
    ensures value { result ≡ sides tiling.now }
    ensures kept { IsTiling tiling.now }
{
    Cell {
        x: tiling.width(),
        y: tiling.height(),
    }
}

/// How many cells a line has.
pub(crate) fn cells_across(tiling: &Tiling, axis: Axis) -> u8
    ensures value { result ≡ line_of (across axis) (sides tiling.now) }
    ensures few { result ≤ 8 }
{
    match axis {
        Axis::Column => tiling.height(),
        Axis::Row => tiling.width(),
    }
}

/// The cell at a place of a line.
pub(crate) fn cell_on(axis: Axis, line: u8, place: u8) -> Cell
    ensures { result ≡ cell_on axis line place }
{
    Cell { x: place, y: place }.with_line(axis, line)
}
