// The cells of one line, by their places.
ghost use Rattle.std.specs.Prelude.{◌≡◌, ◌<◌, ◌≤◌, ◌&&◌};
ghost use Rattle.gridded.specs.Axes.{line_of, is_on, cell_on};
ghost use Rattle.gridded.specs.CellSets.{cells_that, is_among as has_cell};
ghost use Rattle.tiling_core.specs.Tiles.{IsTiling};
ghost use Rattle.tiling_core.specs.Patterns.{active_cells};
ghost use Rattle.rule_kinds.specs.Lines.{lines, active_on};
ghost use Rattle.separation.specs.OnLines.{IsOfLine, wanted_with};

use gridded::{Axis, Cell, CellSet};
use tiling_core::Tiling;

/// The cell at a place of a line.
pub(crate) fn cell_on(axis: Axis, line: u8, place: u8) -> Cell
    requires low { line < 8 }
    requires near { place < 8 }
    ensures value { result ≡ cell_on axis line place }
    ensures on_line { line_of axis result ≡ line }
    ensures left_in { result.x < 8 }
    ensures low_in { result.y < 8 }
{
    match axis {
        Axis::Column => Cell { x: line, y: place },
        Axis::Row => Cell { x: place, y: line },
    }
}

/// How many lines a tiling has.
pub(crate) fn lines(axis: Axis, tiling: &Tiling) -> u8
    ensures value { result ≡ lines axis tiling.now }
    ensures few { result ≤ 8 }
    ensures kept { IsTiling tiling.now }
{
    match axis {
        Axis::Column => tiling.width(),
        Axis::Row => tiling.height(),
    }
}

/// The set, and one more cell where it is wanted.
pub(crate) fn with_wanted(set: CellSet, cell: Cell, wanted: bool) -> CellSet
    requires left { cell.x < 8 }
    requires low { cell.y < 8 }
    ensures { result ≡ wanted_with set cell wanted }
{
    if wanted { set.with(cell) } else { set }
}

/// Whether a cell is in both sets.
fn is_shared(set: CellSet, other: CellSet, cell: Cell) -> bool
    requires left { cell.x < 8 }
    requires low { cell.y < 8 }
    ensures { result ≡ (has_cell set cell && has_cell other cell) }
{
    set.has(cell) && other.has(cell)
}

/// The cells of a line that are in both sets.
pub(crate) fn shared(axis: Axis, line: u8, set: CellSet, other: CellSet) -> CellSet
    requires { line < 8 }
    ensures { result ≡ cells_that (λ c. is_on axis line c && (has_cell set c && has_cell other c)) }
{
    let mut found = CellSet::none();
    for place in 0..8 {
        let cell = cell_on(axis, line, place);
        found = with_wanted(found, cell, is_shared(set, other, cell));
    }
    found
}

/// Of the active cells of a tiling, which are given, those of a line.
pub(crate) fn active_on(axis: Axis, tiling: &Tiling, active: CellSet, line: u8) -> CellSet
    requires low { line < 8 }
    requires active { active ≡ active_cells tiling.now }
    ensures value { result ≡ active_on axis line tiling.now }
    ensures of_line { IsOfLine axis line result }
{
    tiling.read();
    shared(axis, line, active, active)
}
