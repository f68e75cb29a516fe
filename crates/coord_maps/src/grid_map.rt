ghost use Rattle.std.specs.Prelude.{◌≡◌};
ghost use Rattle.coord_maps.specs.GridMaps.{IsGridMap, old_cell};

use crate::line_map::LineMap;
use gridded::Cell;

/// A map of a grid: a map of its columns and one of its rows. It sends each cell of the new grid to the cell
/// of the old grid that it is a part of.
#[derive(Clone, Copy, Debug)]
pub struct GridMap {
    pub columns: LineMap,
    pub rows: LineMap,
}

impl GridMap {
    /// What every grid map keeps. It computes nothing.
    pub fn kept(&self)
        ensures { IsGridMap self.now }
    {
        self.columns.kept();
        self.rows.kept();
    }

    /// The old cell of a new one.
    pub(crate) fn old_cell(&self, cell: Cell) -> Cell
        ensures { result ≡ old_cell self.now cell }
    {
        Cell {
            x: self.columns.old_line(cell.x),
            y: self.rows.old_line(cell.y),
        }
    }
}
