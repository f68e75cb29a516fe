ghost use Rattle.std.specs.Prelude.{◌≡◌};
ghost use Rattle.gridded.specs.Axes.{line_of, with_line};

use crate::cell::Cell;

/// The lines of a grid are its columns or its rows.
#[derive(Clone, Copy, Debug, PartialEq, Eq)]
pub enum Axis {
    Column,
    Row,
}

impl Cell {
    /// The number of the cell's line: its column x or its row y. Takes no memory.
    pub fn line(self, axis: Axis) -> u8
        ensures { result ≡ line_of axis self }
    {
        match axis {
            Axis::Column => self.x,
            Axis::Row => self.y,
        }
    }

    /// The cell at the same place of another line. Takes no memory.
    pub fn with_line(self, axis: Axis, line: u8) -> Cell
        ensures { result ≡ with_line axis line self }
    {
        match axis {
            Axis::Column => Cell { x: line, y: self.y },
            Axis::Row => Cell { x: self.x, y: line },
        }
    }
}
