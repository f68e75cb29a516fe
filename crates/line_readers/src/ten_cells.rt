ghost use Rattle.std.specs.Prelude.{◌≡◌, ◌≤◌, ◌<◌, ◌++◌, ◌∷◌, [], length};

use gridded::Cell;
use std::marker::Model;

/// At most ten cells. Contracts see the list of them.
#[derive(Drop)]
pub(crate) struct TenCells {
    cells: [Cell; 10],
    len: usize,
}

impl Model for TenCells {
    ghost use Rattle.std.specs.Prelude.{List, take, ◌≤◌};
    ghost use Rattle.gridded.specs.declared.cell.Cell.{Cell};

    ghost Value = { List Cell };

    ghost view = { λ s. take s.len s.cells };

    ghost invariant = { λ s. s.len ≤ 10 };
}

impl TenCells {
    /// No cell.
    pub(crate) fn none() -> TenCells
        ensures { result ≡ [] }
    {
        TenCells {
            cells: [Cell { x: 0, y: 0 }; 10],
            len: 0,
        }
    }

    /// One cell more.
    pub(crate) fn push(&mut self, cell: Cell)
        requires { length self.old < 10 }
        ensures { self.new ≡ self.old ++ cell ∷ [] }
    {
        self.cells[self.len] = cell;
        self.len += 1;
    }

    /// The cells.
    pub(crate) fn as_slice(&self) -> &[Cell]
        ensures value { result.now ≡ self.now }
        ensures short { length result.now ≤ 10 }
    {
        &self.cells[..self.len]
    }
}
