ghost use Rattle.std.specs.Prelude.{◌≡◌, ◌<◌, ◌≤◌, ℕ, true};
ghost use Rattle.gridded.specs.Laws.{IsCellOf};
ghost use Rattle.gridded.specs.Places.{fits_grid};
ghost use Rattle.rule_kinds.specs.Kinds.{pointed_cell};
ghost use Rattle.rule_kinds.specs.Children.{around, middle};

use coord_maps::{GridMap, LineMap};
use gridded::Cell;
use rule_kinds::Pointed;
use tiling_core::Tiling;

/// The cell of the pointed point, which lies in each grid where its pattern lies.
#[tactic(auto, using(crate::proofs::Inside::pointed_inside))]
pub(crate) fn pointed_cell(pointed: &Pointed) -> Cell
    ensures value { result ≡ pointed_cell pointed.now }
    ensures inside { (w h : ℕ) → fits_grid w h pointed.now.pattern ≡ true → IsCellOf w h result }
{
    pointed.pattern().cells()[usize::from(pointed.index())]
}

/// The map that cuts the column and the row of a cell of the grid into three each.
pub(crate) fn around(tiling: &Tiling, cell: Cell) -> GridMap
    requires narrow { tiling.now.width ≤ 6 }
    requires low { tiling.now.height ≤ 6 }
    requires column { cell.x < tiling.now.width }
    requires row { cell.y < tiling.now.height }
    ensures { result ≡ around tiling.now cell }
{
    GridMap {
        columns: LineMap::cut(tiling.width(), cell.x, 3),
        rows: LineMap::cut(tiling.height(), cell.y, 3),
    }
}

/// The cell in the middle of what a cell is cut into.
pub(crate) fn middle(cell: Cell) -> Cell
    requires column { cell.x < 8 }
    requires row { cell.y < 8 }
    ensures { result ≡ middle cell }
{
    Cell {
        x: cell.x + 1,
        y: cell.y + 1,
    }
}
