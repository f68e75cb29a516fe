ghost use Rattle.std.specs.Prelude.{◌≡◌, ◌<◌, ◌↔◌, ◌&&◌, ◌||◌, true};
ghost use Rattle.lists.specs.Members.{IsIn};
ghost use Rattle.gridded.specs.declared.cell.Cell.{Cell};
ghost use Rattle.gridded.specs.CellSets.{cells_that, is_among as has_cell, IsCellSet};
ghost use Rattle.gridded.specs.Orders.{cell_eq, gridded_eq};
ghost use Rattle.tiling_core.specs.Tiles.{IsInGrid};
ghost use Rattle.gridded.specs.Places.{fits_grid};
ghost use Rattle.tiling_core.specs.Patterns.{active_cells, is_among, is_free, IsActive};
ghost use Rattle.gridded.specs.Small.{point_at};

use crate::tiling::Tiling;
use gridded::{Cell, CellSet, Gridded};

/// The set, and the cell where it is wanted.
fn with_wanted(set: CellSet, cell: Cell, wanted: bool) -> CellSet
    requires left { cell.x < 8 }
    requires low { cell.y < 8 }
    requires is_set { IsCellSet set }
    ensures { result ≡ cells_that (λ c. has_cell set c || (cell_eq c cell && wanted)) }
{
    if wanted { set.with(cell) } else { set }
}

/// The set, and the cell of a pattern of one point.
fn with_point(set: CellSet, pattern: &Gridded) -> CellSet
    requires inside { fits_grid 8 8 pattern.now ≡ true }
    requires is_set { IsCellSet set }
    ensures { result ≡ cells_that (λ c. has_cell set c || gridded_eq (point_at c) pattern.now) }
{
    if pattern.len() == 1 {
        set.with(pattern.cells()[0])
    } else {
        set
    }
}

/// The cells that have their point among the patterns.
fn point_cells(patterns: &[Gridded]) -> CellSet
    requires { IsInGrid 8 8 patterns.now }
    ensures { result ≡ cells_that (λ c. is_among patterns.now (point_at c)) }
{
    let mut cells = CellSet::none();
    for pattern in patterns {
        cells = with_point(cells, pattern);
    }
    cells
}

/// Whether a cell lies in the grid and is none of the forbidden ones.
fn is_free(tiling: &Tiling, forbidden: CellSet, cell: Cell) -> bool
    requires left { cell.x < 8 }
    requires low { cell.y < 8 }
    ensures { result ≡ is_free tiling.now.width tiling.now.height forbidden cell }
{
    cell.x < tiling.width() && cell.y < tiling.height() && !forbidden.has(cell)
}

/// The cells of the grid whose one-point pattern is no obstruction. Takes no memory.
pub fn active(tiling: &Tiling) -> CellSet
    ensures value { result ≡ active_cells tiling.now }
    ensures meaning { (c : Cell) → IsIn c result ↔ IsActive tiling.now c }
{
    let forbidden = point_cells(tiling.obstructions());
    let mut active = CellSet::none();
    for number in 0..64 {
        let cell = Cell {
            x: number / 8,
            y: number % 8,
        };
        active = with_wanted(active, cell, is_free(tiling, forbidden, cell));
    }
    active
}
