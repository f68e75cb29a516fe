ghost use Rattle.std.specs.Prelude.{◌≡◌, ◌≤◌, true, length, take, IfOk};
ghost use Rattle.coord_maps.specs.GridMaps.{old_cells, collapse, fits_new};

use crate::grid_map::GridMap;
use gridded::{Cell, Gridded};
use std::alloc::{AllocError, Global};

/// The old cells of some new ones; past their end the corner.
fn old_cells(map: &GridMap, cells: &[Cell]) -> [Cell; 9]
    requires { length cells.now ≤ 9 }
    ensures { take (length cells.now) result ≡ old_cells map.now cells.now }
{
    let mut old = [Cell { x: 0, y: 0 }; 9];
    for (place, cell) in cells.iter().enumerate() {
        old[place] = map.old_cell(*cell);
    }
    old
}

/// The gridded permutation of the old grid with the letters of `g`, each point in the old cell of its own. `g`
/// lies in the new grid (docs/RULES.md, "Grid maps").
pub fn collapse(_alloc: Global, map: &GridMap, g: &Gridded) -> Result<Gridded, AllocError>
    requires { fits_new map.now g.now ≡ true }
    ensures { IfOk result (λ h. h ≡ collapse map.now g.now) }
{
    let letters = g.letters();
    let cells = old_cells(map, g.cells());
    Ok(Gridded::from_consistent(letters, &cells[..letters.len()]))
}
