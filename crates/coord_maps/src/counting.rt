ghost use Rattle.std.specs.Prelude.{◌≡◌, ◌≤◌, true, length, nat_eq, count_by};
ghost use Rattle.coord_maps.specs.GridMaps.{fits_old};
ghost use Rattle.coord_maps.specs.Preimages.{preimages};

use crate::grid_map::GridMap;
use gridded::{Cell, Gridded};

/// How many cells lie in the column that is cut, and how many in the row.
fn cut_cells(map: &GridMap, cells: &[Cell]) -> (usize, usize)
    ensures columns { result.0 ≡ count_by (λ c. nat_eq c.x map.now.columns.at) cells.now }
    ensures rows { result.1 ≡ count_by (λ c. nat_eq c.y map.now.rows.at) cells.now }
{
    let mut columns = 0;
    let mut rows = 0;
    for cell in cells {
        if map.columns.cuts(cell.x) {
            columns += 1;
        }
        if map.rows.cuts(cell.y) {
            rows += 1;
        }
    }
    (columns, rows)
}

/// The number of the gridded permutations of the new grid that collapse to `g`, which lies in the old grid
/// (docs/RULES.md, "Grid maps"). Columns and rows are chosen apart, each in as many ways as the points of the cut
/// line go, in order, into its parts. Takes no memory.
pub fn preimage_count(map: &GridMap, g: &Gridded) -> u64
    requires { fits_old map.now g.now ≡ true }
    ensures { result ≡ length (preimages map.now g.now) }
{
    map.kept();
    let (columns, rows) = cut_cells(map, g.cells());
    map.columns.ways(columns) * map.rows.ways(rows)
}
