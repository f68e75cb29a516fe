ghost use Rattle.std.specs.Prelude.{◌≡◌, ◌<◌, ◌≤◌, ◌++◌, true, false, not, length, drop, filter, IfOk};
ghost use Rattle.std.specs.List.Sorted.{IsStrictlySortedBy};
ghost use Rattle.gridded.specs.Grids.{IsGridded, is_consistent};
ghost use Rattle.gridded.specs.CellSets.{is_among as has_cell};
ghost use Rattle.gridded.specs.Orders.{gridded_cmp};
ghost use Rattle.gridded.specs.Places.{touches};
ghost use Rattle.coord_maps.specs.GridMaps.{fits_old};
ghost use Rattle.coord_maps.specs.Preimages.{preimages, completions, placed_points, point_at};
ghost use Rattle.coord_maps.specs.Rooms.{IsRoom};

use crate::grid_map::GridMap;
use gridded::{Cell, CellSet, Gridded};
use std::alloc::{AllocError, Global};

/// The new columns from `left` to below `right`, and the new rows from `low` to `top`.
#[derive(Clone, Copy)]
struct Room {
    left: u8,
    right: u8,
    low: u8,
    top: u8,
}

/// Where the point at place `placed` may be: in the new cells that go to its own, right of the points before it,
/// whose cells are given, above those with lower letters and below those with higher ones.
fn room_of(map: &GridMap, g: &Gridded, cells: &[Cell; 9], placed: usize) -> Room
    requires inside { fits_old map.now g.now ≡ true }
    requires within { placed < length g.now }
    ensures { IsRoom map.now (placed_points g.now cells.now placed) (point_at g.now placed) result }
{
    map.kept();
    let letters = g.letters();
    let letter = letters[placed];
    let old = g.cells()[placed];
    let mut left = map.columns.first_line(old.x);
    let mut low = map.rows.first_line(old.y);
    let mut top = map.rows.end_line(old.y) - 1;
    for place in 0..placed {
        let cell = cells[place];
        left = left.max(cell.x);
        if letters[place] < letter {
            low = low.max(cell.y);
        } else {
            top = top.min(cell.y);
        }
    }
    Room {
        left,
        right: map.columns.end_line(old.x),
        low,
        top,
    }
}

/// Adds the preimages whose first points are in some cells, none of them barred, and whose other points are not in
/// barred cells either, in ascending order. A point that would be in a barred cell is left out with all that would
/// follow.
fn list_from(
    map: &GridMap,
    g: &Gridded,
    barred: CellSet,
    cells: [Cell; 9],
    placed: usize,
    found: &mut Vec<Gridded>,
) -> Result<(), AllocError>
    requires inside { fits_old map.now g.now ≡ true }
    requires within { placed ≤ length g.now }
    requires consistent { is_consistent (placed_points g.now cells placed) ≡ true }
    requires clear { touches (has_cell barred) (placed_points g.now cells placed) ≡ false }
    ensures gridded { IsGridded g.now }
    ensures added { IfOk result (λ _. found.new.items ≡ found.old.items ++ filter (λ h. not (touches (has_cell barred) h)) (completions map.now (placed_points g.now cells placed) (drop placed g.now))) }
{
    let letters = g.letters();
    if placed == letters.len() {
        found.push(Gridded::from_consistent(letters, &cells[..placed]))?;
        return Ok(());
    }
    let room = room_of(map, g, &cells, placed);
    for x in room.left..room.right {
        for y in room.low..room.top + 1 {
            let cell = Cell { x, y };
            if barred.has(cell) {
                continue;
            }
            let mut longer = cells;
            longer[placed] = cell;
            list_from(map, g, barred, longer, placed + 1, found)?;
        }
    }
    Ok(())
}

/// Adds all gridded permutations of the new grid that collapse to `g` at the end of a list, in ascending order.
/// `g` lies in the old grid (docs/RULES.md, "Grid maps").
pub fn add_preimages(map: &GridMap, g: &Gridded, found: &mut Vec<Gridded>) -> Result<(), AllocError>
    requires { fits_old map.now g.now ≡ true }
    ensures added { IfOk result (λ _. found.new.items ≡ found.old.items ++ preimages map.now g.now) }
    ensures ascending { IfOk result (λ _. IsStrictlySortedBy gridded_cmp (preimages map.now g.now)) }
{
    map.kept();
    list_from(map, g, CellSet::none(), [Cell { x: 0, y: 0 }; 9], 0, found)?;
    Ok(())
}

/// Adds the gridded permutations of the new grid that collapse to `g` and have no point in the barred cells at the
/// end of a list, in ascending order. The others are not gone through: what has a point in a barred cell is left out
/// as soon as that point is placed. `g` lies in the old grid (docs/RULES.md, "Grid maps").
pub fn add_preimages_outside(
    map: &GridMap,
    g: &Gridded,
    barred: CellSet,
    found: &mut Vec<Gridded>,
) -> Result<(), AllocError>
    requires { fits_old map.now g.now ≡ true }
    ensures added { IfOk result (λ _. found.new.items ≡ found.old.items ++ filter (λ h. not (touches (has_cell barred) h)) (preimages map.now g.now)) }
{
    map.kept();
    list_from(map, g, barred, [Cell { x: 0, y: 0 }; 9], 0, found)?;
    Ok(())
}

/// All gridded permutations of the new grid that collapse to `g`, in ascending order. `g` lies in the old grid
/// (docs/RULES.md, "Grid maps").
pub fn preimages(alloc: Global, map: &GridMap, g: &Gridded) -> Result<Vec<Gridded>, AllocError>
    requires { fits_old map.now g.now ≡ true }
    ensures value { IfOk result (λ found. found.items ≡ preimages map.now g.now) }
    ensures ascending { IfOk result (λ found. IsStrictlySortedBy gridded_cmp found.items) }
{
    let mut found = Vec::new(alloc);
    add_preimages(map, g, &mut found)?;
    Ok(found)
}
