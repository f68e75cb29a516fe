ghost use Rattle.std.specs.Prelude.{◌≡◌, ◌≤◌, IfOk};
ghost use Rattle.gridded.specs.Grids.{points};

use crate::{
    GridMap, LineMap, add_preimages, add_preimages_outside, collapse, preimage_count, preimages,
    preimages_are_listed_once, stretch, stretch_keeps_members,
};
use gridded::{Cell, CellSet, Gridded, GriddedFault};
use sequences::Sequence;
use std::alloc::Global;
use std::test::Fail;
use tiling_core::Tiling;

const fn cell(x: u8, y: u8) -> Cell
    ensures { result ≡ record { x = x; y = y } }
{
    Cell { x, y }
}

/// Column 0 and row 0 of 1x1, cut into parts.
fn single(columns: u8, rows: u8) -> GridMap
    requires some_columns { 1 ≤ columns }
    requires few_columns { columns ≤ 8 }
    requires some_rows { 1 ≤ rows }
    requires few_rows { rows ≤ 8 }
    ensures { result ≡ record { columns = record { lines = 1; at = 0; parts = columns }; rows = record { lines = 1; at = 0; parts = rows } } }
{
    GridMap {
        columns: LineMap::cut(1, 0, columns),
        rows: LineMap::cut(1, 0, rows),
    }
}

/// Two points in cells.
fn pair(alloc: Global, letters: [u8; 2], cells: [Cell; 2]) -> Result<Gridded, GriddedFault>
    ensures { IfOk result (λ g. g ≡ points letters cells) }
{
    Gridded::of(alloc, letters.as_slice(), cells.as_slice())
}

#[test]
fn collapse_keeps_letters_and_maps_cells(rt: HostRuntime) -> Result<(), Fail> {
    let alloc = rt.alloc();
    let map = single(3, 3);
    let apart = pair(alloc, [0, 1], [cell(1, 1), cell(2, 2)])?;
    let joined = pair(alloc, [0, 1], [cell(0, 0), cell(0, 0)])?;
    assert_eq!(rt; collapse(alloc, &map, &apart)?, joined);
    Ok(())
}

#[test]
fn collapse_lowers_later_lines(rt: HostRuntime) -> Result<(), Fail> {
    let alloc = rt.alloc();
    let map = GridMap {
        columns: LineMap::cut(2, 1, 2),
        rows: LineMap::cut(2, 0, 3),
    };
    let above = pair(alloc, [0, 1], [cell(0, 2), cell(2, 3)])?;
    let below = pair(alloc, [0, 1], [cell(0, 0), cell(1, 1)])?;
    assert_eq!(rt; collapse(alloc, &map, &above)?, below);
    Ok(())
}

#[test]
fn preimages_of_a_rising_pair(rt: HostRuntime) -> Result<(), Fail> {
    let alloc = rt.alloc();
    let map = single(3, 3);
    let rising = pair(alloc, [0, 1], [cell(0, 0), cell(0, 0)])?;
    let mut listed = preimages(alloc, &map, &rising)?;
    assert_eq!(rt; listed.len(), 36);
    add_preimages(&map, &rising, &mut listed)?;
    assert_eq!(rt; listed.len(), 72);
    assert_eq!(rt; preimage_count(&map, &rising), 36);
    Ok(())
}

/// A point in one of the five cells left, and a second one right of and above it or in its lines.
#[test]
fn preimages_outside_the_middle_cross(rt: HostRuntime) -> Result<(), Fail> {
    let alloc = rt.alloc();
    let map = single(3, 3);
    let rising = pair(alloc, [0, 1], [cell(0, 0), cell(0, 0)])?;
    let sides = CellSet::none().with(cell(0, 1)).with(cell(2, 1));
    let cross = sides.with(cell(1, 0)).with(cell(1, 2));
    let mut listed = Vec::new(alloc);
    add_preimages_outside(&map, &rising, cross, &mut listed)?;
    assert_eq!(rt; listed.len(), 5 + 2 + 2 + 2 + 1);
    let second_barred = pair(alloc, [0, 1], [cell(0, 0), cell(1, 2)])?;
    let middle = pair(alloc, [0, 1], [cell(0, 0), cell(1, 1)])?;
    assert!(rt; !listed.contains(&second_barred));
    assert!(rt; listed.contains(&middle));
    add_preimages_outside(&map, &rising, CellSet::none(), &mut listed)?;
    assert_eq!(rt; listed.len(), 12 + 36);
    Ok(())
}

#[test]
fn columns_and_rows_are_told_apart(rt: HostRuntime) -> Result<(), Fail> {
    let alloc = rt.alloc();
    let falling = pair(alloc, [1, 0], [cell(0, 0), cell(0, 0)])?;
    let right = pair(alloc, [1, 0], [cell(0, 0), cell(1, 0)])?;
    let up = pair(alloc, [1, 0], [cell(0, 1), cell(0, 0)])?;
    let by_columns = preimages(alloc, &single(2, 1), &falling)?;
    assert_eq!(rt; by_columns.len(), 3);
    assert!(rt; by_columns.contains(&right));
    let by_rows = preimages(alloc, &single(1, 2), &falling)?;
    assert_eq!(rt; by_rows.len(), 3);
    assert!(rt; by_rows.contains(&up));
    Ok(())
}

#[test]
fn stretch_replaces_each_pattern(rt: HostRuntime) -> Result<(), Fail> {
    let alloc = rt.alloc();
    let rising = pair(alloc, [0, 1], [cell(0, 0), cell(0, 0)])?;
    let falling = pair(alloc, [1, 0], [cell(0, 0), cell(0, 0)])?;
    let list = Sequence::of(vec![in alloc; falling]?);
    let tiling = Tiling::of(alloc, 1, 1, vec![in alloc; rising]?, vec![in alloc; list]?)?;
    let stretched = stretch(alloc, &single(3, 3), &tiling)?;
    assert_eq!(rt; (stretched.width(), stretched.height()), (3, 3));
    assert_eq!(rt; stretched.obstructions().len(), 36);
    assert_eq!(rt; stretched.lists(), 1);
    Ok(())
}

#[test]
fn laws_compute_nothing() {
    preimages_are_listed_once();
    stretch_keeps_members();
}
