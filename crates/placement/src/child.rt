ghost use Rattle.std.specs.Prelude.{◌≡◌, ◌≤◌, ◌++◌, ◌+◌, true, flat_map, [], ◌∷◌, IfOk, All};
ghost use Rattle.std.specs.List.{list_all};
ghost use Rattle.tiling_core.specs.Tiles.{IsInGrid};
ghost use Rattle.gridded.specs.Orders.{cell_eq};
ghost use Rattle.gridded.specs.Small.{point_at};
ghost use Rattle.coord_maps.specs.GridMaps.{fits_old};
ghost use Rattle.coord_maps.specs.Stretches.{IsMapOf, preimages_of, each_preimages_of};
ghost use Rattle.rule_kinds.specs.Lines.{in_grid};
ghost use Rattle.rule_kinds.specs.Children.{placed, alone_in, lifts_pointed, is_beyond};
ghost use Rattle.placement.specs.Placing.{blank};

use crate::alone::add_alone;
use crate::lifting::{Sought, add_lifted};
use crate::map_around::{around, middle, pointed_cell};
use coord_maps::{GridMap, add_preimages};
use gridded::{Cell, Gridded};
use rule_kinds::{Direction, Pointed};
use sequences::Sequence;
use std::alloc::{AllocError, Global};
use tiling_core::Tiling;

/// Adds the preimages of each pattern.
fn add_all_preimages(
    map: &GridMap,
    patterns: &[Gridded],
    found: &mut Vec<Gridded>,
) -> Result<(), AllocError>
    requires { IsInGrid map.now.columns.lines map.now.rows.lines patterns.now }
    ensures { IfOk result (λ _. found.new.items ≡ found.old.items ++ preimages_of map.now patterns.now) }
{
    for pattern in patterns {
        add_preimages(map, pattern, found)?;
    }
    Ok(())
}

/// Adds the preimages of the patterns whose pointed point lies farther than the middle cell.
pub(crate) fn add_farther(
    alloc: Global,
    map: &GridMap,
    middle: Cell,
    direction: Direction,
    pointed: &[Pointed],
    found: &mut Vec<Gridded>,
) -> Result<(), AllocError>
    requires { list_all (λ q. fits_old map.now q.pattern) pointed.now ≡ true }
    ensures { IfOk result (λ _. found.new.items ≡ found.old.items ++ flat_map (lifts_pointed map.now (is_beyond direction middle)) pointed.now) }
{
    for each in pointed {
        add_lifted(alloc, map, middle, Sought::Beyond(direction), each, found)?;
    }
    Ok(())
}

/// The obstructions of a child: the preimages of the tiling's, what leaves one point on the lines of the middle cell,
/// and the farther preimages of all patterns.
fn child_obstructions(
    alloc: Global,
    map: &GridMap,
    middle: Cell,
    tiling: &Tiling,
    pointed: &[Pointed],
    direction: Direction,
) -> Result<Vec<Gridded>, AllocError>
    requires narrow { tiling.now.width ≤ 6 }
    requires low { tiling.now.height ≤ 6 }
    requires map_of { IsMapOf map.now tiling.now }
    requires inside { list_all (λ q. in_grid tiling.now q.pattern) pointed.now ≡ true }
    ensures { IfOk result (λ found. found.items ≡ preimages_of map.now tiling.now.obstructions ++ (alone_in (blank (tiling.now.width + 2) (tiling.now.height + 2)) middle ++ flat_map (lifts_pointed map.now (is_beyond direction middle)) pointed.now)) }
{
    let mut found = Vec::new(alloc);
    add_all_preimages(map, tiling.obstructions(), &mut found)?;
    add_alone(middle, tiling.width() + 2, tiling.height() + 2, &mut found)?;
    add_farther(alloc, map, middle, direction, pointed, &mut found)?;
    Ok(found)
}

/// Adds the preimages of each list.
fn add_stretched(
    alloc: Global,
    map: &GridMap,
    lists: &[Sequence<Gridded>],
    found: &mut Vec<Sequence<Gridded>>,
) -> Result<(), AllocError>
    requires { All (λ patterns. IsInGrid map.now.columns.lines map.now.rows.lines patterns) lists.now }
    ensures { IfOk result (λ _. found.new.items ≡ found.old.items ++ each_preimages_of map.now lists.now) }
{
    for patterns in lists {
        let mut lifted = Vec::new(alloc);
        add_all_preimages(map, patterns.as_slice(), &mut lifted)?;
        found.push(Sequence::of(lifted))?;
    }
    Ok(())
}

/// The lists of a child: the point in the middle cell, the preimages of its pattern whose pointed point is there, and
/// the preimages of the tiling's lists.
pub(crate) fn child_lists(
    alloc: Global,
    map: &GridMap,
    middle: Cell,
    tiling: &Tiling,
    at: &Pointed,
) -> Result<Vec<Sequence<Gridded>>, AllocError>
    requires map_of { IsMapOf map.now tiling.now }
    requires inside { fits_old map.now at.now.pattern ≡ true }
    ensures { IfOk result (λ found. found.items ≡ (point_at middle ∷ []) ∷ lifts_pointed map.now (cell_eq middle) at.now ∷ each_preimages_of map.now tiling.now.requirements) }
{
    let mut point = Vec::new(alloc);
    point.push(Gridded::point_at(middle))?;
    let mut lifted = Vec::new(alloc);
    add_lifted(alloc, map, middle, Sought::Middle, at, &mut lifted)?;
    let mut found = Vec::new(alloc);
    found.push(Sequence::of(point))?;
    found.push(Sequence::of(lifted))?;
    add_stretched(alloc, map, tiling.requirements(), &mut found)?;
    Ok(found)
}

/// The child in which the farthest point is one that `at` points to, where `at` is one of the patterns.
pub(crate) fn child(
    alloc: Global,
    tiling: &Tiling,
    pointed: &[Pointed],
    direction: Direction,
    at: &Pointed,
) -> Result<Tiling, AllocError>
    requires narrow { tiling.now.width ≤ 6 }
    requires low { tiling.now.height ≤ 6 }
    requires inside { list_all (λ q. in_grid tiling.now q.pattern) pointed.now ≡ true }
    requires at_inside { in_grid tiling.now at.now.pattern ≡ true }
    ensures { IfOk result (λ child. child ≡ placed tiling.now pointed.now direction at.now) }
{
    let cell = pointed_cell(at);
    let map = around(tiling, cell);
    let middle = middle(cell);
    let obstructions = child_obstructions(alloc, &map, middle, tiling, pointed, direction)?;
    let lists = child_lists(alloc, &map, middle, tiling, at)?;
    Tiling::in_grid(tiling.width() + 2, tiling.height() + 2, obstructions, lists)
}
