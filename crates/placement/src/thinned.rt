// The children of a placement without the obstructions that hold the single point of a barred cell.
ghost use Rattle.std.specs.Prelude.{◌≡◌, ◌≤◌, ◌+◌, true, IfOk};
ghost use Rattle.std.specs.List.{list_all};
ghost use Rattle.tiling_core.specs.Tiles.{IsTiling};
ghost use Rattle.normal_form.specs.Thinned.{IsThinned};
ghost use Rattle.coord_maps.specs.Stretches.{IsMapOf};
ghost use Rattle.rule_kinds.specs.Lines.{in_grid};
ghost use Rattle.rule_kinds.specs.Kinds.{pointed_cell};
ghost use Rattle.rule_kinds.specs.Children.{around, placed};
ghost use Rattle.rule_kinds.specs.Conditions.{preimage_sum};
ghost use Rattle.placement.specs.Thinning.{AreThinned};

use crate::alone::add_alone;
use crate::barred::barred;
use crate::child::{add_farther, child_lists};
use crate::map_around::{around, middle, pointed_cell};
use crate::staying::{add_all_that_stay, add_those_that_stay, either};
use coord_maps::GridMap;
use gridded::{Cell, CellSet, Gridded};
use rule_kinds::{Direction, Pointed};
use std::alloc::{AllocError, Global};
use tiling_core::{Tiling, read_patterns};

/// So many patterns besides the preimages of the tiling's are too many.
const TOO_MANY: usize = 134_217_728;

/// The obstructions of a child that stay, and whether there are others.
fn thinned_obstructions(
    alloc: Global,
    map: &GridMap,
    middle: Cell,
    barred: CellSet,
    tiling: &Tiling,
    pointed: &[Pointed],
    direction: Direction,
) -> Result<(Vec<Gridded>, bool), AllocError>
    requires narrow { tiling.now.width ≤ 6 }
    requires low { tiling.now.height ≤ 6 }
    requires map_of { IsMapOf map.now tiling.now }
    requires inside { list_all (λ q. in_grid tiling.now q.pattern) pointed.now ≡ true }
    ensures { IfOk result (λ made. AreThinned barred map.now middle tiling.now pointed.now direction made.0.items made.1) }
{
    let mut others = Vec::new(alloc);
    add_alone(middle, tiling.width() + 2, tiling.height() + 2, &mut others)?;
    add_farther(alloc, map, middle, direction, pointed, &mut others)?;
    if others.len() >= TOO_MANY {
        return Err(AllocError);
    }
    read_patterns(&others);
    let mut found = Vec::new(alloc);
    let first = add_all_that_stay(map, barred, tiling.obstructions(), &mut found)?;
    let second = add_those_that_stay(barred, &others, &mut found)?;
    Ok((found, either(first, second)))
}

/// The child in which the farthest point is one that `at` points to, where `at` is one of the patterns, without some
/// obstructions that hold others, and whether there are such.
pub(crate) fn thinned_child(
    alloc: Global,
    tiling: &Tiling,
    pointed: &[Pointed],
    direction: Direction,
    at: &Pointed,
) -> Result<(Tiling, bool), AllocError>
    requires narrow { tiling.now.width ≤ 6 }
    requires low { tiling.now.height ≤ 6 }
    requires inside { list_all (λ q. in_grid tiling.now q.pattern) pointed.now ≡ true }
    requires at_inside { in_grid tiling.now at.now.pattern ≡ true }
    requires few { preimage_sum (around tiling.now (pointed_cell at.now)) tiling.now ≤ 131072 }
    ensures thinned { IfOk result (λ made. IsThinned (placed tiling.now pointed.now direction at.now) made.0 made.1) }
    ensures tiling { IfOk result (λ _. IsTiling (placed tiling.now pointed.now direction at.now)) }
{
    let cell = pointed_cell(at);
    let map = around(tiling, cell);
    let middle = middle(cell);
    let barred = barred(middle, tiling.width() + 2, tiling.height() + 2);
    let (obstructions, left_out) = thinned_obstructions(
        alloc, &map, middle, barred, tiling, pointed, direction,
    )?;
    let lists = child_lists(alloc, &map, middle, tiling, at)?;
    let child = Tiling::in_grid(tiling.width() + 2, tiling.height() + 2, obstructions, lists)?;
    child.read();
    Ok((child, left_out))
}
