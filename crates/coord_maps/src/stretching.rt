ghost use Rattle.std.specs.Prelude.{◌≡◌, All, IfOk};
ghost use Rattle.tiling_core.specs.Tiles.{IsInGrid};
ghost use Rattle.coord_maps.specs.Stretches.{IsMapOf, preimages_of, each_preimages_of, stretch};

use crate::grid_map::GridMap;
use crate::listing::add_preimages;
use gridded::Gridded;
use sequences::Sequence;
use std::alloc::{AllocError, Global};
use tiling_core::Tiling;

/// The preimages of each pattern, one pattern after another.
fn preimages_of(
    alloc: Global,
    map: &GridMap,
    patterns: &[Gridded],
) -> Result<Vec<Gridded>, AllocError>
    requires { IsInGrid map.now.columns.lines map.now.rows.lines patterns.now }
    ensures { IfOk result (λ found. found.items ≡ preimages_of map.now patterns.now) }
{
    let mut found = Vec::new(alloc);
    for pattern in patterns {
        add_preimages(map, pattern, &mut found)?;
    }
    Ok(found)
}

/// The preimages of the members of each list, list by list.
fn each_preimages_of(
    alloc: Global,
    map: &GridMap,
    lists: &[Sequence<Gridded>],
) -> Result<Vec<Sequence<Gridded>>, AllocError>
    requires { All (λ patterns. IsInGrid map.now.columns.lines map.now.rows.lines patterns) lists.now }
    ensures { IfOk result (λ found. found.items ≡ each_preimages_of map.now lists.now) }
{
    let mut found = Vec::with_capacity(alloc, lists.len())?;
    for patterns in lists {
        let preimages = preimages_of(alloc, map, patterns.as_slice())?;
        found.push(Sequence::of(preimages))?;
    }
    Ok(found)
}

/// The tiling on the new grid whose obstructions are the preimages of the tiling's, and whose lists each have
/// the preimages of the members of one of its lists. The map's old grid is the tiling's. A list that would reach
/// 268,435,456 items counts as memory that isn't there (docs/RULES.md, "Grid maps").
pub fn stretch(alloc: Global, map: &GridMap, tiling: &Tiling) -> Result<Tiling, AllocError>
    requires { IsMapOf map.now tiling.now }
    ensures { IfOk result (λ stretched. stretched ≡ stretch map.now tiling.now) }
{
    map.kept();
    let obstructions = preimages_of(alloc, map, tiling.obstructions())?;
    let requirements = each_preimages_of(alloc, map, tiling.requirements())?;
    Tiling::in_grid(
        map.columns.new_lines(),
        map.rows.new_lines(),
        obstructions,
        requirements,
    )
}
