// The patterns that stay where the single points of the barred cells do.
ghost use Rattle.std.specs.Prelude.{◌≡◌, ◌<◌, ◌++◌, ◌||◌, true, filter, [], ◌∷◌, IfOk};
ghost use Rattle.gridded.specs.CellSets.{is_among};
ghost use Rattle.gridded.specs.Places.{touches};
ghost use Rattle.tiling_core.specs.Tiles.{IsInGrid};
ghost use Rattle.coord_maps.specs.GridMaps.{fits_old};
ghost use Rattle.coord_maps.specs.Preimages.{preimages};
ghost use Rattle.coord_maps.specs.Stretches.{preimages_of};
ghost use Rattle.placement.specs.Thinning.{stays, some_leave};

use coord_maps::{GridMap, add_preimages, add_preimages_outside, preimage_count};
use gridded::{Cell, CellSet, Gridded};
use std::alloc::AllocError;

/// Whether a cell is in a set.
#[tactic(auto, using(crate::proofs::Leaving::far_outside, crate::proofs::Leaving::high_outside))]
fn contains(set: CellSet, cell: Cell) -> bool
    ensures { result ≡ is_among set cell }
{
    // What a set keeps is known once it is read.
    let _ = set.count();
    if cell.x > 7 {
        return false;
    }
    if cell.y > 7 {
        return false;
    }
    set.has(cell)
}

/// Whether some point of a pattern lies in a set.
fn touches(set: CellSet, pattern: &Gridded) -> bool
    ensures { result ≡ touches (is_among set) pattern.now }
{
    pattern.cells().iter().any(|cell| contains(set, *cell))
}

/// Whether a pattern is a single point, or has no point in the barred cells.
fn stays(barred: CellSet, pattern: &Gridded) -> bool
    ensures { result ≡ stays barred pattern.now }
{
    pattern.len() == 1 || !touches(barred, pattern)
}

/// Whether one of two holds.
pub(crate) fn either(first: bool, second: bool) -> bool
    ensures { result ≡ (first || second) }
{
    first || second
}

/// Adds the preimages of a pattern that stay, and tells whether there are others.
fn add_preimages_that_stay(
    map: &GridMap,
    barred: CellSet,
    pattern: &Gridded,
    found: &mut Vec<Gridded>,
) -> Result<bool, AllocError>
    requires { fits_old map.now pattern.now ≡ true }
    ensures added { IfOk result (λ _. found.new.items ≡ found.old.items ++ filter (stays barred) (preimages map.now pattern.now)) }
    ensures told { IfOk result (λ left_out. left_out ≡ some_leave barred (preimages map.now pattern.now)) }
{
    if pattern.len() == 1 {
        add_preimages(map, pattern, found)?;
        return Ok(false);
    }
    let before = found.len();
    add_preimages_outside(map, pattern, barred, found)?;
    Ok(((found.len() - before) as u64) < preimage_count(map, pattern))
}

/// Adds the preimages of some patterns that stay, and tells whether there are others.
pub(crate) fn add_all_that_stay(
    map: &GridMap,
    barred: CellSet,
    patterns: &[Gridded],
    found: &mut Vec<Gridded>,
) -> Result<bool, AllocError>
    requires { IsInGrid map.now.columns.lines map.now.rows.lines patterns.now }
    ensures added { IfOk result (λ _. found.new.items ≡ found.old.items ++ filter (stays barred) (preimages_of map.now patterns.now)) }
    ensures told { IfOk result (λ left_out. left_out ≡ some_leave barred (preimages_of map.now patterns.now)) }
{
    let mut left_out = false;
    for pattern in patterns {
        let more = add_preimages_that_stay(map, barred, pattern, found)?;
        left_out = either(left_out, more);
    }
    Ok(left_out)
}

/// Adds a pattern that stays, and tells whether it doesn't.
fn add_if_it_stays(
    barred: CellSet,
    pattern: &Gridded,
    found: &mut Vec<Gridded>,
) -> Result<bool, AllocError>
    ensures added { IfOk result (λ _. found.new.items ≡ found.old.items ++ filter (stays barred) (pattern.now ∷ [])) }
    ensures told { IfOk result (λ left_out. left_out ≡ some_leave barred (pattern.now ∷ [])) }
{
    if !stays(barred, pattern) {
        return Ok(true);
    }
    found.push(*pattern)?;
    Ok(false)
}

/// Adds those of some patterns that stay, and tells whether there are others.
pub(crate) fn add_those_that_stay(
    barred: CellSet,
    patterns: &[Gridded],
    found: &mut Vec<Gridded>,
) -> Result<bool, AllocError>
    ensures added { IfOk result (λ _. found.new.items ≡ found.old.items ++ filter (stays barred) patterns.now) }
    ensures told { IfOk result (λ left_out. left_out ≡ some_leave barred patterns.now) }
{
    let mut left_out = false;
    for pattern in patterns {
        let more = add_if_it_stays(barred, pattern, found)?;
        left_out = either(left_out, more);
    }
    Ok(left_out)
}
