// The patterns of a list that hold no other of it.
ghost use Rattle.std.specs.Prelude.{◌≡◌, ◌<◌, ◌≤◌, true, false, not, ◌&&◌, IfOk, length, nat_lt, take};
ghost use Rattle.std.specs.List.{list_any, take_while};
ghost use Rattle.std.specs.List.Sorted.{IsStrictlySortedBy};
ghost use Rattle.gridded.specs.Grids.{holds, IsGridded};
ghost use Rattle.gridded.specs.Orders.{gridded_eq, gridded_cmp};
ghost use Rattle.gridded.specs.CellSets.{is_among as has_cell};
ghost use Rattle.gridded.specs.Places.{touches};
ghost use Rattle.tiling_core.specs.Tiles.{tiling_of, AreGridded};
ghost use Rattle.tiling_core.specs.Patterns.{holds_another, minimal};
ghost use Rattle.steps.specs.Outside.{leaves, LeavingHolds, HoldsNoSingle, AreSingle};

use gridded::{Cell, CellSet, Gridded, holds};
use std::alloc::{AllocError, Global};
use tiling_core::{Tiling, active};

/// Whether g holds another pattern, which is then shorter.
#[tactic(auto, using(crate::proofs::Minimal::shorter_and_held))]
fn holds_other(g: &Gridded, pattern: &Gridded) -> bool
    ensures { result ≡ (not (gridded_eq g.now pattern.now) && holds g.now pattern.now) }
{
    pattern.len() < g.len() && holds(g, pattern)
}

/// Whether g holds another pattern of a list. Takes no memory.
pub(crate) fn holds_another(patterns: &[Gridded], g: &Gridded) -> bool
    ensures { result ≡ holds_another patterns.now g.now }
{
    patterns.iter().any(|pattern| holds_other(g, pattern))
}

/// Whether g holds a pattern that stands before the first that is at least as long as g.
fn holds_before(patterns: &[Gridded], g: &Gridded) -> bool
    ensures value { result ≡ list_any (holds g.now) (take_while (λ p. nat_lt (length p) (length g.now)) patterns.now) }
    ensures kept { IsGridded g.now }
{
    let length = g.len();
    patterns
        .iter()
        .take_while(|pattern| pattern.len() < length)
        .any(|pattern| holds(g, pattern))
}

/// Whether g holds another pattern of an ascending list: none from the first on that is as long is looked at.
fn holds_shorter(patterns: &[Gridded], g: &Gridded) -> bool
    requires gridded { AreGridded patterns.now }
    requires ascending { IsStrictlySortedBy gridded_cmp patterns.now }
    ensures { result ≡ holds_another patterns.now g.now }
{
    holds_before(patterns, g)
}

/// Whether some obstruction holds another. Takes no memory.
pub(crate) fn is_redundant(tiling: &Tiling) -> bool
    ensures { result ≡ list_any (holds_another tiling.now.obstructions) tiling.now.obstructions }
{
    let patterns = tiling.obstructions();
    patterns.iter().any(|g| holds_shorter(patterns, g))
}

/// The patterns of a list that hold no other of it, in their order.
pub(crate) fn minimal(alloc: Global, patterns: &[Gridded]) -> Result<Vec<Gridded>, AllocError>
    ensures { IfOk result (λ kept. kept.items ≡ minimal patterns.now) }
{
    patterns
        .iter()
        .copied()
        .filter(|g| !holds_another(patterns, g))
        .collect(alloc)
}

/// Whether a cell isn't in a set.
#[tactic(auto, using(crate::proofs::Inactive::far_outside, crate::proofs::Inactive::high_outside))]
fn is_outside(cells: CellSet, cell: Cell) -> bool
    ensures { result ≡ not (has_cell cells cell) }
{
    // What a set keeps is known once it is read.
    let _ = cells.count();
    if cell.x > 7 {
        return true;
    }
    if cell.y > 7 {
        return true;
    }
    !cells.has(cell)
}

/// Whether a pattern has a point outside some cells.
fn has_outside(g: &Gridded, cells: CellSet) -> bool
    ensures { result ≡ touches (λ c. not (has_cell cells c)) g.now }
{
    g.cells().iter().any(|cell| is_outside(cells, *cell))
}

/// Whether a pattern has two points or more, one of them outside some cells.
fn leaves(g: &Gridded, cells: CellSet) -> bool
    ensures { result ≡ leaves cells g.now }
{
    1 < g.len() && has_outside(g, cells)
}

/// Whether g holds another pattern of an ascending list, of which it holds none of the first ones.
fn holds_behind(patterns: &[Gridded], first: usize, g: &Gridded) -> bool
    requires gridded { AreGridded patterns.now }
    requires ascending { IsStrictlySortedBy gridded_cmp patterns.now }
    requires within { first ≤ length patterns.now }
    requires unheld { list_any (holds g.now) (take first patterns.now) ≡ false }
    ensures { result ≡ holds_another patterns.now g.now }
{
    holds_shorter(&patterns[first..], g)
}

/// Whether g holds another pattern of an ascending list. It is known to if it leaves some cells, and else to hold
/// none of the first ones.
fn holds_kept(patterns: &[Gridded], first: usize, cells: CellSet, g: &Gridded) -> bool
    requires gridded { AreGridded patterns.now }
    requires ascending { IsStrictlySortedBy gridded_cmp patterns.now }
    requires within { first ≤ length patterns.now }
    requires leaving { leaves cells g.now ≡ true → holds_another patterns.now g.now ≡ true }
    requires unheld { 1 < length g.now → leaves cells g.now ≡ false → list_any (holds g.now) (take first patterns.now) ≡ false }
    ensures { result ≡ holds_another patterns.now g.now }
{
    if leaves(g, cells) {
        return true;
    }
    if g.len() < 2 {
        return holds_shorter(patterns, g);
    }
    holds_behind(patterns, first, g)
}

/// The number of single points at the front of a list, where so many are known.
#[tactic(auto, using(crate::proofs::Inactive::one_more_single))]
fn more_single(patterns: &[Gridded], known: usize) -> usize
    requires within { known ≤ length patterns.now }
    requires single { AreSingle (take known patterns.now) }
    ensures within { result ≤ length patterns.now }
    ensures single { AreSingle (take result patterns.now) }
{
    if known == patterns.len() {
        return known;
    }
    if patterns[known].len() != 1 {
        return known;
    }
    known + 1
}

/// The patterns of an ascending list that hold no other of it, in their order. A pattern that holds another holds
/// one that stays, which stands before it, so it is tested against those that stay alone, and not at all where it
/// leaves the active cells; where it doesn't, it holds no single point.
fn least(alloc: Global, patterns: &[Gridded], active: CellSet) -> Result<Vec<Gridded>, AllocError>
    requires gridded { AreGridded patterns.now }
    requires ascending { IsStrictlySortedBy gridded_cmp patterns.now }
    requires leaving { LeavingHolds active patterns.now }
    requires single { HoldsNoSingle active patterns.now }
    ensures { IfOk result (λ kept. kept.items ≡ minimal patterns.now) }
{
    let mut kept = Vec::new(alloc);
    let mut points = 0;
    for g in patterns {
        points = more_single(&kept, points);
        if !holds_kept(&kept, points, active, g) {
            kept.push(*g)?;
        }
    }
    Ok(kept)
}

/// The tiling without the obstructions that hold another.
#[tactic(auto, using(crate::proofs::InGrid::minimal_in_grid, crate::proofs::Inactive::leaving_holds, crate::proofs::Inactive::no_single_held))]
pub(crate) fn without_redundant(alloc: Global, tiling: Tiling) -> Result<Tiling, AllocError>
    ensures { IfOk result (λ left. left ≡ tiling_of tiling.width tiling.height (minimal tiling.obstructions) tiling.requirements) }
{
    let width = tiling.width();
    let height = tiling.height();
    let active = active(&tiling);
    let (obstructions, lists) = tiling.into_parts();
    let kept = least(alloc, &obstructions, active)?;
    Tiling::in_grid(width, height, kept, lists)
}
