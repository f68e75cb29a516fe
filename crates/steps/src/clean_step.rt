// Isolated point cells.
ghost use Rattle.std.specs.Prelude.{◌≡◌, ◌∷◌, [], ◌&&◌, ◌<◌, not, IfOk, map};
ghost use Rattle.std.specs.List.{list_any};
ghost use Rattle.std.specs.Cmp.Lexicographic.{pointwise};
ghost use Rattle.gridded.specs.Axes.{line_of, is_on};
ghost use Rattle.gridded.specs.Orders.{gridded_eq, cell_eq};
ghost use Rattle.gridded.specs.Small.{point_at};
ghost use Rattle.tiling_core.specs.Patterns.{forbids, active_cells, requires_list};
ghost use Rattle.gridded.specs.Places.{has_one_point_in};
ghost use Rattle.steps.specs.Steps.{is_isolated, is_other_list, can_be_cleaned, cleaned, cleaned_list, clean};

use crate::pattern::{cell_on, cells_across, forbids, sides};
use gridded::{Axis, Cell, Gridded, without};
use sequences::{Copied, Sequence};
use std::alloc::{AllocError, Global};
use tiling_core::Tiling;

/// Whether a list has one pattern alone.
#[tactic(auto, using(crate::proofs::Small::one_alone))]
fn is_list_of(patterns: &[Gridded], pattern: &Gridded) -> bool
    ensures { result ≡ pointwise gridded_eq (pattern.now ∷ []) patterns.now }
{
    patterns.len() == 1 && *pattern == patterns[0]
}

/// Whether the list of one pattern is a requirement list.
fn requires_pattern(tiling: &Tiling, pattern: &Gridded) -> bool
    ensures { result ≡ requires_list tiling.now (pattern.now ∷ []) }
{
    tiling
        .requirements()
        .iter()
        .any(|patterns| is_list_of(patterns.as_slice(), pattern))
}

/// Whether it is another cell and its point is no obstruction.
fn is_open(tiling: &Tiling, cell: Cell, other: Cell) -> bool
    ensures { result ≡ (not (cell_eq other cell) && not (forbids tiling.now (point_at other))) }
{
    other != cell && !forbids(tiling, &Gridded::point_at(other))
}

/// Whether no other cell of a cell's column, or of its row, has a point.
fn is_alone_on(tiling: &Tiling, axis: Axis, cell: Cell) -> bool
    ensures { result ≡ not (list_any (λ d. is_on axis (line_of axis cell) d && not (cell_eq d cell)) (active_cells tiling.now)) }
{
    let line = cell.line(axis);
    if line >= sides(tiling).line(axis) {
        return true;
    }
    for place in 0..cells_across(tiling, axis) {
        if is_open(tiling, cell, cell_on(axis, line, place)) {
            return false;
        }
    }
    true
}

/// Whether a cell has exactly one point in each member, and no other cell of its column and row has any.
/// Takes no memory.
#[tactic(auto, using(crate::proofs::Alone::both_lines))]
pub(crate) fn is_isolated(tiling: &Tiling, cell: Cell) -> bool
    ensures { result ≡ is_isolated tiling.now cell }
{
    if !requires_pattern(tiling, &Gridded::point_at(cell)) {
        return false;
    }
    if !forbids(tiling, &Gridded::rising(cell, cell))
        || !forbids(tiling, &Gridded::falling(cell, cell))
    {
        return false;
    }
    is_alone_on(tiling, Axis::Column, cell) && is_alone_on(tiling, Axis::Row, cell)
}

/// Whether a pattern has exactly one point in a cell.
fn has_one_point_in(g: &Gridded, cell: Cell) -> bool
    ensures { result ≡ has_one_point_in cell g.now }
{
    g.cells().iter().filter(|other| cell == **other).count() == 1
}

/// Whether some pattern has exactly one point in a cell.
fn some_have_one_point_in(patterns: &[Gridded], cell: Cell) -> bool
    ensures { result ≡ list_any (has_one_point_in cell) patterns.now }
{
    patterns.iter().any(|g| has_one_point_in(g, cell))
}

/// Whether it is another list than that of the point at a cell.
fn is_other_list(patterns: &[Gridded], cell: Cell) -> bool
    ensures { result ≡ is_other_list cell patterns.now }
{
    !is_list_of(patterns, &Gridded::point_at(cell))
}

/// Whether a list other than that of the point at a cell has a pattern with exactly one point there.
fn list_can_be_cleaned(patterns: &[Gridded], cell: Cell) -> bool
    ensures { result ≡ (is_other_list cell patterns.now && list_any (has_one_point_in cell) patterns.now) }
{
    is_other_list(patterns, cell) && some_have_one_point_in(patterns, cell)
}

/// Whether a requirement list can be cleaned at a cell.
fn lists_can_be_cleaned(lists: &[Sequence<Gridded>], cell: Cell) -> bool
    ensures { result ≡ list_any (λ patterns. is_other_list cell patterns && list_any (has_one_point_in cell) patterns) lists.now }
{
    lists
        .iter()
        .any(|patterns| list_can_be_cleaned(patterns.as_slice(), cell))
}

/// Whether some pattern has exactly one point in a cell, the list of the point there left alone. Takes no
/// memory.
pub(crate) fn can_be_cleaned(tiling: &Tiling, cell: Cell) -> bool
    ensures { result ≡ can_be_cleaned tiling.now cell }
{
    some_have_one_point_in(tiling.obstructions(), cell)
        || lists_can_be_cleaned(tiling.requirements(), cell)
}

/// A pattern without its only point in a cell.
#[tactic(auto, using(crate::proofs::Removed::removing))]
fn cleaned(alloc: Global, g: &Gridded, cell: Cell) -> Result<Gridded, AllocError>
    ensures { IfOk result (λ left. left ≡ cleaned cell g.now) }
{
    if !has_one_point_in(g, cell) {
        return Ok(*g);
    }
    let cells = g.cells();
    for place in 0..cells.len() {
        if cell == cells[place] {
            return without(alloc, g, place as u32);
        }
    }
    Ok(*g)
}

/// The patterns without their only points in a cell.
fn all_cleaned(alloc: Global, patterns: &[Gridded], cell: Cell) -> Result<Vec<Gridded>, AllocError>
    ensures { IfOk result (λ left. left.items ≡ map (cleaned cell) patterns.now) }
{
    let mut left = Vec::with_capacity(alloc, patterns.len())?;
    for g in patterns {
        left.push(cleaned(alloc, g, cell)?)?;
    }
    Ok(left)
}

/// A list without the only points in a cell, that of the point there left alone.
fn cleaned_list(
    alloc: Global,
    patterns: &[Gridded],
    cell: Cell,
) -> Result<Sequence<Gridded>, AllocError>
    ensures { IfOk result (λ left. left ≡ cleaned_list cell patterns.now) }
{
    if is_other_list(patterns, cell) {
        Ok(Sequence::of(all_cleaned(alloc, patterns, cell)?))
    } else {
        Ok(Sequence::of(Vec::from_slice(alloc, patterns)?))
    }
}

/// The lists without the only points in a cell.
fn cleaned_lists(
    alloc: Global,
    lists: &[Sequence<Gridded>],
    cell: Cell,
) -> Result<Vec<Sequence<Gridded>>, AllocError>
    ensures { IfOk result (λ left. left.items ≡ map (cleaned_list cell) lists.now) }
{
    let mut left = Vec::with_capacity(alloc, lists.len())?;
    for patterns in lists {
        left.push(cleaned_list(alloc, patterns.as_slice(), cell)?)?;
    }
    Ok(left)
}

/// The tiling whose patterns have lost their only points in a cell.
#[tactic(auto, using(crate::proofs::Removed::cleaned_in_grid))]
pub(crate) fn clean(alloc: Global, tiling: &Tiling, cell: Cell) -> Result<Tiling, AllocError>
    ensures { IfOk result (λ left. left ≡ clean cell tiling.now) }
{
    let obstructions = all_cleaned(alloc, tiling.obstructions(), cell)?;
    let lists = cleaned_lists(alloc, tiling.requirements(), cell)?;
    Tiling::in_grid(tiling.width(), tiling.height(), obstructions, lists)
}
