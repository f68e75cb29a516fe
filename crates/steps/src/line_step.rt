// Columns and rows without points.
ghost use Rattle.std.specs.Prelude.{◌≡◌, ◌<◌, ◌≤◌, ◌==◌, ◌||◌, not, true, IfOk, length, map};
ghost use Rattle.std.specs.List.{filter, list_any, list_all};
ghost use Rattle.gridded.specs.Axes.{line_of, is_on};
ghost use Rattle.tiling_core.specs.Patterns.{active_cells};
ghost use Rattle.steps.specs.Steps.{sides, misses, is_blank, closed_line, close_cell, close_up, without_line};

use crate::pattern::{cell_on, cells_across, forbids, misses, sides};
use gridded::{Axis, Cell, Gridded};
use sequences::Sequence;
use std::alloc::{AllocError, Global};
use tiling_core::Tiling;

/// Whether the point of each cell on a line is an obstruction.
#[tactic(auto, using(crate::proofs::OnLine::on_line))]
fn is_inactive(tiling: &Tiling, axis: Axis, line: u8) -> bool
    requires { line < line_of axis (sides tiling.now) }
    ensures { result ≡ not (list_any (is_on axis line) (active_cells tiling.now)) }
{
    for place in 0..cells_across(tiling, axis) {
        if !forbids(tiling, &Gridded::point_at(cell_on(axis, line, place))) {
            return false;
        }
    }
    true
}

/// Whether an obstruction is a single point or has no point on a line.
fn is_point_or_misses(g: &Gridded, axis: Axis, line: u8) -> bool
    ensures { result ≡ ((length g.now == 1) || misses axis line g.now) }
{
    g.len() == 1 || misses(g, axis, line)
}

/// Whether no pattern has a point on a line.
fn all_miss(patterns: &[Gridded], axis: Axis, line: u8) -> bool
    ensures { result ≡ list_all (misses axis line) patterns.now }
{
    patterns.iter().all(|g| misses(g, axis, line))
}

/// Whether no pattern of the lists has a point on a line.
fn lists_miss(lists: &[Sequence<Gridded>], axis: Axis, line: u8) -> bool
    ensures { result ≡ list_all (list_all (misses axis line)) lists.now }
{
    lists
        .iter()
        .all(|patterns| all_miss(patterns.as_slice(), axis, line))
}

/// Whether each obstruction is a single point or has no point on a line.
fn obstructions_miss(patterns: &[Gridded], axis: Axis, line: u8) -> bool
    ensures { result ≡ list_all (λ g. (length g == 1) || misses axis line g) patterns.now }
{
    patterns.iter().all(|g| is_point_or_misses(g, axis, line))
}

/// Whether a line is there and blank: the points of its cells are obstructions, and no further pattern has a
/// point there. Takes no memory.
pub(crate) fn is_blank(tiling: &Tiling, axis: Axis, line: u8) -> bool
    ensures { result ≡ is_blank axis line tiling.now }
{
    if line >= sides(tiling).line(axis) {
        return false;
    }
    is_inactive(tiling, axis, line)
        && obstructions_miss(tiling.obstructions(), axis, line)
        && lists_miss(tiling.requirements(), axis, line)
}

/// The new number of a line where another line goes.
fn closed_line(line: u8, gone: u8) -> u8
    ensures { result ≡ closed_line gone line }
{
    if gone < line { line - 1 } else { line }
}

/// The new place of a cell where a line goes.
fn close_cell(cell: Cell, axis: Axis, line: u8) -> Cell
    ensures { result ≡ close_cell axis line cell }
{
    cell.with_line(axis, closed_line(cell.line(axis), line))
}

/// A pattern, which has no point on the line, once the line has gone.
#[tactic(auto, using(crate::proofs::OnLine::closing))]
fn close_up(g: &Gridded, axis: Axis, line: u8) -> Gridded
    requires { misses axis line g.now ≡ true }
    ensures { result ≡ close_up axis line g.now }
{
    let letters = g.letters();
    let old = g.cells();
    let mut cells = [Cell { x: 0, y: 0 }; 9];
    for place in 0..old.len() {
        cells[place] = close_cell(old[place], axis, line);
    }
    Gridded::from_consistent(letters, &cells[..old.len()])
}

/// The patterns without a point on a line, once the line has gone.
fn closed(
    alloc: Global,
    patterns: &[Gridded],
    axis: Axis,
    line: u8,
) -> Result<Vec<Gridded>, AllocError>
    ensures { IfOk result (λ kept. kept.items ≡ map (close_up axis line) (filter (misses axis line) patterns.now)) }
{
    let mut kept = Vec::new(alloc);
    for g in patterns {
        if misses(g, axis, line) {
            kept.push(close_up(g, axis, line))?;
        }
    }
    Ok(kept)
}

/// The lists, no pattern of which has a point on the line, once the line has gone.
#[tactic(auto, using(crate::proofs::OnLine::lists_closed))]
fn closed_lists(
    alloc: Global,
    lists: &[Sequence<Gridded>],
    axis: Axis,
    line: u8,
) -> Result<Vec<Sequence<Gridded>>, AllocError>
    requires { list_all (list_all (misses axis line)) lists.now ≡ true }
    ensures { IfOk result (λ kept. kept.items ≡ map (map (close_up axis line)) lists.now) }
{
    let mut kept = Vec::new(alloc);
    for patterns in lists {
        kept.push(Sequence::of(closed(alloc, patterns.as_slice(), axis, line)?))?;
    }
    Ok(kept)
}

/// The tiling without a blank line.
pub(crate) fn without_line(
    alloc: Global,
    tiling: &Tiling,
    axis: Axis,
    line: u8,
) -> Result<Tiling, AllocError>
    requires { is_blank axis line tiling.now ≡ true }
    ensures { IfOk result (λ left. left ≡ without_line axis line tiling.now) }
{
    let old = sides(tiling);
    let left = old.with_line(axis, old.line(axis) - 1);
    let obstructions = closed(alloc, tiling.obstructions(), axis, line)?;
    let lists = closed_lists(alloc, tiling.requirements(), axis, line)?;
    Tiling::in_grid(left.x, left.y, obstructions, lists)
}
