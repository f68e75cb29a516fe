// The lines that can go, by the cells that are used.
ghost use Rattle.std.specs.Prelude.{◌≡◌, ◌<◌, ◌||◌, Bool, true, All};
ghost use Rattle.std.specs.List.{list_any};
ghost use Rattle.gridded.specs.declared.cell.Cell.{Cell};
ghost use Rattle.gridded.specs.Axes.{is_on};
ghost use Rattle.gridded.specs.CellSets.{IsCellSet};
ghost use Rattle.gridded.specs.Places.{fits_grid, touches};
ghost use Rattle.tiling_core.specs.Tiles.{IsInGrid};
ghost use Rattle.steps.specs.Steps.{step_applies, is_blank};
ghost use Rattle.normal_form.specs.Lines.{touches_longer, AreUsed};

use gridded::{Axis, Cell, CellSet, Gridded};
use sequences::Sequence;
use steps::{Step, applies};
use tiling_core::{Tiling, active};

/// A set with the cells of a pattern.
fn with_pattern(set: CellSet, g: &Gridded) -> CellSet
    requires inside { fits_grid 8 8 g.now ≡ true }
    ensures { (test : Cell → Bool) → list_any test result ≡ (list_any test set || touches test g.now) }
{
    let mut larger = set;
    let cells = g.cells();
    for place in 0..cells.len() {
        larger = larger.with(cells[place]);
    }
    larger
}

/// A set with the cells of a pattern, where it is no single point.
fn with_one_longer(set: CellSet, g: &Gridded) -> CellSet
    requires inside { fits_grid 8 8 g.now ≡ true }
    ensures { (test : Cell → Bool) → list_any test result ≡ (list_any test set || touches_longer test g.now) }
{
    if g.len() == 1 {
        return set;
    }
    with_pattern(set, g)
}

/// A set with the cells of the patterns that are no single point.
fn with_longer(set: CellSet, patterns: &[Gridded]) -> CellSet
    requires { IsInGrid 8 8 patterns.now }
    ensures { (test : Cell → Bool) → list_any test result ≡ (list_any test set || list_any (touches_longer test) patterns.now) }
{
    let mut larger = set;
    for g in patterns {
        larger = with_one_longer(larger, g);
    }
    larger
}

/// A set with the cells of the patterns.
fn with_patterns(set: CellSet, patterns: &[Gridded]) -> CellSet
    requires { IsInGrid 8 8 patterns.now }
    ensures { (test : Cell → Bool) → list_any test result ≡ (list_any test set || list_any (touches test) patterns.now) }
{
    let mut larger = set;
    for g in patterns {
        larger = with_pattern(larger, g);
    }
    larger
}

/// A set with the cells of the patterns of each list.
fn with_lists(set: CellSet, lists: &[Sequence<Gridded>]) -> CellSet
    requires { All (λ patterns. IsInGrid 8 8 patterns) lists.now }
    ensures { (test : Cell → Bool) → list_any test result ≡ (list_any test set || list_any (list_any (touches test)) lists.now) }
{
    let mut larger = set;
    for patterns in lists {
        larger = with_patterns(larger, patterns.as_slice());
    }
    larger
}

/// The active cells, and those of the obstructions that are no single point and of the requirement lists. Takes
/// no memory.
pub(crate) fn used_cells(tiling: &Tiling) -> CellSet
    ensures { AreUsed result tiling.now }
{
    let longer = with_longer(active(tiling), tiling.obstructions());
    with_lists(longer, tiling.requirements())
}

/// Whether some cell of a set is on a line.
fn meets(set: CellSet, axis: Axis, line: u8) -> bool
    requires { line < 8 }
    ensures { result ≡ list_any (is_on axis line) set }
{
    // What a set keeps is known once it is read.
    let _ = set.count();
    for place in 0..8 {
        if set.has(Cell { x: place, y: place }.with_line(axis, line)) {
            return true;
        }
    }
    false
}

/// Whether a line is there and no cell that is used is on it.
fn is_blank(tiling: &Tiling, used: CellSet, axis: Axis, line: u8) -> bool
    requires { AreUsed used tiling.now }
    ensures { result ≡ is_blank axis line tiling.now }
{
    // What a tiling keeps is known once it is read.
    tiling.read();
    let sides = Cell {
        x: tiling.width(),
        y: tiling.height(),
    };
    if line >= sides.line(axis) {
        return false;
    }
    !meets(used, axis, line)
}

/// Whether a step applies, a line being looked for among the cells that are used. Takes no memory.
#[tactic(auto, unfolding(steps::specs::Steps::step_applies))]
pub(crate) fn line_applies(step: Step, tiling: &Tiling, used: CellSet) -> bool
    requires { AreUsed used tiling.now }
    ensures { result ≡ step_applies step tiling.now }
{
    match step {
        Step::Column(column) => is_blank(tiling, used, Axis::Column, column),
        Step::Row(row) => is_blank(tiling, used, Axis::Row, row),
        other => applies(other, tiling),
    }
}
