// Cells by their numbers, and patterns beside sets of cells.
ghost use Rattle.std.specs.Prelude.{◌≡◌, ◌<◌};
ghost use Rattle.std.specs.List.{list_all, list_any};
ghost use Rattle.gridded.specs.CellSets.{is_among};
ghost use Rattle.gridded.specs.Parts.{lies_in};
ghost use Rattle.gridded.specs.Places.{touches};
ghost use Rattle.factoring.specs.Numbered.{cell_of};

use gridded::{Cell, CellSet, Gridded};

/// The cell of a number: 8x + y stands for (x, y).
pub(crate) fn cell_of(number: u8) -> Cell
    ensures { result ≡ cell_of number }
{
    Cell {
        x: number / 8,
        y: number % 8,
    }
}

/// Whether a cell is in a set.
#[tactic(auto, using(crate::proofs::Numbers::far_outside, crate::proofs::Numbers::high_outside))]
pub(crate) fn contains(set: CellSet, cell: Cell) -> bool
    ensures { result ≡ is_among set cell }
{
    // What a set keeps is known once it is read.
    let _ = set.count();
    if cell.x > 7 {
        return false;
    }
    if cell.y > 7 {
        return false;
    }
    set.has(cell)
}

/// Whether all points of a pattern lie in a set.
pub(crate) fn lies_in(set: CellSet, g: &Gridded) -> bool
    ensures { result ≡ lies_in (is_among set) g.now }
{
    g.cells().iter().all(|cell| contains(set, *cell))
}

/// Whether some point of a pattern lies in a set.
pub(crate) fn touches(set: CellSet, g: &Gridded) -> bool
    ensures { result ≡ touches (is_among set) g.now }
{
    g.cells().iter().any(|cell| contains(set, *cell))
}

/// Whether all points of the patterns lie in a set.
pub(crate) fn lie_in(set: CellSet, patterns: &[Gridded]) -> bool
    ensures { result ≡ list_all (lies_in (is_among set)) patterns.now }
{
    patterns.iter().all(|g| lies_in(set, g))
}

/// Whether some point of the patterns lies in a set.
pub(crate) fn touch(set: CellSet, patterns: &[Gridded]) -> bool
    ensures { result ≡ list_any (touches (is_among set)) patterns.now }
{
    patterns.iter().any(|g| touches(set, g))
}
