// Whether cells of one line share a set.
ghost use Rattle.std.specs.Prelude.{◌≡◌, ◌||◌, not};
ghost use Rattle.std.specs.List.{list_all};
ghost use Rattle.gridded.specs.Axes.{shares_line};
ghost use Rattle.gridded.specs.CellSets.{is_among};
ghost use Rattle.factoring.specs.Numbered.{cell_of, pass_by_number};
ghost use Rattle.factoring.specs.Shares.{share_a_set, is_kept_with};

use crate::cells::{cell_of, contains};
use gridded::{Cell, CellSet};

/// Whether one of the sets has both cells.
fn share_a_set(sets: &[CellSet], cell: Cell, other: Cell) -> bool
    ensures { result ≡ share_a_set sets.now cell other }
{
    sets.iter()
        .any(|set| contains(*set, cell) && contains(*set, other))
}

/// Whether two cells share a column or a row.
pub(crate) fn shares_line(cell: Cell, other: Cell) -> bool
    ensures { result ≡ shares_line cell other }
{
    cell.x == other.x || cell.y == other.y
}

/// Whether the cell of a number, where it is one of the cells and shares a line with another, shares a set with it.
fn is_kept_with(sets: &[CellSet], cells: CellSet, cell: Cell, number: u8) -> bool
    ensures { result ≡ (not (is_among cells (cell_of number)) || is_kept_with sets.now cell (cell_of number)) }
{
    let other = cell_of(number);
    !contains(cells, other) || (!shares_line(cell, other) || share_a_set(sets, cell, other))
}

/// Whether a cell shares a set with each of the cells with which it shares a line.
fn keeps_lines_of(sets: &[CellSet], cells: CellSet, cell: Cell) -> bool
    ensures { result ≡ pass_by_number (is_kept_with sets.now cell) cells }
{
    (0..64).all(|number| is_kept_with(sets, cells, cell, number))
}

/// Whether the cell of a number, where it is one of the cells, shares a set with each with which it shares a line.
fn is_kept(sets: &[CellSet], cells: CellSet, number: u8) -> bool
    ensures { result ≡ (not (is_among cells (cell_of number)) || pass_by_number (is_kept_with sets.now (cell_of number)) cells) }
{
    let cell = cell_of(number);
    !contains(cells, cell) || keeps_lines_of(sets, cells, cell)
}

/// Whether each of the cells shares a set with each with which it shares a line.
fn are_kept(sets: &[CellSet], cells: CellSet) -> bool
    ensures { result ≡ pass_by_number (λ c. pass_by_number (is_kept_with sets.now c) cells) cells }
{
    (0..64).all(|number| is_kept(sets, cells, number))
}

/// Whether any two of the cells that share a line share a set.
pub(crate) fn keeps_lines(sets: &[CellSet], cells: CellSet) -> bool
    ensures { result ≡ list_all (λ c. list_all (is_kept_with sets.now c) cells) cells }
{
    // What a set keeps is known once it is read.
    let _ = cells.count();
    are_kept(sets, cells)
}
