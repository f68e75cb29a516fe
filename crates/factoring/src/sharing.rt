// Whether sets share out some cells, in the order of their least cells.
ghost use Rattle.std.specs.Prelude.{◌≡◌, true, false, All};
ghost use Rattle.std.specs.List.{list_all, list_any, range_with_len};
ghost use Rattle.gridded.specs.CellSets.{IsCellSet};
ghost use Rattle.lists.specs.Members.{is_nil, NoRepeats};
ghost use Rattle.rule_kinds.specs.Conditions.{all_of, shares_out};
ghost use Rattle.factoring.specs.Numbered.{cell_of};
ghost use Rattle.factoring.specs.Shares.{agrees, have_cells, are_as_many, is_covered, sets_ascend, starts_before};

use crate::cells::{cell_of, contains};
use gridded::{Cell, CellSet};
use std::cmp::Ordering;

/// Reads each set.
fn read_sets(sets: &[CellSet])
    ensures { All (λ set. IsCellSet set) sets.now }
{
    for set in sets {
        let _ = set.count();
    }
}

/// Whether some set has no cell.
fn has_empty(sets: &[CellSet]) -> bool
    ensures { result ≡ list_any is_nil sets.now }
{
    sets.iter().any(|set| set.count() == 0)
}

/// Whether one of the sets has a cell.
pub(crate) fn is_covered(sets: &[CellSet], cell: Cell) -> bool
    ensures { result ≡ is_covered sets.now cell }
{
    sets.iter().any(|set| contains(*set, cell))
}

/// Whether the cell of a number is one of the cells exactly where a set has it.
fn agrees(sets: &[CellSet], cells: CellSet, number: u8) -> bool
    ensures { result ≡ agrees sets.now cells (cell_of number) }
{
    let cell = cell_of(number);
    if contains(cells, cell) {
        is_covered(sets, cell)
    } else {
        !is_covered(sets, cell)
    }
}

/// Whether each of the 64 cells is one of the cells exactly where a set has it.
fn agree(sets: &[CellSet], cells: CellSet) -> bool
    ensures { result ≡ list_all (λ n. agrees sets.now cells (cell_of n)) (range_with_len 0 64) }
{
    (0..64).all(|number| agrees(sets, cells, number))
}

/// Whether the sets together have just these cells.
fn have_cells(sets: &[CellSet], cells: CellSet) -> bool
    ensures { result ≡ have_cells sets.now cells }
{
    // What sets keep is known once they are read.
    let _ = cells.count();
    read_sets(sets);
    agree(sets, cells)
}

/// Whether the sets together have as many cells as these.
fn are_as_many(sets: &[CellSet], cells: CellSet) -> bool
    ensures { result ≡ are_as_many sets.now cells }
{
    let mut left = cells.count();
    for set in sets {
        let count = set.count();
        if count > left {
            return false;
        }
        left -= count;
    }
    left == 0
}

/// Whether both sets have a cell, and the least cell of the first comes before that of the second.
fn starts_before(first: CellSet, second: CellSet) -> bool
    ensures { result ≡ starts_before first second }
{
    match (first.least(), second.least()) {
        (Some(cell), Some(other)) => match cell.cmp(&other) {
            Ordering::Less => true,
            Ordering::Equal | Ordering::Greater => false,
        },
        _ => false,
    }
}

/// Whether sets without a cell in common, none of them empty, ascend.
fn ascend(sets: &[CellSet]) -> bool
    requires some { list_any is_nil sets.now ≡ false }
    requires apart { NoRepeats (all_of sets.now) }
    ensures { result ≡ sets_ascend sets.now }
{
    for place in 1..sets.len() {
        if !starts_before(sets[place - 1], sets[place]) {
            return false;
        }
    }
    true
}

/// Whether the sets share out these cells, in the order of their least cells.
pub(crate) fn shares_out(sets: &[CellSet], cells: CellSet) -> bool
    ensures { result ≡ shares_out sets.now cells }
{
    let _ = cells.count();
    if has_empty(sets) {
        return false;
    }
    if !have_cells(sets, cells) {
        return false;
    }
    if !are_as_many(sets, cells) {
        return false;
    }
    ascend(sets)
}
