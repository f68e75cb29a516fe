ghost use Rattle.std.specs.Prelude.{◌≡◌, ◌<◌, ◌≤◌, ◌↔◌, ◌&&◌, false, length, take, drop, slice_index, slice_index_or, IsTrue, MatchOption};
ghost use Rattle.patterns.specs.Occurs.{contains_in_cells};
ghost use Rattle.patterns.specs.Search.{letters_fit};
ghost use Rattle.patterns.specs.Words.{has_no_repeats};
ghost use Rattle.gridded.specs.Grids.{points, corner, holds, Holds};
ghost use Rattle.gridded.specs.Numbers.{are_small};
ghost use Rattle.gridded.specs.Orders.{cell_eq, cells_of};
ghost use Rattle.gridded.specs.Search.{found};

use crate::cell::Cell;
use crate::gridded::Gridded;
use crate::number::numbers;
use kernels::occurs_cells;
use patterns::fits_next;

/// Whether a point may stand for the pattern's next one, after some letters were chosen.
#[tactic(auto, using(crate::proofs::Searches::reading))]
fn may_stand(
    letter: u8,
    cell: Cell,
    pattern: &[u8],
    pattern_cells: &[Cell],
    chosen: &[u8; 9],
    taken: usize,
) -> bool
    requires all { length pattern.now ≡ length pattern_cells.now }
    requires within { taken < length pattern.now }
    requires short { length pattern.now ≤ 9 }
    ensures { result ≡ (cell_eq cell (slice_index_or pattern_cells.now taken corner) && letters_fit letter (slice_index pattern.now taken) (take taken chosen.now) (take taken pattern.now)) }
{
    cell == pattern_cells[taken] && fits_next(chosen, pattern, taken, letter)
}

/// Whether the rest of the pattern is found in the points from a place on, after some letters were chosen. Where
/// fewer points are left than the rest has, it isn't.
#[tactic(auto, using(crate::proofs::Searches::stepping))]
fn extends(
    letters: &[u8],
    cells: &[Cell],
    pattern: &[u8],
    pattern_cells: &[Cell],
    chosen: [u8; 9],
    taken: usize,
    from: usize,
) -> bool
    requires whole { length letters.now ≡ length cells.now }
    requires all { length pattern.now ≡ length pattern_cells.now }
    requires within { taken ≤ length pattern.now }
    requires short { length pattern.now ≤ 9 }
    requires inside { from ≤ length letters.now }
    ensures { result ≡ found (take taken chosen) (take taken pattern.now) (drop from (points letters.now cells.now)) (drop taken (points pattern.now pattern_cells.now)) }
{
    if taken == pattern.len() {
        return true;
    }
    if letters.len() - from < pattern.len() - taken {
        return false;
    }
    let letter = letters[from];
    let mut longer = chosen;
    longer[taken] = letter;
    may_stand(letter, cells[from], pattern, pattern_cells, &chosen, taken)
        && extends(
            letters,
            cells,
            pattern,
            pattern_cells,
            longer,
            taken + 1,
            from + 1,
        )
        || extends(
            letters,
            cells,
            pattern,
            pattern_cells,
            chosen,
            taken,
            from + 1,
        )
}

/// Whether the pattern is held, point by point, for a pattern of any length and any cells.
fn is_found(whole: &Gridded, pattern: &Gridded) -> bool
    ensures { result ≡ holds whole.now pattern.now }
{
    extends(
        whole.letters(),
        whole.cells(),
        pattern.letters(),
        pattern.cells(),
        [0; 9],
        0,
        0,
    )
}

/// Whether a pattern of 1 to 4 letters occurs, by the loops made for its length. Cells are given by their
/// numbers; those past the pattern's end don't matter.
fn occurs_by_length(
    letters: &[u8],
    numbers: &[u8],
    pattern: &[u8],
    pattern_numbers: &[u8; 9],
) -> bool
    requires least { 1 ≤ length pattern.now }
    requires most { length pattern.now ≤ 4 }
    requires as_many { length letters.now ≡ length numbers.now }
    requires pattern_differs { IsTrue (has_no_repeats pattern.now) }
    requires letters_differ { IsTrue (has_no_repeats letters.now) }
    ensures { result ≡ contains_in_cells letters.now numbers.now pattern.now (take (length pattern.now) pattern_numbers.now) }
{
    let [x, y, z, w, ..] = *pattern_numbers;
    match pattern {
        [a] => occurs_cells(&[*a], &[x], letters, numbers),
        [a, b] => occurs_cells(&[*a, *b], &[x, y], letters, numbers),
        [a, b, c] => occurs_cells(&[*a, *b, *c], &[x, y, z], letters, numbers),
        [a, b, c, d, ..] => occurs_cells(&[*a, *b, *c, *d], &[x, y, z, w], letters, numbers),
        [] => true,
    }
}

/// Whether a pattern of 1 to 4 points is held, where all cells of both have x and y below 8.
fn holds_by_length(whole: &Gridded, pattern: &Gridded) -> Option<bool>
    requires least { 1 ≤ length pattern.now }
    requires most { length pattern.now ≤ 4 }
    ensures { MatchOption result ((are_small (cells_of whole.now) && are_small (cells_of pattern.now)) ≡ false) (λ held. held ≡ holds whole.now pattern.now) }
{
    let own = numbers(whole.cells())?;
    let others = numbers(pattern.cells())?;
    let letters = whole.letters();
    Some(occurs_by_length(letters, &own[..letters.len()], pattern.letters(), &others))
}

/// Whether points of the whole stand at rising places in the pattern's relative order, each in its point's
/// cell (docs/RULES.md, "Gridded permutations"). Takes no memory.
pub fn holds(whole: &Gridded, pattern: &Gridded) -> bool
    ensures tested { result ≡ holds whole.now pattern.now }
    ensures meaning { IsTrue result ↔ Holds whole.now pattern.now }
{
    let free = whole.free();
    if free & pattern.free() != free {
        return false;
    }
    if !pattern.is_empty() && pattern.len() <= 4 {
        if let Some(held) = holds_by_length(whole, pattern) {
            return held;
        }
    }
    is_found(whole, pattern)
}
