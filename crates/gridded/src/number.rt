// The number of a cell, which tells it among the cells with x and y below 8.
ghost use Rattle.std.specs.Prelude.{◌≡◌, ◌&&◌, ◌≤◌, nat_lt, false, length, MatchOption};
ghost use Rattle.gridded.specs.Numbers.{are_small, AreNumbers};

use crate::cell::Cell;

/// Whether the cell has x and y below 8.
fn is_small(cell: Cell) -> bool
    ensures { result ≡ (nat_lt cell.x 8 && nat_lt cell.y 8) }
{
    cell.x < 8 && cell.y < 8
}

/// The numbers 8x + y of at most nine cells, and 0 past their end, where all have x and y below 8.
#[tactic(auto, using(crate::proofs::Numbered::numbering))]
pub(crate) fn numbers(cells: &[Cell]) -> Option<[u8; 9]>
    requires { length cells.now ≤ 9 }
    ensures { MatchOption result (are_small cells.now ≡ false) (λ numbers. AreNumbers cells.now numbers) }
{
    let mut numbers = [0; 9];
    for place in 0..cells.len() {
        let cell = cells[place];
        if !is_small(cell) {
            return None;
        }
        numbers[place] = cell.x * 8 + cell.y;
    }
    Some(numbers)
}
