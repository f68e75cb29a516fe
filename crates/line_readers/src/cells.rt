ghost use Rattle.std.specs.Prelude.{◌≡◌};
ghost use Rattle.spec_lines.specs.Ranges.{is_small};
ghost use Rattle.spec_lines.specs.Readings.{digit_at, cell_at};

use crate::spelt::Spelt;
use gridded::Cell;
use std::alloc::{AllocError, Global};

/// The number of a digit.
pub(crate) fn read_digit(byte: u8) -> Option<u8>
    ensures { result ≡ digit_at byte }
{
    if !byte.is_ascii_digit() {
        return None;
    }
    Some(byte - b'0')
}

/// The cell that two digits spell.
pub(crate) fn read_cell(text: &[u8]) -> Option<Cell>
    ensures { result ≡ cell_at text.now }
{
    let [column, row] = text else {
        return None;
    };
    let x = read_digit(*column)?;
    let y = read_digit(*row)?;
    Some(Cell { x, y })
}

/// Whether each digit is at most 7.
pub(crate) fn are_small(cells: &[Cell]) -> bool
    ensures { result ≡ is_small cells.now }
{
    cells.iter().all(|cell| cell.x <= 7 && cell.y <= 7)
}

impl Spelt for Cell {
    ghost spelt = { cell_at };

    fn read(_alloc: Global, text: &[u8]) -> Result<Option<Cell>, AllocError> {
        Ok(read_cell(text))
    }
}
