ghost use Rattle.std.specs.Prelude.{◌≡◌, ◌∷◌, []};
ghost use Rattle.spec_lines.specs.Readings.{step_at};

use crate::cells::read_digit;
use crate::spelt::Spelt;
use gridded::Cell;
use std::alloc::{AllocError, Global};
use steps::Step;

/// The step that one letter spells.
fn read_alone(letter: u8) -> Option<Step>
    ensures { result ≡ step_at (letter ∷ []) }
{
    match letter {
        b'V' => Some(Step::Void),
        b'M' => Some(Step::Min),
        b'L' => Some(Step::Lists),
        _ => None,
    }
}

/// The step that a letter and a digit spell.
fn read_line_step(letter: u8, digit: u8) -> Option<Step>
    ensures { result ≡ step_at (letter ∷ digit ∷ []) }
{
    let line = read_digit(digit)?;
    match letter {
        b'C' => Some(Step::Column(line)),
        b'R' => Some(Step::Row(line)),
        _ => None,
    }
}

/// The step that a letter and a cell spell.
fn read_clean(letter: u8, column: u8, row: u8) -> Option<Step>
    ensures { result ≡ step_at (letter ∷ column ∷ row ∷ []) }
{
    if letter != b'K' {
        return None;
    }
    let x = read_digit(column)?;
    let y = read_digit(row)?;
    Some(Step::Clean(Cell { x, y }))
}

/// The step that a text spells.
fn read_step(text: &[u8]) -> Option<Step>
    ensures { result ≡ step_at text.now }
{
    match text {
        [letter] => read_alone(*letter),
        [letter, digit] => read_line_step(*letter, *digit),
        [letter, column, row] => read_clean(*letter, *column, *row),
        _ => None,
    }
}

impl Spelt for Step {
    ghost spelt = { step_at };

    fn read(_alloc: Global, text: &[u8]) -> Result<Option<Step>, AllocError> {
        Ok(read_step(text))
    }
}
