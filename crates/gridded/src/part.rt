ghost use Rattle.std.specs.Prelude.{◌≡◌, ◌<◌, ◌≤◌, ◌+◌, [], ◌∷◌, ◌++◌, length, take};
ghost use Rattle.patterns.specs.Ranks.{rank, standardised};
ghost use Rattle.gridded.specs.Grids.{points, IsGridded};
ghost use Rattle.gridded.specs.Parts.{closed_up};

use crate::cell::Cell;
use crate::gridded::Gridded;
use std::marker::Model;

/// At most nine points from left to right, whatever their letters.
#[derive(Drop)]
pub(crate) struct Part {
    letters: [u8; 9],
    cells: [Cell; 9],
    len: usize,
}

impl Model for Part {
    ghost use Rattle.std.specs.Prelude.{List, take};
    ghost use Rattle.gridded.specs.Grids.{Point, points};
    ghost use Rattle.gridded.specs.Parts.{HasRoom};

    ghost Value = { List Point };

    ghost view = { λ p. points (take p.len p.letters) (take p.len p.cells) };

    ghost invariant = { λ p. HasRoom p.len p.letters p.cells };
}

/// How many of the letters are smaller.
fn rank(letters: &[u8], letter: u8) -> u8
    requires { length letters.now ≤ 9 }
    ensures { result ≡ rank letters.now letter }
{
    letters.iter().filter(|other| **other < letter).count() as u8
}

/// The ranks of the letters, and what is blank behind them.
fn ranks(letters: &[u8]) -> [u8; 9]
    requires { length letters.now ≤ 9 }
    ensures { take (length letters.now) result ≡ standardised letters.now }
{
    let mut ranks = [0; 9];
    for place in 0..letters.len() {
        ranks[place] = rank(letters, letters[place]);
    }
    ranks
}

impl Part {
    /// The part with no point.
    pub(crate) fn none() -> Part
        ensures { result ≡ [] }
    {
        Part {
            letters: [0; 9],
            cells: [Cell { x: 0, y: 0 }; 9],
            len: 0,
        }
    }

    /// The part with one more point on the right.
    pub(crate) fn push(&mut self, letter: u8, cell: Cell)
        requires { length self.old < 9 }
        ensures { self.new ≡ self.old ++ record { letter = letter; cell = cell } ∷ [] }
    {
        self.letters[self.len] = letter;
        self.cells[self.len] = cell;
        self.len += 1;
    }

    /// The part with more points on the right.
    pub(crate) fn extend(&mut self, letters: &[u8], cells: &[Cell])
        requires whole { length letters.now ≡ length cells.now }
        requires room { length self.old + length letters.now ≤ 9 }
        ensures { self.new ≡ self.old ++ points letters.now cells.now }
    {
        for place in 0..letters.len() {
            self.push(letters[place], cells[place]);
        }
    }

    /// The points with letters from 0 on in the same relative order.
    pub(crate) fn close_up(&self) -> Gridded
        requires { IsGridded (closed_up self.now) }
        ensures { result ≡ closed_up self.now }
    {
        let letters = &self.letters[..self.len];
        let ranks = ranks(letters);
        Gridded::from_consistent(&ranks[..self.len], &self.cells[..self.len])
    }
}
