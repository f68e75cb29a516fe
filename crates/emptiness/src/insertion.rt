ghost use Rattle.std.specs.Prelude.{All, ◌≡◌, ◌<◌, ◌≤◌, ◌+◌, ◌-◌, ◌&&◌, true, cond, length, take, drop, map, nat_lt};
ghost use Rattle.gridded.specs.Grids.{points, IsGridded, FitTogether};
ghost use Rattle.emptiness.specs.Insertion.{put_in, raised_letter, precedes, fits_at, inserted};

use gridded::{Cell, Gridded};

/// A letter that makes room for another one.
fn raised(letter: u8, new: u8) -> u8
    requires { letter < 255 }
    ensures { result ≡ raised_letter new letter }
{
    if letter < new { letter } else { letter + 1 }
}

/// Whether a point may stand left of a new one, or right of it.
fn stands_beside(letter: u8, cell: Cell, before: bool, new: u8, new_cell: Cell) -> bool
    ensures { result ≡ precedes before letter cell new new_cell }
{
    let columns = if before {
        cell.x <= new_cell.x
    } else {
        new_cell.x <= cell.x
    };
    columns
        && if letter < new {
            cell.y <= new_cell.y
        } else {
            new_cell.y <= cell.y
        }
}

/// Whether the points from a place on may stand beside a new one that is put in at a place.
#[tactic(auto, using(crate::proofs::Insertions::stepping))]
fn fits_from(
    letters: &[u8],
    cells: &[Cell],
    from: usize,
    place: usize,
    new: u8,
    new_cell: Cell,
) -> bool
    requires whole { length letters.now ≡ length cells.now }
    requires inside { from ≤ length letters.now }
    ensures { result ≡ fits_at (place - from) new new_cell (drop from (points letters.now cells.now)) }
{
    if from == letters.len() {
        return true;
    }
    stands_beside(letters[from], cells[from], from < place, new, new_cell)
        && fits_from(letters, cells, from + 1, place, new, new_cell)
}

/// Whether a new point can be put in at a place.
#[tactic(auto, using(crate::proofs::Insertions::fitting))]
pub(crate) fn fits_at(g: &Gridded, place: usize, letter: u8, cell: Cell) -> bool
    ensures { result ≡ fits_at place letter cell g.now }
{
    fits_from(g.letters(), g.cells(), 0, place, letter, cell)
}

/// The letters with room for another one.
#[tactic(auto, using(crate::proofs::Insertions::raising))]
fn raised_letters(letters: &[u8], new: u8) -> [u8; 9]
    requires room { length letters.now ≤ 9 }
    requires low { All (λ letter. letter < 9) letters.now }
    ensures { take (length letters.now) result ≡ map (raised_letter new) letters.now }
{
    let mut own = [0; 9];
    for i in 0..letters.len() {
        own[i] = raised(letters[i], new);
    }
    own
}

/// The letters with another one at a place.
fn with_letter(letters: &[u8], place: usize, letter: u8) -> [u8; 9]
    requires room { length letters.now < 9 }
    requires within { place ≤ length letters.now }
    ensures { take (length letters.now + 1) result ≡ put_in place letter letters.now }
{
    let mut own = [letter; 9];
    own[..place].copy_from_slice(&letters[..place]);
    own[place + 1..letters.len() + 1].copy_from_slice(&letters[place..]);
    own
}

/// The cells with another one at a place.
fn with_cell(cells: &[Cell], place: usize, cell: Cell) -> [Cell; 9]
    requires room { length cells.now < 9 }
    requires within { place ≤ length cells.now }
    ensures { take (length cells.now + 1) result ≡ put_in place cell cells.now }
{
    let mut own = [cell; 9];
    own[..place].copy_from_slice(&cells[..place]);
    own[place + 1..cells.len() + 1].copy_from_slice(&cells[place..]);
    own
}

/// A gridded permutation with a new point at a place.
pub(crate) fn inserted(g: &Gridded, place: usize, letter: u8, cell: Cell) -> Gridded
    requires room { length g.now < 9 }
    requires within { place ≤ length g.now }
    requires below { letter ≤ length g.now }
    requires fits { fits_at place letter cell g.now ≡ true }
    ensures { result ≡ inserted place letter cell g.now }
{
    let len = g.letters().len();
    let raised = raised_letters(g.letters(), letter);
    let letters = with_letter(&raised[..len], place, letter);
    let cells = with_cell(g.cells(), place, cell);
    Gridded::from_consistent(&letters[..len + 1], &cells[..len + 1])
}
