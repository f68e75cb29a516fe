ghost use Rattle.std.specs.Prelude.{◌≡◌, ◌≤◌, length, drop};
ghost use Rattle.gridded.specs.Grids.{points};
ghost use Rattle.gridded.specs.Digest.{mixed, digest_of};

use crate::cell::Cell;
use crate::gridded::Gridded;

/// The digest with one more point.
#[tactic(auto, using(crate::proofs::Digests::mixing))]
fn mixed(seed: u64, letter: u8, cell: Cell) -> u64
    ensures { result ≡ mixed seed (record { letter = letter; cell = cell }) }
{
    let point = letter as u64 * 256 + cell.x as u64 * 16 + cell.y as u64;
    seed.wrapping_mul(0x9e37_79b9_7f4a_7c15).wrapping_add(point)
}

/// The digest with the points from a place on.
#[tactic(auto, using(crate::proofs::Digests::stepping))]
fn digest_from(seed: u64, letters: &[u8], cells: &[Cell], from: usize) -> u64
    requires whole { length letters.now ≡ length cells.now }
    requires inside { from ≤ length letters.now }
    ensures { result ≡ digest_of seed (drop from (points letters.now cells.now)) }
{
    if from == letters.len() {
        return seed;
    }
    digest_from(
        mixed(seed, letters[from], cells[from]),
        letters,
        cells,
        from + 1,
    )
}

impl Gridded {
    /// One number for the letters and cells.
    #[tactic(auto, using(crate::proofs::Points::back))]
    pub(crate) fn digest(&self) -> u64
        ensures { result ≡ digest_of 0 self.now }
    {
        digest_from(0, self.letters(), self.cells(), 0)
    }
}
