ghost use Rattle.std.specs.Prelude.{◌≡◌, ◌<◌, ◌≤◌, length, take, slice_index};
ghost use Rattle.patterns.specs.Occurs.{stand_alike};
ghost use Rattle.patterns.specs.Search.{letters_fit};

/// Whether x stands to y as a does to b.
fn stand_alike(x: u8, a: u8, y: u8, b: u8) -> bool
    ensures { result ≡ stand_alike x a y b }
{
    (x < y) == (a < b) && (y < x) == (b < a)
}

/// Whether a letter stands to the letters chosen so far, the first `taken` of `chosen`, as the pattern's
/// letter at place `taken` does to those before it. The pattern has at most 9 letters. Takes no memory.
#[tactic(auto, using(crate::proofs::Places::fitting))]
pub fn fits_next(chosen: &[u8; 9], pattern: &[u8], taken: usize, letter: u8) -> bool
    requires within { taken < length pattern.now }
    requires short { length pattern.now ≤ 9 }
    ensures { result ≡ letters_fit letter (slice_index pattern.now taken) (take taken chosen.now) (take taken pattern.now) }
{
    let next = pattern[taken];
    for i in 0..taken {
        if !stand_alike(letter, next, chosen[i], pattern[i]) {
            return false;
        }
    }
    true
}
