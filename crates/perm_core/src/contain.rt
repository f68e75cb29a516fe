ghost use Rattle.std.specs.Prelude.{◌≡◌, ◌↔◌, ◌≤◌, true, length, take, drop, IsTrue};
ghost use Rattle.patterns.specs.Occurs.{contains, Contains};
ghost use Rattle.patterns.specs.Search.{is_found};
ghost use Rattle.patterns.specs.Words.{has_no_repeats};

use crate::perm::Perm;
use kernels::occurs;
use patterns::fits_next;

/// Whether the rest of the pattern is found in the word from a place on, after some letters were chosen.
#[tactic(auto, using(crate::proofs::Searches::stepping))]
fn extends(whole: &[u8], pattern: &[u8], chosen: [u8; 9], taken: usize, from: usize) -> bool
    requires within { taken ≤ length pattern.now }
    requires short { length pattern.now ≤ 9 }
    requires inside { from ≤ length whole.now }
    ensures { result ≡ is_found (λ l. l) (λ _ _. true) (take taken chosen) (take taken pattern.now) (drop from whole.now) (drop taken pattern.now) }
{
    if taken == pattern.len() {
        return true;
    }
    if from == whole.len() {
        return false;
    }
    let letter = whole[from];
    let mut longer = chosen;
    longer[taken] = letter;
    fits_next(&chosen, pattern, taken, letter)
        && extends(whole, pattern, longer, taken + 1, from + 1)
        || extends(whole, pattern, chosen, taken, from + 1)
}

/// Whether some letters of a word stand in the pattern's order. Neither has a letter twice. A pattern of 1 to
/// 4 letters is looked for by the loops made for its length.
#[tactic(auto, using(crate::proofs::Searches::starting))]
pub(crate) fn word_contains(whole: &[u8], pattern: &[u8]) -> bool
    requires short { length pattern.now ≤ 9 }
    requires letters_differ { IsTrue (has_no_repeats pattern.now) }
    requires word_differs { IsTrue (has_no_repeats whole.now) }
    ensures { result ≡ contains whole.now pattern.now }
{
    match pattern {
        [a] => occurs(&[*a], whole),
        [a, b] => occurs(&[*a, *b], whole),
        [a, b, c] => occurs(&[*a, *b, *c], whole),
        [a, b, c, d] => occurs(&[*a, *b, *c, *d], whole),
        _ => extends(whole, pattern, [0; 9], 0, 0),
    }
}

/// Whether the permutation contains the pattern: letters at some rising places of it stand in the
/// pattern's relative order. Takes no memory (docs/RULES.md, "Permutations and patterns").
pub fn contains(whole: &Perm, pattern: &Perm) -> bool
    ensures test { result ≡ contains whole.now pattern.now }
    ensures relation { IsTrue result ↔ Contains whole.now pattern.now }
{
    word_contains(whole.letters(), pattern.letters())
}
