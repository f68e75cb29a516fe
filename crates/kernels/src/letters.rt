ghost use Rattle.std.specs.Prelude.{◌≡◌, ◌<◌, ◌≤◌, ◌↔◌, ◌+◌, length, [], ◌∷◌, slice_index, IsTrue};
ghost use Rattle.patterns.specs.Occurs.{contains, Contains};
ghost use Rattle.patterns.specs.Words.{has_no_repeats};
ghost use Rattle.kernels.specs.Search.{found_from};

use crate::search::{search, stand_alike};

/// Whether the pattern's points from the fourth on are found behind three chosen places.
#[tactic(auto, using(crate::proofs::Searches::stepping))]
fn fourth<const N: usize>(pattern: &[u8; N], text: &[u8], a: usize, b: usize, c: usize) -> bool
    requires most { N ≤ 4 }
    requires least { 3 ≤ N }
    requires rising { (a < b) × (b < c) × (c < length text.now) }
    requires letters_differ { IsTrue (has_no_repeats pattern.now) }
    requires text_differs { IsTrue (has_no_repeats text.now) }
    ensures { result ≡ found_from (slice_index text.now a ∷ slice_index text.now b ∷ slice_index text.now c ∷ []) (slice_index pattern.now 0 ∷ slice_index pattern.now 1 ∷ slice_index pattern.now 2 ∷ []) (c + 1) text.now 3 pattern.now }
{
    search!(
        pattern,
        text,
        3,
        c + 1,
        d,
        stand_alike(text[d], pattern[3], text[a], pattern[0])
            && stand_alike(text[d], pattern[3], text[b], pattern[1])
            && stand_alike(text[d], pattern[3], text[c], pattern[2]),
        true
    )
}

/// Whether the pattern's points from the third on are found behind two chosen places.
#[tactic(auto, using(crate::proofs::Searches::stepping))]
fn third<const N: usize>(pattern: &[u8; N], text: &[u8], a: usize, b: usize) -> bool
    requires most { N ≤ 4 }
    requires least { 2 ≤ N }
    requires rising { (a < b) × (b < length text.now) }
    requires letters_differ { IsTrue (has_no_repeats pattern.now) }
    requires text_differs { IsTrue (has_no_repeats text.now) }
    ensures { result ≡ found_from (slice_index text.now a ∷ slice_index text.now b ∷ []) (slice_index pattern.now 0 ∷ slice_index pattern.now 1 ∷ []) (b + 1) text.now 2 pattern.now }
{
    search!(
        pattern,
        text,
        2,
        b + 1,
        c,
        stand_alike(text[c], pattern[2], text[a], pattern[0])
            && stand_alike(text[c], pattern[2], text[b], pattern[1]),
        fourth(pattern, text, a, b, c)
    )
}

/// Whether the pattern's points from the second on are found behind one chosen place.
#[tactic(auto, using(crate::proofs::Searches::stepping))]
fn second<const N: usize>(pattern: &[u8; N], text: &[u8], a: usize) -> bool
    requires most { N ≤ 4 }
    requires least { 1 ≤ N }
    requires inside { a < length text.now }
    requires letters_differ { IsTrue (has_no_repeats pattern.now) }
    requires text_differs { IsTrue (has_no_repeats text.now) }
    ensures { result ≡ found_from (slice_index text.now a ∷ []) (slice_index pattern.now 0 ∷ []) (a + 1) text.now 1 pattern.now }
{
    search!(
        pattern,
        text,
        1,
        a + 1,
        b,
        stand_alike(text[b], pattern[1], text[a], pattern[0]),
        third(pattern, text, a, b)
    )
}

/// Whether some letters of the text, from left to right, stand in the pattern's relative order. The pattern
/// has 1 to 4 letters; neither the pattern nor the text has a letter twice. Takes no memory
/// (docs/RULES.md, "Permutations and patterns").
#[tactic(auto, using(crate::proofs::Searches::stepping))]
pub fn occurs<const N: usize>(pattern: &[u8; N], text: &[u8]) -> bool
    requires most { N ≤ 4 }
    requires least { 1 ≤ N }
    requires letters_differ { IsTrue (has_no_repeats pattern.now) }
    requires text_differs { IsTrue (has_no_repeats text.now) }
    ensures test { result ≡ contains text.now pattern.now }
    ensures relation { IsTrue result ↔ Contains text.now pattern.now }
{
    search!(pattern, text, 0, 0, a, true, second(pattern, text, a))
}
