ghost use Rattle.std.specs.Prelude.{◌≡◌, ◌<◌, ◌≤◌, ◌↔◌, ◌+◌, ◌==◌, length, [], ◌∷◌, slice_index, IsTrue};
ghost use Rattle.patterns.specs.Occurs.{contains_in_cells, ContainsInCells};
ghost use Rattle.patterns.specs.Words.{has_no_repeats};
ghost use Rattle.kernels.specs.Search.{found_in_cells_from};

use crate::search::{search, stand_alike};

/// Whether two cells are one.
fn same_cell(cell: u8, other: u8) -> bool
    ensures { result ≡ (cell == other) }
{
    cell == other
}

/// Whether the pattern's points from the fourth on are found behind three chosen places.
#[tactic(auto, using(crate::proofs::Searches::stepping_in_cells))]
fn fourth<const N: usize>(
    pattern: &[u8; N],
    pattern_cells: &[u8; N],
    text: &[u8],
    text_cells: &[u8],
    a: usize,
    b: usize,
    c: usize,
) -> bool
    requires most { N ≤ 4 }
    requires least { 3 ≤ N }
    requires as_many { length text.now ≡ length text_cells.now }
    requires rising { (a < b) × (b < c) × (c < length text.now) }
    requires letters_differ { IsTrue (has_no_repeats pattern.now) }
    requires text_differs { IsTrue (has_no_repeats text.now) }
    ensures { result ≡ found_in_cells_from (slice_index text.now a ∷ slice_index text.now b ∷ slice_index text.now c ∷ []) (slice_index pattern.now 0 ∷ slice_index pattern.now 1 ∷ slice_index pattern.now 2 ∷ []) (c + 1) text.now text_cells.now 3 pattern.now pattern_cells.now }
{
    search!(
        pattern,
        text,
        3,
        c + 1,
        d,
        same_cell(text_cells[d], pattern_cells[3])
            && stand_alike(text[d], pattern[3], text[a], pattern[0])
            && stand_alike(text[d], pattern[3], text[b], pattern[1])
            && stand_alike(text[d], pattern[3], text[c], pattern[2]),
        true
    )
}

/// Whether the pattern's points from the third on are found behind two chosen places.
#[tactic(auto, using(crate::proofs::Searches::stepping_in_cells))]
fn third<const N: usize>(
    pattern: &[u8; N],
    pattern_cells: &[u8; N],
    text: &[u8],
    text_cells: &[u8],
    a: usize,
    b: usize,
) -> bool
    requires most { N ≤ 4 }
    requires least { 2 ≤ N }
    requires as_many { length text.now ≡ length text_cells.now }
    requires rising { (a < b) × (b < length text.now) }
    requires letters_differ { IsTrue (has_no_repeats pattern.now) }
    requires text_differs { IsTrue (has_no_repeats text.now) }
    ensures { result ≡ found_in_cells_from (slice_index text.now a ∷ slice_index text.now b ∷ []) (slice_index pattern.now 0 ∷ slice_index pattern.now 1 ∷ []) (b + 1) text.now text_cells.now 2 pattern.now pattern_cells.now }
{
    search!(
        pattern,
        text,
        2,
        b + 1,
        c,
        same_cell(text_cells[c], pattern_cells[2])
            && stand_alike(text[c], pattern[2], text[a], pattern[0])
            && stand_alike(text[c], pattern[2], text[b], pattern[1]),
        fourth(pattern, pattern_cells, text, text_cells, a, b, c)
    )
}

/// Whether the pattern's points from the second on are found behind one chosen place.
#[tactic(auto, using(crate::proofs::Searches::stepping_in_cells))]
fn second<const N: usize>(
    pattern: &[u8; N],
    pattern_cells: &[u8; N],
    text: &[u8],
    text_cells: &[u8],
    a: usize,
) -> bool
    requires most { N ≤ 4 }
    requires least { 1 ≤ N }
    requires as_many { length text.now ≡ length text_cells.now }
    requires inside { a < length text.now }
    requires letters_differ { IsTrue (has_no_repeats pattern.now) }
    requires text_differs { IsTrue (has_no_repeats text.now) }
    ensures { result ≡ found_in_cells_from (slice_index text.now a ∷ []) (slice_index pattern.now 0 ∷ []) (a + 1) text.now text_cells.now 1 pattern.now pattern_cells.now }
{
    search!(
        pattern,
        text,
        1,
        a + 1,
        b,
        same_cell(text_cells[b], pattern_cells[1])
            && stand_alike(text[b], pattern[1], text[a], pattern[0]),
        third(pattern, pattern_cells, text, text_cells, a, b)
    )
}

/// Whether some letters of the text, from left to right, stand in the pattern's relative order, each in the
/// cell of its letter of the pattern. A cell in column x and row y is the number 8x + y, and each letter has
/// one. The pattern has 1 to 4 letters; neither the pattern nor the text has a letter twice. Takes no memory
/// (docs/RULES.md, "Gridded permutations").
#[tactic(auto, using(crate::proofs::Searches::stepping_in_cells))]
pub fn occurs_cells<const N: usize>(
    pattern: &[u8; N],
    pattern_cells: &[u8; N],
    text: &[u8],
    text_cells: &[u8],
) -> bool
    requires most { N ≤ 4 }
    requires least { 1 ≤ N }
    requires as_many { length text.now ≡ length text_cells.now }
    requires letters_differ { IsTrue (has_no_repeats pattern.now) }
    requires text_differs { IsTrue (has_no_repeats text.now) }
    ensures test { result ≡ contains_in_cells text.now text_cells.now pattern.now pattern_cells.now }
    ensures relation { IsTrue result ↔ ContainsInCells text.now text_cells.now pattern.now pattern_cells.now }
{
    search!(
        pattern,
        text,
        0,
        0,
        a,
        same_cell(text_cells[a], pattern_cells[0]),
        second(pattern, pattern_cells, text, text_cells, a)
    )
}
