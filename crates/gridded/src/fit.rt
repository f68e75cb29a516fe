ghost use Rattle.std.specs.Prelude.{◌≡◌, ◌<◌, ◌≤◌, ◌↔◌, length, MatchOption, MatchResult, IsTrue, EachIndex};
ghost use Rattle.gridded.specs.Refused.{IsGoodLetter, IsGoodColumn, Opposed, IsGoodRow, IsFirstBad, IsAccepted, IsRefused};

use crate::cell::Cell;
use crate::fault::GriddedFault;

/// The first place whose letter is not below the length, or equals an earlier one.
fn first_bad_letter(letters: &[u8]) -> Option<usize>
    ensures { MatchOption result (EachIndex letters.now (λ k. IsGoodLetter letters.now k)) (λ place. IsFirstBad (length letters.now) (λ k. IsGoodLetter letters.now k) place) }
{
    for (place, letter) in letters.iter().enumerate() {
        if usize::from(*letter) >= letters.len() || letters[..place].contains(letter) {
            return Some(place);
        }
    }
    None
}

/// The first place whose column is lower than the one before.
fn first_bad_column(cells: &[Cell]) -> Option<usize>
    ensures { MatchOption result (EachIndex cells.now (λ k. IsGoodColumn cells.now k)) (λ place. IsFirstBad (length cells.now) (λ k. IsGoodColumn cells.now k) place) }
{
    for place in 1..cells.len() {
        if cells[place].x < cells[place - 1].x {
            return Some(place);
        }
    }
    None
}

/// Whether a row and letter stand in opposite strict order to another row and letter.
fn opposed(letter: u8, row: u8, other_letter: u8, other_row: u8) -> bool
    ensures { IsTrue result ↔ Opposed letter row other_letter other_row }
{
    letter < other_letter && other_row < row || other_letter < letter && row < other_row
}

/// Whether a place's row and letter stand in opposite strict order to no earlier place's.
fn row_agrees(letters: &[u8], cells: &[Cell], place: usize) -> bool
    requires whole { length letters.now ≡ length cells.now }
    requires inside { place < length cells.now }
    ensures { IsTrue result ↔ IsGoodRow letters.now cells.now place }
{
    for earlier in 0..place {
        if opposed(
            letters[earlier],
            cells[earlier].y,
            letters[place],
            cells[place].y,
        ) {
            return false;
        }
    }
    true
}

/// The first place whose row and letter stand in opposite strict order to an earlier place's.
fn first_bad_row(letters: &[u8], cells: &[Cell]) -> Option<usize>
    requires { length letters.now ≡ length cells.now }
    ensures { MatchOption result (EachIndex cells.now (λ k. IsGoodRow letters.now cells.now k)) (λ place. IsFirstBad (length cells.now) (λ k. IsGoodRow letters.now cells.now k) place) }
{
    for place in 0..cells.len() {
        if !row_agrees(letters, cells, place) {
            return Some(place);
        }
    }
    None
}

/// Whether letters and cells make a gridded permutation, or the first refusal that applies.
pub(crate) fn check(letters: &[u8], cells: &[Cell]) -> Result<(), GriddedFault>
    requires { length letters.now ≤ 9 }
    ensures { MatchResult result (λ _. IsAccepted letters.now cells.now) (λ fault. IsRefused letters.now cells.now fault) }
{
    if letters.len() != cells.len() {
        return Err(GriddedFault::Lengths);
    }
    if let Some(place) = first_bad_letter(letters) {
        return Err(GriddedFault::NotPerm {
            index: place as u32,
        });
    }
    if let Some(place) = first_bad_column(cells) {
        return Err(GriddedFault::Columns {
            index: place as u32,
        });
    }
    if let Some(place) = first_bad_row(letters, cells) {
        return Err(GriddedFault::Rows {
            index: place as u32,
        });
    }
    Ok(())
}
