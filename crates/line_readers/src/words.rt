ghost use Rattle.std.specs.Prelude.{◌≡◌, ◌≤◌, nat_lt, nat_le, length, true, refl, option_map};
ghost use Rattle.std.specs.List.{list_all};
ghost use Rattle.std.specs.Cmp.{partial_equiv_from_equiv};
ghost use Rattle.std.specs.Ordering.{as_partial_cmp};
ghost use Rattle.patterns.specs.Words.{has_no_repeats};
ghost use Rattle.perm_core.specs.Orders.{perm_eq, perm_cmp, perm_equiv, perm_total, perm_ties, perm_order};
ghost use Rattle.spec_lines.specs.Forms.{is_word};
ghost use Rattle.spec_lines.specs.Readings.{letters_at, word_at};

use crate::cells::read_digit;
use crate::narrow::Wide;
use crate::spelt::Spelt;
use arrayvec::ArrayVec;
use perm_core::Perm;
use std::alloc::{AllocError, Global};
use std::cmp::Ordering;
use std::marker::Model;

/// 1 to 10 letters, which are those from 0 on, each once. Contracts see the list of its letters.
#[derive(Drop)]
pub(crate) struct Word {
    letters: ArrayVec<u8, 10>,
}

impl Model for Word {
    ghost use Rattle.std.specs.Prelude.{List, ℕ, ◌≡◌, true};
    ghost use Rattle.spec_lines.specs.Forms.{is_word};

    ghost Value = { List ℕ };

    ghost view = { λ w. w.letters.items };

    ghost invariant = { λ w. is_word w.letters.items ≡ true };
}

/// The digits that at most ten bytes are.
fn read_letters(text: &[u8]) -> Option<ArrayVec<u8, 10>>
    requires { length text.now ≤ 10 }
    ensures { option_map (λ letters. letters.items) result ≡ letters_at text.now }
{
    let mut letters = ArrayVec::new();
    for byte in text {
        letters.push(read_digit(*byte)?);
    }
    Some(letters)
}

/// Whether each letter is below a number.
fn are_below(letters: &[u8], most: usize) -> bool
    ensures { result ≡ list_all (λ letter. nat_lt letter most) letters.now }
{
    letters.iter().all(|letter| usize::from(*letter) < most)
}

/// Whether no letter stands twice.
fn are_distinct(letters: &[u8]) -> bool
    ensures { result ≡ has_no_repeats letters.now }
{
    for place in 0..letters.len() {
        if letters[place + 1..].contains(&letters[place]) {
            return false;
        }
    }
    true
}

/// Whether the letters are those from 0 on, each once.
fn is_word(letters: &[u8]) -> bool
    requires { length letters.now ≤ 10 }
    ensures { result ≡ is_word letters.now }
{
    !letters.is_empty() && are_below(letters, letters.len()) && are_distinct(letters)
}

impl Word {
    /// The word that the text spells.
    pub(crate) fn of(text: &[u8]) -> Option<Word>
        ensures { result ≡ word_at text.now }
    {
        if text.len() > 10 {
            return None;
        }
        let letters = read_letters(text)?;
        if !is_word(letters.as_slice()) {
            return None;
        }
        Some(Word { letters })
    }

    /// The letters in a vector.
    pub(crate) fn into_letters(self) -> ArrayVec<u8, 10>
        ensures value { result.items ≡ self }
        ensures word { is_word self ≡ true }
    {
        self.letters
    }

    /// The letters from left to right.
    pub(crate) fn letters(&self) -> &[u8]
        ensures value { result.now ≡ self.now }
        ensures word { is_word self.now ≡ true }
    {
        self.letters.as_slice()
    }
}

impl PartialEq for Word {
    ghost eq = { perm_eq };

    ghost laws = { partial_equiv_from_equiv perm_equiv };

    fn eq(&self, other: &Word) -> bool {
        self.letters() == other.letters()
    }
}

impl Eq for Word {
    ghost laws = { perm_equiv };
}

impl PartialOrd for Word {
    ghost partial_cmp = { as_partial_cmp perm_cmp };

    ghost laws = { perm_order };

    fn partial_cmp(&self, other: &Word) -> Option<Ordering> {
        Some(self.cmp(other))
    }
}

/// By length, then by letters.
impl Ord for Word {
    ghost cmp = { perm_cmp };

    ghost total = { perm_total };

    ghost matches_partial_cmp = { λ x y. refl };

    ghost matches_eq = { perm_ties };

    fn cmp(&self, other: &Word) -> Ordering {
        let letters = self.letters();
        let others = other.letters();
        match letters.len().cmp(&others.len()) {
            Ordering::Equal => letters.cmp(others),
            unequal => unequal,
        }
    }
}

impl Spelt for Word {
    ghost spelt = { word_at };

    fn read(_alloc: Global, text: &[u8]) -> Result<Option<Word>, AllocError> {
        Ok(Word::of(text))
    }
}

impl Wide for Word {
    type Narrow = Perm;

    ghost fits = { λ w. nat_le (length w) 9 };

    ghost wide = { λ p. p };

    fn narrow(&self, alloc: Global) -> Result<Option<Perm>, AllocError> {
        let letters = self.letters();
        if letters.len() > 9 {
            return Ok(None);
        }
        match Perm::of(alloc, letters) {
            Ok(perm) => Ok(Some(perm)),
            Err(_) => Err(AllocError),
        }
    }
}
