ghost use Rattle.std.specs.Prelude.{◌≡◌, ◌∷◌, [], not, ◌+◌, ◌<◌, nat_eq, MatchOption, IfSome, length};
ghost use Rattle.std.specs.List.{count_by};
ghost use Rattle.spec_lines.specs.Forms.{has_items};
ghost use Rattle.spec_lines.specs.Items.{items};
ghost use Rattle.line_readers.specs.Cuts.{IsFirstAt, IsNowhere, is_alone};

use std::marker::Model;

/// The items of a text that are still to be read: those of `rest`, which has a byte between two. None is left where
/// there is no rest. Contracts see the list of the items' bytes.
#[derive(Drop)]
pub(crate) struct Items<'a> {
    rest: Option<&'a [u8]>,
    byte: u8,
}

impl<'a> Model for Items<'a> {
    ghost use Rattle.std.specs.Prelude.{List, ℕ, option_map};
    ghost use Rattle.line_readers.specs.Cuts.{items_left};

    ghost Value = { List (List ℕ) };

    ghost view = { λ s. items_left s.byte (option_map (λ r. r.now) s.rest) };
}

/// The first place of a byte.
fn first_at(text: &[u8], byte: u8) -> Option<usize>
    ensures { MatchOption result (IsNowhere byte text.now (length text.now)) (λ place. IsFirstAt byte text.now place) }
{
    for place in 0..text.len() {
        if text[place] == byte {
            return Some(place);
        }
    }
    None
}

/// How often a byte occurs.
fn occurrences(text: &[u8], byte: u8) -> usize
    ensures value { result ≡ count_by (λ b. nat_eq b byte) text.now }
    ensures few { result < 18446744073709551615 }
{
    text.iter().filter(|b| **b == byte).count()
}

/// The first item of a text whose items have a byte between two, and the text after that byte.
#[tactic(auto, using(crate::proofs::Cutting::cut_at, crate::proofs::Cutting::cut_nowhere))]
pub fn cut(text: &[u8], byte: u8) -> (&[u8], Option<&[u8]>)
    ensures shorter { IfSome result.1 (λ rest. length rest.now < length text.now) }
    ensures items { MatchOption result.1 (items byte text.now ≡ result.0.now ∷ []) (λ rest. items byte text.now ≡ result.0.now ∷ items byte rest.now) }
{
    match first_at(text, byte) {
        None => (text, None),
        Some(place) => {
            let (first, _) = text.split_at(place);
            let (_, rest) = text.split_at(place + 1);
            (first, Some(rest))
        }
    }
}

impl<'a> Items<'a> {
    /// The items of a text that has a byte between two.
    pub(crate) fn of(text: &'a [u8], byte: u8) -> Items<'a>
        ensures { result ≡ items byte text.now }
    {
        Items {
            rest: Some(text),
            byte,
        }
    }

    /// The next item.
    pub(crate) fn next(&mut self) -> Option<&'a [u8]>
        ensures { MatchOption result (self.old ≡ []) (λ item. self.old ≡ item.now ∷ self.new) }
    {
        let text = self.rest?;
        let (item, rest) = cut(text, self.byte);
        self.rest = rest;
        Some(item)
    }

    /// How many items are left.
    #[tactic(auto, using(crate::proofs::Arities::how_many))]
    pub(crate) fn count(&self) -> usize
        ensures { result ≡ length self.now }
    {
        match self.rest {
            None => 0,
            Some(text) => occurrences(text, self.byte) + 1,
        }
    }

    /// Whether no item is left.
    #[tactic(auto, using(crate::proofs::Cutting::items_left_some))]
    pub(crate) fn is_empty(&self) -> bool
        ensures { result ≡ not (has_items self.now) }
    {
        self.rest.is_none()
    }

    /// Whether one item is left, and it is this word.
    #[tactic(auto, using(crate::proofs::Cutting::some_items))]
    pub(crate) fn is_lone(&self, word: &[u8]) -> bool
        ensures { result ≡ is_alone word.now self.now }
    {
        let Some(text) = self.rest else {
            return false;
        };
        let (item, rest) = cut(text, self.byte);
        item == word && rest.is_none()
    }
}
