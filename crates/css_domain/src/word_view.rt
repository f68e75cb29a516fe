ghost use Rattle.std.specs.Prelude.{◌≡◌, ◌+◌, ◌<◌, length, slice_index};

use std::marker::Model;

/// Words that are read one by one. Contracts see the words and how many readings there were; it has no copy, so
/// that each reading is counted (docs/RULES.md, "Records").
#[derive(Drop)]
pub struct WordView<'a> {
    words: &'a [u64],
    reads: u64,
}

impl<'a> Model for WordView<'a> {
    ghost use Rattle.css_domain.specs.WordViews.{ViewState};

    ghost Value = { ViewState };

    ghost view = { λ v. record { words = v.words.now; reads = v.reads } };
}

impl<'a> WordView<'a> {
    ghost use Rattle.css_domain.specs.WordViews.{ViewState};

    /// A view of these words, of which none was read. Takes no memory.
    pub fn of(words: &'a [u64]) -> WordView<'a>
        ensures { result ≡ record { words = words.now; reads = 0 } }
    {
        WordView { words, reads: 0 }
    }

    /// The number of words. Takes no memory.
    pub fn len(&self) -> u64
        ensures { result ≡ length self.now.words }
    {
        self.words.len() as u64
    }

    /// The word at a place, which counts as one reading. Takes no memory.
    pub fn word(&mut self, at: u64) -> u64
        requires within { at < length self.old.words }
        requires few { self.old.reads < 18446744073709551615 }
        ensures word { result ≡ slice_index self.old.words at }
        ensures read { self.new ≡ record self.old { reads = self.old.reads + 1 } }
    {
        self.reads += 1;
        self.words[at as usize]
    }

    /// How many readings there were. Takes no memory.
    pub fn reads(&self) -> u64
        ensures { result ≡ self.now.reads }
    {
        self.reads
    }
}
