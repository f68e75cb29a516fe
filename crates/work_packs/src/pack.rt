ghost use Rattle.std.specs.Prelude.{◌≡◌, ◌≤◌, cond};
ghost use Rattle.std.specs.List.{list_any, list_all};
ghost use Rattle.patterns.specs.Words.{has_no_repeats};
ghost use Rattle.tile_rules.specs.Complete.{rulebook_of};
ghost use Rattle.work_packs.specs.PackTexts.{has_letter, is_letter, read_packs};

use std::marker::Model;

/// The letters that are on (docs/RULES.md, "Kinds of rules"): `i` for insertions, `r`, `c` and `p` for
/// placements in rows, in columns and of single points, `f` for factors, `s` for cuts, `n` for inferrals.
#[derive(Clone, Copy, Debug, PartialEq, Eq)]
pub struct Packs {
    pub i: bool,
    pub r: bool,
    pub c: bool,
    pub p: bool,
    pub f: bool,
    pub s: bool,
    pub n: bool,
}

impl Model for Packs {
    ghost use Rattle.rule_kinds.specs.Choices.{Packs as Letters};

    ghost Value = { Letters };

    ghost view = { λ packs. record { i = packs.i; r = packs.r; c = packs.c; p = packs.p; f = packs.f; s = packs.s; n = packs.n } };

    ghost inverse = { λ packs. record { i = packs.i; r = packs.r; c = packs.c; p = packs.p; f = packs.f; s = packs.s; n = packs.n } };
}

/// Whether a byte is a letter of packs.
fn is_letter(byte: u8) -> bool
    ensures { result ≡ is_letter byte }
{
    b"ircpfsn".iter().any(|letter| byte == *letter)
}

/// Whether each byte is a letter of packs.
fn are_letters(bytes: &[u8]) -> bool
    ensures { result ≡ list_all is_letter bytes.now }
{
    bytes.iter().all(|byte| is_letter(*byte))
}

/// Whether a byte is among others.
fn has(bytes: &[u8], byte: u8) -> bool
    ensures { result ≡ has_letter byte bytes.now }
{
    bytes.iter().any(|other| byte == *other)
}

/// Whether no byte stands twice.
fn has_no_repeats(bytes: &[u8]) -> bool
    ensures { result ≡ has_no_repeats bytes.now }
{
    for (place, byte) in bytes.iter().enumerate() {
        if has(&bytes[place + 1..], *byte) {
            return false;
        }
    }
    true
}

/// An amount where a letter is on, and else 0.
fn worth(on: bool, amount: u32) -> u32
    ensures value { result ≡ cond on amount 0 }
    ensures bound { result ≤ amount }
{
    if on { amount } else { 0 }
}

impl Packs {
    /// The letters of a text; None exactly where the text is empty, has a byte that is none of `ircpfsn`, or has
    /// a letter twice. Takes no memory.
    pub fn read(text: &str) -> Option<Packs>
        ensures { result ≡ read_packs text.now }
    {
        let bytes = text.as_bytes();
        if bytes.is_empty() {
            return None;
        }
        if !are_letters(bytes) {
            return None;
        }
        if !has_no_repeats(bytes) {
            return None;
        }
        Some(Packs {
            i: has(bytes, b'i'),
            r: has(bytes, b'r'),
            c: has(bytes, b'c'),
            p: has(bytes, b'p'),
            f: has(bytes, b'f'),
            s: has(bytes, b's'),
            n: has(bytes, b'n'),
        })
    }

    /// The number of the pack: the sum of 1 for `i`, 2 for `r`, 4 for `c`, 8 for `p`, 16 for `f`, 32 for `s` and 64
    /// for `n`. Takes no memory.
    pub fn rulebook(self) -> u32
        ensures { result ≡ rulebook_of self }
    {
        worth(self.i, 1)
            + worth(self.r, 2)
            + worth(self.c, 4)
            + worth(self.p, 8)
            + worth(self.f, 16)
            + worth(self.s, 32)
            + worth(self.n, 64)
    }
}
