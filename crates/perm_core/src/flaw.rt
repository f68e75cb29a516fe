ghost use Rattle.std.specs.Prelude.{◌≡◌, MatchOption};
ghost use Rattle.perm_core.specs.Basis.{is_separator, NoneIsWrong, IsFirstWrong};
ghost use Rattle.perm_core.specs.Flaws.{wrong_by};

/// What can be wrong with a byte of a basis, after the bytes of its word before it.
#[derive(Clone, Copy)]
pub(crate) enum Flaw {
    NoDigit,
    SeenBefore,
    PastNine,
}

/// Whether the byte stands between words.
pub(crate) fn is_separator(byte: u8) -> bool
    ensures { result ≡ is_separator byte }
{
    byte == b'_' || byte == b','
}

/// Whether the byte has the flaw.
fn has_flaw(flaw: Flaw, word: &[u8], byte: u8) -> bool
    ensures { result ≡ wrong_by flaw word.now byte }
{
    match flaw {
        Flaw::NoDigit => !byte.is_ascii_digit(),
        Flaw::SeenBefore => word.contains(&byte),
        Flaw::PastNine => word.len() >= 9,
    }
}

/// The first byte of the text that has the flaw.
pub(crate) fn first_flaw(flaw: Flaw, text: &[u8]) -> Option<usize>
    ensures { MatchOption result (NoneIsWrong (wrong_by flaw) text.now) (λ k. IsFirstWrong (wrong_by flaw) text.now k) }
{
    let mut start = 0;
    for (place, byte) in text.iter().enumerate() {
        if is_separator(*byte) {
            start = place + 1;
        } else if has_flaw(flaw, &text[start..place], *byte) {
            return Some(place);
        }
    }
    None
}
