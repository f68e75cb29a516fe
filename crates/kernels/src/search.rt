ghost use Rattle.std.specs.Prelude.{◌≡◌, ◌≢◌};
ghost use Rattle.patterns.specs.Occurs.{stand_alike};

/// Whether x stands to y as a does to b, where neither two are equal.
pub(crate) fn stand_alike(x: u8, a: u8, y: u8, b: u8) -> bool
    requires apart { x ≢ y }
    requires letters_apart { a ≢ b }
    ensures { result ≡ stand_alike x a y b }
{
    (x < y) == (a < b)
}

/// The body of one turn of a search: `$stands` tells whether the text's point at place `$place` may stand for
/// the pattern's point at place `$taken`, and `$rest` whether the pattern's later points are found behind it.
/// The places are tried from `$from` on while enough points are left.
macro_rules! search {
    ($pattern:ident, $text:ident, $taken:literal, $from:expr, $place:ident, $stands:expr, $rest:expr) => {{
        if $pattern.len() == $taken {
            return true;
        }
        for $place in $from..($text.len() + $taken + 1).saturating_sub($pattern.len()) {
            if $stands && $rest {
                return true;
            }
        }
        false
    }};
}

pub(crate) use search;
