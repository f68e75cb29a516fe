ghost use Rattle.std.specs.Prelude.{◌≡◌, ◌≤◌, ◌↔◌, IsTrue, not};
ghost use Rattle.std.specs.List.{list_any};
ghost use Rattle.tiling_core.specs.Measures.{Positive, is_empty, is_positive, longest, weight};

use crate::tiling::Tiling;
use gridded::Gridded;
use sequences::Sequence;

/// Whether one of the patterns has no point.
fn has_empty(patterns: &[Gridded]) -> bool
    ensures { result ≡ list_any (λ p. is_empty p) patterns.now }
{
    patterns.iter().any(|pattern| pattern.letters().is_empty())
}

/// Whether some list has no empty pattern.
fn some_lacks_empty(lists: &[Sequence<Gridded>]) -> bool
    ensures { result ≡ list_any (λ patterns. not (list_any (λ p. is_empty p) patterns)) lists.now }
{
    lists.iter().any(|patterns| !has_empty(patterns.as_slice()))
}

/// Whether some requirement list has no empty pattern, so that every member has a point. An empty list has
/// none. Takes no memory.
pub fn positive(tiling: &Tiling) -> bool
    ensures value { result ≡ is_positive tiling.now }
    ensures decides { IsTrue result ↔ Positive tiling.now }
{
    some_lacks_empty(tiling.requirements())
}

/// The length of the longest pattern, 0 where there is none.
fn longest(patterns: &[Gridded]) -> u32
    ensures value { result ≡ longest patterns.now }
    ensures short { result ≤ 9 }
{
    let mut most = 0;
    for pattern in patterns {
        most = most.max(pattern.letters().len() as u32);
    }
    most
}

/// The sum over the requirement lists of the longest pattern's length, an empty list counting 0. Takes no
/// memory.
pub fn weight(tiling: &Tiling) -> u32
    ensures { result ≡ weight tiling.now }
{
    let mut weight = 0;
    for patterns in tiling.requirements() {
        weight += longest(patterns.as_slice());
    }
    weight
}
