ghost use Rattle.std.specs.Prelude.{◌≡◌, ◌↔◌, IsTrue, not};
ghost use Rattle.std.specs.List.{list_all, list_any};
ghost use Rattle.gridded.specs.Grids.{holds};
ghost use Rattle.gridded.specs.Places.{fits_grid};
ghost use Rattle.tiling_core.specs.Tiles.{is_member};
ghost use Rattle.tiling_core.specs.Members.{Member, HoldsOneOf};

use crate::tiling::Tiling;
use gridded::{Gridded, holds};
use sequences::Sequence;

/// Whether none of the patterns is held.
fn holds_none(g: &Gridded, patterns: &[Gridded]) -> bool
    ensures { result ≡ list_all (λ p. not (holds g.now p)) patterns.now }
{
    patterns.iter().all(|pattern| !holds(g, pattern))
}

/// Whether some pattern is held.
fn any_held(g: &Gridded, patterns: &[Gridded]) -> bool
    ensures { result ≡ list_any (λ p. holds g.now p) patterns.now }
{
    patterns.iter().any(|pattern| holds(g, pattern))
}

/// Whether one of the patterns is held. Takes no memory.
pub fn holds_one(g: &Gridded, patterns: &[Gridded]) -> bool
    ensures value { result ≡ list_any (λ p. holds g.now p) patterns.now }
    ensures meaning { IsTrue result ↔ HoldsOneOf g.now patterns.now }
{
    any_held(g, patterns)
}

/// Whether a pattern of each list is held.
fn holds_each(g: &Gridded, lists: &[Sequence<Gridded>]) -> bool
    ensures { result ≡ list_all (λ patterns. list_any (λ p. holds g.now p) patterns) lists.now }
{
    lists
        .iter()
        .all(|patterns| any_held(g, patterns.as_slice()))
}

/// Whether a gridded permutation passes the tests of a member.
fn passes(tiling: &Tiling, g: &Gridded) -> bool
    ensures { result ≡ is_member tiling.now g.now }
{
    g.fits_grid(tiling.width(), tiling.height())
        && holds_none(g, tiling.obstructions())
        && holds_each(g, tiling.requirements())
}

/// Whether a gridded permutation is a member: in the grid, with no obstruction, and with a pattern of each
/// requirement list. Its cells may lie outside the grid; then it is none. Takes no memory.
pub fn member(tiling: &Tiling, g: &Gridded) -> bool
    ensures value { result ≡ is_member tiling.now g.now }
    ensures decides { IsTrue result ↔ Member g.now tiling.now }
{
    passes(tiling, g)
}
