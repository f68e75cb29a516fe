ghost use Rattle.coord_maps.specs.Laws.{PreimagesAreListed, PreimagesAreListedOnce, CollapseIsGridded, CollapseHoldsPatterns, StretchKeepsMembers};

use gridded::gridded_permutations_are_listed_once;

/// The preimages of a gridded permutation are the consistent ones in the new grid that collapse to it; none is
/// listed twice. It computes nothing.
pub fn preimages_are_listed_once()
    ensures listed { PreimagesAreListed }
    ensures once { PreimagesAreListedOnce }
{
    gridded_permutations_are_listed_once();
}

/// The collapse of a gridded permutation of the new grid is one of the old grid, of the same length, and holds
/// a pattern exactly where some preimage of the pattern is held. So a gridded permutation is a member of a
/// stretched tiling exactly where its collapse is a member of the tiling. It computes nothing.
pub fn stretch_keeps_members()
    ensures collapsed { CollapseIsGridded }
    ensures held { CollapseHoldsPatterns }
    ensures members { StretchKeepsMembers }
{
    gridded_permutations_are_listed_once();
}
