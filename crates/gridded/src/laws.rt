ghost use Rattle.gridded.specs.Laws.{GriddedAreListed, GriddedAreListedOnce};

/// The gridded permutations of a grid and a length are the words of as many points, with the letters below
/// the length, each once, in consistent cells of the grid; none is listed twice.
pub fn gridded_permutations_are_listed_once()
    ensures listed { GriddedAreListed }
    ensures once { GriddedAreListedOnce }
{}
