ghost use Rattle.patterns.specs.Laws.{ContainmentIsDecided, ContainmentInCellsIsDecided, PermutationsAreListed, PermutationsAreListedOnce};

/// The tests of containment, without and with cells, hold exactly where some letters at rising places
/// stand in the pattern's relative order, in its cells.
pub fn containment_is_decided()
    ensures letters { ContainmentIsDecided }
    ensures cells { ContainmentInCellsIsDecided }
{}

/// The permutations of a length are the words that have each letter once; none is listed twice.
pub fn permutations_are_listed_once()
    ensures listed { PermutationsAreListed }
    ensures once { PermutationsAreListedOnce }
{}
