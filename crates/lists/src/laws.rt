ghost use Rattle.lists.specs.Laws.{ChoicesAreCounted, PartsStandAtRisingPlaces};

/// A part of a list is what stands at some rising places of it.
pub fn part_is_at_rising_places()
    ensures { PartsStandAtRisingPlaces }
{}

/// The ways to take one item of each collection, of sizes that add up to a number, are as many as the
/// counts of the collections tell.
pub fn choices_are_counted()
    ensures { ChoicesAreCounted }
{}
