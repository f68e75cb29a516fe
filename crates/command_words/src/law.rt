ghost use Rattle.command_words.specs.Requests.{WordsMeanOneThing};

/// Words are read as at most one request, and refused with at most one fault beside want of memory, and never both; a
/// request keeps its ranges.
pub fn words_mean_one_thing()
    ensures { WordsMeanOneThing }
{}
