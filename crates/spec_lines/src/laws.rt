ghost use Rattle.spec_lines.specs.Laws.{LinesAreRead, TextsHaveOneReading, SpelledTextsAreAnswered, GrammarFaultsAreAnswered, LimitFaultsAreAnswered};
ghost use Rattle.spec_lines.specs.Files.{TextsHaveOneFile, SpelledTextsHaveFiles, WritableFilesAreSpelled};
ghost use Rattle.spec_lines.specs.Orders.{WordsAscendByText, CellsAscendByText, PatternsAscendByText, ListsAscendByMembers, WordsAreSorted, CellsAreSorted, PatternsAreSorted, ListsAreSorted};

/// What is read at a place is the value of the line that is spelled, where it is of the form and may stand there.
/// It computes nothing.
pub fn line_is_read()
    ensures { LinesAreRead }
{}

/// Going through the lines of bytes answers their lines exactly where they are a text of the form in range, and else
/// the number of the line at fault. It computes nothing.
pub fn texts_are_answered()
    ensures one { TextsHaveOneReading }
    ensures spelled { SpelledTextsAreAnswered }
    ensures grammar { GrammarFaultsAreAnswered }
    ensures limit { LimitFaultsAreAnswered }
{}

/// Items that are read ascend exactly where their texts do, by length and then byte by byte, and lists of patterns
/// where their members' texts do. It computes nothing.
pub fn items_ascend_by_text()
    ensures words { WordsAscendByText }
    ensures cells { CellsAscendByText }
    ensures patterns { PatternsAscendByText }
    ensures lists { ListsAscendByMembers }
{}

/// Items of which each is smaller than the next ascend strictly. It computes nothing.
pub fn ascending_is_sorted()
    ensures words { WordsAreSorted }
    ensures cells { CellsAreSorted }
    ensures patterns { PatternsAreSorted }
    ensures lists { ListsAreSorted }
{}

/// The lines of a text of the form in range are those of exactly one file, and a file whose values have lines in
/// range has a text. It computes nothing.
pub fn texts_are_files()
    ensures one { TextsHaveOneFile }
    ensures file { SpelledTextsHaveFiles }
    ensures written { WritableFilesAreSpelled }
{}
