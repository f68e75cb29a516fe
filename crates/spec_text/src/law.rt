ghost use Rattle.spec_text.specs.Files.{SpecTextsAreFileTexts, WritableSpecsAreSpelled, KeptSpecsAreSpelled};
ghost use Rattle.spec_text.specs.LineAnswers.{LinesHaveOneValue, LinesAreAnswered, EntriesAreAnswered};
ghost use Rattle.spec_text.specs.Joined.{JoinedEntriesAreTold, JoinedEntriesAreNamed, FilesHaveOneText, ReadSpecsAreTold, FileTextsAreRead, WrittenSpecsAreReadBack};

/// The text that `write_spec` gives is that of the specification's file, and spells it where its values have lines in
/// range: so it does where each rule follows and there are at most 100,000 entries (docs/FORMATS.md, "The text of a
/// specification"). It computes nothing.
pub fn specs_are_spelled()
    ensures text { SpecTextsAreFileTexts }
    ensures spelled { WritableSpecsAreSpelled }
    ensures kept { KeptSpecsAreSpelled }
{}

/// Joined entries are told by what their file says of them, and each of their children has its named entry
/// (docs/FORMATS.md, "Texts that are read"). It computes nothing.
pub fn joined_entries_are_told()
    ensures told { JoinedEntriesAreTold }
    ensures named { JoinedEntriesAreNamed }
    ensures files { ReadSpecsAreTold }
{}

/// What `read_spec` answers for the text that `write_spec` gives of a specification whose rules follow has the same
/// basis, trace, entries and terms (docs/FORMATS.md, "Texts that are read"). It computes nothing.
pub fn written_specs_are_read_back()
    ensures { WrittenSpecsAreReadBack }
{}

/// What `read_spec` answers for the text of a file is that file, unless memory runs out (docs/FORMATS.md, "Texts that are
/// read"). It computes nothing.
pub fn file_texts_are_read()
    ensures { FileTextsAreRead }
{}

/// The readers of single lines answer a value exactly where the line spells it and it is in range as far as the line
/// tells alone, and `Form` exactly where it spells none (docs/FORMATS.md, "Texts that are read"). It computes nothing.
pub fn lines_are_answered<R>()
    ensures one { LinesHaveOneValue }
    ensures lines { LinesAreAnswered R }
    ensures entries { EntriesAreAnswered }
{}

/// A file has one text (docs/FORMATS.md, "Texts that are read"). It computes nothing.
pub fn files_have_one_text()
    ensures { FilesHaveOneText }
{}
