//! The table of a log, and its eight kinds of steps. Word 0 is the count of published words, word 1 is 1
//! where the reader has asked to stop and else 0, and the words of the records follow.
use crate::view::View;
use atomic_table::{Join, Play, Seat, Split, Table, TableRule};
use std::alloc::Global;

/// The rule of the log. The key is the number of the table's words.
pub struct LogRule;

impl TableRule<(), View, u64> for LogRule {
    ghost use Rattle.css_log.specs.Agreement.{Kept, newborn};
    ghost use Rattle.css_log.specs.declared.view.View.TheVariants.{Writes};

    ghost holds = { λ _. Kept };

    ghost first = { λ size. Writes (newborn size) };
}

/// No slots, and `u64` words.
pub type LogTable = Table<(), View, u64, LogRule, Global>;

/// A seat of the writer, of the reader or of a note.
pub type LogSeat = Seat<(), View>;

/// The reader loads the count.
pub(crate) struct CountLoad;

impl Play<(), View> for CountLoad {
    ghost use Rattle.css_log.specs.Told.{counted};

    ghost then = { counted };
}

/// The reader loads a record word.
pub(crate) struct RecordLoad;

impl Play<(), View> for RecordLoad {
    ghost use Rattle.css_log.specs.Told.{pulled};

    ghost then = { pulled };
}

/// The writer stores a record word.
pub(crate) struct RecordStore;

impl Play<(), View> for RecordStore {
    ghost use Rattle.css_log.specs.Told.{appended};

    ghost then = { appended };
}

/// The writer stores the count.
pub(crate) struct CountStore;

impl Play<(), View> for CountStore {
    ghost use Rattle.css_log.specs.Told.{published};

    ghost then = { published };
}

/// The reader stores the stop word.
pub(crate) struct StopStore;

impl Play<(), View> for StopStore {
    ghost use Rattle.css_log.specs.Told.{asked};

    ghost then = { asked };
}

/// The writer loads the stop word.
pub(crate) struct StopLoad;

impl Play<(), View> for StopLoad {
    ghost use Rattle.css_log.specs.Told.{found};

    ghost then = { found };
}

/// A seat is split: the reader's from the writer's.
pub(crate) struct ReaderSplit;

impl Split<View> for ReaderSplit {
    ghost use Rattle.css_log.specs.Told.{without_reader, new_reader};

    ghost left = { without_reader };

    ghost right = { new_reader };
}

/// A seat is split: a note's from the writer's.
pub(crate) struct NoteSplit;

impl Split<View> for NoteSplit {
    ghost use Rattle.css_log.specs.Told.{note_of};

    ghost left = { λ v. v };

    ghost right = { note_of };
}

/// A seat is joined: a note's into the reader's.
pub(crate) struct NoteJoin;

impl Join<View> for NoteJoin {
    ghost use Rattle.css_log.specs.Told.{learnt};
    ghost use Rattle.css_log.specs.declared.view.View.TheVariants.{Spent};

    ghost both = { learnt };

    ghost spent = { Spent };
}

/// A seat is joined: the reader's into the writer's.
pub(crate) struct ReaderJoin;

impl Join<View> for ReaderJoin {
    ghost use Rattle.css_log.specs.Told.{taken_back};
    ghost use Rattle.css_log.specs.declared.view.View.TheVariants.{Spent};

    ghost both = { taken_back };

    ghost spent = { Spent };
}
