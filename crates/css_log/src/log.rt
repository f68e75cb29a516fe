ghost use Rattle.std.specs.Prelude.{◌≡◌, ℕ, ◌+◌, ◌≤◌, ◌<◌, [], slice_index, vec_len, vec_capacity};
ghost use Rattle.std.specs.Mem.Slots.{slots_items, slots_len, IsFull};
ghost use mathlib.Core.Option.{some};
ghost use lib.ListN.{get_elem?};

use crate::reader::Reader;
use crate::rule::{LogTable, ReaderJoin, ReaderSplit};
use crate::writer::Writer;
use atomic_table::Closed;
use std::alloc::{AllocError, Global};
use std::marker::Model;

/// The shared words of one history. Contracts see its name, which no other log has and which its writer, its
/// reader and its notes carry; the name tells the number of words, the count and the stop word among them
/// (docs/RULES.md, "The log").
#[derive(Drop)]
pub struct Log {
    pub(crate) table: LogTable,
    alloc: Global,
}

impl Model for Log {
    ghost use Rattle.std.specs.Prelude.{◌≡◌, ◌≤◌, ◌<◌, ◌^◌};
    ghost use Rattle.atomic_table.specs.Seated.{TableId};

    ghost Value = { TableId };

    ghost view = { λ l. l.table.shared.table_id };

    ghost invariant = { λ l.
        (2 ≤ l.table.shared.table_id.words)
        × (l.table.shared.table_id.words < 2 ^ 32)
        × (l.table.shared.table_id.slots ≡ 0) };
}

impl Log {
    ghost use Rattle.std.specs.Prelude.{◌≡◌, ◌+◌, ◌≤◌, ◌<◌, [], true, false, IfOk, OnOk, IfErr};
    ghost use mathlib.Core.List.{IsPrefix};
    ghost use Rattle.css_log.specs.States.{WriterState, ReaderState};

    /// A log with room for so many words of records, below 2^28, with its writer, which has appended nothing,
    /// and its reader, which has copied nothing. All shared words are taken here. The refusal is want of
    /// memory.
    pub fn new(alloc: Global, words: u64) -> Result<(Log, Writer, Reader), AllocError>
        requires { words < 268435456 }
        ensures room { IfOk result (λ l. l.0.words ≡ words + 2) }
        ensures writer { IfOk result (λ l. l.1 ≡ record { log = l.0; list = []; front = 0; found = false }) }
        ensures reader { IfOk result (λ l. l.2 ≡ record { log = l.0; copy = []; seen = 0; stops = false }) }
    {
        let zeros = vec![in alloc; 0; words as usize + 2]?;
        let (table, mut seat) = LogTable::of_words(alloc, zeros.as_slice(), &(words + 2))?;
        let reader = table.shared.split_seat::<ReaderSplit>(&mut seat);
        let log = Log { table, alloc };
        Ok((log, Writer::of(seat), Reader::of(alloc, reader)))
    }

    /// Ends the log and gives the words that the writer appended, of which the reader's copy is a prefix. The
    /// writer has found a stop only where the reader had set it. The memory for the words is taken before any
    /// seat is joined. The refusal is want of memory; it hands all three back as they were.
    pub fn close(self, writer: Writer, reader: Reader) -> Result<Vec<u64>, (Log, Writer, Reader)>
        requires writer { writer.log ≡ self }
        requires reader { reader.log ≡ self }
        ensures ok { IfOk result (λ words. words.items ≡ writer.list) }
        ensures copied { OnOk result (IsPrefix reader.copy writer.list) }
        ensures shown { OnOk result (reader.seen ≤ writer.front) }
        ensures asked { OnOk result (writer.found ≡ true → reader.stops ≡ true) }
        ensures err { IfErr result (λ all. (all.0 ≡ self) × (all.1 ≡ writer) × (all.2 ≡ reader)) }
    {
        let Ok(words) = Vec::with_capacity(self.alloc, writer.len()) else {
            return Err((self, writer, reader));
        };
        let mut seat = writer.into_seat();
        self.table
            .shared
            .join_seat::<ReaderJoin>(&mut seat, reader.into_seat());
        let Log { table, alloc: _ } = self;
        Ok(taken(table.close_with(seat), words))
    }
}

/// Fills the space of `words` with the words of the records.
fn taken(closed: Closed<(), Global>, mut words: Vec<u64>) -> Vec<u64>
    requires slots { slots_len closed.slots ≡ 0 }
    requires full { IsFull closed.words }
    requires empty { words.items ≡ [] }
    requires room { vec_capacity words + 2 ≤ slots_len closed.words }
    ensures count { vec_len result ≡ vec_capacity words }
    ensures each { (i : ℕ) → i < vec_capacity words → get_elem? (slots_items closed.words) (i + 2) ≡ some (slice_index result.items i) }
{
    for i in 0..words.capacity() {
        let Ok(()) = words.push(closed.word(i + 2)) else {
            unreachable!()
        };
    }
    closed.free();
    words
}
