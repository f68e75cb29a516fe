use crate::log::Log;
use crate::note::Note;
use crate::rule::{CountLoad, LogSeat, NoteJoin, RecordLoad, StopStore};
use std::alloc::{AllocError, Global};
use std::marker::Model;

/// The reader with its fields in sight.
#[derive(Drop)]
struct Copying {
    seat: LogSeat,
    words: Vec<u64>,
    seen: u64,
    stops: bool,
}

impl Copying {
    ghost use Rattle.std.specs.Prelude.{◌≡◌, ◌+◌, ◌≤◌, length, vec_len, vec_capacity};
    ghost use mathlib.Core.List.{IsPrefix};
    ghost use Rattle.css_domain.specs.WholeRecords.{IsWhole};
    ghost use Rattle.css_log.specs.States.{reading};
    ghost use Rattle.css_log.specs.Told.{seated};

    /// Copies the words up to the count that was seen, one load for each.
    fn gather(&mut self, log: &Log)
        requires log { self.old.seat.table_id ≡ log.now }
        requires knows { self.old.seat.me ≡ seated (reading self.old.seat.table_id self.old.words.items self.old.seen self.old.stops) }
        requires below { vec_len self.old.words ≤ self.old.seen }
        requires inside { self.old.seen + 2 ≤ self.old.seat.table_id.words }
        requires whole { IsWhole self.old.words.items }
        requires room { self.old.seen ≤ vec_capacity self.old.words }
        ensures same { (self.new.seat.table_id ≡ self.old.seat.table_id) × (self.new.seen ≡ self.old.seen) × (self.new.stops ≡ self.old.stops) }
        ensures knows { self.new.seat.me ≡ seated (reading self.old.seat.table_id self.new.words.items self.old.seen self.old.stops) }
        ensures all { vec_len self.new.words ≡ self.old.seen }
        ensures longer { IsPrefix self.old.words.items self.new.words.items }
        ensures whole { IsWhole self.new.words.items }
    {
        while (self.words.len() as u64) < self.seen {
            let word = log
                .table
                .shared
                .load::<RecordLoad>(&mut self.seat, self.words.len() + 2);
            let Ok(()) = self.words.push(word) else {
                unreachable!()
            };
        }
    }
}

/// The one reader of a log. Contracts see the log's name, the copy of the first words, the greatest count of
/// published words that it was shown, and whether it has asked to stop (docs/RULES.md, "The log").
#[derive(Drop)]
pub struct Reader {
    copying: Copying,
}

impl Model for Reader {
    ghost use Rattle.std.specs.Prelude.{◌≡◌, ◌+◌, ◌≤◌, length};
    ghost use Rattle.css_domain.specs.WholeRecords.{IsWhole};
    ghost use Rattle.css_log.specs.States.{ReaderState, reading};
    ghost use Rattle.css_log.specs.Told.{seated};

    ghost Value = { ReaderState };

    ghost view = { λ r. record {
      log = r.copying.seat.table_id;
      copy = r.copying.words.items;
      seen = r.copying.seen;
      stops = r.copying.stops;
    } };

    ghost invariant = { λ r.
        (r.copying.seat.me ≡ seated (reading r.copying.seat.table_id r.copying.words.items r.copying.seen r.copying.stops))
        × (length r.copying.words.items ≤ r.copying.seen)
        × (r.copying.seen + 2 ≤ r.copying.seat.table_id.words)
        × IsWhole r.copying.words.items };
}

impl Reader {
    ghost use Rattle.std.specs.Prelude.{◌≡◌, ◌≤◌, [], true, false, length, max, OnOk, OnErr};
    ghost use mathlib.Core.List.{IsPrefix};
    ghost use Rattle.css_domain.specs.WholeRecords.{IsWhole};
    ghost use Rattle.css_log.specs.States.{ReaderState, reading};
    ghost use Rattle.css_log.specs.Told.{seated};

    pub(crate) fn of(alloc: Global, seat: LogSeat) -> Reader
        requires knows { seat.me ≡ seated (reading seat.table_id [] 0 false) }
        requires wide { 2 ≤ seat.table_id.words }
        ensures { result ≡ record { log = seat.table_id; copy = []; seen = 0; stops = false } }
    {
        Reader {
            copying: Copying {
                seat,
                words: Vec::new(alloc),
                seen: 0,
                stops: false,
            },
        }
    }

    /// The words that were pulled, which are whole records at every time. Takes no memory.
    pub fn words(&self) -> &[u64]
        ensures copy { result.now ≡ self.now.copy }
        ensures whole { IsWhole result.now }
    {
        self.copying.words.as_slice()
    }

    /// The count of published words, which is never below an earlier look nor below a note that was learnt.
    /// One load; takes no memory and waits for nobody.
    pub fn look(&mut self, log: &Log) -> u64
        requires { self.old.log ≡ log.now }
        ensures count { self.new ≡ record self.old { seen = result } }
        ensures grows { self.old.seen ≤ result }
    {
        let count = log
            .table
            .shared
            .load::<CountLoad>(&mut self.copying.seat, 0);
        self.copying.seen = count;
        count
    }

    /// Copies the words up to the count last looked at, or up to the front of a note learnt since where that is
    /// greater. The copy begins with the old copy and is whole records. One load for each new word; waits for
    /// nobody. The refusal is want of memory; nothing has changed.
    pub fn pull(&mut self, log: &Log) -> Result<(), AllocError>
        requires { self.old.log ≡ log.now }
        ensures ok { OnOk result (self.new ≡ record self.old { copy = self.new.copy }) }
        ensures all { OnOk result (length self.new.copy ≡ self.old.seen) }
        ensures longer { OnOk result (IsPrefix self.old.copy self.new.copy) }
        ensures whole { OnOk result (IsWhole self.new.copy) }
        ensures err { OnErr result (self.new ≡ self.old) }
    {
        let more = self.copying.seen as usize - self.copying.words.len();
        self.copying.words.reserve(more)?;
        self.copying.gather(log);
        Ok(())
    }

    /// Takes in what the note says is published, and leaves the copy as it is. Takes no memory and waits for
    /// nobody.
    pub fn learn(&mut self, log: &Log, note: Note)
        requires own { self.old.log ≡ log.now }
        requires note { note.log ≡ log.now }
        ensures { self.new ≡ record self.old { seen = max self.old.seen note.front } }
    {
        let Note { seat, front } = note;
        log.table
            .shared
            .join_seat::<NoteJoin>(&mut self.copying.seat, seat);
        if self.copying.seen < front {
            self.copying.seen = front;
        }
    }

    /// Asks the writer to stop, which it finds from now on. One store; takes no memory and waits for nobody.
    pub fn set_stop(&mut self, log: &Log)
        requires { self.old.log ≡ log.now }
        ensures { self.new ≡ record self.old { stops = true } }
    {
        log.table
            .shared
            .store::<StopStore>(&mut self.copying.seat, 1, 1);
        self.copying.stops = true;
    }

    pub(crate) fn into_seat(self) -> LogSeat
        ensures { (result.table_id ≡ self.log) × (result.me ≡ seated (reading self.log self.copy self.seen self.stops)) }
    {
        let Reader { copying } = self;
        let Copying {
            seat,
            words: _,
            seen: _,
            stops: _,
        } = copying;
        seat
    }
}
