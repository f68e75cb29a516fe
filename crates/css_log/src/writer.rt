use crate::log::Log;
use crate::note::Note;
use crate::rule::{CountStore, LogSeat, NoteSplit, RecordStore, StopLoad};
use std::marker::Model;

/// The one writer of a log. Contracts see the log's name, the list of the words that it appended, how many of
/// them are published, and whether it found a stop at its last look (docs/RULES.md, "The log").
#[derive(Drop)]
pub struct Writer {
    seat: LogSeat,
    len: u64,
    front: u64,
    found: bool,
}

impl Model for Writer {
    ghost use Rattle.std.specs.Prelude.{◌≡◌, ◌+◌, ◌≤◌, length, take};
    ghost use Rattle.css_domain.specs.WholeRecords.{IsWhole};
    ghost use Rattle.css_log.specs.States.{WriterState, list_of, writing};
    ghost use Rattle.css_log.specs.Told.{seated};

    ghost Value = { WriterState };

    ghost view = { λ w. record {
      log = w.seat.table_id;
      list = list_of w.seat.me.0;
      front = w.front;
      found = w.found;
    } };

    ghost invariant = { λ w.
        (w.seat.me ≡ seated (writing w.seat.table_id (list_of w.seat.me.0) w.front w.found))
        × (length (list_of w.seat.me.0) ≡ w.len)
        × (w.front ≤ w.len)
        × (w.len + 2 ≤ w.seat.table_id.words)
        × IsWhole (take w.front (list_of w.seat.me.0)) };
}

impl Writer {
    ghost use Rattle.std.specs.Prelude.{◌≡◌, ◌+◌, ◌≤◌, [], ◌∷◌, ◌++◌, true, false, length, take};
    ghost use Rattle.css_domain.specs.WholeRecords.{IsWhole};
    ghost use Rattle.css_log.specs.States.{WriterState, HasRoom, writing};
    ghost use Rattle.css_log.specs.Told.{seated};

    pub(crate) fn of(seat: LogSeat) -> Writer
        requires knows { seat.me ≡ seated (writing seat.table_id [] 0 false) }
        requires wide { 2 ≤ seat.table_id.words }
        ensures { result ≡ record { log = seat.table_id; list = []; front = 0; found = false } }
    {
        Writer {
            seat,
            len: 0,
            front: 0,
            found: false,
        }
    }

    /// Stores one word behind those that were appended.
    fn put(&mut self, log: &Log, word: u64)
        requires log { self.old.log ≡ log.now }
        requires room { HasRoom log.now (length self.old.list + 1) }
        ensures { self.new ≡ record self.old { list = self.old.list ++ word ∷ [] } }
    {
        log.table
            .shared
            .store::<RecordStore>(&mut self.seat, self.len as usize + 2, word);
        self.len += 1;
    }

    /// Stores the words of a piece behind those that were appended; the log has room for them. The reader
    /// doesn't see them yet. Takes no memory and waits for nobody.
    pub fn append(&mut self, log: &Log, piece: &[u64])
        requires log { self.old.log ≡ log.now }
        requires room { HasRoom log.now (length self.old.list + length piece.now) }
        ensures { self.new ≡ record self.old { list = self.old.list ++ piece.now } }
    {
        for word in piece {
            self.put(log, *word);
        }
    }

    /// Publishes all that was appended, which must be whole records: the count becomes their number. One store;
    /// takes no memory and waits for nobody.
    pub fn publish(&mut self, log: &Log)
        requires log { self.old.log ≡ log.now }
        requires whole { IsWhole self.old.list }
        ensures { self.new ≡ record self.old { front = length self.old.list } }
    {
        log.table
            .shared
            .store::<CountStore>(&mut self.seat, 0, self.len);
        self.front = self.len;
    }

    /// The count that is published: so many of the words are whole records. Takes no memory.
    pub fn front(&self) -> u64
        ensures count { result ≡ self.now.front }
        ensures whole { IsWhole (take self.now.front self.now.list) }
    {
        self.front
    }

    /// A note of the count that is published. Takes no memory and waits for nobody.
    pub fn note(&mut self, log: &Log) -> Note
        requires { self.old.log ≡ log.now }
        ensures note { (result.log ≡ log.now) × (result.front ≡ self.old.front) }
        ensures same { self.new ≡ self.old }
    {
        let seat = log.table.shared.split_seat::<NoteSplit>(&mut self.seat);
        Note {
            seat,
            front: self.front,
        }
    }

    /// Whether the stop word was set when it was loaded here, which only this log's reader does. One load; takes
    /// no memory and waits for nobody.
    pub fn stopped(&mut self, log: &Log) -> bool
        requires { self.old.log ≡ log.now }
        ensures found { self.new ≡ record self.old { found = result } }
        ensures stays { self.old.found ≡ true → result ≡ true }
    {
        self.found = log.table.shared.load::<StopLoad>(&mut self.seat, 1) == 1;
        self.found
    }

    pub(crate) fn len(&self) -> usize
        ensures { result ≡ length self.now.list }
    {
        self.len as usize
    }

    pub(crate) fn into_seat(self) -> LogSeat
        ensures { (result.table_id ≡ self.log) × (result.me ≡ seated (writing self.log self.list self.front self.found)) }
    {
        let Writer {
            seat,
            len: _,
            front: _,
            found: _,
        } = self;
        seat
    }
}
