ghost use Rattle.std.specs.Prelude.{◌≡◌, ◌+◌, ◌<◌, ◌≤◌, ◌↔◌, [], ◌++◌, Some, IfOk, IsErr, OnErr, length, take, drop};
ghost use Rattle.outside.specs.Bytes.{GrewBy, moved};
ghost use Rattle.outside.specs.Counts.{Rose, next_count};
ghost use Rattle.outside.specs.Room.{Fails, takes};
ghost use Rattle.outside.specs.Supply.{FailsNext, gives};

use crate::faults::{Failed, count_up};
use crate::sinks::Sink;
use crate::sources::Source;
use std::alloc::{AllocError, Global};
use std::marker::Model;

/// A sink in memory, with a room of fixed size, which fails at the calls that it is told. It always
/// tells what it holds. It takes at most `most` bytes a call and at most what is left of its room.
#[derive(Debug, Drop)]
pub struct MemSink {
    held: Vec<u8>,
    room: usize,
    most: usize,
    fail: Vec<u64>,
    calls: u64,
    faults: u64,
}

impl Model for MemSink {
    ghost use Rattle.std.specs.Prelude.{◌≤◌, vec_len, vec_capacity};
    ghost use Rattle.outside.specs.Room.{MemSinkState};

    ghost Value = { MemSinkState };

    ghost view = { λ s. record {
      held = s.held.items;
      room = s.room;
      most = s.most;
      fail = s.fail.items;
      calls = s.calls;
      faults = s.faults;
    } };

    ghost invariant = { λ s.
        (1 ≤ s.most) × (vec_len s.held ≤ s.room) × (s.room ≤ vec_capacity s.held) };
}

impl MemSink {
    /// A sink that holds nothing, with space reserved for `room` bytes, which takes `most` bytes a
    /// call, at least one, and fails at the calls whose number, from 0, is in `fail`.
    pub fn new(
        alloc: Global,
        room: usize,
        most: usize,
        fail: Vec<u64>,
    ) -> Result<MemSink, AllocError>
        requires { 1 ≤ most }
        ensures { IfOk result (λ sink. sink ≡ record {
          held = [];
          room = room;
          most = most;
          fail = fail.items;
          calls = 0;
          faults = 0;
        }) }
    {
        Ok(MemSink {
            held: Vec::with_capacity(alloc, room)?,
            room,
            most,
            fail,
            calls: 0,
            faults: 0,
        })
    }

    /// The bytes that it holds. Takes no memory.
    pub fn held(&self) -> &[u8]
        ensures value { result.now ≡ self.now.held }
        ensures within { length result.now ≤ self.now.room }
    {
        self.held.as_slice()
    }
}

impl Sink for MemSink {
    ghost held = { λ s. Some s.held };

    ghost faults = { λ s. s.faults };

    /// Fails exactly at the calls whose number is in `fail`, and where nothing is left of the room
    /// for a piece that is not empty. A counter that has reached its type's last value stays there.
    fn write(&mut self, piece: &[u8]) -> Result<usize, Failed>
        ensures bound { IfOk result (λ n. n ≤ length piece.now) }
        ensures progress { IfOk result (λ n. 0 < length piece.now → 0 < n) }
        ensures content { GrewBy (Some self.old.held) (Some self.new.held) (moved result piece.now) }
        ensures never_falls { self.old.faults ≤ self.new.faults }
        ensures cause { OnErr result (Rose self.old.faults self.new.faults) }

        ensures fails { IsErr result ↔ Fails self.old (length piece.now) }
        ensures amount { IfOk result (λ n. n ≡ takes self.old (length piece.now)) }
        ensures ok { IfOk result (λ n. self.new ≡ record self.old {
          held = self.old.held ++ take n piece.now;
          calls = next_count self.old.calls;
        }) }
        ensures err { OnErr result (self.new ≡ record self.old {
          calls = next_count self.old.calls;
          faults = next_count self.old.faults;
        }) }
    {
        let call = self.calls;
        count_up(&mut self.calls);
        let space = self.room - self.held.len();
        if self.fail.contains(&call) || (space == 0 && !piece.is_empty()) {
            count_up(&mut self.faults);
            return Err(Failed);
        }
        let count = piece.len().min(self.most).min(space);
        match self.held.extend_from_slice(&piece[..count]) {
            Ok(()) => Ok(count),
            Err(_) => unreachable!(),
        }
    }
}

/// A source in memory, which fails at the calls that it is told. It always tells what is left, and
/// gives at most `most` bytes a call.
#[derive(Debug, Drop)]
pub struct MemSource {
    bytes: Vec<u8>,
    at: usize,
    most: usize,
    fail: Vec<u64>,
    calls: u64,
    faults: u64,
}

impl Model for MemSource {
    ghost use Rattle.std.specs.Prelude.{◌≤◌, drop, vec_len};
    ghost use Rattle.outside.specs.Supply.{MemSourceState};

    ghost Value = { MemSourceState };

    ghost view = { λ s. record {
      left = drop s.at s.bytes.items;
      most = s.most;
      fail = s.fail.items;
      calls = s.calls;
      faults = s.faults;
    } };

    ghost invariant = { λ s. (1 ≤ s.most) × (s.at ≤ vec_len s.bytes) };
}

impl MemSource {
    /// A source of these bytes, which gives `most` bytes a call, at least one, and fails at the
    /// calls whose number, from 0, is in `fail`. Takes no memory.
    pub fn new(bytes: Vec<u8>, most: usize, fail: Vec<u64>) -> MemSource
        requires { 1 ≤ most }
        ensures { result ≡ record {
          left = bytes.items;
          most = most;
          fail = fail.items;
          calls = 0;
          faults = 0;
        } }
    {
        MemSource {
            bytes,
            at: 0,
            most,
            fail,
            calls: 0,
            faults: 0,
        }
    }

    /// The bytes still to come. Takes no memory.
    pub fn left(&self) -> &[u8]
        ensures { result.now ≡ self.now.left }
    {
        &self.bytes[self.at..]
    }

    /// How many calls it has counted. Takes no memory.
    pub fn calls(&self) -> u64
        ensures { result ≡ self.now.calls }
    {
        self.calls
    }
}

impl Source for MemSource {
    ghost left = { λ s. Some s.left };

    ghost faults = { λ s. s.faults };

    ghost calls = { λ s. s.calls };

    /// Fails exactly at the calls whose number is in `fail`. A counter that has reached its type's
    /// last value stays there.
    fn read(&mut self, into: &mut [u8]) -> Result<usize, Failed>
        ensures bound { IfOk result (λ n. n ≤ length into.new) }
        ensures end { 0 < length into.old → IfOk result (λ n. (n ≡ 0) ↔ (self.old.left ≡ [])) }
        ensures never_falls { self.old.faults ≤ self.new.faults }
        ensures cause { OnErr result (Rose self.old.faults self.new.faults) }
        ensures counted { self.new.calls ≤ self.old.calls + 1 }

        ensures fails { IsErr result ↔ FailsNext self.old }
        ensures amount { IfOk result (λ n. n ≡ gives self.old (length into.old)) }
        ensures given { IfOk result (λ n. into.new ≡ take n self.old.left ++ drop n into.old) }
        ensures ok { IfOk result (λ n. self.new ≡ record self.old {
          left = drop n self.old.left;
          calls = next_count self.old.calls;
        }) }
        ensures untouched { OnErr result (into.new ≡ into.old) }
        ensures err { OnErr result (self.new ≡ record self.old {
          calls = next_count self.old.calls;
          faults = next_count self.old.faults;
        }) }
    {
        let call = self.calls;
        count_up(&mut self.calls);
        if self.fail.contains(&call) {
            count_up(&mut self.faults);
            return Err(Failed);
        }
        let rest = &self.bytes[self.at..];
        let count = into.len().min(self.most).min(rest.len());
        into[..count].copy_from_slice(&rest[..count]);
        self.at += count;
        Ok(count)
    }
}
