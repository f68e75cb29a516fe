ghost use Rattle.std.specs.Prelude.{◌≡◌, ◌<◌, ◌≤◌, None, IfOk, OnErr, length, drop};
ghost use Rattle.std.specs.Io.KnownBytes.{ReadConsumes, WriteAppends};
ghost use Rattle.outside.specs.Bytes.{moved_count};
ghost use Rattle.outside.specs.Counts.{Rose};

use crate::faults::{Failed, count_up};
use crate::sinks::Sink;
use crate::sources::Source;
use std::io::{ErrorKind, Read, Write};
use std::marker::Model;

// How many bytes a reader is asked for at most, in one call.
const BLOCK: usize = 4096;

/// A reader of std, with its errors counted: each one, also of a call that was interrupted, raises
/// the count, which stays at its type's last value. It does not tell what is left. That a reader of
/// the outside gives what it should is trusted.
///
/// std does not say what a failed call leaves in its buffer, so the bytes come through a block of
/// the source's own, and one call gives at most 4,096 of them.
#[derive(Drop)]
pub struct StdSource<T: Read> {
    inner: T,
    faults: u64,
}

impl<T: Read> Model for StdSource<T> {
    ghost use Rattle.outside.specs.Adapted.{Adapted};

    ghost Value = { Adapted T };

    ghost view = { λ s. record { inner = s.inner; faults = s.faults } };
}

impl<T: Read> StdSource<T> {
    /// A source over this reader, with no fault counted. Takes no memory.
    pub fn new(inner: T) -> StdSource<T>
        ensures { result ≡ record { inner = inner; faults = 0 } }
    {
        StdSource { inner, faults: 0 }
    }

    /// How many faults it has counted. Takes no memory.
    pub fn faults(&self) -> u64
        ensures { result ≡ self.now.faults }
    {
        self.faults
    }
}

impl<T: Read> Source for StdSource<T> {
    ghost left = { λ _. None };

    ghost faults = { λ s. s.faults };

    ghost calls = { λ _. 0 };

    /// Makes one call of the reader, and another one as long as it is interrupted.
    fn read(&mut self, into: &mut [u8]) -> Result<usize, Failed>
        ensures bound { IfOk result (λ n. n ≤ length into.new) }
        ensures rest { drop (moved_count result) into.new ≡ drop (moved_count result) into.old }
        // What std's reader tells of its own bytes is taken as it gives them.
        ensures reader { ReadConsumes (T.remaining self.old.inner) (T.remaining self.new.inner)
            result into.new }
        ensures never_falls { self.old.faults ≤ self.new.faults }
        ensures cause { OnErr result (Rose self.old.faults self.new.faults) }
    {
        let mut block = [0u8; BLOCK];
        let want = into.len().min(BLOCK);
        for _ in 0..u64::MAX {
            match self.inner.read(&mut block[..want]) {
                Ok(count) => {
                    into[..count].copy_from_slice(&block[..count]);
                    return Ok(count);
                }
                Err(error) => {
                    count_up(&mut self.faults);
                    if error.kind() != ErrorKind::Interrupted {
                        return Err(Failed);
                    }
                }
            }
        }
        count_up(&mut self.faults);
        Err(Failed)
    }
}

/// A writer of std, with its errors counted: each one, also of a call that was interrupted, raises
/// the count, which stays at its type's last value. A call that takes nothing of a piece that is not
/// empty is an error too. It does not tell what it holds. That a writer to the outside does what it
/// should is trusted.
#[derive(Drop)]
pub struct StdSink<T: Write> {
    inner: T,
    faults: u64,
}

impl<T: Write> Model for StdSink<T> {
    ghost use Rattle.outside.specs.Adapted.{Adapted};

    ghost Value = { Adapted T };

    ghost view = { λ s. record { inner = s.inner; faults = s.faults } };
}

impl<T: Write> StdSink<T> {
    /// A sink over this writer, with no fault counted. Takes no memory.
    pub fn new(inner: T) -> StdSink<T>
        ensures { result ≡ record { inner = inner; faults = 0 } }
    {
        StdSink { inner, faults: 0 }
    }

    /// How many faults it has counted. Takes no memory.
    pub fn faults(&self) -> u64
        ensures { result ≡ self.now.faults }
    {
        self.faults
    }
}

impl<T: Write> Sink for StdSink<T> {
    ghost held = { λ _. None };

    ghost faults = { λ s. s.faults };

    /// Makes one call of the writer, and another one as long as it is interrupted.
    fn write(&mut self, piece: &[u8]) -> Result<usize, Failed>
        ensures bound { IfOk result (λ n. n ≤ length piece.now) }
        ensures progress { IfOk result (λ n. 0 < length piece.now → 0 < n) }
        // What std's writer tells of its own bytes grows by what was taken.
        ensures writer { WriteAppends (T.contents self.old.inner) (T.contents self.new.inner)
            result piece.now }
        ensures never_falls { self.old.faults ≤ self.new.faults }
        ensures cause { OnErr result (Rose self.old.faults self.new.faults) }
    {
        for _ in 0..u64::MAX {
            match self.inner.write(piece) {
                Ok(count) if count > 0 || piece.is_empty() => return Ok(count),
                Ok(_) => break,
                Err(error) => {
                    count_up(&mut self.faults);
                    if error.kind() != ErrorKind::Interrupted {
                        return Err(Failed);
                    }
                }
            }
        }
        count_up(&mut self.faults);
        Err(Failed)
    }
}
