ghost use Rattle.std.specs.Prelude.{◌≡◌, ◌↔◌, [], ◌++◌, Some, None, Ok, IfOk, IfSome, IsNone, length, take, drop, min};
ghost use Rattle.outside.specs.Bytes.{GrewBy};

use crate::faults::Failed;
use crate::sinks::Sink;
use crate::sources::Source;
use std::alloc::Global;
use std::marker::Model;

/// A source in memory that never fails, and always tells what is left. Contracts see it as the list
/// of the bytes still to come.
#[derive(Debug, Drop)]
pub struct SteadySource {
    bytes: Vec<u8>,
    at: usize,
}

impl Model for SteadySource {
    ghost use Rattle.std.specs.Prelude.{◌≤◌, List, ℕ, drop, vec_len};

    ghost Value = { List ℕ };

    ghost view = { λ s. drop s.at s.bytes.items };

    ghost invariant = { λ s. s.at ≤ vec_len s.bytes };
}

impl SteadySource {
    /// A source of these bytes. Takes no memory.
    pub fn new(bytes: Vec<u8>) -> SteadySource
        ensures { result ≡ bytes.items }
    {
        SteadySource { bytes, at: 0 }
    }
}

impl Source for SteadySource {
    ghost left = { λ s. Some s };

    ghost faults = { λ _. 0 };

    ghost calls = { λ _. 0 };

    /// Gives as many bytes as are left and as `into` has places for.
    fn read(&mut self, into: &mut [u8]) -> Result<usize, Failed>
        ensures amount { result ≡ Ok (min (length self.old) (length into.old)) }
        ensures given { IfOk result (λ n. into.new ≡ take n self.old ++ drop n into.old) }
        ensures left { IfOk result (λ n. self.new ≡ drop n self.old) }
    {
        let rest = &self.bytes[self.at..];
        let count = rest.len().min(into.len());
        into[..count].copy_from_slice(&rest[..count]);
        self.at += count;
        Ok(count)
    }
}

/// A sink in memory that never fails. Where it finds no memory it drops the piece, answers Ok, and
/// tells no more what it holds. Contracts see it as the list of the bytes that it holds, where it
/// tells them.
#[derive(Debug, Drop)]
pub struct SteadySink {
    held: Vec<u8>,
    lost: bool,
}

impl Model for SteadySink {
    ghost use Rattle.std.specs.Prelude.{List, ℕ, Option, Some, None, if◌then◌else◌};

    ghost Value = { Option (List ℕ) };

    ghost view = { λ s. if s.lost then None else Some s.held.items };
}

impl SteadySink {
    /// A sink that holds nothing. Takes no memory.
    pub fn new(alloc: Global) -> SteadySink
        ensures { result ≡ Some [] }
    {
        SteadySink {
            held: Vec::new(alloc),
            lost: false,
        }
    }

    /// The bytes that it holds, or None where it lost a piece. Takes no memory.
    pub fn held(&self) -> Option<&[u8]>
        ensures lost { IsNone result ↔ (self.now ≡ None) }
        ensures told { IfSome result (λ bytes. self.now ≡ Some bytes.now) }
    {
        if self.lost {
            return None;
        }
        Some(self.held.as_slice())
    }
}

impl Sink for SteadySink {
    ghost held = { λ s. s };

    ghost faults = { λ _. 0 };

    /// Takes the whole piece.
    fn write(&mut self, piece: &[u8]) -> Result<usize, Failed>
        ensures whole { result ≡ Ok (length piece.now) }
        ensures content { GrewBy self.old self.new piece.now }
    {
        if self.held.extend_from_slice(piece).is_err() {
            self.lost = true;
        }
        Ok(piece.len())
    }
}
