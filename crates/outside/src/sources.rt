ghost use Rattle.std.specs.Prelude.{◌≡◌, ◌+◌, ◌<◌, ◌≤◌, ◌↔◌, ℕ, List, [], Option, IfOk, IfErr, IfSome, OnErr, length, drop};
ghost use Rattle.std.specs.Io.KnownBytes.{Consumes};
ghost use Rattle.outside.specs.Bytes.{moved, moved_count};
ghost use Rattle.outside.specs.Counts.{Rose};
ghost use Rattle.outside.specs.Reading.{IsWhole, IsReadRefusal};

use crate::faults::{Failed, ReadFault};
use std::alloc::Global;

// How many bytes a source is asked for at most, in one call.
const BLOCK: usize = 4096;

/// What gives bytes. It counts its faults, and may tell the bytes that are still to come.
///
/// A source that tells them goes on telling: each call takes away what it gave, and nothing else.
/// One that does not tell may begin to.
pub trait Source {
    // The bytes still to come, where the source tells them.
    ghost left: { Self → Option (List ℕ) };

    // How many faults it has counted.
    ghost faults: { Self → ℕ };

    // How many calls it has counted, where it counts them.
    ghost calls: { Self → ℕ };

    /// Puts the next bytes into the front of `into` and answers how many; the rest of `into` stays
    /// as it was. `Ok(0)` for a buffer that is not empty is the end of input. `Failed` comes only
    /// where the count of faults rose in this call; then nothing was taken, and all of `into` is as
    /// it was.
    fn read(&mut self, into: &mut [u8]) -> Result<usize, Failed>
        ensures bound { IfOk result (λ n. n ≤ length into.new) }
        ensures content { Consumes (left self.old) (left self.new) (moved result into.new) }
        ensures rest { drop (moved_count result) into.new ≡ drop (moved_count result) into.old }
        ensures end { 0 < length into.old → IfSome (left self.old)
            (λ bytes. IfOk result (λ n. (n ≡ 0) ↔ (bytes ≡ []))) }
        ensures never_falls { faults self.old ≤ faults self.new }
        ensures cause { OnErr result (Rose (faults self.old) (faults self.new)) }
        ensures counted { calls self.new ≤ calls self.old + 1 };
}

/// Reads to the end of the source, and answers all the bytes that it gave, at most `limit`. `Read`
/// comes only where the source's count of faults rose in this call, `TooLong` exactly where more
/// than `limit` bytes came. Each call of the source but the last one takes a byte at least, so they
/// are at most `limit + 1`. A refused call may have taken bytes, at most `limit + 1`.
pub fn read_all<S: Source>(alloc: Global, source: &mut S, limit: u64) -> Result<Vec<u8>, ReadFault>
    ensures whole { IfOk result (λ all. IsWhole (S.left source.old) (S.left source.new) all.items) }
    ensures short { IfOk result (λ all. length all.items ≤ limit) }
    ensures refused { IfErr result (λ fault. IsReadRefusal (Rose (S.faults source.old) (S.faults source.new)) limit
        (S.left source.old) (S.left source.new) fault) }
    ensures never_falls { S.faults source.old ≤ S.faults source.new }
    ensures turns { S.calls source.new ≤ S.calls source.old + (limit + 1) }
{
    let mut block = [0u8; BLOCK];
    let mut all = Vec::new(alloc);
    loop {
        let room = limit - all.len() as u64;
        let want = room.saturating_add(1).min(BLOCK as u64) as usize;
        let Ok(count) = source.read(&mut block[..want]) else {
            return Err(ReadFault::Read);
        };
        if count == 0 {
            return Ok(all);
        }
        if count as u64 > room {
            return Err(ReadFault::TooLong { limit });
        }
        let Ok(()) = all.extend_from_slice(&block[..count]) else {
            return Err(ReadFault::Memory);
        };
    }
}
