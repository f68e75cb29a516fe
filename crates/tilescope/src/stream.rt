ghost use Rattle.std.specs.Prelude.{◌≡◌, ◌≤◌, ◌+◌, OnOk, OnErr, IfErr, length};
ghost use Rattle.perm_core.specs.Basis.{IsBasis};
ghost use Rattle.outside.specs.Counts.{Rose};
ghost use Rattle.tilescope.specs.Streams.{HasFedAll, IsFeedRefusal, IsStreamAnswer};

use outside::Source;
use perm_core::Perm;
use spec_checker::{CheckFault, Checked, Checking};
use std::alloc::Global;
use thiserror::Error;

/// How many bytes a source is asked for at most, in one call.
const BLOCK: usize = 4096;

/// Why a text that comes from a source is not accepted. The first refusal that applies is answered.
#[derive(Clone, Copy, Debug, PartialEq, Eq, Drop, Error)]
pub enum StreamFault {
    /// A call of the source failed.
    #[error("the source failed")]
    Read,
    /// More bytes came than the limit.
    #[error("more than {limit} bytes came")]
    TooLong { limit: u64 },
    /// All was read, and the checker refuses it, for another cause than memory.
    #[error("the text is refused")]
    Check(CheckFault),
    /// There was no memory.
    #[error("out of memory")]
    Memory,
}

/// Feeds a checking that has read nothing with all that a source gives, at most `limit` bytes, block by block.
fn feed_all<S: Source>(
    checking: &mut Checking,
    source: &mut S,
    limit: u64,
) -> Result<(), StreamFault>
    requires few { limit ≤ 268435456 }
    requires none { checking.old.read.many ≡ 0 }
    ensures whole { OnOk result (HasFedAll limit (S.left source.old) (S.left source.new) checking.old checking.new) }
    ensures refused { IfErr result (λ fault. IsFeedRefusal (Rose (S.faults source.old) (S.faults source.new)) limit (S.left source.old) (S.left source.new) fault) }
    ensures never_falls { S.faults source.old ≤ S.faults source.new }
    ensures turns { S.calls source.new ≤ S.calls source.old + (limit + 1) }
{
    let mut block = [0u8; BLOCK];
    let mut many: u64 = 0;
    loop {
        let room = limit - many;
        let want = room.saturating_add(1).min(BLOCK as u64) as usize;
        let Ok(count) = source.read(&mut block[..want]) else {
            return Err(StreamFault::Read);
        };
        if count == 0 {
            return Ok(());
        }
        if count as u64 > room {
            return Err(StreamFault::TooLong { limit });
        }
        let Ok(()) = checking.feed(&block[..count]) else {
            return Err(StreamFault::Memory);
        };
        many += count as u64;
    }
}

/// Checks the text that a source has left, at most `limit` bytes, for a basis as `read_basis` gives it, block by block
/// as it comes (docs/FORMATS.md, "What the checker does"). `Read` comes only where the source's count of faults rose in
/// this call, `TooLong` exactly where more than `limit` bytes came, `Check` exactly where all was read and the checker
/// refuses it for another cause than memory. Each call of the source but the last one takes a byte at least, so they
/// are at most `limit + 1`. A refused call may have taken bytes, at most `limit + 1`.
pub fn check_source<S: Source>(
    alloc: Global,
    basis: &[Perm],
    source: &mut S,
    limit: u64,
) -> Result<Checked, StreamFault>
    requires basis { IsBasis basis.now }
    requires few { limit ≤ 268435456 }
    ensures answer { IsStreamAnswer basis.now (Rose (S.faults source.old) (S.faults source.new)) limit (S.left source.old) (S.left source.new) result }
    ensures never_falls { S.faults source.old ≤ S.faults source.new }
    ensures turns { S.calls source.new ≤ S.calls source.old + (limit + 1) }
{
    let Ok(mut checking) = Checking::new(alloc, basis) else {
        return Err(StreamFault::Memory);
    };
    match feed_all(&mut checking, source, limit) {
        Ok(()) => {}
        Err(fault) => return Err(fault),
    }
    match checking.finish() {
        Ok(found) => Ok(found),
        Err(CheckFault::Memory) => Err(StreamFault::Memory),
        Err(fault) => Err(StreamFault::Check(fault)),
    }
}
