ghost use Rattle.std.specs.Prelude.{◌<◌, ◌≤◌, ℕ, List, Option, IfOk, OnOk, OnErr, length};
ghost use Rattle.outside.specs.Bytes.{GrewBy, GrewByPrefix, moved};
ghost use Rattle.outside.specs.Counts.{Rose};

use crate::faults::Failed;

/// What takes bytes. It counts its faults, and may tell the bytes that it holds.
///
/// A sink that tells them after a call had told them before it, so a sink that has stopped telling
/// does not begin again.
pub trait Sink {
    // The bytes that it holds, where the sink tells them.
    ghost held: { Self → Option (List ℕ) };

    // How many faults it has counted.
    ghost faults: { Self → ℕ };

    /// Appends the first bytes of the piece and answers how many: at least one, for a piece that is
    /// not empty. `Failed` comes only where the count of faults rose in this call, and then nothing
    /// was appended.
    fn write(&mut self, piece: &[u8]) -> Result<usize, Failed>
        ensures bound { IfOk result (λ n. n ≤ length piece.now) }
        ensures progress { IfOk result (λ n. 0 < length piece.now → 0 < n) }
        ensures content { GrewBy (held self.old) (held self.new) (moved result piece.now) }
        ensures never_falls { faults self.old ≤ faults self.new }
        ensures cause { OnErr result (Rose (faults self.old) (faults self.new)) };
}

/// Writes all the bytes, in as many calls as the sink wants. `Failed` comes only where the sink's
/// count of faults rose in this call, and then a prefix of the bytes was appended. Takes no memory
/// of its own.
pub fn write_all<K: Sink>(sink: &mut K, bytes: &[u8]) -> Result<(), Failed>
    ensures all { OnOk result (GrewBy (K.held sink.old) (K.held sink.new) bytes.now) }
    ensures prefix { OnErr result (GrewByPrefix (K.held sink.old) (K.held sink.new) bytes.now) }
    ensures never_falls { K.faults sink.old ≤ K.faults sink.new }
    ensures cause { OnErr result (Rose (K.faults sink.old) (K.faults sink.new)) }
{
    let mut at = 0usize;
    while at < bytes.len() {
        at += sink.write(&bytes[at..])?;
    }
    Ok(())
}
