ghost use Rattle.std.specs.Prelude.{◌≡◌, ◌≤◌};
ghost use Rattle.outside.specs.Counts.{Rose, next_count};

use thiserror::Error;

/// The fault of one call of a source or of a sink. It comes only where the count of faults rose in
/// that call: the count is greater than before, or it stands at 18,446,744,073,709,551,615, the
/// last value of a counter.
#[derive(Clone, Copy, Debug, PartialEq, Eq)]
pub struct Failed;

/// Why a source was not read to its end. The first refusal that applies is answered.
#[derive(Debug, PartialEq, Eq, Drop, Error)]
pub enum ReadFault {
    /// A call of the source failed.
    #[error("the source failed")]
    Read,
    /// More bytes came than the limit.
    #[error("more than {limit} bytes came")]
    TooLong { limit: u64 },
    /// There was no memory.
    #[error("out of memory")]
    Memory,
}

/// Counts one more event. A counter that has reached its type's last value stays there.
pub(crate) fn count_up(counter: &mut u64)
    ensures next { counter.new ≡ next_count counter.old }
    ensures rose { Rose counter.old counter.new }
    ensures never_falls { counter.old ≤ counter.new }
{
    *counter = counter.saturating_add(1);
}
