ghost use Rattle.std.specs.Prelude.{◌≡◌};
ghost use Rattle.rule_kinds.specs.declared.fault.RawFault.TheVariants.{Memory};

use std::alloc::AllocError;
use thiserror::Error;

/// Why a kind gives no children.
#[derive(Debug, PartialEq, Eq, Error, Drop)]
pub enum RawFault {
    /// The kind's condition fails.
    #[error("the kind does not apply")]
    NotApplicable,
    /// There was no memory.
    #[error("out of memory")]
    Memory,
}

impl From<AllocError> for RawFault {
    ghost from_gives = { λ _ fault. fault ≡ Memory };

    fn from(_: AllocError) -> RawFault {
        RawFault::Memory
    }
}
