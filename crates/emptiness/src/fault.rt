ghost use Rattle.std.specs.Prelude.{◌≡◌};
ghost use Rattle.emptiness.specs.declared.fault.EmptyFault.TheVariants.{Memory as NoMemory};
ghost use Rattle.emptiness.specs.declared.fault.InferFault.TheVariants.{Memory};

use std::alloc::AllocError;
use thiserror::Error;

/// Why it isn't decided whether a tiling is empty.
#[derive(Debug, PartialEq, Eq, Error, Drop)]
pub enum EmptyFault {
    /// The tiling's weight is over 6.
    #[error("the weight is over 6")]
    Heavy,
    /// There was no memory.
    #[error("out of memory")]
    Memory,
}

impl From<AllocError> for EmptyFault {
    ghost from_gives = { λ _ fault. fault ≡ NoMemory };

    fn from(_: AllocError) -> EmptyFault {
        EmptyFault::Memory
    }
}

/// Why no inferable patterns are listed.
#[derive(Debug, PartialEq, Eq, Error, Drop)]
pub enum InferFault {
    /// The tiling's weight is over 4.
    #[error("the weight is over 4")]
    Heavy,
    /// More than 16 cells are active, and the weight is not over 4.
    #[error("more than 16 cells are active")]
    Wide,
    /// There was no memory.
    #[error("out of memory")]
    Memory,
}

impl From<AllocError> for InferFault {
    ghost from_gives = { λ _ fault. fault ≡ Memory };

    fn from(_: AllocError) -> InferFault {
        InferFault::Memory
    }
}
