ghost use Rattle.std.specs.Prelude.{◌≡◌};
ghost use Rattle.steps.specs.declared.fault.StepFault.TheVariants.{Memory as step_memory};
ghost use Rattle.steps.specs.declared.fault.ReplayFault.TheVariants.{Memory as replay_memory};

use std::alloc::AllocError;
use thiserror::Error;

/// Why a step gave no tiling.
#[derive(Debug, PartialEq, Eq, Drop, Error)]
pub enum StepFault {
    /// The step's condition fails.
    #[error("the step does not apply")]
    NotApplicable,
    /// There was no memory.
    #[error("out of memory")]
    Memory,
}

impl From<AllocError> for StepFault {
    ghost from_gives = { λ _ fault. fault ≡ step_memory };

    fn from(_error: AllocError) -> StepFault {
        StepFault::Memory
    }
}

/// Why a trace gave no tiling.
#[derive(Debug, PartialEq, Eq, Drop, Error)]
pub enum ReplayFault {
    /// The step at this place, counted from 0, is the first whose condition fails.
    #[error("step {at} does not apply")]
    NotApplicable { at: u32 },
    /// There was no memory.
    #[error("out of memory")]
    Memory,
}

impl From<AllocError> for ReplayFault {
    ghost from_gives = { λ _ fault. fault ≡ replay_memory };

    fn from(_error: AllocError) -> ReplayFault {
        ReplayFault::Memory
    }
}
