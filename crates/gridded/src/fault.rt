ghost use Rattle.std.specs.Prelude.{◌≡◌};

use std::alloc::AllocError;
use thiserror::Error;

/// Why letters and cells are no gridded permutation. The first refusal that applies is answered.
#[derive(Debug, PartialEq, Eq, Drop, Error)]
pub enum GriddedFault {
    /// There are not as many letters as cells.
    #[error("there are not as many letters as cells")]
    Lengths,
    /// The first place whose letter isn't below the length, or equals an earlier one.
    #[error("the letter at place {index} is too high or repeats")]
    NotPerm { index: u32 },
    /// The first place whose column is lower than the one before.
    #[error("the column at place {index} is lower than the one before")]
    Columns { index: u32 },
    /// The first place whose row and letter stand in opposite strict order to an earlier place's.
    #[error("the row at place {index} disagrees with an earlier one")]
    Rows { index: u32 },
    /// There was no memory.
    #[error("out of memory")]
    Memory,
}

impl From<AllocError> for GriddedFault {
    ghost use Rattle.gridded.specs.declared.fault.GriddedFault.TheVariants.{Memory};

    ghost from_gives = { λ _ fault. fault ≡ Memory };

    fn from(_error: AllocError) -> GriddedFault {
        GriddedFault::Memory
    }
}
