ghost use Rattle.std.specs.Prelude.{◌≡◌};
ghost use Rattle.line_readers.specs.declared.fault.ItemFault.TheVariants.{Memory};

use std::alloc::AllocError;
use thiserror::Error;

/// Why a line gave no value (docs/FORMATS.md, "The text of a specification").
#[derive(Clone, Copy, Debug, PartialEq, Eq, Drop, Error)]
pub enum ItemFault {
    /// The line isn't of the form.
    #[error("not of the form")]
    Form,
    /// The line is of the form, and one of its quantities is out of its range.
    #[error("out of range")]
    Range,
    /// There was no memory.
    #[error("out of memory")]
    Memory,
}

impl From<AllocError> for ItemFault {
    ghost from_gives = { λ _ fault. fault ≡ Memory };

    fn from(_error: AllocError) -> ItemFault {
        ItemFault::Memory
    }
}
