ghost use Rattle.std.specs.Prelude.{◌≡◌, Bool, IfOk, map};
ghost use Rattle.std.specs.List.{list_all};
ghost use Rattle.line_readers.specs.Narrow.{IsNarrowed};

use std::alloc::{AllocError, Global};

/// What the form allows, of which some values are out of range.
pub(crate) trait Wide {
    type Narrow: Drop;

    ghost fits: { Self → Bool };

    ghost wide: { Self.Narrow → Self };

    /// The value in the type that holds what is in range; None where it is out of range. The refusal is want of memory.
    fn narrow(&self, alloc: Global) -> Result<Option<Self::Narrow>, AllocError>
        ensures { IfOk result (λ value. IsNarrowed fits wide self.now value) };
}

/// The values of all items; None where one is out of range. The refusal is want of memory.
pub(crate) fn narrow_all<T: Wide>(
    alloc: Global,
    items: &[T],
) -> Result<Option<Vec<T::Narrow>>, AllocError>
    ensures { IfOk result (λ values. IsNarrowed (list_all T.fits) (λ v. map T.wide v.items) items.now values) }
{
    let mut values = Vec::with_capacity(alloc, items.len())?;
    for item in items {
        let Some(value) = item.narrow(alloc)? else {
            return Ok(None);
        };
        values.push(value)?;
    }
    Ok(Some(values))
}
