ghost use Rattle.std.specs.Prelude.{◌≡◌, List, ℕ, Option, IfOk};
ghost use Rattle.spec_lines.specs.Items.{read_all, dashed};

use crate::cuts::Items;
use sequences::Sequence;
use std::alloc::{AllocError, Global};

/// What an item of a line spells.
pub(crate) trait Spelt: Drop {
    ghost spelt: { List ℕ → Option Self };

    /// The value that the text spells; None where it spells none. The refusal is want of memory.
    fn read(alloc: Global, text: &[u8]) -> Result<Option<Self>, AllocError>
    where
        Self: Sized,
        ensures { IfOk result (λ value. value ≡ spelt text.now) };
}

/// The values that the items spell; None where one of them spells none. The refusal is want of memory.
pub(crate) fn read_all<T: Spelt>(
    alloc: Global,
    mut items: Items<'_>,
) -> Result<Option<Sequence<T>>, AllocError>
    ensures { IfOk result (λ values. values ≡ read_all T.spelt items.entry) }
{
    let mut values = Vec::new(alloc);
    while let Some(item) = items.next() {
        let Some(value) = T::read(alloc, item)? else {
            return Ok(None);
        };
        values.push(value)?;
    }
    Ok(Some(Sequence::of(values)))
}

/// The values that the items spell, of which there is at least one, and where a lone dash stands for none; None where
/// there is no item, or one of them spells nothing. The refusal is want of memory.
pub(crate) fn dashed<T: Spelt>(
    alloc: Global,
    items: Items<'_>,
) -> Result<Option<Sequence<T>>, AllocError>
    ensures { IfOk result (λ values. values ≡ dashed T.spelt items.entry) }
{
    if items.is_empty() {
        return Ok(None);
    }
    if items.is_lone(b"-") {
        return Ok(Some(Sequence::of(Vec::new(alloc))));
    }
    read_all(alloc, items)
}
