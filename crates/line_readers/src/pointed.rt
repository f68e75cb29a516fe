ghost use Rattle.std.specs.Prelude.{◌≡◌, ◌∷◌, [], Option};
ghost use Rattle.spec_lines.specs.Forms.{is_pointed};
ghost use Rattle.spec_lines.specs.Ranges.{is_small_pattern};
ghost use Rattle.spec_lines.specs.Readings.{pointed_at, pointed_of};
ghost use Rattle.line_readers.specs.Kept.{where_it};

use crate::cells::read_digit;
use crate::cuts::Items;
use crate::narrow::Wide;
use crate::pattern::Pattern;
use crate::spelt::Spelt;
use rule_kinds::Pointed;
use std::alloc::{AllocError, Global};
use std::marker::Model;

/// A pattern of at most ten points with one of its places.
#[derive(Drop)]
pub(crate) struct WidePointed {
    pattern: Pattern,
    index: u8,
}

impl Model for WidePointed {
    ghost use Rattle.std.specs.Prelude.{◌≡◌, true};
    ghost use Rattle.rule_kinds.specs.Pointeds.{PointedPattern};
    ghost use Rattle.spec_lines.specs.Forms.{is_pointed};

    ghost Value = { PointedPattern };

    ghost view = { λ q. record { pattern = q.pattern; index = q.index } };

    ghost invariant = { λ q. is_pointed (record { pattern = q.pattern; index = q.index }) ≡ true };
}

/// The pattern and the digit that two items spell.
fn read_pointed(pattern: &[u8], index: &[u8]) -> Option<WidePointed>
    ensures { result ≡ where_it is_pointed (pointed_of (pattern.now ∷ index.now ∷ [])) }
{
    let [index] = index else {
        return None;
    };
    let pattern = Pattern::of(pattern)?;
    let index = read_digit(*index)?;
    if usize::from(index) >= pattern.letters().len() {
        return None;
    }
    Some(WidePointed { pattern, index })
}

impl WidePointed {
    /// What the text spells.
    fn of(text: &[u8]) -> Option<WidePointed>
        ensures { result ≡ where_it is_pointed (pointed_at text.now) }
    {
        let mut items = Items::of(text, b'^');
        let pattern = items.next()?;
        let index = items.next()?;
        if items.next().is_some() {
            return None;
        }
        read_pointed(pattern, index)
    }
}

impl Spelt for WidePointed {
    ghost spelt = { λ t. where_it is_pointed (pointed_at t) };

    fn read(_alloc: Global, text: &[u8]) -> Result<Option<WidePointed>, AllocError> {
        Ok(WidePointed::of(text))
    }
}

impl Wide for WidePointed {
    type Narrow = Pointed;

    ghost fits = { λ q. is_small_pattern q.pattern };

    ghost wide = { λ q. q };

    fn narrow(&self, _alloc: Global) -> Result<Option<Pointed>, AllocError> {
        let Some(pattern) = self.pattern.small() else {
            return Ok(None);
        };
        Ok(Some(Pointed::of(pattern, self.index)))
    }
}
