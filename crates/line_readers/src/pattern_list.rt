ghost use Rattle.std.specs.Prelude.{◌≡◌, IfOk};
ghost use Rattle.std.specs.List.{list_all};
ghost use Rattle.spec_lines.specs.Forms.{is_patterns};
ghost use Rattle.spec_lines.specs.Ranges.{is_short};
ghost use Rattle.spec_lines.specs.Readings.{list_at};
ghost use Rattle.line_readers.specs.Kept.{where_it};

use crate::ascending::ascends;
use crate::cuts::Items;
use crate::narrow::{Wide, narrow_all};
use crate::pattern::Pattern;
use crate::spelt::{Spelt, read_all};
use gridded::Gridded;
use sequences::Sequence;
use std::alloc::{AllocError, Global};

/// The patterns that a text joins by a vertical bar; none for `x`.
fn read_joined(alloc: Global, text: &[u8]) -> Result<Option<Sequence<Pattern>>, AllocError>
    ensures { IfOk result (λ patterns. patterns ≡ list_at text.now) }
{
    if text == b"x".as_slice() {
        return Ok(Some(Sequence::of(Vec::new(alloc))));
    }
    read_all(alloc, Items::of(text, b'|'))
}

impl Spelt for Sequence<Pattern> {
    ghost spelt = { λ t. where_it is_patterns (list_at t) };

    #[tactic(auto, using(crate::proofs::ListForms::list_fits))]
    fn read(alloc: Global, text: &[u8]) -> Result<Option<Sequence<Pattern>>, AllocError> {
        let Some(patterns) = read_joined(alloc, text)? else {
            return Ok(None);
        };
        if !ascends(patterns.as_slice()) {
            return Ok(None);
        }
        Ok(Some(patterns))
    }
}

impl Wide for Sequence<Pattern> {
    type Narrow = Vec<Gridded>;

    ghost fits = { list_all is_short };

    ghost wide = { λ v. v.items };

    #[tactic(auto, using(crate::proofs::ListForms::map_same))]
    fn narrow(&self, alloc: Global) -> Result<Option<Vec<Gridded>>, AllocError> {
        narrow_all(alloc, self.as_slice())
    }
}
