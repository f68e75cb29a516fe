ghost use Rattle.std.specs.Prelude.{◌≡◌};

use css_crew::Expander;
use css_domain::Filing;
use normal_form::{normalise, traces_are_determined};
use sequences::Copied;
use std::alloc::{AllocError, Global};
use std::marker::Model;
use tile_rules::Tiles;
use tiling_core::Tiling;
use work_packs::{Packs, expand};

/// What finds the complete filing of a tiling for a pack of letters (docs/RULES.md, "Kinds of rules"). Its
/// rulebook is the number of the pack.
#[derive(Clone, Copy)]
pub struct ByPack {
    packs: Packs,
}

impl Model for ByPack {
    ghost use Rattle.rule_kinds.specs.Choices.{Packs as Letters};

    ghost Value = { Letters };

    ghost view = { λ expander. expander.packs };

    ghost inverse = { λ packs. record { packs = packs } };
}

impl ByPack {
    /// The expander of a pack. Takes no memory.
    pub fn of(packs: Packs) -> ByPack
        ensures { result ≡ packs }
    {
        ByPack { packs }
    }
}

impl Expander<Tiles> for ByPack {
    ghost use Rattle.tile_rules.specs.Complete.{rulebook_of};

    ghost rulebook_of = { rulebook_of };

    fn rulebook(&self) -> u32 {
        self.packs.rulebook()
    }

    /// A tiling that is not normal gets the empty filing, since of its filing nothing is asked.
    fn expand(&self, alloc: Global, class: &Tiling) -> Result<Filing<Tiles>, AllocError> {
        traces_are_determined();
        // What a tiling keeps is known once it is read.
        let _ = class.width();
        let (_, trace) = normalise(alloc, class.copy(alloc)?)?;
        if !trace.is_empty() {
            return Ok(Filing::of(Vec::new(alloc)));
        }
        expand(alloc, class, self.packs)
    }
}
