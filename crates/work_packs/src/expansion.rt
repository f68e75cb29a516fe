ghost use Rattle.std.specs.Prelude.{◌≤◌, IfOk};
ghost use Rattle.css_domain.specs.LedgerFacts.{filing_words};
ghost use Rattle.steps.specs.Traces.{IsNormal};
ghost use Rattle.tile_rules.specs.Complete.{IsComplete, IsCompleteFor, rulebook_of};
ghost use Rattle.tile_rules.specs.Meaning.{tile_meaning};

use crate::choice::kinds;
use crate::filed::rules_by;
use crate::pack::Packs;
use css_domain::Filing;
use std::alloc::{AllocError, Global};
use tile_rules::Tiles;
use tiling_core::Tiling;

/// The complete filing of a normal tiling for a pack: its rules have the kinds of the class in order, and their
/// traces are those of the normal form; so it is complete for the number of the pack. It has at most 2,048 words.
/// The refusal is want of memory, for which a trace of 268,435,456 steps or more counts (docs/RULES.md, "Kinds of
/// rules").
pub fn expand(alloc: Global, tiling: &Tiling, packs: Packs) -> Result<Filing<Tiles>, AllocError>
    requires normal { IsNormal tiling.now }
    ensures complete { IfOk result (λ filing. IsComplete filing tiling.now packs) }
    ensures for_rulebook { IfOk result (λ filing. IsCompleteFor (rulebook_of packs) tiling.now filing) }
    ensures words { IfOk result (λ filing. filing_words tile_meaning filing ≤ 2048) }
{
    // What a tiling keeps is known once it is read.
    let _ = tiling.width();
    let kinds = kinds(alloc, tiling, packs)?;
    Ok(Filing::of(rules_by(alloc, tiling, kinds)?))
}
