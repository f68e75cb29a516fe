ghost use Rattle.std.specs.Prelude.{◌≡◌, IfOk};
ghost use Rattle.rule_kinds.specs.Choices.{kinds_of};
ghost use Rattle.work_packs.specs.KindLines.{kinds_by_lines};

use crate::lines::{closing_kinds, cuts_if, factors_if, inferrals_if, last_kinds};
use crate::pack::Packs;
use std::alloc::{AllocError, Global};
use tile_rules::Kind;
use tiling_core::Tiling;

/// The kinds of a class for a pack, line by line: those of the first line that has any.
fn kinds_by_lines(alloc: Global, tiling: &Tiling, packs: Packs) -> Result<Vec<Kind>, AllocError>
    ensures { IfOk result (λ kinds. kinds.items ≡ kinds_by_lines tiling.now packs) }
{
    let kinds = closing_kinds(alloc, tiling)?;
    if !kinds.is_empty() {
        return Ok(kinds);
    }
    let kinds = factors_if(packs, alloc, tiling)?;
    if !kinds.is_empty() {
        return Ok(kinds);
    }
    let kinds = cuts_if(packs, alloc, tiling)?;
    if !kinds.is_empty() {
        return Ok(kinds);
    }
    let kinds = inferrals_if(packs, alloc, tiling)?;
    if !kinds.is_empty() {
        return Ok(kinds);
    }
    last_kinds(alloc, tiling, packs)
}

/// The kinds of a class for a pack, in order. The refusal is want of memory.
#[tactic(auto, using(crate::proofs::KindLists::by_lines))]
pub(crate) fn kinds(alloc: Global, tiling: &Tiling, packs: Packs) -> Result<Vec<Kind>, AllocError>
    ensures { IfOk result (λ kinds. kinds.items ≡ kinds_of tiling.now packs) }
{
    kinds_by_lines(alloc, tiling, packs)
}
