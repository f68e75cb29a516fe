ghost use Rattle.std.specs.Prelude.{◌≡◌, true, [], ◌∷◌, IfOk, All};
ghost use Rattle.tiling_core.specs.Tiles.{IsInGrid};
ghost use Rattle.tiling_core.specs.Patterns.{also};
ghost use Rattle.rule_kinds.specs.Lines.{in_grid};

use gridded::Gridded;
use sequences::{Copied, Sequence};
use std::alloc::{AllocError, Global};
use tiling_core::Tiling;

/// The tiling with further obstructions and requirement lists, whose cells lie in its grid. The refusal is want
/// of memory, for which a list of 268,435,456 items or more counts.
#[tactic(auto, using(tiling_core::proofs::Joined::joined))]
pub fn also(
    alloc: Global,
    tiling: &Tiling,
    obstructions: &[Gridded],
    lists: &[Sequence<Gridded>],
) -> Result<Tiling, AllocError>
    requires obstructions_in { IsInGrid tiling.now.width tiling.now.height obstructions.now }
    requires lists_in { All (λ patterns. IsInGrid tiling.now.width tiling.now.height patterns) lists.now }
    ensures { IfOk result (λ t. t ≡ also tiling.now obstructions.now lists.now) }
{
    let mut all = Gridded::copy_all(obstructions, alloc)?;
    all.extend_from_slice(tiling.obstructions())?;
    let mut each = <Sequence<Gridded> as Copied>::copy_all(lists, alloc)?;
    let mut kept = <Sequence<Gridded> as Copied>::copy_all(tiling.requirements(), alloc)?;
    each.append(&mut kept)?;
    Tiling::in_grid(tiling.width(), tiling.height(), all, each)
}

/// The tiling with a further list of one pattern, which lies in its grid. The refusal is want of memory.
#[tactic(auto, using(tiling_core::proofs::Joined::single))]
pub fn requiring(alloc: Global, tiling: &Tiling, pattern: Gridded) -> Result<Tiling, AllocError>
    requires { in_grid tiling.now pattern ≡ true }
    ensures { IfOk result (λ t. t ≡ also tiling.now [] ((pattern ∷ []) ∷ [])) }
{
    let mut patterns = Vec::new(alloc);
    patterns.push(pattern)?;
    let mut lists = Vec::new(alloc);
    lists.push(Sequence::of(patterns))?;
    also(alloc, tiling, &[], lists.as_slice())
}
