// The normal form of a tiling that is given without some obstructions that hold others.
ghost use Rattle.std.specs.Prelude.{◌≡◌, IfOk, Some, true, false};
ghost use Rattle.tiling_core.specs.Tiles.{Tiles, IsTiling};
ghost use Rattle.steps.specs.declared.Step.TheVariants.{Min};
ghost use Rattle.steps.specs.Steps.{step_applies, step_result};
ghost use Rattle.steps.specs.Traces.{IsTrace, replay};
ghost use Rattle.normal_form.specs.Known.{IsKnown};
ghost use Rattle.normal_form.specs.Reached.{IsReached};
ghost use Rattle.normal_form.specs.Thinned.{IsThinned};

use crate::form::{normalise, reduce};
use crate::known::Known;
use std::alloc::{AllocError, Global};
use steps::{Step, applies, follow};
use tiling_core::Tiling;

/// A tiling with those obstructions alone that hold no other.
fn with_minimal(alloc: Global, tiling: Tiling) -> Result<Tiling, AllocError>
    ensures made { IfOk result (λ least. least ≡ step_result Min tiling) }
    ensures minimal { IfOk result (λ least. step_applies Min least ≡ false) }
{
    // What a tiling keeps is known once it is read.
    let _ = tiling.width();
    if applies(Step::Min, &tiling) {
        return follow(alloc, Step::Min, tiling);
    }
    Ok(tiling)
}

/// What the first step of the whole tiling leaves, that step, and what is known then, where some obstructions
/// are left out. Min applies to the whole tiling, so it comes first unless Void does.
fn after_first(alloc: Global, thinned: Tiling) -> Result<(Tiling, Vec<Step>, Known), AllocError>
    ensures reached { IfOk result (λ made. (t : Tiles) → IsTiling t → IsThinned t thinned true → IsReached t made.1.items made.0) }
    ensures known { IfOk result (λ made. IsKnown made.2 made.0) }
{
    let mut steps = Vec::new(alloc);
    if applies(Step::Void, &thinned) {
        steps.push(Step::Void)?;
        return Ok((follow(alloc, Step::Void, thinned)?, steps, Known::Nothing));
    }
    steps.push(Step::Min)?;
    Ok((with_minimal(alloc, thinned)?, steps, Known::Minimal))
}

/// The normal form and the trace of a tiling that is given without some obstructions, each of which holds one
/// that stays, and whether any was left out. They are those of the whole tiling. It fails for want of memory
/// alone (docs/RULES.md, "Reduction steps").
pub fn normalise_thinned(
    alloc: Global,
    thinned: Tiling,
    left_out: bool,
) -> Result<(Tiling, Vec<Step>), AllocError>
    ensures traced { IfOk result (λ made. (t : Tiles) → IsTiling t → IsThinned t thinned left_out → IsTrace t made.1.items) }
    ensures replayed { IfOk result (λ made. (t : Tiles) → IsTiling t → IsThinned t thinned left_out → replay t made.1.items ≡ Some made.0) }
{
    if !left_out {
        return normalise(alloc, thinned);
    }
    let (tiling, steps, known) = after_first(alloc, thinned)?;
    reduce(alloc, tiling, steps, known)
}
