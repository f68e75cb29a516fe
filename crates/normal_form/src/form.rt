ghost use Rattle.std.specs.Prelude.{◌≡◌, IfOk, Some};
ghost use Rattle.tiling_core.specs.Tiles.{Tiles};
ghost use Rattle.steps.specs.Traces.{IsTrace, IsNormal, replay};
ghost use Rattle.steps.specs.Kept.{KeepsMembers, rename_all};
ghost use Rattle.normal_form.specs.Known.{IsKnown};
ghost use Rattle.normal_form.specs.Reached.{IsReached};

use crate::first::first_step;
use crate::known::{Known, known_after};
use crate::law::replays_keep_members;
use std::alloc::{AllocError, Global};
use steps::{Step, follow};
use tiling_core::Tiling;

/// The normal form of a tiling that the given steps led to, and all steps: again and again the first step that
/// applies, until none does. They are the trace of each tiling from which the given ones, each the first to
/// apply, lead to this one.
pub(crate) fn reduce(
    alloc: Global,
    tiling: Tiling,
    steps: Vec<Step>,
    known_of_it: Known,
) -> Result<(Tiling, Vec<Step>), AllocError>
    requires { IsKnown known_of_it tiling }
    ensures traced { IfOk result (λ made. (t : Tiles) → IsReached t steps.items tiling → IsTrace t made.1.items) }
    ensures replayed { IfOk result (λ made. (t : Tiles) → IsReached t steps.items tiling → replay t made.1.items ≡ Some made.0) }
    ensures normal { IfOk result (λ made. IsNormal made.0) }
{
    let mut current = tiling;
    let mut trace = steps;
    let mut known = known_of_it;
    while let Some(step) = first_step(&current, known) {
        current = follow(alloc, step, current)?;
        known = known_after(step);
        trace.push(step)?;
    }
    Ok((current, trace))
}

/// The normal form of a tiling, and its trace: again and again the first step that applies, in the order Void,
/// Min, Clean by cells, Lists, columns from 0 on, rows from 0 on, until none applies. Members are kept one to
/// one up to the renaming of cells, with their lengths, so their numbers stay. It fails for want of memory
/// alone (docs/RULES.md, "Reduction steps").
pub fn normalise(alloc: Global, tiling: Tiling) -> Result<(Tiling, Vec<Step>), AllocError>
    ensures traced { IfOk result (λ made. IsTrace tiling made.1.items) }
    ensures replayed { IfOk result (λ made. replay tiling made.1.items ≡ Some made.0) }
    ensures normal { IfOk result (λ made. IsNormal made.0) }
    ensures members { IfOk result (λ made. KeepsMembers (rename_all made.1.items) tiling made.0) }
{
    // What a tiling keeps, and the law that members rest on; neither computes anything.
    let _ = tiling.width();
    replays_keep_members();
    reduce(alloc, tiling, Vec::new(alloc), Known::Nothing)
}
