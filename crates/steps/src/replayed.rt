ghost use Rattle.std.specs.Prelude.{◌≡◌, ◌<◌, length, Some, IfOk, IfErr};
ghost use Rattle.steps.specs.Traces.{replay};
ghost use Rattle.steps.specs.Kept.{KeepsMembers, rename_all};
ghost use Rattle.steps.specs.Refused.{IsReplayRefused};

use crate::applied::apply;
use crate::fault::{ReplayFault, StepFault};
use crate::step::Step;
use std::alloc::Global;
use tiling_core::Tiling;

/// The tiling after the steps of a trace, of which there are fewer than 268,435,456, one after the other. The
/// tiling is consumed either way. It is refused at the first step whose condition fails. The members stay one
/// to one, up to the renaming of cells, and so does their number of each length (docs/RULES.md, "Reduction
/// steps").
pub fn replay(alloc: Global, tiling: Tiling, trace: &[Step]) -> Result<Tiling, ReplayFault>
    requires { length trace.now < 268435456 }
    ensures made { IfOk result (λ left. replay tiling trace.now ≡ Some left) }
    ensures refused { IfErr result (λ fault. IsReplayRefused tiling trace.now fault) }
    ensures members { IfOk result (λ left. KeepsMembers (rename_all trace.now) tiling left) }
{
    let mut reached = tiling;
    for (at, step) in trace.iter().enumerate() {
        match apply(alloc, step, reached) {
            Ok(next) => reached = next,
            Err(StepFault::NotApplicable) => {
                return Err(ReplayFault::NotApplicable { at: at as u32 });
            }
            Err(StepFault::Memory) => return Err(ReplayFault::Memory),
        }
    }
    Ok(reached)
}
