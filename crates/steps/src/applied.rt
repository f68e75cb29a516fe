ghost use Rattle.std.specs.Prelude.{◌≡◌, true, IfOk, IfErr, OnOk};
ghost use Rattle.steps.specs.Steps.{step_applies, step_result, rename};
ghost use Rattle.steps.specs.Kept.{KeepsMembers};
ghost use Rattle.steps.specs.Refused.{IsRefused};

use crate::clean_step::{can_be_cleaned, clean, is_isolated};
use crate::fault::StepFault;
use crate::law::steps_keep_members;
use crate::line_step::{is_blank, without_line};
use crate::list_step::{are_untidy, tidy_lists};
use crate::min_step::{is_redundant, without_redundant};
use crate::step::Step;
use crate::void_step::{is_hopeless, is_void, void_tiling};
use gridded::Axis;
use std::alloc::{AllocError, Global};
use tiling_core::Tiling;

/// Whether a step applies to a tiling (docs/RULES.md, "Reduction steps"). Takes no memory.
#[tactic(auto, using(crate::proofs::Shrinks::lists_apply), unfolding(crate::specs::Steps::step_applies))]
pub fn applies(step: Step, tiling: &Tiling) -> bool
    ensures { result ≡ step_applies step tiling.now }
{
    match step {
        Step::Void => is_hopeless(tiling) && !is_void(tiling),
        Step::Min => is_redundant(tiling),
        Step::Clean(cell) => is_isolated(tiling, cell) && can_be_cleaned(tiling, cell),
        Step::Lists => are_untidy(tiling),
        Step::Column(column) => is_blank(tiling, Axis::Column, column),
        Step::Row(row) => is_blank(tiling, Axis::Row, row),
    }
}

/// What a step that applies gives.
#[tactic(auto, unfolding(crate::specs::Steps::step_applies, crate::specs::Steps::step_result))]
fn result_of(alloc: Global, step: Step, tiling: Tiling) -> Result<Tiling, AllocError>
    requires { step_applies step tiling ≡ true }
    ensures { IfOk result (λ left. left ≡ step_result step tiling) }
{
    match step {
        Step::Void => void_tiling(alloc),
        Step::Min => without_redundant(alloc, tiling),
        Step::Clean(cell) => clean(alloc, &tiling, cell),
        Step::Lists => tidy_lists(alloc, tiling),
        Step::Column(column) => without_line(alloc, &tiling, Axis::Column, column),
        Step::Row(row) => without_line(alloc, &tiling, Axis::Row, row),
    }
}

/// The tiling after a step that is known to apply; nothing is tested again. The tiling is consumed either way, and
/// it fails for want of memory alone (docs/RULES.md, "Reduction steps").
pub fn follow(alloc: Global, step: Step, tiling: Tiling) -> Result<Tiling, AllocError>
    requires { step_applies step tiling ≡ true }
    ensures made { IfOk result (λ left. left ≡ step_result step tiling) }
    ensures members { IfOk result (λ left. KeepsMembers (rename step) tiling left) }
{
    // What a tiling keeps, and the law that members rest on; neither computes anything.
    let _ = tiling.width();
    steps_keep_members();
    result_of(alloc, step, tiling)
}

/// The tiling after a step, which is consumed either way. It is refused exactly where the step's condition
/// fails. The members stay one to one, up to the renaming of cells, and so does their number of each length
/// (docs/RULES.md, "Reduction steps").
pub fn apply(alloc: Global, step: &Step, tiling: Tiling) -> Result<Tiling, StepFault>
    ensures made { IfOk result (λ left. left ≡ step_result step.now tiling) }
    ensures applied { OnOk result (step_applies step.now tiling ≡ true) }
    ensures refused { IfErr result (λ fault. IsRefused step.now tiling fault) }
    ensures members { IfOk result (λ left. KeepsMembers (rename step.now) tiling left) }
{
    if !applies(*step, &tiling) {
        return Err(StepFault::NotApplicable);
    }
    Ok(follow(alloc, *step, tiling)?)
}
