ghost use Rattle.std.specs.Prelude.{◌≡◌, ◌≢◌, ◌<◌, ◌++◌, ◌∷◌, [], length, filter, IfOk, OnOk};
ghost use Rattle.tiling_core.specs.Patterns.{active_cells};
ghost use Rattle.rule_kinds.specs.Choices.{finest_factoring};
ghost use Rattle.rule_kinds.specs.Conditions.{applies};
ghost use Rattle.rule_kinds.specs.Least.{IsFinest};
ghost use Rattle.rule_kinds.specs.declared.kind.Kind.TheVariants as kind;
ghost use Rattle.factoring.specs.Leading.{newly_found};

use crate::cells::{cell_of, contains};
use crate::condition::can_factor;
use crate::growing::closure;
use crate::sharing::is_covered;
use factoring_law::finest_is_factoring;
use gridded::{Cell, CellSet};
use rule_kinds::Kind;
use sequences::Sequence;
use std::alloc::{AllocError, Global};
use tiling_core::{Tiling, active};

/// Adds the closure of a cell that is active and in none of the sets yet.
fn add_closure(
    sets: &mut Vec<CellSet>,
    tiling: &Tiling,
    active: CellSet,
    cell: Cell,
) -> Result<(), AllocError>
    requires { active ≡ active_cells tiling.now }
    ensures { OnOk result (sets.new.items ≡ sets.old.items ++ newly_found tiling.now sets.old.items cell) }
{
    if contains(active, cell) && !is_covered(sets, cell) {
        sets.push(closure(tiling, active, cell))?;
    }
    Ok(())
}

/// The closures of the active cells, in order, each once.
fn finest_factoring(alloc: Global, tiling: &Tiling) -> Result<Vec<CellSet>, AllocError>
    ensures { IfOk result (λ sets. sets.items ≡ finest_factoring tiling.now) }
{
    let active = active(tiling);
    // What a set keeps is known once it is read.
    let _ = active.count();
    let mut sets = Vec::new(alloc);
    for number in 0..64 {
        add_closure(&mut sets, tiling, active, cell_of(number))?;
    }
    Ok(sets)
}

/// The finest factoring as the one kind, where it has two factors or more; else none. Every factoring of the tiling
/// is coarser: each set of the finest one lies in one of its sets. The refusal is want of memory (docs/RULES.md,
/// "Kinds of rules").
#[tactic(auto, unfolding(rule_kinds::specs::Conditions::applies))]
pub fn parts(alloc: Global, tiling: &Tiling) -> Result<Vec<Kind>, AllocError>
    ensures listed { IfOk result (λ kinds. kinds.items ≡ filter (applies tiling.now) (kind.Factor (finest_factoring tiling.now) ∷ [])) }
    ensures finest { IfOk result (λ kinds. length kinds.items ≢ 0 → IsFinest tiling.now (finest_factoring tiling.now)) }
{
    finest_is_factoring();
    let sets = finest_factoring(alloc, tiling)?;
    let mut kinds = Vec::new(alloc);
    if can_factor(tiling, &sets) {
        kinds.push(Kind::Factor(Sequence::of(sets)))?;
    }
    Ok(kinds)
}
