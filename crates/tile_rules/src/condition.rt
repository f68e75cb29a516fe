ghost use Rattle.std.specs.Prelude.{◌≡◌, ◌&&◌, nat_le, IfOk};
ghost use Rattle.tiling_core.specs.Measures.{weight};
ghost use Rattle.tiling_core.specs.Roots.{unit_tiling, point_tiling};
ghost use Rattle.tiling_core.specs.Same.{tiles_eq};
ghost use Rattle.emptiness.specs.Inferable.{has_no_member};
ghost use Rattle.rule_kinds.specs.Conditions.{applies};

use crate::inferral::can_be_inferred;
use emptiness::{EmptyFault, is_empty, members_within_weight};
use factoring::can_factor;
use gridded::Axis;
use insertion::can_insert;
use placement::can_place;
use rule_kinds::Kind;
use separation::can_cut;
use std::alloc::{AllocError, Global};
use tiling_core::Tiling;

/// Whether it is the unit tiling.
fn is_unit(alloc: Global, tiling: &Tiling) -> Result<bool, AllocError>
    ensures { IfOk result (λ same. same ≡ tiles_eq tiling.now unit_tiling) }
{
    let unit = Tiling::unit(alloc)?;
    Ok(*tiling == unit)
}

/// Whether it is the point tiling.
fn is_point(alloc: Global, tiling: &Tiling) -> Result<bool, AllocError>
    ensures { IfOk result (λ same. same ≡ tiles_eq tiling.now point_tiling) }
{
    let point = Tiling::point(alloc)?;
    Ok(*tiling == point)
}

/// Whether the weight is at most 6 and there is no member.
fn is_void(alloc: Global, tiling: &Tiling) -> Result<bool, AllocError>
    ensures { IfOk result (λ void. void ≡ (nat_le (weight tiling.now) 6 && has_no_member tiling.now)) }
{
    members_within_weight();
    match is_empty(alloc, tiling) {
        Ok(empty) => Ok(empty),
        Err(EmptyFault::Heavy) => Ok(false),
        Err(EmptyFault::Memory) => Err(AllocError),
    }
}

/// Whether a kind applies to a tiling (docs/RULES.md, "Kinds of rules"). The refusal is want of memory.
#[tactic(auto, unfolding(rule_kinds::specs::Conditions::applies))]
pub fn applies(alloc: Global, tiling: &Tiling, kind: &Kind) -> Result<bool, AllocError>
    ensures { IfOk result (λ it_does. it_does ≡ applies tiling.now kind.now) }
{
    match kind {
        Kind::Unit => is_unit(alloc, tiling),
        Kind::Point => is_point(alloc, tiling),
        Kind::Void => is_void(alloc, tiling),
        Kind::Insert(pattern) => Ok(can_insert(tiling, pattern)),
        Kind::Place(pointed, direction) => Ok(can_place(tiling, pointed.as_slice(), *direction)),
        Kind::RowCut(row, set) => Ok(can_cut(Axis::Row, tiling, *row, *set)),
        Kind::ColumnCut(column, set) => Ok(can_cut(Axis::Column, tiling, *column, *set)),
        Kind::Factor(sets) => Ok(can_factor(tiling, sets.as_slice())),
        Kind::Infer(patterns) => can_be_inferred(alloc, tiling, patterns.as_slice()),
    }
}
