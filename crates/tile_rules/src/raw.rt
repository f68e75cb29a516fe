ghost use Rattle.std.specs.Prelude.{◌≡◌, true, [], ◌∷◌, IfOk, IfErr, OnOk};
ghost use Rattle.gridded.specs.declared.axis.Axis.{Axis};
ghost use Rattle.tiling_core.specs.Tiles.{IsInGrid};
ghost use Rattle.tiling_core.specs.Patterns.{also};
ghost use Rattle.rule_kinds.specs.Conditions.{applies, can_cut};
ghost use Rattle.rule_kinds.specs.Children.{raw_children, cut};
ghost use Rattle.rule_kinds.specs.Refused.{IsRawRefused};

use crate::condition::applies;
use factoring::factored;
use gridded::{Axis, CellSet, Gridded};
use insertion::inserted;
use placement::placed;
use rule_kinds::{Kind, RawFault, also};
use separation::cut_in_two;
use std::alloc::{AllocError, Global};
use tiling_core::Tiling;

/// The tiling without the patterns.
#[tactic(auto, using(tiling_core::proofs::Joined::single))]
fn inferred(alloc: Global, tiling: &Tiling, patterns: &[Gridded]) -> Result<Vec<Tiling>, AllocError>
    requires { IsInGrid tiling.now.width tiling.now.height patterns.now }
    ensures { IfOk result (λ children. children.items ≡ also tiling.now patterns.now [] ∷ []) }
{
    let mut children = Vec::new(alloc);
    children.push(also(alloc, tiling, patterns, &[])?)?;
    Ok(children)
}

/// The tiling with a line cut in two.
#[tactic(auto, using(tiling_core::proofs::Joined::single))]
fn separated(
    alloc: Global,
    axis: Axis,
    tiling: &Tiling,
    line: u8,
    first: CellSet,
) -> Result<Vec<Tiling>, AllocError>
    requires { can_cut axis tiling.now line first ≡ true }
    ensures { IfOk result (λ children. children.items ≡ cut axis tiling.now line first ∷ []) }
{
    let mut children = Vec::new(alloc);
    children.push(cut_in_two(alloc, axis, tiling, line, first)?)?;
    Ok(children)
}

/// The children of a tiling by a kind that applies, before they are reduced (docs/RULES.md, "Kinds of rules"). The
/// refusal is want of memory.
#[tactic(auto, using(rule_kinds::proofs::Applying::applying), unfolding(rule_kinds::specs::Children::raw_children, rule_kinds::specs::Conditions::applies))]
pub fn children_of(alloc: Global, tiling: &Tiling, kind: &Kind) -> Result<Vec<Tiling>, AllocError>
    requires { applies tiling.now kind.now ≡ true }
    ensures { IfOk result (λ children. children.items ≡ raw_children tiling.now kind.now) }
{
    match kind {
        Kind::Unit | Kind::Point | Kind::Void => Ok(Vec::new(alloc)),
        Kind::Insert(pattern) => inserted(alloc, tiling, *pattern),
        Kind::Place(pointed, direction) => placed(alloc, tiling, pointed.as_slice(), *direction),
        Kind::RowCut(row, set) => separated(alloc, Axis::Row, tiling, *row, *set),
        Kind::ColumnCut(column, set) => separated(alloc, Axis::Column, tiling, *column, *set),
        Kind::Factor(sets) => factored(alloc, tiling, sets.as_slice()),
        Kind::Infer(patterns) => inferred(alloc, tiling, patterns.as_slice()),
    }
}

/// The children of a tiling by a kind of rule, before they are reduced (docs/RULES.md, "Kinds of rules"). Refused
/// is a kind whose condition fails, as NotApplicable, and nothing else but want of memory.
pub fn raw_children(alloc: Global, tiling: &Tiling, kind: &Kind) -> Result<Vec<Tiling>, RawFault>
    ensures made { IfOk result (λ children. children.items ≡ raw_children tiling.now kind.now) }
    ensures applicable { OnOk result (applies tiling.now kind.now ≡ true) }
    ensures refused { IfErr result (λ fault. IsRawRefused tiling.now kind.now fault) }
{
    if !applies(alloc, tiling, kind)? {
        return Err(RawFault::NotApplicable);
    }
    Ok(children_of(alloc, tiling, kind)?)
}
