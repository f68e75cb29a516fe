ghost use Rattle.std.specs.Prelude.{◌≡◌, ◌&&◌, true, false, IfOk, IfErr, OnOk, All};
ghost use Rattle.std.specs.List.{AllZip};
ghost use Rattle.tiling_core.specs.Tiles.{IsTiling};
ghost use Rattle.normal_form.specs.Thinned.{IsThinned};
ghost use Rattle.rule_kinds.specs.declared.kind.Kind.TheVariants as kind;
ghost use Rattle.rule_kinds.specs.Children.{raw_children, patterns_pointed};
ghost use Rattle.rule_kinds.specs.Conditions.{can_place, applies};
ghost use Rattle.placement.specs.Building.{is_placement, IsRefused};

use crate::child::child;
use crate::condition::can_place;
use crate::thinned::thinned_child;
use gridded::Gridded;
use rule_kinds::{Direction, Kind, Pointed, RawFault, also};
use std::alloc::{AllocError, Global};
use tiling_core::Tiling;

/// The patterns without their places.
fn patterns_of(alloc: Global, pointed: &[Pointed]) -> Result<Vec<Gridded>, AllocError>
    ensures { IfOk result (λ patterns. patterns.items ≡ patterns_pointed pointed.now) }
{
    let mut patterns = Vec::with_capacity(alloc, pointed.len())?;
    for each in pointed {
        patterns.push(*each.pattern())?;
    }
    Ok(patterns)
}

/// The children of a tiling by a placement that applies, before they are reduced: the tiling without the patterns,
/// and for each pattern in order the child in which the farthest pointed point is one of its own. The refusal is want
/// of memory, for which a list of 268,435,456 items or more counts (docs/RULES.md, "Kinds of rules").
pub fn placed(
    alloc: Global,
    tiling: &Tiling,
    pointed: &[Pointed],
    direction: Direction,
) -> Result<Vec<Tiling>, AllocError>
    requires { can_place tiling.now pointed.now direction ≡ true }
    ensures { IfOk result (λ children. children.items ≡ raw_children tiling.now (kind.Place pointed.now direction)) }
{
    let patterns = patterns_of(alloc, pointed)?;
    let mut children = Vec::new(alloc);
    children.push(also(alloc, tiling, &patterns, &[])?)?;
    for at in pointed {
        children.push(child(alloc, tiling, pointed, direction, at)?)?;
    }
    Ok(children)
}

/// The children of a tiling by a placement that applies, each without some obstructions that hold others, and whether
/// there are such: what has two points or more, one of them in another cell of the placed point's column or row. The
/// first child is whole. The refusal is want of memory, for which a list of 268,435,456 items or more counts, and
/// half as many patterns that come of the placement alone (docs/RULES.md, "Kinds of rules").
pub fn placed_thinned(
    alloc: Global,
    tiling: &Tiling,
    pointed: &[Pointed],
    direction: Direction,
) -> Result<Vec<(Tiling, bool)>, AllocError>
    requires { can_place tiling.now pointed.now direction ≡ true }
    ensures thinned { IfOk result (λ children. AllZip (λ raw u. IsThinned raw u.0 u.1) (raw_children tiling.now (kind.Place pointed.now direction)) children.items) }
    ensures tilings { IfOk result (λ _. All (λ raw. IsTiling raw) (raw_children tiling.now (kind.Place pointed.now direction))) }
{
    let patterns = patterns_of(alloc, pointed)?;
    let mut children = Vec::new(alloc);
    let without = also(alloc, tiling, &patterns, &[])?;
    without.read();
    children.push((without, false))?;
    for at in pointed {
        children.push(thinned_child(alloc, tiling, pointed, direction, at)?)?;
    }
    Ok(children)
}

/// The children of a tiling by a placement. Refused is each other kind, and a placement whose condition fails, as
/// NotApplicable, and nothing else but want of memory, which no other kind takes (docs/RULES.md, "Kinds of rules").
#[tactic(auto, unfolding(rule_kinds::specs::Conditions::applies))]
pub fn build(alloc: Global, tiling: &Tiling, kind: &Kind) -> Result<Vec<Tiling>, RawFault>
    ensures made { IfOk result (λ children. children.items ≡ raw_children tiling.now kind.now) }
    ensures applicable { OnOk result ((is_placement kind.now && applies tiling.now kind.now) ≡ true) }
    ensures refused { IfErr result (λ fault. IsRefused tiling.now kind.now fault) }
    ensures others { is_placement kind.now ≡ false → result ≡ Err RawFault.NotApplicable }
{
    let Kind::Place(pointed, direction) = kind else {
        return Err(RawFault::NotApplicable);
    };
    if !can_place(tiling, pointed.as_slice(), *direction) {
        return Err(RawFault::NotApplicable);
    }
    Ok(placed(alloc, tiling, pointed.as_slice(), *direction)?)
}
