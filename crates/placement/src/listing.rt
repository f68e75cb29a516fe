ghost use Rattle.std.specs.Prelude.{◌≡◌, ◌++◌, [], ◌∷◌, filter, map, IfOk};
ghost use Rattle.rule_kinds.specs.declared.kind.Kind.TheVariants as kind;
ghost use Rattle.rule_kinds.specs.Kinds.{axis_of};
ghost use Rattle.rule_kinds.specs.Conditions.{applies};
ghost use Rattle.placement.specs.Placing.{place_kind};

use crate::condition::can_place_along;
use crate::directions::axis_of;
use rule_kinds::{Direction, Kind, Pointed};
use sequences::{Copied, Sequence};
use std::alloc::{AllocError, Global};
use tiling_core::Tiling;

/// The placement of patterns in a direction.
fn placement(alloc: Global, pointed: &[Pointed], direction: Direction) -> Result<Kind, AllocError>
    ensures { IfOk result (λ placement. placement ≡ kind.Place pointed.now direction) }
{
    let copied = <Pointed as Copied>::copy_all(pointed, alloc)?;
    Ok(Kind::Place(Sequence::of(copied), direction))
}

/// Adds the placements of patterns in two directions that compare the same lines, where they apply.
pub(crate) fn add_both(
    alloc: Global,
    tiling: &Tiling,
    pointed: &[Pointed],
    first: Direction,
    second: Direction,
    kinds: &mut Vec<Kind>,
) -> Result<(), AllocError>
    requires { axis_of second ≡ axis_of first }
    ensures { IfOk result (λ _. kinds.new.items ≡ kinds.old.items ++ filter (applies tiling.now) (map place_kind ((pointed.now, first) ∷ (pointed.now, second) ∷ []))) }
{
    if can_place_along(tiling, pointed, axis_of(first)) {
        kinds.push(placement(alloc, pointed, first)?)?;
        kinds.push(placement(alloc, pointed, second)?)?;
    }
    Ok(())
}
