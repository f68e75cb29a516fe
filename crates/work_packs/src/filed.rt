ghost use Rattle.std.specs.Prelude.{◌≡◌, true, IfOk, All};
ghost use Rattle.tiling_core.specs.Tiles.{Tiles, IsTiling};
ghost use Rattle.normal_form.specs.Thinned.{IsThinned};
ghost use Rattle.rule_kinds.specs.Children.{raw_children};
ghost use Rattle.rule_kinds.specs.Conditions.{applies};
ghost use Rattle.work_packs.specs.RulesMade.{IsTried, IsReduced, AreReduced, ReducesThinned, IsRuleBy, AreRulesBy};

use normal_form::{normalise, normalise_thinned, traces_are_determined};
use placement::placed_thinned;
use rule_kinds::read_kind;
use sequences::{Copied, Sequence};
use std::alloc::{AllocError, Global};
use steps::Step;
use tile_rules::{Kind, TileRule, children_of};
use tiling_core::Tiling;

/// Fewer items than this are kept in one list.
const TOO_MANY: usize = 268_435_456;

/// The normal form of a tiling, and its trace, which can be kept.
fn reduced(alloc: Global, raw: Tiling) -> Result<(Tiling, Sequence<Step>), AllocError>
    ensures { IfOk result (λ made. IsReduced raw made.0 made.1) }
{
    // What a tiling keeps is known once it is read.
    let _ = raw.width();
    traces_are_determined();
    let (child, steps) = normalise(alloc, raw)?;
    if steps.len() >= TOO_MANY {
        return Err(AllocError);
    }
    Ok((child, Sequence::of(steps)))
}

/// The normal forms of tilings, and their traces, in order.
fn all_reduced(
    alloc: Global,
    raw: Vec<Tiling>,
) -> Result<(Vec<Tiling>, Vec<Sequence<Step>>), AllocError>
    ensures { IfOk result (λ made. AreReduced raw.items made.0.items made.1.items) }
{
    let mut children = Vec::with_capacity(alloc, raw.len())?;
    let mut traces = Vec::with_capacity(alloc, raw.len())?;
    for tiling in raw {
        let (child, steps) = reduced(alloc, tiling)?;
        children.push(child)?;
        traces.push(steps)?;
    }
    Ok((children, traces))
}

/// The normal form of a tiling that is given without some obstructions which hold others, and its trace, which can be
/// kept. They are those of the whole tiling.
fn thinned_reduced(
    alloc: Global,
    thinned: Tiling,
    left_out: bool,
) -> Result<(Tiling, Sequence<Step>), AllocError>
    ensures { IfOk result (λ made. (t : Tiles) → IsTiling t → IsThinned t thinned left_out → IsReduced t made.0 made.1) }
{
    traces_are_determined();
    let (child, steps) = normalise_thinned(alloc, thinned, left_out)?;
    if steps.len() >= TOO_MANY {
        return Err(AllocError);
    }
    Ok((child, Sequence::of(steps)))
}

/// The same for tilings, in order.
fn all_thinned_reduced(
    alloc: Global,
    thinned: Vec<(Tiling, bool)>,
) -> Result<(Vec<Tiling>, Vec<Sequence<Step>>), AllocError>
    ensures { IfOk result (λ made. ReducesThinned thinned.items made.0.items made.1.items) }
{
    let mut children = Vec::with_capacity(alloc, thinned.len())?;
    let mut traces = Vec::with_capacity(alloc, thinned.len())?;
    for (tiling, left_out) in thinned {
        let (child, trace) = thinned_reduced(alloc, tiling, left_out)?;
        children.push(child)?;
        traces.push(trace)?;
    }
    Ok((children, traces))
}

/// The normal forms of the raw children by a kind that applies, and their traces, in order. Those of a placement are
/// built without what the first step would drop.
#[tactic(auto, unfolding(rule_kinds::specs::Conditions::applies))]
fn reduced_children(
    alloc: Global,
    tiling: &Tiling,
    kind: &Kind,
) -> Result<(Vec<Tiling>, Vec<Sequence<Step>>), AllocError>
    requires { applies tiling.now kind.now ≡ true }
    ensures { IfOk result (λ made. AreReduced (raw_children tiling.now kind.now) made.0.items made.1.items) }
{
    if let Kind::Place(pointed, direction) = kind {
        let thinned = placed_thinned(alloc, tiling, pointed.as_slice(), *direction)?;
        let (children, traces) = all_thinned_reduced(alloc, thinned)?;
        return Ok((children, traces));
    }
    let raw = children_of(alloc, tiling, kind)?;
    all_reduced(alloc, raw)
}

/// The rule by a kind that applies.
fn rule_by(alloc: Global, tiling: &Tiling, kind: Kind) -> Result<TileRule, AllocError>
    requires { IsTried tiling.now kind }
    ensures { IfOk result (λ rule. IsRuleBy tiling.now kind rule) }
{
    // What a tiling and a kind keep is known once they are read.
    let _ = tiling.width();
    read_kind(&kind);
    let (children, traces) = reduced_children(alloc, tiling, &kind)?;
    let parent = tiling.copy(alloc)?;
    let children = Sequence::of(children);
    let traces = Sequence::of(traces);
    Ok(TileRule::of(kind, parent, children, traces))
}

/// The rules by kinds that apply, in order.
pub(crate) fn rules_by(
    alloc: Global,
    tiling: &Tiling,
    kinds: Vec<Kind>,
) -> Result<Vec<TileRule>, AllocError>
    requires { All (λ kind. IsTried tiling.now kind) kinds.items }
    ensures { IfOk result (λ rules. AreRulesBy tiling.now kinds.items rules.items) }
{
    let mut rules = Vec::with_capacity(alloc, kinds.len())?;
    for kind in kinds {
        rules.push(rule_by(alloc, tiling, kind)?)?;
    }
    Ok(rules)
}
