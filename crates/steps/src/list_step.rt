// Requirement lists without what they needn't say.
ghost use Rattle.std.specs.Prelude.{◌≡◌, ◌&&◌, not, [], IfOk, map};
ghost use Rattle.std.specs.List.{filter, list_any};
ghost use Rattle.std.specs.Cmp.Lexicographic.{pointwise};
ghost use Rattle.steps.specs.Steps.{useful, implies_list, is_implied, without_implied, tidied, tidy_lists, is_useless, is_untidy, are_untidy};
ghost use Rattle.tiling_core.specs.Patterns.{is_among};
ghost use Rattle.tiling_core.specs.Tiles.{IsTiling};
ghost use Rattle.gridded.specs.Orders.{gridded_eq};

use crate::min_step::{holds_another, minimal};
use crate::pattern::holds_one;
use crate::void_step::has_empty_pattern;
use gridded::Gridded;
use sequences::{Copied, Sequence};
use std::alloc::{AllocError, Global};
use tiling_core::Tiling;

/// The members of a list that hold no obstruction, without those that hold another of these.
fn useful(
    alloc: Global,
    obstructions: &[Gridded],
    patterns: &[Gridded],
) -> Result<Vec<Gridded>, AllocError>
    ensures { IfOk result (λ kept. kept.items ≡ useful obstructions.now patterns.now) }
{
    let possible: Vec<Gridded> = patterns
        .iter()
        .copied()
        .filter(|g| !holds_one(g, obstructions))
        .collect(alloc)?;
    minimal(alloc, &possible)
}

/// The useful members of each list, without the lists that have the empty pattern.
fn remaining(
    alloc: Global,
    obstructions: &[Gridded],
    lists: &[Sequence<Gridded>],
) -> Result<Vec<Sequence<Gridded>>, AllocError>
    ensures { IfOk result (λ kept. kept.items ≡ filter (λ patterns. not (is_among patterns [])) (map (useful obstructions.now) lists.now)) }
{
    let mut kept = Vec::new(alloc);
    for patterns in lists {
        let useful = useful(alloc, obstructions, patterns.as_slice())?;
        if !has_empty_pattern(&useful) {
            kept.push(Sequence::of(useful))?;
        }
    }
    Ok(kept)
}

/// Whether what meets the one list meets the other: each of its members holds one of the other.
fn implies_list(patterns: &[Gridded], others: &[Gridded]) -> bool
    ensures { result ≡ implies_list patterns.now others.now }
{
    patterns.iter().all(|g| holds_one(g, others))
}

/// Whether a list is another one and implies this one.
fn is_other_above(patterns: &Sequence<Gridded>, others: &Sequence<Gridded>) -> bool
    ensures { result ≡ (not (pointwise gridded_eq patterns.now others.now) && implies_list patterns.now others.now) }
{
    *patterns != *others && implies_list(patterns.as_slice(), others.as_slice())
}

/// Whether another of the lists implies this one. Takes no memory.
fn is_implied(lists: &[Sequence<Gridded>], others: &Sequence<Gridded>) -> bool
    ensures { result ≡ is_implied lists.now others.now }
{
    lists
        .iter()
        .any(|patterns| is_other_above(patterns, others))
}

/// The lists that no other implies.
fn without_implied(
    alloc: Global,
    lists: &[Sequence<Gridded>],
) -> Result<Vec<Sequence<Gridded>>, AllocError>
    ensures { IfOk result (λ kept. kept.items ≡ without_implied lists.now) }
{
    let mut kept = Vec::new(alloc);
    for patterns in lists {
        if !is_implied(lists, patterns) {
            kept.push(patterns.copy(alloc)?)?;
        }
    }
    Ok(kept)
}

/// The lists after the four acts.
fn tidied(
    alloc: Global,
    obstructions: &[Gridded],
    lists: &[Sequence<Gridded>],
) -> Result<Vec<Sequence<Gridded>>, AllocError>
    ensures { IfOk result (λ kept. kept.items ≡ tidied obstructions.now lists.now) }
{
    let remaining = remaining(alloc, obstructions, lists)?;
    without_implied(alloc, &remaining)
}

/// The tiling with these lists.
#[tactic(auto, using(crate::proofs::InGrid::tidied_in_grid))]
pub(crate) fn tidy_lists(alloc: Global, tiling: Tiling) -> Result<Tiling, AllocError>
    ensures { IfOk result (λ tidy. tidy ≡ tidy_lists tiling) }
{
    let width = tiling.width();
    let height = tiling.height();
    let (obstructions, lists) = tiling.into_parts();
    let tidy = tidied(alloc, &obstructions, &lists)?;
    Tiling::in_grid(width, height, obstructions, tidy)
}

/// Whether the first two acts drop a member of a list: it holds an obstruction, or another member.
fn is_useless(obstructions: &[Gridded], patterns: &[Gridded], g: &Gridded) -> bool
    ensures { result ≡ is_useless obstructions.now patterns.now g.now }
{
    holds_one(g, obstructions) || holds_another(patterns, g)
}

/// Whether the first two acts drop some member of a list.
fn has_useless(obstructions: &[Gridded], patterns: &[Gridded]) -> bool
    ensures { result ≡ list_any (is_useless obstructions.now patterns.now) patterns.now }
{
    patterns
        .iter()
        .any(|g| is_useless(obstructions, patterns, g))
}

/// Whether the first three acts change a list.
fn is_untidy(obstructions: &[Gridded], patterns: &[Gridded]) -> bool
    ensures { result ≡ is_untidy obstructions.now patterns.now }
{
    has_useless(obstructions, patterns) || has_empty_pattern(patterns)
}

/// Whether some list is changed by the first three acts.
fn some_untidy(obstructions: &[Gridded], lists: &[Sequence<Gridded>]) -> bool
    ensures { result ≡ list_any (is_untidy obstructions.now) lists.now }
{
    lists
        .iter()
        .any(|patterns| is_untidy(obstructions, patterns.as_slice()))
}

/// Whether some list is implied by another.
fn some_implied(lists: &[Sequence<Gridded>]) -> bool
    ensures { result ≡ list_any (is_implied lists.now) lists.now }
{
    lists.iter().any(|others| is_implied(lists, others))
}

/// Whether an act changes the lists. Takes no memory.
pub(crate) fn are_untidy(tiling: &Tiling) -> bool
    ensures value { result ≡ are_untidy tiling.now.obstructions tiling.now.requirements }
    ensures kept { IsTiling tiling.now }
{
    some_untidy(tiling.obstructions(), tiling.requirements()) || some_implied(tiling.requirements())
}
