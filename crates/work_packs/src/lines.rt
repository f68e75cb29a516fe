// The lines of the definition of a class's kinds, one by one.
ghost use Rattle.std.specs.Prelude.{◌≡◌, ◌++◌, ◌∷◌, [], IfOk, OnOk, filter, not};
ghost use Rattle.rule_kinds.specs.Conditions.{applies};
ghost use Rattle.rule_kinds.specs.Choices.{cuts, insertions, placements, when};
ghost use Rattle.work_packs.specs.KindLines.{closing_kinds, column_placements, factors, inferrals, last_kinds, row_placements, single_placements};
ghost use Rattle.lists.specs.Members.{is_nil};

use crate::once::add_new;
use crate::pack::Packs;
use emptiness::{InferFault, inferred};
use gridded::Gridded;
use insertion::arguments;
use sequences::Sequence;
use std::alloc::{AllocError, Global};
use tile_rules::{Kind, applies};
use tiling_core::Tiling;

/// Adds a kind where it applies.
fn add_applying(
    alloc: Global,
    tiling: &Tiling,
    kinds: &mut Vec<Kind>,
    kind: Kind,
) -> Result<(), AllocError>
    ensures { OnOk result (kinds.new.items ≡ kinds.old.items ++ filter (applies tiling.now) (kind ∷ [])) }
{
    if applies(alloc, tiling, &kind)? {
        kinds.push(kind)?;
    }
    Ok(())
}

/// The kinds without children that apply: that of the unit or the point tiling, and else that of a tiling
/// without members.
pub(crate) fn closing_kinds(alloc: Global, tiling: &Tiling) -> Result<Vec<Kind>, AllocError>
    ensures { IfOk result (λ kinds. kinds.items ≡ closing_kinds tiling.now) }
{
    let mut kinds = Vec::new(alloc);
    add_applying(alloc, tiling, &mut kinds, Kind::Unit)?;
    add_applying(alloc, tiling, &mut kinds, Kind::Point)?;
    if kinds.is_empty() {
        add_applying(alloc, tiling, &mut kinds, Kind::Void)?;
    }
    Ok(kinds)
}

/// The finest factoring, where its letter is on and it has two sets or more.
pub(crate) fn factors_if(
    packs: Packs,
    alloc: Global,
    tiling: &Tiling,
) -> Result<Vec<Kind>, AllocError>
    ensures { IfOk result (λ kinds. kinds.items ≡ when packs.f (factors tiling.now)) }
{
    if !packs.f {
        return Ok(Vec::new(alloc));
    }
    factoring::parts(alloc, tiling)
}

/// The least cuts of rows, and then those of columns.
fn cuts(alloc: Global, tiling: &Tiling) -> Result<Vec<Kind>, AllocError>
    ensures { IfOk result (λ kinds. kinds.items ≡ cuts tiling.now) }
{
    let mut kinds = separation::rows(alloc, tiling)?;
    let mut later = separation::columns(alloc, tiling)?;
    kinds.append(&mut later)?;
    Ok(kinds)
}

/// The cuts, where their letter is on.
pub(crate) fn cuts_if(packs: Packs, alloc: Global, tiling: &Tiling) -> Result<Vec<Kind>, AllocError>
    ensures { IfOk result (λ kinds. kinds.items ≡ when packs.s (cuts tiling.now)) }
{
    if !packs.s {
        return Ok(Vec::new(alloc));
    }
    cuts(alloc, tiling)
}

/// The inferral of patterns, where there are any.
fn inferral_of(alloc: Global, patterns: Vec<Gridded>) -> Result<Vec<Kind>, AllocError>
    ensures { IfOk result (λ kinds. kinds.items ≡ when (not (is_nil patterns.items)) (Kind.Infer patterns.items ∷ [])) }
{
    let mut kinds = Vec::new(alloc);
    if !patterns.is_empty() {
        kinds.push(Kind::Infer(Sequence::of(patterns)))?;
    }
    Ok(kinds)
}

/// The inferral of all inferable patterns, where they can be listed and there are any.
#[tactic(auto, using(crate::proofs::KindLists::inferring))]
fn inferrals(alloc: Global, tiling: &Tiling) -> Result<Vec<Kind>, AllocError>
    ensures { IfOk result (λ kinds. kinds.items ≡ inferrals tiling.now) }
{
    match inferred(alloc, tiling) {
        Ok(patterns) => inferral_of(alloc, patterns),
        Err(InferFault::Heavy) => Ok(Vec::new(alloc)),
        Err(InferFault::Wide) => Ok(Vec::new(alloc)),
        Err(InferFault::Memory) => Err(AllocError),
    }
}

/// The inferral, where its letter is on.
pub(crate) fn inferrals_if(
    packs: Packs,
    alloc: Global,
    tiling: &Tiling,
) -> Result<Vec<Kind>, AllocError>
    ensures { IfOk result (λ kinds. kinds.items ≡ when packs.n (inferrals tiling.now)) }
{
    if !packs.n {
        return Ok(Vec::new(alloc));
    }
    inferrals(alloc, tiling)
}

/// The insertions, where their letter is on.
fn insertions_if(packs: Packs, alloc: Global, tiling: &Tiling) -> Result<Vec<Kind>, AllocError>
    ensures { IfOk result (λ kinds. kinds.items ≡ when packs.i (insertions tiling.now)) }
{
    if !packs.i {
        return Ok(Vec::new(alloc));
    }
    arguments(alloc, tiling)
}

/// The placements in rows, where their letter is on.
fn row_placements_if(packs: Packs, alloc: Global, tiling: &Tiling) -> Result<Vec<Kind>, AllocError>
    ensures { IfOk result (λ kinds. kinds.items ≡ when packs.r (row_placements tiling.now)) }
{
    if !packs.r {
        return Ok(Vec::new(alloc));
    }
    placement::rows(alloc, tiling)
}

/// The placements in columns, where their letter is on.
fn column_placements_if(
    packs: Packs,
    alloc: Global,
    tiling: &Tiling,
) -> Result<Vec<Kind>, AllocError>
    ensures { IfOk result (λ kinds. kinds.items ≡ when packs.c (column_placements tiling.now)) }
{
    if !packs.c {
        return Ok(Vec::new(alloc));
    }
    placement::columns(alloc, tiling)
}

/// The placements of single points, where their letter is on.
fn single_placements_if(
    packs: Packs,
    alloc: Global,
    tiling: &Tiling,
) -> Result<Vec<Kind>, AllocError>
    ensures { IfOk result (λ kinds. kinds.items ≡ when packs.p (single_placements tiling.now)) }
{
    if !packs.p {
        return Ok(Vec::new(alloc));
    }
    placement::points(alloc, tiling)
}

/// The placements whose letters are on, each once where it stands first.
#[tactic(auto, using(crate::proofs::Placements::placed_once))]
fn placements(alloc: Global, tiling: &Tiling, packs: Packs) -> Result<Vec<Kind>, AllocError>
    ensures { IfOk result (λ kinds. kinds.items ≡ filter (applies tiling.now) (placements tiling.now packs)) }
{
    let mut kinds = Vec::new(alloc);
    add_new(&mut kinds, row_placements_if(packs, alloc, tiling)?)?;
    add_new(&mut kinds, column_placements_if(packs, alloc, tiling)?)?;
    add_new(&mut kinds, single_placements_if(packs, alloc, tiling)?)?;
    Ok(kinds)
}

/// The insertions and then the placements, where their letters are on.
pub(crate) fn last_kinds(
    alloc: Global,
    tiling: &Tiling,
    packs: Packs,
) -> Result<Vec<Kind>, AllocError>
    ensures { IfOk result (λ kinds. kinds.items ≡ last_kinds tiling.now packs) }
{
    let mut kinds = insertions_if(packs, alloc, tiling)?;
    let mut later = placements(alloc, tiling, packs)?;
    kinds.append(&mut later)?;
    Ok(kinds)
}
