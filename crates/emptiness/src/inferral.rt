ghost use Rattle.std.specs.Prelude.{◌≡◌, ◌≤◌, ◌<◌, ◌+◌, nat_le, length, IfOk, OnOk, IfErr, All, filter};
ghost use Rattle.std.specs.List.{list_any};
ghost use Rattle.gridded.specs.Grids.{holds, IsGridded};
ghost use Rattle.tiling_core.specs.Measures.{weight};
ghost use Rattle.tiling_core.specs.Patterns.{active_cells};
ghost use Rattle.emptiness.specs.ByCell.{IsByCell};
ghost use Rattle.emptiness.specs.Candidates.{is_unheld, AreMembers};
ghost use Rattle.emptiness.specs.Emptiness.{IsInferredOf};
ghost use Rattle.emptiness.specs.Inferable.{inferred};
ghost use Rattle.emptiness.specs.Refused.{IsInferRefused};

use crate::by_cell::{At, by_cell, holds_one};
use crate::candidates::candidates;
use crate::fault::InferFault;
use crate::glueing::reaches;
use gridded::{Cell, Gridded, holds};
use sequences::ascending;
use std::alloc::{AllocError, Global};
use tiling_core::{Tiling, active, weight};

/// The patterns of at most two points.
fn short_ones(alloc: Global, patterns: &[Gridded]) -> Result<Vec<Gridded>, AllocError>
    ensures { IfOk result (λ short. short.items ≡ filter (λ p. nat_le (length p) 2) patterns.now) }
{
    patterns
        .iter()
        .filter(|pattern| pattern.len() <= 2)
        .copied()
        .collect(alloc)
}

/// Whether a pattern holds no obstruction, and no member holds it. The caller knows that it holds one of the
/// short obstructions where it holds any.
pub(crate) fn is_unheld(tiling: &Tiling, short: &[Gridded], index: &[At], pattern: &Gridded) -> bool
    requires indexed { IsByCell tiling.now.obstructions index.now }
    requires shortened { list_any (λ o. holds pattern.now o) short.now ≡ list_any (λ o. holds pattern.now o) tiling.now.obstructions }
    requires room { length pattern.now + weight tiling.now ≤ 9 }
    ensures { result ≡ is_unheld tiling.now pattern.now }
{
    let mut member = *pattern;
    !holds_one(pattern, short) && !reaches(tiling, index, pattern, 0, &mut member)
}

/// Whether one of some gridded permutations holds a pattern.
fn is_held_by_one(members: &[Gridded], pattern: &Gridded) -> bool
    ensures value { result ≡ list_any (λ m. holds m pattern.now) members.now }
    ensures gridded { IsGridded pattern.now }
{
    let _ = pattern.len();
    members.iter().any(|member| holds(member, pattern))
}

/// The same, where what some members hold needs no search; a member that a search finds joins them.
fn is_unheld_after(
    tiling: &Tiling,
    short: &[Gridded],
    index: &[At],
    pattern: &Gridded,
    members: &mut Vec<Gridded>,
) -> Result<bool, AllocError>
    requires indexed { IsByCell tiling.now.obstructions index.now }
    requires shortened { list_any (λ o. holds pattern.now o) short.now ≡ list_any (λ o. holds pattern.now o) tiling.now.obstructions }
    requires room { length pattern.now + weight tiling.now ≤ 9 }
    requires known { AreMembers tiling.now members.old.items }
    ensures value { IfOk result (λ unheld. unheld ≡ is_unheld tiling.now pattern.now) }
    ensures known { OnOk result (AreMembers tiling.now members.new.items) }
{
    if holds_one(pattern, short) {
        return Ok(false);
    }
    if is_held_by_one(members, pattern) {
        return Ok(false);
    }
    let mut member = *pattern;
    if !reaches(tiling, index, pattern, 0, &mut member) {
        return Ok(true);
    }
    let _ = member.len();
    members.push(member)?;
    Ok(false)
}

/// Those of the patterns that hold no obstruction and that no member holds.
fn unheld(
    alloc: Global,
    tiling: &Tiling,
    index: &[At],
    patterns: &[Gridded],
) -> Result<Vec<Gridded>, AllocError>
    requires indexed { IsByCell tiling.now.obstructions index.now }
    requires light { weight tiling.now ≤ 4 }
    requires small { All (λ p. length p ≤ 2) patterns.now }
    ensures { IfOk result (λ found. found.items ≡ filter (λ p. is_unheld tiling.now p) patterns.now) }
{
    let short = short_ones(alloc, tiling.obstructions())?;
    let mut found = Vec::new(alloc);
    let mut members = Vec::new(alloc);
    for pattern in patterns {
        if is_unheld_after(tiling, &short, index, pattern, &mut members)? {
            found.push(*pattern)?;
        }
    }
    Ok(found)
}

/// The inferable patterns, where the cells are the active ones.
fn inferred_over(alloc: Global, tiling: &Tiling, cells: &[Cell]) -> Result<Vec<Gridded>, AllocError>
    requires light { weight tiling.now ≤ 4 }
    requires active { cells.now ≡ active_cells tiling.now }
    ensures exact { IfOk result (λ patterns. IsInferredOf tiling.now patterns.items) }
    ensures listed { IfOk result (λ patterns. patterns.items ≡ inferred tiling.now) }
{
    let index = by_cell(alloc, cells, tiling.obstructions())?;
    let all = candidates(alloc, cells)?;
    let found = unheld(alloc, tiling, &index, &all)?;
    Ok(ascending(found)?.into_vec())
}

/// The inferable patterns: all gridded permutations of length 1 and 2 over active cells that hold no
/// obstruction and that no member holds, ascending. Refused are first a weight over 4, as Heavy, then more than
/// 16 active cells, as Wide, and nothing else but want of memory (docs/RULES.md, "Emptiness").
pub fn inferred(alloc: Global, tiling: &Tiling) -> Result<Vec<Gridded>, InferFault>
    ensures exact { IfOk result (λ patterns. IsInferredOf tiling.now patterns.items) }
    ensures listed { IfOk result (λ patterns. patterns.items ≡ inferred tiling.now) }
    ensures light { OnOk result (weight tiling.now ≤ 4) }
    ensures narrow { OnOk result (length (active_cells tiling.now) ≤ 16) }
    ensures refused { IfErr result (λ fault. IsInferRefused tiling.now fault) }
    ensures heavy { 4 < weight tiling.now → result ≡ Err InferFault.Heavy }
    ensures wide { weight tiling.now ≤ 4 → 16 < length (active_cells tiling.now) → result ≡ Err InferFault.Wide }
{
    if weight(tiling) > 4 {
        return Err(InferFault::Heavy);
    }
    let active = active(tiling);
    if active.count() > 16 {
        return Err(InferFault::Wide);
    }
    let cells = active.cells(alloc)?;
    Ok(inferred_over(alloc, tiling, &cells)?)
}
