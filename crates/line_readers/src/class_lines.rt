ghost use Rattle.std.specs.Prelude.{◌≡◌, codes, option_and_then, IfOk, map};
ghost use Rattle.std.specs.Cmp.Lexicographic.{slice_cmp};
ghost use Rattle.gridded.specs.Orders.{gridded_cmp};
ghost use Rattle.spec_lines.specs.Forms.{ascending, is_patterns};
ghost use Rattle.spec_lines.specs.Forms.Line.{Obstructions, Requirements};
ghost use Rattle.spec_lines.specs.Follows.Place.{AtObstructions, AtRequirements};
ghost use Rattle.spec_lines.specs.Items.{behind, items, dashed};
ghost use Rattle.spec_lines.specs.Readings.{line_at, list_at, pattern_at};
ghost use Rattle.line_readers.specs.Answers.{IsLineAnswer};
ghost use Rattle.line_readers.specs.Kept.{where_it};

use crate::ascending::ascends;
use crate::fault::ItemFault;
use crate::lines::behind;
use crate::narrow::narrow_all;
use crate::pattern::Pattern;
use crate::spelt::dashed;
use gridded::Gridded;
use sequences::Sequence;
use std::alloc::{AllocError, Global};

/// The patterns of the line `obs`, which ascend.
fn obstructions(alloc: Global, line: &[u8]) -> Result<Option<Sequence<Pattern>>, AllocError>
    ensures { IfOk result (λ patterns. patterns ≡ where_it (ascending gridded_cmp) (option_and_then (dashed pattern_at) (behind (codes "obs") (items 32 line.now)))) }
{
    let Some(items) = behind(line, b"obs") else {
        return Ok(None);
    };
    let Some(patterns) = dashed::<Pattern>(alloc, items)? else {
        return Ok(None);
    };
    if !ascends(patterns.as_slice()) {
        return Ok(None);
    }
    Ok(Some(patterns))
}

/// The obstructions of the line `obs`.
pub fn obs_line(alloc: Global, line: &[u8]) -> Result<Vec<Gridded>, ItemFault>
    ensures { IsLineAnswer (line_at (AtObstructions 0 0) line.now) (λ patterns. Obstructions patterns.items) result }
{
    let Some(patterns) = obstructions(alloc, line)? else {
        return Err(ItemFault::Form);
    };
    match narrow_all(alloc, patterns.as_slice())? {
        Some(patterns) => Ok(patterns),
        None => Err(ItemFault::Range),
    }
}

/// The lists of the line `req`, which ascend.
fn requirements(
    alloc: Global,
    line: &[u8],
) -> Result<Option<Sequence<Sequence<Pattern>>>, AllocError>
    ensures { IfOk result (λ lists. lists ≡ where_it (ascending (slice_cmp gridded_cmp)) (option_and_then (dashed (λ t. where_it is_patterns (list_at t))) (behind (codes "req") (items 32 line.now)))) }
{
    let Some(items) = behind(line, b"req") else {
        return Ok(None);
    };
    let Some(lists) = dashed::<Sequence<Pattern>>(alloc, items)? else {
        return Ok(None);
    };
    if !ascends(lists.as_slice()) {
        return Ok(None);
    }
    Ok(Some(lists))
}

/// The requirement lists of the line `req`.
pub fn req_line(alloc: Global, line: &[u8]) -> Result<Vec<Vec<Gridded>>, ItemFault>
    ensures { IsLineAnswer (line_at (AtRequirements 0 0) line.now) (λ lists. Requirements (map (λ patterns. patterns.items) lists.items)) result }
{
    let Some(lists) = requirements(alloc, line)? else {
        return Err(ItemFault::Form);
    };
    match narrow_all(alloc, lists.as_slice())? {
        Some(lists) => Ok(lists),
        None => Err(ItemFault::Range),
    }
}
