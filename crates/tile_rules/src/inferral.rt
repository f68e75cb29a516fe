ghost use Rattle.std.specs.Prelude.{◌≡◌, ◌≤◌, ◌&&◌, nat_le, not, IfOk};
ghost use Rattle.std.specs.List.{list_all};
ghost use Rattle.tiling_core.specs.Measures.{weight};
ghost use Rattle.emptiness.specs.Inferable.{is_inferable};
ghost use Rattle.rule_kinds.specs.Conditions.{ascends};
ghost use Rattle.lists.specs.Members.{is_nil};

use emptiness::is_inferable;
use gridded::Gridded;
use sequences::ascending;
use std::alloc::{AllocError, Global};
use tiling_core::{Tiling, weight};

/// Whether each of the patterns is inferable.
fn are_inferable(tiling: &Tiling, patterns: &[Gridded]) -> bool
    requires { weight tiling.now ≤ 4 }
    ensures { result ≡ list_all (is_inferable tiling.now) patterns.now }
{
    patterns.iter().all(|pattern| is_inferable(tiling, pattern))
}

/// Whether the patterns ascend, each once.
fn ascends(alloc: Global, patterns: &[Gridded]) -> Result<bool, AllocError>
    ensures { IfOk result (λ it_does. it_does ≡ ascends patterns.now) }
{
    let ordered = ascending(Vec::from_slice(alloc, patterns)?)?;
    Ok(ordered.as_slice() == patterns)
}

/// Whether there are patterns, which ascend, the tiling's weight is at most 4, and each pattern is inferable.
pub(crate) fn can_be_inferred(
    alloc: Global,
    tiling: &Tiling,
    patterns: &[Gridded],
) -> Result<bool, AllocError>
    ensures { IfOk result (λ they_can. they_can ≡ (not (is_nil patterns.now) && ascends patterns.now && nat_le (weight tiling.now) 4 && list_all (is_inferable tiling.now) patterns.now)) }
{
    if patterns.is_empty() {
        return Ok(false);
    }
    if !ascends(alloc, patterns)? {
        return Ok(false);
    }
    if weight(tiling) > 4 {
        return Ok(false);
    }
    Ok(are_inferable(tiling, patterns))
}
