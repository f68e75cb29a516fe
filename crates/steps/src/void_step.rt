// The tiling without members, and tilings that plainly have none.
ghost use Rattle.std.specs.Prelude.{◌≡◌, [], IfOk};
ghost use Rattle.std.specs.List.{list_any};
ghost use Rattle.gridded.specs.Orders.{gridded_eq};
ghost use Rattle.tiling_core.specs.Same.{tiles_eq};
ghost use Rattle.steps.specs.Steps.{is_hopeless};
ghost use Rattle.tiling_core.specs.Roots.{void_tiling};
ghost use Rattle.tiling_core.specs.Patterns.{is_among};
ghost use Rattle.lists.specs.Members.{is_nil};

use gridded::Gridded;
use sequences::Sequence;
use std::alloc::{AllocError, Global};
use tiling_core::Tiling;

/// Whether a pattern is the empty one.
#[tactic(auto, using(crate::proofs::Small::is_the_empty_pattern))]
fn is_empty(pattern: &Gridded) -> bool
    ensures { result ≡ gridded_eq [] pattern.now }
{
    pattern.len() == 0
}

/// Whether the empty pattern is in a list. Takes no memory.
pub(crate) fn has_empty_pattern(patterns: &[Gridded]) -> bool
    ensures { result ≡ is_among patterns.now [] }
{
    patterns.iter().any(|pattern| is_empty(pattern))
}

/// Whether a list is empty.
fn has_empty_list(lists: &[Sequence<Gridded>]) -> bool
    ensures { result ≡ list_any is_nil lists.now }
{
    lists.iter().any(|patterns| patterns.len() == 0)
}

/// Whether a tiling plainly has no member: a requirement list is empty, or the empty pattern is an
/// obstruction. Takes no memory.
pub(crate) fn is_hopeless(tiling: &Tiling) -> bool
    ensures { result ≡ is_hopeless tiling.now }
{
    has_empty_list(tiling.requirements()) || has_empty_pattern(tiling.obstructions())
}

/// The tiling with no cell and the empty pattern as obstruction.
pub(crate) fn void_tiling(alloc: Global) -> Result<Tiling, AllocError>
    ensures { IfOk result (λ tiling. tiling ≡ void_tiling) }
{
    Tiling::in_grid(0, 0, vec![in alloc; Gridded::empty()]?, Vec::new(alloc))
}

/// Whether a tiling is the void tiling. Takes no memory.
#[tactic(auto, using(crate::proofs::Small::is_the_void_tiling))]
pub(crate) fn is_void(tiling: &Tiling) -> bool
    ensures { result ≡ tiles_eq tiling.now void_tiling }
{
    if tiling.width() != 0 || tiling.height() != 0 || tiling.lists() != 0 {
        return false;
    }
    let obstructions = tiling.obstructions();
    obstructions.len() == 1 && obstructions[0].len() == 0
}
