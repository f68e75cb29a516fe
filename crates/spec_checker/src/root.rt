ghost use Rattle.std.specs.Prelude.{◌≡◌, ◌↔◌, ◌≤◌, ℕ, IsTrue, IfOk, length};
ghost use Rattle.tiling_core.specs.Roots.{root_of};
ghost use Rattle.steps.specs.Traces.{replay};
ghost use Rattle.patterns.specs.Occurs.{avoiders};
ghost use Rattle.css_domain.specs.Entries.{class_counts};
ghost use Rattle.tile_rules.specs.Meaning.{tile_meaning};
ghost use Rattle.tile_rules.specs.Avoiding.{HasNoEmptyWord};
ghost use Rattle.spec_text.specs.Joined.{class_at};

use css_prune::Entry;
use perm_core::Perm;
use sequences::TOO_MANY;
use std::alloc::{AllocError, Global};
use steps::{ReplayFault, Step, replay};
use tile_rules::{Tiles, root_raw};

/// Whether the trace leads from the 1x1 tiling of the basis to the tiling of entry 0. A trace of 268,435,456 steps or
/// more counts as memory that isn't there.
pub(crate) fn is_rooted(
    alloc: Global,
    basis: &[Perm],
    trace: &[Step],
    entries: &[Entry<Tiles>],
) -> Result<bool, AllocError>
    requires words { HasNoEmptyWord basis.now }
    requires some { 1 ≤ length entries.now }
    ensures exact { IfOk result (λ it_is. IsTrue it_is ↔ (replay (root_of basis.now) trace.now ≡ class_at entries.now 0)) }
    ensures counts { IfOk result (λ it_is. IsTrue it_is → (n : ℕ) → class_counts tile_meaning entries.now 0 n ≡ avoiders basis.now n) }
{
    if trace.len() >= TOO_MANY {
        return Err(AllocError);
    }
    let raw = root_raw(alloc, basis)?;
    let first = &entries[0];
    match replay(alloc, raw, trace) {
        Ok(root) => Ok(root == first.class),
        Err(ReplayFault::NotApplicable { .. }) => Ok(false),
        Err(ReplayFault::Memory) => Err(AllocError),
    }
}
