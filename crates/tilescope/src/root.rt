ghost use Rattle.std.specs.Prelude.{◌≡◌, IfOk};
ghost use Rattle.normal_form.specs.TraceLaws.{trace};
ghost use Rattle.tile_rules.specs.Avoiding.{HasNoEmptyWord};
ghost use Rattle.tiling_core.specs.Roots.{root_of};
ghost use Rattle.tilescope.specs.Searches.{IsReducedRoot};

use normal_form::{normalise, traces_are_determined};
use perm_core::Perm;
use std::alloc::{AllocError, Global};
use steps::Step;
use tile_rules::root_raw;
use tiling_core::Tiling;

/// The reduced tiling of a basis, and the steps that lead to it.
#[derive(Drop)]
pub(crate) struct Reduced {
    pub(crate) root: Tiling,
    pub(crate) trace: Vec<Step>,
}

/// Reduces the 1x1 tiling of a basis.
pub(crate) fn reduce_root(alloc: Global, basis: &[Perm]) -> Result<Reduced, AllocError>
    requires { HasNoEmptyWord basis.now }
    ensures root { IfOk result (λ reduced. IsReducedRoot basis.now reduced.root) }
    ensures trace { IfOk result (λ reduced. reduced.trace.items ≡ trace (root_of basis.now)) }
{
    traces_are_determined();
    let raw = root_raw(alloc, basis)?;
    // What a tiling keeps is known once it is read.
    let _ = raw.width();
    let (root, trace) = normalise(alloc, raw)?;
    Ok(Reduced { root, trace })
}
