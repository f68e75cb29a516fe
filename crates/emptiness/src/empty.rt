ghost use Rattle.std.specs.Prelude.{◌≡◌, ◌≤◌, ◌<◌, ◌↔◌, IsTrue, IfOk, OnOk, IfErr};
ghost use Rattle.tiling_core.specs.Measures.{weight};
ghost use Rattle.emptiness.specs.Emptiness.{IsEmpty, MembersWithinWeight};
ghost use Rattle.emptiness.specs.Refused.{IsEmptyRefused};

use crate::by_cell::holds_one;
use crate::fault::EmptyFault;
use crate::glueing::reaches;
use gridded::Gridded;
use std::alloc::Global;
use tiling_core::{Tiling, weight};

/// Whether a tiling has no member of any length. Refused is a weight over 6, as Heavy, and nothing else but
/// want of memory (docs/RULES.md, "Emptiness").
pub fn is_empty(alloc: Global, tiling: &Tiling) -> Result<bool, EmptyFault>
    ensures exact { IfOk result (λ empty. IsTrue empty ↔ IsEmpty tiling.now) }
    ensures light { OnOk result (weight tiling.now ≤ 6) }
    ensures refused { IfErr result (λ fault. IsEmptyRefused tiling.now fault) }
    ensures heavy { 6 < weight tiling.now → result ≡ Err EmptyFault.Heavy }
{
    if weight(tiling) > 6 {
        return Err(EmptyFault::Heavy);
    }
    let nothing = Gridded::from_consistent(&[], &[]);
    let mut member = nothing;
    if holds_one(&nothing, tiling.obstructions()) {
        return Ok(true);
    }
    let no_index = Vec::new(alloc);
    Ok(!reaches(tiling, &no_index, &nothing, 0, &mut member))
}

/// A tiling that has a member has one whose length is at most its weight.
pub fn members_within_weight()
    ensures { MembersWithinWeight }
{}
