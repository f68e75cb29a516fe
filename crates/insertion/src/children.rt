ghost use Rattle.std.specs.Prelude.{◌≡◌, ◌&&◌, not, true, false, [], ◌∷◌, IfOk, IfErr, OnOk};
ghost use Rattle.lists.specs.Members.{is_nil};
ghost use Rattle.tiling_core.specs.Patterns.{also};
ghost use Rattle.rule_kinds.specs.Conditions.{applies};
ghost use Rattle.rule_kinds.specs.Children.{raw_children};
ghost use Rattle.rule_kinds.specs.Lines.{in_grid};
ghost use Rattle.insertion.specs.Building.{is_insertion, IsRefused};

use gridded::Gridded;
use rule_kinds::{Kind, RawFault, also, requiring};
use std::alloc::{AllocError, Global};
use tiling_core::Tiling;

/// Whether a pattern can be inserted: it has a point, and its cells lie in the grid (docs/RULES.md, "Kinds of
/// rules"). Takes no memory.
pub fn can_insert(tiling: &Tiling, pattern: &Gridded) -> bool
    ensures { result ≡ (not (is_nil pattern.now) && in_grid tiling.now pattern.now) }
{
    pattern.len() != 0 && pattern.fits_grid(tiling.width(), tiling.height())
}

/// The tiling without a pattern that lies in its grid, and that with it. The refusal is want of memory.
#[tactic(auto, using(tiling_core::proofs::Joined::single))]
pub fn inserted(alloc: Global, tiling: &Tiling, pattern: Gridded) -> Result<Vec<Tiling>, AllocError>
    requires { in_grid tiling.now pattern ≡ true }
    ensures { IfOk result (λ both. both.items ≡ also tiling.now (pattern ∷ []) [] ∷ also tiling.now [] ((pattern ∷ []) ∷ []) ∷ []) }
{
    let mut both = Vec::new(alloc);
    both.push(also(alloc, tiling, &[pattern], &[])?)?;
    both.push(requiring(alloc, tiling, pattern)?)?;
    Ok(both)
}

/// The children of a tiling by the insertion of a pattern, before they are reduced: the tiling without the
/// pattern, and that with it. Refused is each other kind, and an insertion whose condition fails, as
/// NotApplicable, and nothing else but want of memory, which no other kind takes (docs/RULES.md, "Kinds of
/// rules").
#[tactic(auto, using(rule_kinds::proofs::Applying::applying), unfolding(rule_kinds::specs::Children::raw_children, rule_kinds::specs::Conditions::applies))]
pub fn build(alloc: Global, tiling: &Tiling, kind: &Kind) -> Result<Vec<Tiling>, RawFault>
    ensures made { IfOk result (λ children. children.items ≡ raw_children tiling.now kind.now) }
    ensures applicable { OnOk result ((is_insertion kind.now && applies tiling.now kind.now) ≡ true) }
    ensures refused { IfErr result (λ fault. IsRefused tiling.now kind.now fault) }
    ensures others { is_insertion kind.now ≡ false → result ≡ Err RawFault.NotApplicable }
{
    let Kind::Insert(pattern) = kind else {
        return Err(RawFault::NotApplicable);
    };
    if !can_insert(tiling, pattern) {
        return Err(RawFault::NotApplicable);
    }
    Ok(inserted(alloc, tiling, *pattern)?)
}
