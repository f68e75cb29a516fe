ghost use Rattle.steps.specs.Kept.{StepsKeepMembers};

use tiling_core::counts_add_up;

/// Every step that applies to a tiling keeps its members one to one: each member becomes a member of the
/// result by the renaming, each member of the result is the renaming of exactly one member, lengths stay,
/// and so the number of members of each length stays (docs/RULES.md, "Reduction steps").
pub fn steps_keep_members()
    ensures { StepsKeepMembers }
{
    counts_add_up();
}
