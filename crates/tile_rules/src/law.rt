ghost use Rattle.rule_kinds.specs.Carried.{MembersAreCarried};
ghost use Rattle.rule_kinds.specs.Counting.{RulesCount};

use cut_law::cuts_rename;
use emptiness::members_within_weight;
use factoring_law::factor_rules_count;
use inferral_law::{inferrals_carry_members, voids_carry_members};
use insertion_law::insertions_carry_members;
use normal_form::replays_keep_members;
use placement_law::placements_carry_members;
use tiling_core::{counts_add_up, single_tilings};

/// Where a rule follows, the number of its parent's members of each length is what its shape makes of the
/// children's numbers (docs/RULES.md, "Kinds of rules").
pub fn rules_count()
    ensures { RulesCount }
{
    single_tilings();
    counts_add_up();
    members_within_weight();
    replays_keep_members();
    factor_rules_count();
    members_are_carried();
}

/// By a kind that applies, where each member of the tiling has one image, that image is a member of a numbered raw
/// child, as long as it, and the way back leads from each member of each raw child to the member whose image it is
/// (docs/RULES.md, "Kinds of rules").
pub fn members_are_carried()
    ensures { MembersAreCarried }
{
    insertions_carry_members();
    inferrals_carry_members();
    voids_carry_members();
    placements_carry_members();
    cuts_rename();
}
