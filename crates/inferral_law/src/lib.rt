//! The laws of inferrals and of tilings without members: what no member holds up to the weight, no member holds.
#![tactic(auto)]

ghost use Rattle.inferral_law.specs.Inferring.{InferralsCarryMembers, VoidsCarryMembers};

use emptiness::members_within_weight;

/// An inferral that applies carries members one to one. It computes nothing.
pub fn inferrals_carry_members()
    ensures { InferralsCarryMembers }
{
    members_within_weight();
}

/// So does the rule of a tiling without members. It computes nothing.
pub fn voids_carry_members()
    ensures { VoidsCarryMembers }
{
    members_within_weight();
}
