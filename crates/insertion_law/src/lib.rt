//! The law of insertions: the members of a tiling without a pattern, and those with it, are carried one to one to
//! those of the two children.
#![tactic(auto)]

ghost use Rattle.insertion_law.specs.Inserting.{InsertionsCarryMembers};

/// An insertion carries members one to one. It computes nothing.
pub fn insertions_carry_members()
    ensures { InsertionsCarryMembers }
{}
