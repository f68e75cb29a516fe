ghost use Rattle.tiling_core.specs.Members.{HoldingIsDecided, MembershipIsDecided};
ghost use Rattle.tiling_core.specs.Carried.{CountsAddUp, RenamingKeepsCounts};
ghost use Rattle.tiling_core.specs.Counts.{InsertionAddsUp, MinimalKeepsMembers, MinimalKeepsCounts, RootCountsAvoiders, UnitHasOneMember, PointHasOneMember, VoidHasNoMember};

/// The tests of gridded containment and of membership, by which members are counted, hold exactly where the
/// relations do, at every length.
pub fn membership_is_decided()
    ensures holding { HoldingIsDecided }
    ensures members { MembershipIsDecided }
{}

/// Where each member of a tiling is carried to one of a numbered child, of the same length, and back, the
/// tiling has as many members of each length as its children together; with one child it has as many as the
/// child.
pub fn counts_add_up()
    ensures sum { CountsAddUp }
    ensures renaming { RenamingKeepsCounts }
{}

/// A member holds some of given patterns or none: the tiling has as many members of each length as that with
/// the patterns as further obstructions and that with them as a further requirement list.
pub fn insertion_adds_up()
    ensures { InsertionAddsUp }
{}

/// The obstructions that hold no other obstruction give the same members.
pub fn minimal_obstructions_suffice()
    ensures members { MinimalKeepsMembers }
    ensures counts { MinimalKeepsCounts }
{}

/// The 1x1 tiling of a basis has as many members of each length as permutations avoid the basis.
pub fn root_counts_avoiders()
    ensures { RootCountsAvoiders }
{}

/// The unit tiling has one member, of length 0, the point tiling one, of length 1, and the void tiling none.
pub fn single_tilings()
    ensures unit { UnitHasOneMember }
    ensures point { PointHasOneMember }
    ensures void { VoidHasNoMember }
{}
