ghost use Rattle.css_domain.specs.Entries.{CountsAreDetermined, ClassCountsCombine};
ghost use Rattle.css_domain.specs.FiledSpecs.{FiledSpecsStand};

use crate::domain::Domain;

/// In a specification the counts of the entries are determined by the rules' shapes, and where all rules
/// hold they are the counts of the entries' classes (docs/RULES.md, "Classes, rules and counts").
pub fn counts_are_determined<D: Domain>()
    ensures determined { CountsAreDetermined D.meaning }
    ensures classes { ClassCountsCombine D.meaning }
{}

/// Where a ledger's rules have a specification of its root, the root stands among its records; so where it
/// doesn't stand, no specification of the root has all its rules among them (docs/RULES.md, "Standing").
pub fn filed_specs_stand<D: Domain>()
    ensures { FiledSpecsStand D.meaning }
{}
