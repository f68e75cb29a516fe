ghost use Rattle.css_crew.specs.Ways.{PicksAreFiled};

use css_domain::Domain;

/// The picks of a ledger whose root stands are a specification of the root by rules of the ledger
/// (docs/RULES.md, "Standing").
pub fn picks_are_filed<D: Domain>()
    ensures { PicksAreFiled D.meaning }
{}
