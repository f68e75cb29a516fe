ghost use Rattle.css_terms.specs.SpecRows.{SpecsHaveRows};

use css_domain::{Domain, counts_are_determined};

/// The rows of a specification whose rules hold can be evaluated, and the counts of the entries' classes
/// combine over them (docs/RULES.md, "Terms").
pub fn specs_have_rows<D: Domain>()
    ensures { SpecsHaveRows D.meaning }
{
    counts_are_determined::<D>();
}
