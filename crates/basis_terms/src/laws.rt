ghost use Rattle.basis_terms.specs.BasisTerms.{ExactTermsAreAvoiders};

/// An exact term of a basis is the number of permutations of its length that avoid the basis
/// (docs/RULES.md, "Terms").
pub fn exact_terms_are_avoiders()
    ensures { ExactTermsAreAvoiders }
{}
