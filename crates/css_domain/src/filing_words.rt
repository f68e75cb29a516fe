ghost use Rattle.std.specs.Prelude.{◌≡◌, ◌<◌, length};
ghost use Rattle.css_domain.specs.LedgerFacts.{filing_words};

use crate::domain::Domain;
use crate::filing::Filing;

impl<D: Domain> Filing<D> {
    /// How many words the records of the rules need: two for each rule, and one for each of its children. There
    /// are fewer than 2^28 rules. Takes no memory (docs/RULES.md, "Records").
    pub fn words(&self) -> u64
        requires few { length self.now < 268435456 }
        ensures { result ≡ filing_words D.meaning self.now }
    {
        let mut words = 0;
        for rule in self.as_slice() {
            words += 2 + D::arity(rule) as u64;
        }
        words
    }
}
