ghost use Rattle.std.specs.Prelude.{◌≡◌, ◌<◌, ◌^◌, length, IfOk, IfErr};
ghost use Rattle.css_domain.specs.Entries.{IsSpec};
ghost use Rattle.css_prune.specs.Faults.{IsFirstFault};

use crate::entry::Entry;
use crate::faults::{SpecFault, first_wrong_rank, first_wrong_rule};
use css_domain::Domain;
use std::marker::Model;

/// A specification: a class for each entry, the first of which is the root (docs/RULES.md,
/// "Standing, ranks and picks"). Whether its rules hold it doesn't say.
#[derive(Drop)]
pub struct Spec<D: Domain> {
    entries: Vec<Entry<D>>,
}

impl<D: Domain> Model for Spec<D> {
    ghost use Rattle.std.specs.Prelude.{List, length, ◌<◌, ◌^◌};
    ghost use Rattle.css_domain.specs.Entries.{Entry, IsSpec};

    ghost Value = { List (Entry D.Class D.Rule) };

    ghost view = { λ spec. spec.entries.items };

    ghost invariant = { λ spec. IsSpec D.meaning spec.entries.items × (length spec.entries.items < 2 ^ 28) };
}

impl<D: Domain> Spec<D> {
    /// The specification of these entries, of which there are fewer than 2^28. The refusals, each at the
    /// least entry and in it the least slot: 1. there is none; 2. a rule makes another class or has other
    /// children, or a class is an earlier one's, or an entry but the first is named by no earlier one; 3. a
    /// child that can be as long as its parent has no smaller rank. Takes no memory.
    pub fn of(entries: Vec<Entry<D>>) -> Result<Spec<D>, SpecFault>
        requires { length entries.items < 2 ^ 28 }
        ensures given { IfOk result (λ spec. spec ≡ entries.items) }
        ensures right { IfOk result (λ spec. IsSpec D.meaning spec) }
        ensures refused { IfErr result (λ fault. IsFirstFault D.meaning entries.items fault) }
    {
        if entries.is_empty() {
            return Err(SpecFault::Empty);
        }
        if let Some(entry) = first_wrong_rule(entries.as_slice()) {
            return Err(SpecFault::Rule { entry });
        }
        if let Some((entry, child)) = first_wrong_rank(entries.as_slice()) {
            return Err(SpecFault::Rank { entry, child });
        }
        Ok(Spec { entries })
    }

    /// The entries, the first of which is the root's. Takes no memory.
    pub fn entries(&self) -> &[Entry<D>]
        ensures entries { result.now ≡ self.now }
        ensures spec { IsSpec D.meaning self.now }
        ensures few { length self.now < 2 ^ 28 }
    {
        self.entries.as_slice()
    }

    /// The entries. Takes no memory.
    pub fn into_entries(self) -> Vec<Entry<D>>
        ensures entries { result.items ≡ self }
        ensures spec { IsSpec D.meaning self }
    {
        let Spec { entries } = self;
        entries
    }
}

/// The specification of entries that are one. Takes no memory.
pub fn spec_of<D: Domain>(entries: Vec<Entry<D>>) -> Spec<D>
    requires spec { IsSpec D.meaning entries.items }
    requires few { length entries.items < 2 ^ 28 }
    ensures { result ≡ entries.items }
{
    Spec { entries }
}
