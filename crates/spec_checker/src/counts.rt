ghost use Rattle.std.specs.Prelude.{◌≡◌, ◌≤◌, ◌<◌, ◌^◌, ◌↔◌, IsTrue, length, slice_get, Some, IfOk, IfNone, IfSome};
ghost use Rattle.css_domain.specs.Entries.{IsSpec, AllHold};
ghost use Rattle.tile_rules.specs.Meaning.{tile_meaning};
ghost use Rattle.spec_text.specs.Joined.{AreJoined};
ghost use Rattle.spec_checker.specs.Accepting.{capped_counts};
ghost use Rattle.spec_checker.specs.Refusing.{IsFirstDifference};

use css_prune::Entry;
use css_terms::{Term, rows_of, specs_have_rows, terms_of_rows};
use std::alloc::{AllocError, Global};
use tile_rules::Tiles;

/// The capped counts of entry 0 for so many lengths, as far as the first Big.
pub(crate) fn counts_of(
    alloc: Global,
    entries: &[Entry<Tiles>],
    many: usize,
) -> Result<Vec<Term>, AllocError>
    requires joined { AreJoined entries.now }
    requires spec { IsSpec tile_meaning entries.now }
    requires hold { AllHold tile_meaning entries.now }
    requires few { length entries.now ≤ 100000 }
    requires some { 1 ≤ many }
    requires most { many ≤ 201 }
    ensures { IfOk result (λ counts. counts.items ≡ capped_counts entries.now many) }
{
    specs_have_rows::<Tiles>();
    let rows = rows_of::<Tiles>(alloc, entries)?;
    terms_of_rows(alloc, rows.as_slice(), many as u32 - 1)
}

/// Whether the terms are equal.
fn are_equal(one: Term, other: Term) -> bool
    ensures { IsTrue result ↔ (one ≡ other) }
{
    match (one, other) {
        (Term::Exact(count), Term::Exact(number)) => count == number,
        (Term::Big, Term::Big) => true,
        (Term::Exact(_), Term::Big) => false,
        (Term::Big, Term::Exact(_)) => false,
    }
}

/// Whether the term stands at the place.
fn has_term(terms: &[Term], place: usize, term: Term) -> bool
    ensures { IsTrue result ↔ (slice_get terms.now place ≡ Some term) }
{
    match terms.get(place) {
        Some(there) => are_equal(*there, term),
        None => false,
    }
}

/// The first place where the lists differ, or one of them has no item.
pub(crate) fn first_difference(items: &[Term], others: &[Term]) -> Option<u32>
    requires few { length items.now ≤ 201 }
    ensures none { IfNone result (items.now ≡ others.now) }
    ensures some { IfSome result (λ place. IsFirstDifference items.now others.now place) }
{
    for place in 0..items.len() {
        if !has_term(others, place, items[place]) {
            return Some(place as u32);
        }
    }
    if others.len() > items.len() {
        return Some(items.len() as u32);
    }
    None
}
