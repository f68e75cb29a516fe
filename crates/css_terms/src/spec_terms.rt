ghost use Rattle.std.specs.Prelude.{◌≡◌, ◌≤◌, length, IfOk};
ghost use Rattle.lists.specs.Members.{IsIn};
ghost use Rattle.css_domain.specs.Entries.{AllHold, class_counts};
ghost use Rattle.css_domain.specs.Entries as entry;
ghost use Rattle.css_terms.specs.SpecRows.{row_of, rows_of};
ghost use Rattle.css_terms.specs.Terms.{terms_to};

use crate::evaluate::terms_of_rows;
use crate::laws::specs_have_rows;
use crate::rows::Row;
use crate::term::Term;
use css_domain::Domain;
use css_prune::{Entry, Spec};
use sequences::Sequence;
use std::alloc::{AllocError, Global};

fn row_of<D: Domain>(alloc: Global, entry: &Entry<D>) -> Result<Row, AllocError>
    requires { length entry.now.children ≡ length (D.meaning.children entry.now.rule) }
    ensures { IfOk result (λ row. row ≡ row_of D.meaning entry.now) }
{
    let places = entry.children.as_slice();
    let mut children = Vec::with_capacity(alloc, places.len())?;
    for slot in 0..D::arity(&entry.rule) {
        let positive = D::positive(D::child(&entry.rule, slot));
        children.push((places[slot as usize], positive))?;
    }
    Ok(Row {
        shape: D::shape(&entry.rule),
        children: Sequence::of(children),
        rank: entry.rank,
    })
}

/// The rows of entries, each with as many children as its rule has. The refusal is want of memory.
pub fn rows_of<D: Domain>(alloc: Global, entries: &[Entry<D>]) -> Result<Vec<Row>, AllocError>
    requires { (e : entry.Entry D.Class D.Rule) → IsIn e entries.now → length e.children ≡ length (D.meaning.children e.rule) }
    ensures { IfOk result (λ rows. rows.items ≡ rows_of D.meaning entries.now) }
{
    let mut rows = Vec::with_capacity(alloc, entries.len())?;
    for entry in entries {
        rows.push(row_of(alloc, entry)?)?;
    }
    Ok(rows)
}

/// The capped counts of the root's class for the lengths from 0 to `last`, as far as the first Big
/// (docs/RULES.md, "Terms"). `last` is at most 200, and every rule holds. The refusal is want of memory.
pub fn terms<D: Domain>(alloc: Global, spec: &Spec<D>, last: u32) -> Result<Vec<Term>, AllocError>
    requires short { last ≤ 200 }
    requires hold { AllHold D.meaning spec.now }
    ensures terms { IfOk result (λ terms. terms.items ≡ terms_to last (class_counts D.meaning spec.now 0)) }
{
    let entries = spec.entries();
    specs_have_rows::<D>();
    let rows = rows_of(alloc, entries)?;
    terms_of_rows(alloc, rows.as_slice(), last)
}
