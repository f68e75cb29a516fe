ghost use Rattle.std.specs.Prelude.{◌≡◌, ◌&&◌, codes, option_and_then, IfOk};
ghost use Rattle.spec_lines.specs.Forms.{has_items};
ghost use Rattle.spec_lines.specs.Forms.Line.{Terms};
ghost use Rattle.spec_lines.specs.Follows.Place.{AtTerms};
ghost use Rattle.spec_lines.specs.Items.{behind, items, read_all};
ghost use Rattle.spec_lines.specs.Ranges.{is_term_in_range};
ghost use Rattle.spec_lines.specs.Readings.{line_at, term_at};
ghost use Rattle.line_readers.specs.Answers.{IsLineAnswer};
ghost use Rattle.line_readers.specs.Kept.{where_it};
ghost use Rattle.line_readers.specs.Terms.{is_big, is_big_last};

use crate::fault::ItemFault;
use crate::lines::behind;
use crate::narrow::{Wide, narrow_all};
use crate::numbers::Number;
use crate::spelt::{Spelt, read_all};
use css_terms::Term;
use sequences::Sequence;
use std::alloc::{AllocError, Global};
use std::marker::Model;

/// An item of the terms: a number, or none for one that is too large. Contracts see the term.
#[derive(Drop)]
pub(crate) struct WideTerm {
    number: Option<Number>,
}

impl Model for WideTerm {
    ghost use Rattle.css_terms.specs.declared.term.Term.{Term};
    ghost use Rattle.line_readers.specs.Terms.{term_of};

    ghost Value = { Term };

    ghost view = { λ t. term_of t.number };
}

impl WideTerm {
    /// Whether it is no number.
    fn is_big(&self) -> bool
        ensures { result ≡ is_big self.now }
    {
        self.number.is_none()
    }
}

impl Spelt for WideTerm {
    ghost spelt = { term_at };

    fn read(_alloc: Global, text: &[u8]) -> Result<Option<WideTerm>, AllocError> {
        if text == b"big".as_slice() {
            return Ok(Some(WideTerm { number: None }));
        }
        let Some(number) = Number::read(text) else {
            return Ok(None);
        };
        Ok(Some(WideTerm {
            number: Some(number),
        }))
    }
}

impl Wide for WideTerm {
    type Narrow = Term;

    ghost fits = { is_term_in_range };

    ghost wide = { λ t. t };

    fn narrow(&self, _alloc: Global) -> Result<Option<Term>, AllocError> {
        let Some(number) = &self.number else {
            return Ok(Some(Term::Big));
        };
        match number.value() {
            Some(value) => Ok(Some(Term::Exact(value))),
            None => Ok(None),
        }
    }
}

/// Whether none but the last is too large to be a number.
#[tactic(auto, using(crate::proofs::TermForms::big_inside, crate::proofs::TermForms::number_inside, crate::proofs::TermForms::few_left))]
pub(crate) fn is_big_last(terms: &[WideTerm]) -> bool
    ensures { result ≡ is_big_last terms.now }
{
    for place in 1..terms.len() {
        if terms[place - 1].is_big() {
            return false;
        }
    }
    true
}

/// The terms of the line `terms`, of which there is at least one and none but the last is too large.
fn spelt_terms(alloc: Global, line: &[u8]) -> Result<Option<Sequence<WideTerm>>, AllocError>
    ensures { IfOk result (λ terms. terms ≡ where_it (λ ts. has_items ts && is_big_last ts) (option_and_then (read_all term_at) (behind (codes "terms") (items 32 line.now)))) }
{
    let Some(items) = behind(line, b"terms") else {
        return Ok(None);
    };
    let Some(terms) = read_all::<WideTerm>(alloc, items)? else {
        return Ok(None);
    };
    if terms.len() == 0 {
        return Ok(None);
    }
    if !is_big_last(terms.as_slice()) {
        return Ok(None);
    }
    Ok(Some(terms))
}

/// The terms of the line `terms`.
pub fn terms_line(alloc: Global, line: &[u8]) -> Result<Vec<Term>, ItemFault>
    ensures { IsLineAnswer (line_at AtTerms line.now) (λ terms. Terms terms.items) result }
{
    let Some(terms) = spelt_terms(alloc, line)? else {
        return Err(ItemFault::Form);
    };
    if terms.len() > 201 {
        return Err(ItemFault::Range);
    }
    match narrow_all(alloc, terms.as_slice())? {
        Some(terms) => Ok(terms),
        None => Err(ItemFault::Range),
    }
}
