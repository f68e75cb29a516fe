ghost use Rattle.std.specs.Prelude.{◌≡◌, ◌++◌, ◌∷◌, OnOk, IfOk, map, codes, decimal};
ghost use Rattle.css_crew.specs.Ways.{reason_as};
ghost use Rattle.css_ledger.specs.Answers.{counted_as};
ghost use Rattle.spec_lines.specs.Lines.{each_after, line};
ghost use Rattle.spec_lines.specs.Patterns.{word_text};
ghost use Rattle.spec_lines.specs.Terms.{term_text};
ghost use Rattle.tilescope.specs.Samples.{basis_text, total_line};
ghost use Rattle.tilescope.specs.Searches.{none_line};

use crate::none_line::{none_line, put_count};
use css_crew::Reason;
use css_ledger::Counts;
use css_terms::Term;
use itoa::Buffer;
use perm_core::Perm;
use spec_text::put_number;
use std::alloc::{AllocError, Global};

/// Appends the letters of a word.
fn put_word(out: &mut Vec<u8>, word: &Perm) -> Result<(), AllocError>
    ensures { OnOk result (out.new.items ≡ out.old.items ++ word_text word.now) }
{
    for letter in word.letters() {
        put_number(out, u32::from(*letter))?;
    }
    Ok(())
}

/// Appends words, each after a comma.
fn put_words(out: &mut Vec<u8>, words: &[Perm]) -> Result<(), AllocError>
    ensures { OnOk result (out.new.items ≡ out.old.items ++ each_after 44 (map word_text words.now)) }
{
    for word in words {
        out.extend_from_slice(b",")?;
        put_word(out, word)?;
    }
    Ok(())
}

/// Appends the words of a basis, joined by commas.
fn put_basis(out: &mut Vec<u8>, basis: &[Perm]) -> Result<(), AllocError>
    ensures { OnOk result (out.new.items ≡ out.old.items ++ basis_text basis.now) }
{
    let Some((first, rest)) = basis.split_first() else {
        return Ok(());
    };
    put_word(out, first)?;
    put_words(out, rest)
}

/// Appends a term.
fn put_term(out: &mut Vec<u8>, term: Term) -> Result<(), AllocError>
    ensures { OnOk result (out.new.items ≡ out.old.items ++ term_text term) }
{
    match term {
        Term::Exact(number) => {
            let mut buffer = Buffer::new();
            out.extend_from_slice(buffer.format(number).as_bytes())
        }
        Term::Big => out.extend_from_slice(b"big"),
    }
}

/// Appends terms, each after a blank.
fn put_terms(out: &mut Vec<u8>, terms: &[Term]) -> Result<(), AllocError>
    ensures { OnOk result (out.new.items ≡ out.old.items ++ each_after 32 (map term_text terms.now)) }
{
    for term in terms {
        out.extend_from_slice(b" ")?;
        put_term(out, *term)?;
    }
    Ok(())
}

/// The line of a search that found a specification of so many entries, with its terms.
pub(crate) fn found_line(
    alloc: Global,
    basis: &[Perm],
    entries: u32,
    terms: &[Term],
) -> Result<Vec<u8>, AllocError>
    ensures { IfOk result (λ text. text.items ≡ line (basis_text basis.now) (codes "found" ∷ decimal entries ∷ map term_text terms.now)) }
{
    let mut out = Vec::new(alloc);
    put_basis(&mut out, basis)?;
    out.extend_from_slice(b" found ")?;
    put_number(&mut out, entries)?;
    put_terms(&mut out, terms)?;
    out.extend_from_slice(b"\n")?;
    Ok(out)
}

/// The line of a search that found none.
pub(crate) fn lost_line(
    alloc: Global,
    basis: &[Perm],
    reason: Reason,
    counts: Counts,
) -> Result<Vec<u8>, AllocError>
    ensures { IfOk result (λ text. text.items ≡ basis_text basis.now ++ codes " " ++ none_line (reason_as reason) (counted_as counts)) }
{
    let mut out = Vec::new(alloc);
    put_basis(&mut out, basis)?;
    out.extend_from_slice(b" ")?;
    let none = none_line(alloc, reason, counts)?;
    out.extend_from_slice(none.as_slice())?;
    Ok(out)
}

/// Appends the line that says how many of forty searches found a specification.
pub(crate) fn put_total(out: &mut Vec<u8>, found: u32) -> Result<(), AllocError>
    ensures { OnOk result (out.new.items ≡ out.old.items ++ total_line found) }
{
    out.extend_from_slice(b"total")?;
    put_count(out, found)?;
    put_count(out, 40)?;
    out.extend_from_slice(b"\n")
}
