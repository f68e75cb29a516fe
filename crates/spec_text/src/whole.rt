ghost use Rattle.std.specs.Prelude.{◌≡◌, ◌++◌, OnOk, OnErr, IfOk};
ghost use Rattle.spec_lines.specs.Terms.{term_text, terms_line};
ghost use Rattle.spec_lines.specs.Numbers.{number_line};
ghost use Rattle.spec_text.specs.Texts.{start_text, end_text, spec_text};

use crate::entry::put_entries;
use crate::spell::{Spell, put_bytes, put_each_after, put_number, put_whole};
use crate::traces::HeadLines;
use css_prune::Spec;
use css_terms::Term;
use itoa::Buffer;
use perm_core::Perm;
use std::alloc::{AllocError, Global};
use steps::Step;
use tile_rules::Tiles;

impl Spell for Term {
    ghost text = { term_text };

    fn put(&self, out: &mut Vec<u8>) -> Result<(), AllocError> {
        match self {
            Term::Exact(number) => {
                let mut buffer = Buffer::new();
                out.extend_from_slice(buffer.format(*number).as_bytes())
            }
            Term::Big => put_bytes(out, b"big"),
        }
    }
}

/// Appends the line of the number of entries.
fn put_number_line(out: &mut Vec<u8>, entries: u32) -> Result<(), AllocError>
    ensures { OnOk result (out.new.items ≡ out.old.items ++ number_line entries) }
{
    put_bytes(out, b"entries ")?;
    put_number(out, entries)?;
    put_bytes(out, b"\n")
}

/// The lines before the entries.
#[derive(Clone, Copy)]
struct StartLines<'a> {
    head: HeadLines<'a>,
    entries: u32,
}

impl<'a> Spell for StartLines<'a> {
    ghost text = { λ start. start_text start.head.basis.now start.head.root_trace.now start.entries };

    fn put(&self, out: &mut Vec<u8>) -> Result<(), AllocError> {
        put_bytes(out, b"tilescope 1\n")?;
        self.head.put(out)?;
        put_number_line(out, self.entries)
    }
}

/// The line of terms.
#[derive(Clone, Copy)]
struct TermsLine<'a> {
    terms: &'a [Term],
}

impl<'a> Spell for TermsLine<'a> {
    ghost text = { λ line. terms_line line.terms.now };

    fn put(&self, out: &mut Vec<u8>) -> Result<(), AllocError> {
        put_bytes(out, b"terms")?;
        put_each_after(out, b' ', self.terms)?;
        put_bytes(out, b"\n")
    }
}

/// Appends the line `terms` (docs/FORMATS.md, "The text of a specification"). The refusal is want of memory,
/// and then `out` is as before.
pub fn put_terms(out: &mut Vec<u8>, terms: &[Term]) -> Result<(), AllocError>
    ensures ok { OnOk result (out.new.items ≡ out.old.items ++ terms_line terms.now) }
    ensures err { OnErr result (out.new.items ≡ out.old.items) }
{
    put_whole(out, &TermsLine { terms })
}

/// The lines after the entries.
#[derive(Clone, Copy)]
struct EndLines<'a> {
    terms: TermsLine<'a>,
}

impl<'a> Spell for EndLines<'a> {
    ghost text = { λ end. end_text end.terms.terms.now };

    fn put(&self, out: &mut Vec<u8>) -> Result<(), AllocError> {
        self.terms.put(out)?;
        put_bytes(out, b"end\n")
    }
}

/// The text of a specification, with the basis, the trace that leads from its 1x1 tiling to the root, and the
/// terms (docs/FORMATS.md, "The text of a specification"). The refusal is want of memory.
pub fn write_spec(
    alloc: Global,
    basis: &[Perm],
    root_trace: &[Step],
    spec: &Spec<Tiles>,
    terms: &[Term],
) -> Result<Vec<u8>, AllocError>
    ensures { IfOk result (λ text. text.items ≡ spec_text basis.now root_trace.now spec.now terms.now) }
{
    let entries = spec.entries();
    let head = HeadLines { basis, root_trace };
    let start = StartLines {
        head,
        entries: entries.len() as u32,
    };
    let terms = TermsLine { terms };
    let mut out = Vec::new(alloc);
    start.put(&mut out)?;
    put_entries(&mut out, entries)?;
    EndLines { terms }.put(&mut out)?;
    Ok(out)
}
