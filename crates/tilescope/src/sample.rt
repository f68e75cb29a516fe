ghost use Rattle.std.specs.Prelude.{◌≡◌, ◌≤◌, IfOk, IsNone, All, length};
ghost use Rattle.command_words.specs.declared.command.Command.TheVariants as command;
ghost use Rattle.css_crew.specs.Ways.{reason_as};
ghost use Rattle.tile_rules.specs.Avoiding.{HasNoEmptyWord};
ghost use Rattle.tilescope.specs.Answers.{IsListingAnswer, IsSolvedFor};
ghost use Rattle.tilescope.specs.Samples.{sample_request, IsSearchLine, AreSearchLines, IsSampleText};

use crate::by_pack::ByPack;
use crate::made::Answer;
use crate::root::{Reduced, reduce_root};
use crate::sample_lines::{found_line, lost_line, put_total};
use command_words::Request;
use css_crew::{Solved, solve_alone};
use css_domain::filed_specs_stand;
use css_terms::terms;
use listings::{count_line, draw_bases};
use pack_law::exhausted_is_beyond_the_pack;
use perm_core::Perm;
use sequences::Sequence;
use std::alloc::{AllocError, Global};
use tile_rules::Tiles;
use work_packs::Packs;

/// The letters by which the searches of `sample` go.
const LETTERS: Packs = Packs {
    i: false,
    r: true,
    c: false,
    p: false,
    f: true,
    s: true,
    n: false,
};

/// How many classes each of them may expand.
const BUDGET: u32 = 30;

/// The last length of their terms.
const LAST: u32 = 6;

/// The lines of searches, and how many of these found a specification.
#[derive(Drop)]
struct Lines {
    found: u32,
    text: Vec<u8>,
}

/// The answer of `count`: the plain counts of the basis.
pub(crate) fn count(alloc: Global, request: &Request) -> Result<Answer, AllocError>
    requires command { request.now.command ≡ command.Count }
    requires short { request.now.terms ≤ 9 }
    ensures answer { IfOk result (λ a. IsListingAnswer request.now a.status a.text) }
    ensures no_ledger { IfOk result (λ a. IsNone a.ledger) }
{
    let line = count_line(alloc, request.basis.as_slice(), request.terms as u8)?;
    Ok(Answer::of(0, line, None))
}

/// Searches the class of a basis, as each search of `sample` goes.
fn solve_basis(alloc: Global, basis: &[Perm]) -> Result<Solved<Tiles>, AllocError>
    requires words { HasNoEmptyWord basis.now }
    ensures { IfOk result (λ solved. IsSolvedFor (sample_request basis.now) solved.ledger (reason_as solved.reason) solved.spec) }
{
    let Reduced { root, .. } = reduce_root(alloc, basis)?;
    let solved = solve_alone(alloc, root, BUDGET, &ByPack::of(LETTERS))?;
    Ok(solved)
}

/// The line of a search that is solved.
fn search_line(alloc: Global, basis: &[Perm], solved: Solved<Tiles>) -> Result<Lines, AllocError>
    requires solved { IsSolvedFor (sample_request basis.now) solved.ledger (reason_as solved.reason) solved.spec }
    ensures { IfOk result (λ lines. IsSearchLine basis.now lines.found lines.text.items) }
{
    filed_specs_stand::<Tiles>();
    exhausted_is_beyond_the_pack();
    let Solved {
        ledger,
        spec,
        reason,
    } = solved;
    let Some(spec) = spec else {
        let text = lost_line(alloc, basis, reason, ledger.counts())?;
        return Ok(Lines { found: 0, text });
    };
    let terms = terms(alloc, &spec, LAST)?;
    let entries = spec.entries().len() as u32;
    let text = found_line(alloc, basis, entries, terms.as_slice())?;
    Ok(Lines { found: 1, text })
}

/// The lines of the searches of some bases.
fn search_all(alloc: Global, bases: &[Sequence<Perm>]) -> Result<Lines, AllocError>
    requires words { All HasNoEmptyWord bases.now }
    requires few { length bases.now ≤ 40 }
    ensures { IfOk result (λ lines. AreSearchLines bases.now lines.found lines.text.items) }
{
    let mut text = Vec::new(alloc);
    let mut found = 0u32;
    for basis in bases {
        let solved = solve_basis(alloc, basis.as_slice())?;
        let line = search_line(alloc, basis.as_slice(), solved)?;
        text.extend_from_slice(line.text.as_slice())?;
        found += line.found;
    }
    Ok(Lines { found, text })
}

/// The text of a sample.
#[tactic(auto, using(crate::proofs::Sampling::drawing))]
fn sample_text(alloc: Global, number: u32) -> Result<Vec<u8>, AllocError>
    requires { number ≤ 1000000 }
    ensures { IfOk result (λ text. IsSampleText number text.items) }
{
    let bases = draw_bases(alloc, number)?;
    let Lines { found, mut text } = search_all(alloc, bases.as_slice())?;
    put_total(&mut text, found)?;
    Ok(text)
}

/// The answer of `sample`: a line for each of the forty bases that the number leads to, and how many of their searches
/// found a specification.
pub(crate) fn sample(alloc: Global, request: &Request) -> Result<Answer, AllocError>
    requires command { request.now.command ≡ command.Sample }
    requires small { request.now.number ≤ 1000000 }
    ensures answer { IfOk result (λ a. IsListingAnswer request.now a.status a.text) }
    ensures no_ledger { IfOk result (λ a. IsNone a.ledger) }
{
    let text = sample_text(alloc, request.number)?;
    Ok(Answer::of(0, text, None))
}
