ghost use Rattle.std.specs.Prelude.{◌≡◌, ◌≤◌, ◌<◌, IfOk, map, string_bytes};
ghost use Rattle.css_crew.specs.Ways.{reason_as};
ghost use Rattle.normal_form.specs.TraceLaws.{trace};
ghost use Rattle.perm_core.specs.Basis.{IsBasis};
ghost use Rattle.tiling_core.specs.Roots.{root_of};
ghost use Rattle.tile_rules.specs.Complete.{rulebook_of};
ghost use Rattle.outside.specs.Counts.{Rose};
ghost use Rattle.tilescope.specs.Answers.{AskOfText, IsAnswer, IsSearchAnswer, IsSolvedFor, IsUsageAnswer};

use crate::by_pack::ByPack;
use crate::made::Answer;
use crate::none_line::none_line;
use crate::root::{Reduced, reduce_root};
use crate::sample::{count, sample};
use crate::usage::usage_line;
use crate::verdict::ask;
use command_words::{Command, OptName, Request, WordFault, read_words, words_mean_one_thing};
use css_crew::{Solved, solve_alone};
use css_domain::filed_specs_stand;
use css_terms::terms;
use outside::Source;
use pack_law::exhausted_is_beyond_the_pack;
use sequences::Sequence;
use spec_text::{specs_are_spelled, write_spec};
use std::alloc::{AllocError, Global};
use steps::Step;
use tile_rules::Tiles;

/// The answer of a search that is solved: the text of the specification, or the line that says that there is none.
#[tactic(auto, using(crate::proofs::Bases::naming))]
pub(crate) fn say(
    alloc: Global,
    request: &Request,
    steps: &[Step],
    solved: Solved<Tiles>,
) -> Result<Answer, AllocError>
    requires basis { IsBasis request.now.basis }
    requires short { request.now.terms ≤ 200 }
    requires letter { 0 < rulebook_of request.now.packs }
    requires solved { IsSolvedFor request.now solved.ledger (reason_as solved.reason) solved.spec }
    requires trace { steps.now ≡ trace (root_of request.now.basis) }
    ensures { IfOk result (λ a. IsSearchAnswer request.now a.status a.text a.ledger) }
{
    filed_specs_stand::<Tiles>();
    exhausted_is_beyond_the_pack();
    specs_are_spelled();
    let basis = request.basis.as_slice();
    let Solved {
        ledger,
        spec,
        reason,
    } = solved;
    let Some(spec) = spec else {
        let text = none_line(alloc, reason, ledger.counts())?;
        return Ok(Answer::of(1, text, Some(ledger)));
    };
    let terms = terms(alloc, &spec, request.terms)?;
    let text = write_spec(alloc, basis, steps, &spec, terms.as_slice())?;
    Ok(Answer::of(0, text, Some(ledger)))
}

/// The answer of a search by one worker.
#[tactic(auto, using(crate::proofs::Bases::naming))]
fn search(alloc: Global, request: &Request) -> Result<Answer, AllocError>
    requires basis { IsBasis request.now.basis }
    requires short { request.now.terms ≤ 200 }
    requires some { 1 ≤ request.now.budget }
    requires few { request.now.budget ≤ 5000 }
    requires letter { 0 < rulebook_of request.now.packs }
    ensures { IfOk result (λ a. IsSearchAnswer request.now a.status a.text a.ledger) }
{
    let Reduced { root, trace } = reduce_root(alloc, request.basis.as_slice())?;
    let solved = solve_alone(alloc, root, request.budget, &ByPack::of(request.packs))?;
    say(alloc, request, trace.as_slice(), solved)
}

/// The answer to words that are refused, which is none where memory ran out.
pub(crate) fn refuse(alloc: Global, fault: WordFault) -> Result<Answer, AllocError>
    ensures { IfOk result (λ a. IsUsageAnswer fault a.status a.text a.ledger) }
{
    match fault {
        WordFault::Memory => Err(AllocError),
        fault => Ok(Answer {
            status: 2,
            text: Some(Sequence::of(usage_line(alloc, &fault)?)),
            ledger: None,
        }),
    }
}

/// What the words ask for is done, or why they are refused is said. Only a command that reads a text uses the
/// source.
pub(crate) fn answer_to<S: Source>(
    alloc: Global,
    words: &[String],
    source: &mut S,
) -> Result<Answer, AllocError>
    ensures answer { IfOk result (λ a. IsAnswer 1 (map string_bytes words.now) (Rose (S.faults source.old) (S.faults source.new)) (S.left source.old) (S.left source.new) a.status a.text a.ledger) }
    ensures source { (AskOfText (map string_bytes words.now) → ⊥) → source.new ≡ source.old }
{
    let request = match read_words(alloc, words) {
        Ok(request) => request,
        Err(fault) => return refuse(alloc, fault),
    };
    words_mean_one_thing();
    match request.command {
        Command::Search => {
            if request.workers > 1 {
                return refuse(alloc, WordFault::Opt(OptName::Workers));
            }
            search(alloc, &request)
        }
        Command::Check | Command::Terms => ask(alloc, &request, source),
        Command::Count => count(alloc, &request),
        Command::Sample => sample(alloc, &request),
    }
}
