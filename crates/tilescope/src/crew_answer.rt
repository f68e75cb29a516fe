ghost use Rattle.std.specs.Prelude.{◌≡◌, ◌≤◌, ◌<◌, IfOk, IfSome, map, string_bytes};
ghost use Rattle.css_domain.specs.FiledSpecs.{IsFiledSpec};
ghost use Rattle.css_domain.specs.LedgerFacts.{IsLedger};
ghost use Rattle.css_domain.specs.Reasons.{Alone, EndsFor};
ghost use Rattle.css_crew.specs.Crews.{IsFilled};
ghost use Rattle.css_crew.specs.Ways.{GoesWith, reason_as};
ghost use Rattle.perm_core.specs.Basis.{IsBasis};
ghost use Rattle.tile_rules.specs.Complete.{rulebook_of};
ghost use Rattle.tile_rules.specs.Meaning.{tile_meaning};
ghost use Rattle.outside.specs.Counts.{Rose};
ghost use Rattle.tilescope.specs.Answers.{AskOfText, IsAnswer, IsSearchAnswer};

use crate::answer::{refuse, say};
use crate::by_pack::ByPack;
use crate::made::Answer;
use crate::root::{Reduced, reduce_root};
use crate::sample::{count, sample};
use crate::verdict::ask;
use command_words::{Command, Request, read_words, words_mean_one_thing};
use css_crew::{Gate, Solved, solve, solve_alone};
use outside::Source;
use std::alloc::{AllocError, Global};
use std::sync::Wait;
use std::thread::Threads;
use tile_rules::Tiles;
use tiling_core::Tiling;

/// Fills a ledger from a root by as many workers as are asked for, whose acts the gate is told. One does without a
/// thread.
fn solve_by_crew<R: Threads + Wait + Sync, G: Gate + Sync>(
    rt: &R,
    alloc: Global,
    root: Tiling,
    request: &Request,
    gate: &G,
) -> Result<Solved<Tiles>, AllocError>
    requires some { 1 ≤ request.now.budget }
    requires few { request.now.budget ≤ 5000 }
    requires worker { 1 ≤ request.now.workers }
    requires few_workers { request.now.workers ≤ 64 }
    ensures filled { IfOk result (λ solved. IsFilled tile_meaning root request.now.budget (rulebook_of request.now.packs) solved.ledger) }
    ensures alone { request.now.workers ≡ 1 → IfOk result (λ solved. Alone tile_meaning root request.now.budget (rulebook_of request.now.packs) solved.ledger) }
    ensures ledger { IfOk result (λ solved. IsLedger tile_meaning solved.ledger) }
    ensures reason { IfOk result (λ solved. EndsFor tile_meaning solved.ledger (reason_as solved.reason)) }
    ensures spec { IfOk result (λ solved. GoesWith tile_meaning solved.ledger solved.spec) }
    ensures filed { IfOk result (λ solved. IfSome solved.spec (λ spec. IsFiledSpec tile_meaning solved.ledger spec)) }
{
    let expander = ByPack::of(request.packs);
    if request.workers == 1 {
        return solve_alone(alloc, root, request.budget, &expander);
    }
    solve(
        rt,
        alloc,
        root,
        request.budget,
        request.workers,
        &expander,
        gate,
    )
}

/// The answer of a search by as many workers as are asked for, whose acts the gate is told.
#[tactic(auto, using(crate::proofs::Bases::naming))]
pub(crate) fn search_by_crew<R: Threads + Wait + Sync, G: Gate + Sync>(
    rt: &R,
    alloc: Global,
    request: &Request,
    gate: &G,
) -> Result<Answer, AllocError>
    requires basis { IsBasis request.now.basis }
    requires short { request.now.terms ≤ 200 }
    requires some { 1 ≤ request.now.budget }
    requires few { request.now.budget ≤ 5000 }
    requires worker { 1 ≤ request.now.workers }
    requires few_workers { request.now.workers ≤ 64 }
    requires letter { 0 < rulebook_of request.now.packs }
    ensures { IfOk result (λ a. IsSearchAnswer request.now a.status a.text a.ledger) }
{
    let Reduced { root, trace } = reduce_root(alloc, request.basis.as_slice())?;
    let solved = solve_by_crew(rt, alloc, root, request, gate)?;
    say(alloc, request, trace.as_slice(), solved)
}

/// What the words ask for is done, by as many workers as they say, or why they are refused is said. Only a command that
/// reads a text uses the source.
pub(crate) fn answer_by_crew<R: Threads + Wait + Sync, S: Source, G: Gate + Sync>(
    rt: &R,
    alloc: Global,
    words: &[String],
    source: &mut S,
    gate: &G,
) -> Result<Answer, AllocError>
    ensures answer { IfOk result (λ a. IsAnswer 64 (map string_bytes words.now) (Rose (S.faults source.old) (S.faults source.new)) (S.left source.old) (S.left source.new) a.status a.text a.ledger) }
    ensures source { (AskOfText (map string_bytes words.now) → ⊥) → source.new ≡ source.old }
{
    let request = match read_words(alloc, words) {
        Ok(request) => request,
        Err(fault) => return refuse(alloc, fault),
    };
    words_mean_one_thing();
    match request.command {
        Command::Search => search_by_crew(rt, alloc, &request, gate),
        Command::Check | Command::Terms => ask(alloc, &request, source),
        Command::Count => count(alloc, &request),
        Command::Sample => sample(alloc, &request),
    }
}
