ghost use Rattle.std.specs.Prelude.{◌≡◌, ◌≤◌, [], length, take, OnOk, IfOk, IfSome, IsNone, IsTrue};
ghost use Rattle.std.specs.List.{range_with_len};
ghost use Rattle.css_domain.specs.Ledgers.{classes, records, done};
ghost use Rattle.css_domain.specs.LedgerFacts.{IsLedger};
ghost use Rattle.css_domain.specs.Reasons.{Alone, EndsFor, RootStands};
ghost use Rattle.css_prune.specs.Pruning.{IsPruned};
ghost use Rattle.css_domain.specs.FiledSpecs.{IsFiledSpec};
ghost use Rattle.css_crew.specs.Ways.{Goes, GoesWith, reason_as};
ghost use Rattle.css_crew.specs.Crews.{IsFilled};

use crate::expander::Expander;
use crate::next::file_fresh;
use crate::reason::Reason;
use crate::waiting::all_wait;
use css_domain::Domain;
use css_ledger::Ledger;
use css_prune::{Pruned, Pruner, Spec, extract};
use std::alloc::{AllocError, Global};

/// Which classes stand among the records of a ledger, which were all pushed, with their ranks and picks.
pub(crate) fn standing<D: Domain>(
    alloc: Global,
    ledger: &Ledger<D>,
    pruner: &Pruner,
) -> Result<Pruned, AllocError>
    requires pushed { pruner.now ≡ records D.meaning ledger.now }
    ensures ledger { IsLedger D.meaning ledger.now }
    ensures pruned { IfOk result (λ pruned. IsPruned (records D.meaning ledger.now) (length (classes D.meaning ledger.now)) pruned) }
{
    let classes = ledger.counts().classes;
    pruner.prune(alloc, classes)
}

/// Pushes the records of a ledger from a position on; those before are there.
pub(crate) fn push_from<D: Domain>(
    alloc: Global,
    ledger: &Ledger<D>,
    pruner: &mut Pruner,
    from: u32,
) -> Result<(), AllocError>
    requires before { pruner.old ≡ take from (records D.meaning ledger.now) }
    requires from { from ≤ length ledger.now.rules }
    ensures { OnOk result (pruner.new ≡ records D.meaning ledger.now) }
{
    let end = ledger.counts().rules;
    for position in from..end {
        let item = ledger.record_at(alloc, position)?;
        pruner.push(&item)?;
    }
    Ok(())
}

/// What stands, where the root does. It is looked for only where it isn't known that the root doesn't stand.
pub(crate) fn found<D: Domain>(
    alloc: Global,
    ledger: &Ledger<D>,
    pruner: &Pruner,
    waits: bool,
) -> Result<Option<Pruned>, AllocError>
    requires pushed { pruner.now ≡ records D.meaning ledger.now }
    requires known { IsTrue waits → RootStands D.meaning ledger.now → ⊥ }
    ensures ledger { IsLedger D.meaning ledger.now }
    ensures pruned { IfOk result (λ found. IfSome found (λ pruned. IsPruned (records D.meaning ledger.now) (length (classes D.meaning ledger.now)) pruned)) }
    ensures stands { IfOk result (λ found. IfSome found (λ _. RootStands D.meaning ledger.now)) }
    ensures falls { IfOk result (λ found. IsNone found → RootStands D.meaning ledger.now → ⊥) }
{
    let _ = ledger.counts();
    if waits {
        return Ok(None);
    }
    let pruned = standing(alloc, ledger, pruner)?;
    let stands = pruned.keep.as_slice()[0];
    if stands { Ok(Some(pruned)) } else { Ok(None) }
}

/// Files the next class in turn. Answers why none is filed, where none is; then the ledger is as before. The refusal
/// is want of memory.
fn file_next<D: Domain, E: Expander<D>>(
    alloc: Global,
    ledger: &mut Ledger<D>,
    expander: &E,
) -> Result<Option<Reason>, AllocError>
    requires out { ledger.old.out ≡ [] }
    requires turn { done ledger.old ≡ range_with_len 0 (length ledger.old.journal) }
    requires rulebook { ledger.old.rulebook ≡ E.rulebook_of expander.now }
    ensures goes { IfOk result (λ end. Goes D.meaning ledger.old ledger.new end) }
    ensures records { IfOk result (λ end. IsNone end → take (length ledger.old.rules) (records D.meaning ledger.new) ≡ records D.meaning ledger.old) }
{
    file_fresh(alloc, ledger, expander)
}

/// A ledger that is filled, what stands among its records, and why it ends.
#[derive(Drop)]
pub(crate) struct Searched<D: Domain> {
    pub(crate) ledger: Ledger<D>,
    pub(crate) pruned: Pruned,
    pub(crate) reason: Reason,
}

/// Fills a ledger class by class until the root stands, all classes are done or the budget is spent. It prunes after
/// each filing but those whose rules all wait for a class that is not expanded, after which nothing stands that did
/// not. The refusal is want of memory.
fn search<D: Domain, E: Expander<D>>(
    alloc: Global,
    root: D::Class,
    budget: u32,
    expander: &E,
) -> Result<Searched<D>, AllocError>
    requires some { 1 ≤ budget }
    requires few { budget ≤ 5000 }
    ensures alone { IfOk result (λ searched. Alone D.meaning root budget (E.rulebook_of expander.now) searched.ledger) }
    ensures reason { IfOk result (λ searched. EndsFor D.meaning searched.ledger (reason_as searched.reason)) }
    ensures ledger { IfOk result (λ searched. IsLedger D.meaning searched.ledger) }
    ensures pruned { IfOk result (λ searched. IsPruned (records D.meaning searched.ledger) (length (classes D.meaning searched.ledger)) searched.pruned) }
{
    let mut ledger = Ledger::new(alloc, root, budget, expander.rulebook())?;
    let mut pruner = Pruner::new(alloc)?;
    let mut waits = false;
    loop {
        if let Some(pruned) = found(alloc, &ledger, &pruner, waits)? {
            return Ok(Searched {
                ledger,
                pruned,
                reason: Reason::Found,
            });
        }
        let rules = ledger.counts().rules;
        if let Some(reason) = file_next(alloc, &mut ledger, expander)? {
            let pruned = standing(alloc, &ledger, &pruner)?;
            return Ok(Searched {
                ledger,
                pruned,
                reason,
            });
        }
        push_from(alloc, &ledger, &mut pruner, rules)?;
        waits = all_wait(&ledger, rules);
    }
}

/// A ledger, why it ends, and the specification of its picks where its root stands.
#[derive(Drop)]
pub struct Solved<D: Domain> {
    pub ledger: Ledger<D>,
    pub spec: Option<Spec<D>>,
    pub reason: Reason,
}

/// The specification of a ledger's picks, where it ends since its root stands.
pub(crate) fn spec_where_found<D: Domain>(
    alloc: Global,
    ledger: &Ledger<D>,
    pruned: &Pruned,
    reason: Reason,
) -> Result<Option<Spec<D>>, AllocError>
    requires pruned { IsPruned (records D.meaning ledger.now) (length (classes D.meaning ledger.now)) pruned.now }
    requires reason { EndsFor D.meaning ledger.now (reason_as reason) }
    ensures spec { IfOk result (λ spec. GoesWith D.meaning ledger.now spec) }
    ensures filed { IfOk result (λ spec. IfSome spec (λ entries. IsFiledSpec D.meaning ledger.now entries)) }
{
    match reason {
        Reason::Found => {
            let _ = ledger.counts();
            let spec = extract(alloc, ledger, pruned, 0)?;
            Ok(Some(spec))
        }
        Reason::Budget => Ok(None),
        Reason::Exhausted => Ok(None),
    }
}

/// The ledger that one worker fills: class 0, 1, 2 and so on, each with its complete filing, pruned after every
/// filing, up to the first one after which the root stands, all classes are done or the budget is spent. It
/// tells why it ends, and where the root stands the specification of the picks, whose rules are the ledger's.
/// The budget is 1 to 5,000. It waits for nobody. The refusal is want of memory.
pub fn solve_alone<D: Domain, E: Expander<D>>(
    alloc: Global,
    root: D::Class,
    budget: u32,
    expander: &E,
) -> Result<Solved<D>, AllocError>
    requires some { 1 ≤ budget }
    requires few { budget ≤ 5000 }
    ensures alone { IfOk result (λ solved. Alone D.meaning root budget (E.rulebook_of expander.now) solved.ledger) }
    ensures filled { IfOk result (λ solved. IsFilled D.meaning root budget (E.rulebook_of expander.now) solved.ledger) }
    ensures ledger { IfOk result (λ solved. IsLedger D.meaning solved.ledger) }
    ensures reason { IfOk result (λ solved. EndsFor D.meaning solved.ledger (reason_as solved.reason)) }
    ensures spec { IfOk result (λ solved. GoesWith D.meaning solved.ledger solved.spec) }
    ensures filed { IfOk result (λ solved. IfSome solved.spec (λ spec. IsFiledSpec D.meaning solved.ledger spec)) }
{
    let Searched {
        ledger,
        pruned,
        reason,
    } = search(alloc, root, budget, expander)?;
    let spec = spec_where_found(alloc, &ledger, &pruned, reason)?;
    Ok(Solved {
        ledger,
        spec,
        reason,
    })
}
