ghost use Rattle.std.specs.Prelude.{◌≡◌, ◌<◌, ◌≤◌, ◌↔◌, [], IfOk, IfSome, IsTrue, length};
ghost use Rattle.css_domain.specs.Ledgers.{classes, records};
ghost use Rattle.css_domain.specs.LedgerFacts.{IsLedger};
ghost use Rattle.css_domain.specs.Reasons.{AreFilingsComplete, EndsFor};
ghost use Rattle.css_domain.specs.FiledSpecs.{IsFiledSpec};
ghost use Rattle.css_prune.specs.Pruning.{IsPruned};
ghost use Rattle.css_crew.specs.Ways.{GoesWith, reason_as};
ghost use Rattle.css_crew.specs.Crews.{IsFilled, IsCompleteAt};

use crate::alone::{Searched, Solved, found, push_from, solve_alone, spec_where_found, standing};
use crate::expander::Expander;
use crate::next::file_fresh;
use crate::reason::Reason;
use css_domain::Domain;
use css_ledger::Ledger;
use css_prune::Pruner;
use std::alloc::{AllocError, Global};

/// Whether the class with the number 0 is the root.
fn has_root<D: Domain>(ledger: &Ledger<D>, root: &D::Class) -> bool
    ensures ledger { IsLedger D.meaning ledger.now }
    ensures root { IsTrue result ↔ (ledger.now.root ≡ root.now) }
{
    let _ = ledger.counts();
    ledger.class(0) == root
}

/// Whether the filing at a place of the journal is the complete one of its class. A filing with rules is; one
/// without is where its class, expanded once more, has no rules. The refusal is want of memory.
fn is_complete<D: Domain, E: Expander<D>>(
    alloc: Global,
    ledger: &Ledger<D>,
    expander: &E,
    place: u32,
) -> Result<bool, AllocError>
    requires place { place < length ledger.now.journal }
    requires rulebook { ledger.now.rulebook ≡ E.rulebook_of expander.now }
    ensures { IfOk result (λ complete. IsTrue complete → IsCompleteAt D.meaning ledger.now place) }
{
    let _ = ledger.counts();
    let (number, rules) = ledger.filed(place);
    if rules != 0 {
        return Ok(true);
    }
    let filing = expander.expand(alloc, ledger.class(number))?;
    Ok(filing.as_slice().is_empty())
}

/// Whether each filing is the complete one of its class. The refusal is want of memory.
fn are_complete<D: Domain, E: Expander<D>>(
    alloc: Global,
    ledger: &Ledger<D>,
    expander: &E,
) -> Result<bool, AllocError>
    requires rulebook { ledger.now.rulebook ≡ E.rulebook_of expander.now }
    ensures { IfOk result (λ complete. IsTrue complete → AreFilingsComplete D.meaning ledger.now) }
{
    for place in 0..ledger.counts().expanded {
        if !is_complete(alloc, ledger, expander, place)? {
            return Ok(false);
        }
    }
    Ok(true)
}

/// Goes on alone where several workers left off: files class by class until the root stands, all classes are done or
/// the budget is spent. The refusal is want of memory.
fn go_on<D: Domain, E: Expander<D>>(
    alloc: Global,
    mut ledger: Ledger<D>,
    expander: &E,
) -> Result<Searched<D>, AllocError>
    requires out { ledger.out ≡ [] }
    requires complete { AreFilingsComplete D.meaning ledger }
    requires rulebook { ledger.rulebook ≡ E.rulebook_of expander.now }
    ensures filled { IfOk result (λ searched. IsFilled D.meaning ledger.root ledger.budget (E.rulebook_of expander.now) searched.ledger) }
    ensures reason { IfOk result (λ searched. EndsFor D.meaning searched.ledger (reason_as searched.reason)) }
    ensures ledger { IfOk result (λ searched. IsLedger D.meaning searched.ledger) }
    ensures pruned { IfOk result (λ searched. IsPruned (records D.meaning searched.ledger) (length (classes D.meaning searched.ledger)) searched.pruned) }
{
    let mut pruner = Pruner::new(alloc)?;
    push_from(alloc, &ledger, &mut pruner, 0)?;
    loop {
        if let Some(pruned) = found(alloc, &ledger, &pruner, false)? {
            return Ok(Searched {
                ledger,
                pruned,
                reason: Reason::Found,
            });
        }
        let rules = ledger.counts().rules;
        if let Some(reason) = file_fresh(alloc, &mut ledger, expander)? {
            let pruned = standing(alloc, &ledger, &pruner)?;
            return Ok(Searched {
                ledger,
                pruned,
                reason,
            });
        }
        push_from(alloc, &ledger, &mut pruner, rules)?;
    }
}

/// What is answered of the ledger that several workers filled. What they left out is taken back. Where it has another
/// root, or a filing that is not complete, the answer is that of one worker; else its own, once there is a reason.
pub(crate) fn finish<D: Domain, E: Expander<D>>(
    alloc: Global,
    root: D::Class,
    budget: u32,
    mut ledger: Ledger<D>,
    expander: &E,
) -> Result<Solved<D>, AllocError>
    requires some { 1 ≤ budget }
    requires few { budget ≤ 5000 }
    requires budget { ledger.budget ≡ budget }
    requires rulebook { ledger.rulebook ≡ E.rulebook_of expander.now }
    ensures filled { IfOk result (λ solved. IsFilled D.meaning root budget (E.rulebook_of expander.now) solved.ledger) }
    ensures ledger { IfOk result (λ solved. IsLedger D.meaning solved.ledger) }
    ensures reason { IfOk result (λ solved. EndsFor D.meaning solved.ledger (reason_as solved.reason)) }
    ensures spec { IfOk result (λ solved. GoesWith D.meaning solved.ledger solved.spec) }
    ensures filed { IfOk result (λ solved. IfSome solved.spec (λ spec. IsFiledSpec D.meaning solved.ledger spec)) }
{
    ledger.recall();
    if !has_root(&ledger, &root) {
        return solve_alone(alloc, root, budget, expander);
    }
    if !are_complete(alloc, &ledger, expander)? {
        return solve_alone(alloc, root, budget, expander);
    }
    let Searched {
        ledger,
        pruned,
        reason,
    } = go_on(alloc, ledger, expander)?;
    let spec = spec_where_found(alloc, &ledger, &pruned, reason)?;
    Ok(Solved {
        ledger,
        spec,
        reason,
    })
}
