ghost use Rattle.std.specs.Prelude.{◌≡◌, ◌≤◌, [], IfOk, IfSome};
ghost use Rattle.css_domain.specs.LedgerFacts.{IsLedger};
ghost use Rattle.css_domain.specs.Reasons.{EndsFor};
ghost use Rattle.css_domain.specs.FiledSpecs.{IsFiledSpec};
ghost use Rattle.css_store.specs.Desks.{HasRoomFor};
ghost use Rattle.css_crew.specs.Ways.{GoesWith, reason_as};
ghost use Rattle.css_crew.specs.Crews.{IsFilled};

use crate::alone::Solved;
use crate::expander::Expander;
use crate::finish::finish;
use crate::gate::Gate;
use crate::searcher::search_beside;
use crate::worker::work;
use css_domain::Domain;
use css_ledger::Ledger;
use css_log::{Log, Reader, Writer};
use css_store::{Closed, Store, StoreName};
use std::alloc::{AllocError, Global};
use std::marker::Brand;
use std::sync::Wait;
use std::thread;
use std::thread::Threads;

/// Starts the workers in threads of their own, searches beside them, and waits until all have ended. For a worker that
/// couldn't be started the caller retires.
fn work_and_search<
    R: Threads + Wait + Sync,
    D: Domain,
    N: StoreName + Send + Sync,
    E: Expander<D> + Sync,
    G: Gate + Sync,
>(
    rt: &R,
    alloc: Global,
    store: &Store<D, N>,
    workers: u32,
    reader: Reader,
    expander: &E,
    gate: &G,
) -> Reader
where
    D::Class: Send,
    D::Rule: Send,
    requires reader { reader.log ≡ N.log }
    requires rulebook { N.rulebook ≡ E.rulebook_of expander.now }
    ensures { result.log ≡ N.log }
{
    thread::scope(
        thread::scope_env(),
        rt,
        move |scope| -> Reader
            requires { (reader.log ≡ N.log) × (N.rulebook ≡ E.rulebook_of expander.now) }
            ensures { result.log ≡ N.log }
        {
            for worker in 0..workers {
                if scope
                    .spawn(
                        move ||
                            requires { N.rulebook ≡ E.rulebook_of expander.now }
                        { work(rt, alloc, store, expander, gate, worker) },
                    )
                    .is_err()
                {
                    store.retire(rt);
                }
            }
            search_beside(rt, alloc, store, reader, gate)
        },
    )
}

/// The ledger that the workers filled, as they left it.
fn fill<
    R: Threads + Wait + Sync,
    D: Domain,
    N: StoreName + Send + Sync,
    E: Expander<D> + Sync,
    G: Gate + Sync,
>(
    rt: &R,
    alloc: Global,
    root: D::Class,
    budget: u32,
    workers: u32,
    expander: &E,
    gate: &G,
    log: Log,
    writer: Writer,
    reader: Reader,
) -> Result<Ledger<D>, AllocError>
where
    D::Class: Send,
    D::Rule: Send,
    requires some { 1 ≤ budget }
    requires few { budget ≤ 5000 }
    requires worker { 1 ≤ workers }
    requires few_workers { workers ≤ 64 }
    requires log { log ≡ N.log }
    requires writer { (writer.log ≡ N.log) × (writer.list ≡ []) × (writer.front ≡ 0) }
    requires reader { reader.log ≡ N.log }
    requires room { HasRoomFor budget log }
    requires budget { budget ≡ N.budget }
    requires rulebook { N.rulebook ≡ E.rulebook_of expander.now }
    ensures budget { IfOk result (λ ledger. ledger.budget ≡ budget) }
    ensures rulebook { IfOk result (λ ledger. ledger.rulebook ≡ E.rulebook_of expander.now) }
{
    let rulebook = expander.rulebook();
    let store = Store::<D, N>::new(alloc, root, budget, rulebook, workers, log, writer)?;
    let reader = work_and_search(rt, alloc, &store, workers, reader, expander, gate);
    match store.close(reader) {
        Ok(Closed { ledger, words: _ }) => Ok(ledger),
        Err(_) => Err(AllocError),
    }
}

/// The ledger that several workers fill, 1 to 64, each in a thread of its own: which class is filed when depends on
/// the schedule. The caller searches beside them and stops them where the root stands. When they have ended, the caller
/// goes on alone until the root stands, all classes are done or the budget is spent. It tells why the ledger ends, and
/// where the root stands the specification of the picks, whose rules are the ledger's. Each done class has one filing,
/// the complete one. The budget is 1 to 5,000. The gate is told of what they do until then. The refusal is want of
/// memory.
pub fn solve<R: Threads + Wait + Sync, D: Domain, E: Expander<D> + Sync, G: Gate + Sync>(
    rt: &R,
    alloc: Global,
    root: D::Class,
    budget: u32,
    workers: u32,
    expander: &E,
    gate: &G,
) -> Result<Solved<D>, AllocError>
where
    D::Class: Send,
    D::Rule: Send,
    requires some { 1 ≤ budget }
    requires few { budget ≤ 5000 }
    requires worker { 1 ≤ workers }
    requires few_workers { workers ≤ 64 }
    ensures filled { IfOk result (λ solved. IsFilled D.meaning root budget (E.rulebook_of expander.now) solved.ledger) }
    ensures ledger { IfOk result (λ solved. IsLedger D.meaning solved.ledger) }
    ensures reason { IfOk result (λ solved. EndsFor D.meaning solved.ledger (reason_as solved.reason)) }
    ensures spec { IfOk result (λ solved. GoesWith D.meaning solved.ledger solved.spec) }
    ensures filed { IfOk result (λ solved. IfSome solved.spec (λ spec. IsFiledSpec D.meaning solved.ledger spec)) }
{
    let kept = D::copy(alloc, &root)?;
    let (log, writer, reader) = Log::new(alloc, 2048 * budget as u64)?;
    let ledger = fill::<R, D, Brand, E, G>(
        rt, alloc, root, budget, workers, expander, gate, log, writer, reader,
    )?;
    finish(alloc, kept, budget, ledger, expander)
}
