ghost use Rattle.std.specs.Prelude.{◌≡◌};

use crate::expander::Expander;
use crate::gate::Gate;
use css_domain::Domain;
use css_ledger::Pack;
use css_store::{Store, StoreClaim, StoreName, Unfiled};
use std::alloc::Global;
use std::sync::Wait;

/// Expands a class that was claimed, and files its rules. Where one of the two is refused, the pack is given back.
/// Answers whether the rules were filed.
fn expand_and_file<D: Domain, N: StoreName, E: Expander<D>, G: Gate>(
    rt: &impl Wait,
    alloc: Global,
    store: &Store<D, N>,
    expander: &E,
    gate: &G,
    worker: u32,
    pack: Pack,
    class: &D::Class,
) -> bool
    requires { N.rulebook ≡ E.rulebook_of expander.now }
{
    gate.claimed(worker, pack.number());
    let Ok(filing) = expander.expand(alloc, class) else {
        store.give_back(rt, pack);
        return false;
    };
    gate.filing(worker, pack.number());
    match store.file(rt, pack, filing) {
        Ok(()) => true,
        Err(Unfiled::NotOut(pack, _)) => {
            store.give_back(rt, pack);
            false
        }
        Err(Unfiled::Memory(pack, _)) => {
            store.give_back(rt, pack);
            false
        }
    }
}

/// What a worker does: it claims a class, expands it and files its rules, again and again, until no class is to be
/// had or something is refused. Then it retires. No lock is held while it expands.
pub(crate) fn work<D: Domain, N: StoreName, E: Expander<D>, G: Gate>(
    rt: &impl Wait,
    alloc: Global,
    store: &Store<D, N>,
    expander: &E,
    gate: &G,
    worker: u32,
)
    requires { N.rulebook ≡ E.rulebook_of expander.now }
{
    for _ in 0..u64::MAX {
        let filed = match store.claim(rt, alloc) {
            StoreClaim::Work(pack, class) => {
                expand_and_file(rt, alloc, store, expander, gate, worker, pack, &class)
            }
            StoreClaim::Spent => false,
            StoreClaim::Finished => false,
            StoreClaim::Stopped => false,
            StoreClaim::Memory => false,
        };
        if !filed {
            break;
        }
    }
    store.retire(rt);
}
