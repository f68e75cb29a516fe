// Rules that wait for a class that is not expanded.
ghost use Rattle.std.specs.Prelude.{◌<◌, IsTrue, length};
ghost use Rattle.css_domain.specs.LedgerFacts.{IsLedger};
ghost use Rattle.css_crew.specs.Waiting.{Waits, AllWait};

use css_domain::Domain;
use css_ledger::Ledger;

/// Whether the rule at a position has a child that is not expanded, where the expanded classes are the first ones.
fn waits<D: Domain>(ledger: &Ledger<D>, position: u32) -> bool
    requires { position < length ledger.now.rules }
    ensures { IsTrue result → Waits D.meaning ledger.now position }
{
    let expanded = ledger.counts().expanded;
    for slot in 0..D::arity(ledger.rule(position)) {
        if expanded <= ledger.child(position, slot) {
            return true;
        }
    }
    false
}

/// Whether each rule from a position on has a child that is not expanded.
pub(crate) fn all_wait<D: Domain>(ledger: &Ledger<D>, from: u32) -> bool
    ensures ledger { IsLedger D.meaning ledger.now }
    ensures waiting { IsTrue result → AllWait D.meaning ledger.now from }
{
    for position in from..ledger.counts().rules {
        if !waits(ledger, position) {
            return false;
        }
    }
    true
}
