//! Several workers, on the numbers of the other tests: 7 is made from 10 and 20, and from 30 twice; 10 and 20 from
//! themselves; 40 from 30. So 7 stands once 7, 10 and 20 are filed, in any order, and 30 never does. Below 7, the
//! classes 1, 2 and 3 are 10, 20 and 30.
ghost use Rattle.std.specs.Prelude.{◌≤◌};

use crate::alone::Solved;
use crate::crew::solve;
use crate::expander::Expander;
use crate::gate::{Gate, NoGate};
use crate::reason::Reason;
use crate::tests::{ByPairs, Numbers, filing_of, is_entry, pairs_of};
use css_domain::Filing;
use std::alloc::{AllocError, Global};
use std::sync::Wait;
use std::sync::atomic::{AtomicU64, Ordering};
use std::test::Fail;
use std::thread::Threads;

/// So many loads a gate makes before it gives up.
const TURNS: u64 = 1_000_000_000;

/// Waits until the word isn't 0. Answers whether that came.
fn comes(word: &AtomicU64) -> bool {
    for _ in 0..TURNS {
        if word.load(Ordering::SeqCst) != 0 {
            return true;
        }
    }
    false
}

fn solved<R: Threads + Wait + Sync, E: Expander<Numbers> + Sync, G: Gate + Sync>(
    rt: &R,
    alloc: Global,
    root: u32,
    budget: u32,
    workers: u32,
    expander: &E,
    gate: &G,
) -> Result<Solved<Numbers>, AllocError>
    requires some { 1 ≤ budget }
    requires few { budget ≤ 5000 }
    requires worker { 1 ≤ workers }
    requires few_workers { workers ≤ 64 }
{
    solve(rt, alloc, root, budget, workers, expander, gate)
}

/// Whether a search ends for this reason, with so many expanded classes, and a specification only where found.
fn ends<R: Threads + Wait + Sync>(
    rt: &R,
    alloc: Global,
    root: u32,
    budget: u32,
    workers: u32,
    reason: Reason,
    expanded: u32,
) -> Result<bool, AllocError>
    requires some { 1 ≤ budget }
    requires few { budget ≤ 5000 }
    requires worker { 1 ≤ workers }
    requires few_workers { workers ≤ 64 }
{
    let solved = solved(rt, alloc, root, budget, workers, &ByPairs, &NoGate)?;
    Ok(
        solved.reason == reason
            && solved.ledger.counts().expanded == expanded
            && solved.spec.is_some() == (reason == Reason::Found),
    )
}

#[test]
fn any_number_of_workers_ends_for_the_reason(rt: HostRuntime) -> Result<(), Fail> {
    let alloc = rt.alloc();
    for workers in [1, 2, 3, 8, 64] {
        assert!(rt;
            ends(&rt, alloc, 10, 1, workers, Reason::Found, 1)?,
            "{workers}"
        );
        assert!(rt;
            ends(&rt, alloc, 40, 2, workers, Reason::Exhausted, 2)?,
            "{workers}"
        );
        assert!(rt;
            ends(&rt, alloc, 30, 5, workers, Reason::Exhausted, 1)?,
            "{workers}"
        );
        assert!(rt;
            ends(&rt, alloc, 7, 2, workers, Reason::Budget, 2)?,
            "{workers}"
        );
    }
    Ok(())
}

/// Whether the specification is that of 7, from 10 and 20 in this order.
fn is_seven(solved: &Solved<Numbers>) -> bool {
    let Some(spec) = &solved.spec else {
        return false;
    };
    let entries = spec.entries();
    entries.len() == 3
        && is_entry(&entries[0], 7, &[1, 2], 1)
        && is_entry(&entries[1], 10, &[1, 1], 1)
        && is_entry(&entries[2], 20, &[2, 2], 1)
}

#[test]
fn workers_find_what_one_finds(rt: HostRuntime) -> Result<(), Fail> {
    let alloc = rt.alloc();
    for workers in [1, 2, 3, 8, 64] {
        let solved = solved(&rt, alloc, 7, 9, workers, &ByPairs, &NoGate)?;
        assert_eq!(rt; solved.reason, Reason::Found, "{workers}");
        assert!(rt; is_seven(&solved), "{workers}");
    }
    Ok(())
}

/// Holds each filing of the first ones below the root until all of them are announced.
#[derive(Drop)]
struct Together {
    most: u32,
    announced: AtomicU64,
    all: AtomicU64,
    late: AtomicU64,
}

impl Together {
    fn of(most: u32) -> Together {
        Together {
            most,
            announced: AtomicU64::new(0),
            all: AtomicU64::new(0),
            late: AtomicU64::new(0),
        }
    }

    /// Whether each was announced, and none waited in vain.
    fn held(&self) -> bool {
        self.all.load(Ordering::SeqCst) == 1 && self.late.load(Ordering::SeqCst) == 0
    }
}

impl Gate for Together {
    fn claimed(&self, _worker: u32, _number: u32) {}

    fn filing(&self, _worker: u32, number: u32) {
        if number == 0 || number > self.most {
            return;
        }
        let before = self.announced.fetch_add(1, Ordering::SeqCst);
        if before >= u64::from(self.most) - 1 {
            self.all.store(1, Ordering::SeqCst);
        }
        if !comes(&self.all) {
            self.late.store(1, Ordering::SeqCst);
        }
    }

    fn searched(&self, _front: u64, _found: bool) {}
}

#[test]
fn workers_expand_at_the_same_time(rt: HostRuntime) -> Result<(), Fail> {
    let alloc = rt.alloc();
    for workers in [2, 3] {
        let gate = Together::of(workers);
        let solved = solved(&rt, alloc, 7, 9, workers, &ByPairs, &gate)?;
        assert!(rt; gate.held(), "{workers}");
        assert!(rt; is_seven(&solved), "{workers}");
    }
    Ok(())
}

/// Holds the filing of 30 until the searcher has found.
#[derive(Drop)]
struct Found {
    found: AtomicU64,
    held: AtomicU64,
    late: AtomicU64,
}

impl Gate for Found {
    fn claimed(&self, _worker: u32, _number: u32) {}

    fn filing(&self, _worker: u32, number: u32) {
        if number != 3 {
            return;
        }
        self.held.store(1, Ordering::SeqCst);
        if !comes(&self.found) {
            self.late.store(1, Ordering::SeqCst);
        }
    }

    fn searched(&self, _front: u64, found: bool) {
        if found {
            self.found.store(1, Ordering::SeqCst);
        }
    }
}

#[test]
fn the_searcher_finds_beside_the_workers(rt: HostRuntime) -> Result<(), Fail> {
    let gate = Found {
        found: AtomicU64::new(0),
        held: AtomicU64::new(0),
        late: AtomicU64::new(0),
    };
    let solved = solved(&rt, rt.alloc(), 7, 9, 2, &ByPairs, &gate)?;
    assert!(rt; is_seven(&solved));
    assert_eq!(rt; gate.held.load(Ordering::SeqCst), 1);
    assert_eq!(rt; gate.late.load(Ordering::SeqCst), 0);
    Ok(())
}

/// Has no memory for its first so many calls, and then expands by the pairs.
#[derive(Drop)]
struct WithoutMemory {
    refusals: u64,
    calls: AtomicU64,
}

impl Expander<Numbers> for WithoutMemory {
    ghost rulebook_of = { λ _. 3 };

    fn rulebook(&self) -> u32 {
        3
    }

    fn expand(&self, alloc: Global, class: &u32) -> Result<Filing<Numbers>, AllocError> {
        if self.calls.fetch_add(1, Ordering::SeqCst) < self.refusals {
            return Err(AllocError);
        }
        filing_of(alloc, *class, pairs_of(*class))
    }
}

#[test]
fn the_caller_goes_on_where_the_workers_have_no_memory(rt: HostRuntime) -> Result<(), Fail> {
    let alloc = rt.alloc();
    for workers in [1, 2] {
        let expander = WithoutMemory {
            refusals: u64::from(workers),
            calls: AtomicU64::new(0),
        };
        let solved = solved(&rt, alloc, 7, 9, workers, &expander, &NoGate)?;
        assert_eq!(rt; solved.reason, Reason::Found, "{workers}");
        assert!(rt; is_seven(&solved), "{workers}");
    }
    Ok(())
}

/// Finds no rules at its first call, though there are.
#[derive(Drop)]
struct FirstInVain {
    calls: AtomicU64,
}

impl Expander<Numbers> for FirstInVain {
    ghost rulebook_of = { λ _. 3 };

    fn rulebook(&self) -> u32 {
        3
    }

    fn expand(&self, alloc: Global, class: &u32) -> Result<Filing<Numbers>, AllocError> {
        if self.calls.fetch_add(1, Ordering::SeqCst) == 0 {
            return filing_of(alloc, *class, &[]);
        }
        filing_of(alloc, *class, pairs_of(*class))
    }
}

#[test]
fn an_empty_filing_is_looked_at_again(rt: HostRuntime) -> Result<(), Fail> {
    let expander = FirstInVain {
        calls: AtomicU64::new(0),
    };
    let solved = solved(&rt, rt.alloc(), 7, 9, 2, &expander, &NoGate)?;
    assert_eq!(rt; solved.reason, Reason::Found);
    assert!(rt; is_seven(&solved));
    Ok(())
}
