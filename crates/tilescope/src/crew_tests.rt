//! Searches by several workers for the permutations that avoid 132, by placements in rows, cuts and factors. Below the
//! root, which is class 0, stand the classes 1, 2 and 3.
use crate::run::run_plain;
use crate::run_crew::run;
use crate::search_tests::CATALAN;
use crate::tests::words;
use css_crew::{Gate, NoGate};
use outside::{SteadySink, SteadySource};
use std::alloc::{AllocError, Global};
use std::sync::Wait;
use std::sync::atomic::{AtomicU64, Ordering};
use std::test::Fail;
use std::thread::Threads;

/// So many loads a gate makes before it gives up.
const TURNS: u64 = 1_000_000_000;

/// Waits until the word isn't 0. Answers whether that came.
fn comes(word: &AtomicU64) -> bool {
    for _ in 0..TURNS {
        if word.load(Ordering::SeqCst) != 0 {
            return true;
        }
    }
    false
}

/// What a command line writes by the workers that it asks for, whose acts the gate is told, and its status.
fn searched<R: Threads + Wait + Sync, G: Gate + Sync>(
    rt: &R,
    alloc: Global,
    line: &str,
    gate: &G,
) -> Result<(u8, Vec<u8>), Fail> {
    let words = words(alloc, line)?;
    let mut source = SteadySource::new(Vec::new(alloc));
    let mut sink = SteadySink::new(alloc);
    let ended = run(rt, alloc, words.as_slice(), &mut source, &mut sink, gate);
    let held = sink.held().ok_or("lost")?;
    Ok((ended.status, Vec::from_slice(alloc, held)?))
}

/// Whether a search found a text that the checker accepts, with these terms.
fn is_accepted(alloc: Global, status: u8, text: Vec<u8>, terms: &str) -> Result<bool, AllocError> {
    let words = words(alloc, "terms 132")?;
    let mut source = SteadySource::new(text);
    let mut sink = SteadySink::new(alloc);
    let ended = run_plain(alloc, words.as_slice(), &mut source, &mut sink);
    Ok(status == 0 && ended.status == 0 && sink.held() == Some(terms.as_bytes()))
}

#[test]
fn what_workers_find_is_accepted(rt: HostRuntime) -> Result<(), Fail> {
    let alloc = rt.alloc();
    for (workers, times) in [(1, 1), (2, 1), (3, 1), (8, 20), (64, 1)] {
        let line = format!(in alloc; "search 132 --pack rsf --terms 6 --workers {workers}")?;
        for _ in 0..times {
            let (status, text) = searched(&rt, alloc, line.as_str(), &NoGate)?;
            assert!(rt;
                is_accepted(alloc, status, text, "terms 1 1 2 5 14 42 132\n")?,
                "{workers}"
            );
        }
    }
    Ok(())
}

/// Holds each filing of the first ones below the root until all of them are announced.
#[derive(Drop)]
struct Together {
    most: u32,
    announced: AtomicU64,
    all: AtomicU64,
    late: AtomicU64,
}

impl Together {
    fn of(most: u32) -> Together {
        Together {
            most,
            announced: AtomicU64::new(0),
            all: AtomicU64::new(0),
            late: AtomicU64::new(0),
        }
    }

    /// Whether each was announced, and none waited in vain.
    fn held(&self) -> bool {
        self.all.load(Ordering::SeqCst) == 1 && self.late.load(Ordering::SeqCst) == 0
    }
}

impl Gate for Together {
    fn claimed(&self, _worker: u32, _number: u32) {}

    fn filing(&self, _worker: u32, number: u32) {
        if number == 0 || number > self.most {
            return;
        }
        let before = self.announced.fetch_add(1, Ordering::SeqCst);
        if before >= u64::from(self.most) - 1 {
            self.all.store(1, Ordering::SeqCst);
        }
        if !comes(&self.all) {
            self.late.store(1, Ordering::SeqCst);
        }
    }

    fn searched(&self, _front: u64, _found: bool) {}
}

/// Holds the filing of class 3 until the searcher has found.
#[derive(Drop)]
struct Found {
    found: AtomicU64,
    held: AtomicU64,
    late: AtomicU64,
}

impl Gate for Found {
    fn claimed(&self, _worker: u32, _number: u32) {}

    fn filing(&self, _worker: u32, number: u32) {
        if number != 3 {
            return;
        }
        self.held.store(1, Ordering::SeqCst);
        if !comes(&self.found) {
            self.late.store(1, Ordering::SeqCst);
        }
    }

    fn searched(&self, _front: u64, found: bool) {
        if found {
            self.found.store(1, Ordering::SeqCst);
        }
    }
}

/// The terms of the permutations that avoid 132, up to length 10.
const TERMS: &str = "terms 1 1 2 5 14 42 132 429 1430 4862 16796\n";

#[test]
fn workers_expand_at_the_same_time(rt: HostRuntime) -> Result<(), Fail> {
    let alloc = rt.alloc();
    for workers in [2, 3] {
        let gate = Together::of(workers);
        let line = format!(in alloc; "search 132 --pack rsf --workers {workers}")?;
        let (status, text) = searched(&rt, alloc, line.as_str(), &gate)?;
        assert!(rt; gate.held(), "{workers}");
        assert!(rt; is_accepted(alloc, status, text, TERMS)?, "{workers}");
    }
    Ok(())
}

#[test]
fn the_searcher_finds_beside_the_workers(rt: HostRuntime) -> Result<(), Fail> {
    let alloc = rt.alloc();
    let gate = Found {
        found: AtomicU64::new(0),
        held: AtomicU64::new(0),
        late: AtomicU64::new(0),
    };
    let line = "search 132 --pack rsf --workers 2";
    let (status, text) = searched(&rt, alloc, line, &gate)?;
    assert_eq!(rt; gate.held.load(Ordering::SeqCst), 1);
    assert_eq!(rt; gate.late.load(Ordering::SeqCst), 0);
    assert!(rt; is_accepted(alloc, status, text, TERMS)?);
    Ok(())
}

#[test]
fn one_worker_writes_what_is_written_plainly(rt: HostRuntime) -> Result<(), Fail> {
    let alloc = rt.alloc();
    let (status, text) = searched(&rt, alloc, "search 132 --pack rsf --terms 6", &NoGate)?;
    assert_eq!(rt; status, 0);
    assert_eq!(rt; text.as_slice(), CATALAN.as_bytes());
    Ok(())
}
