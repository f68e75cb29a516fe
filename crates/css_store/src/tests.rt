//! The answers of a desk and of a store. The root is 7, whose one rule makes it from 10 and 21 by a union, so
//! the words of its record are 0, 2, 2, 5.
ghost use Rattle.std.specs.Prelude.{◌≡◌, ◌≤◌, ℕ, [], IfOk, length};
ghost use Rattle.css_log.specs.States.{ReaderState};
ghost use Rattle.css_store.specs.Desks.{HasRoomFor};
ghost use Rattle.css_store.specs.Filings.{IsFiling};

use crate::{Desk, DeskClaim, Growth, Store, StoreClaim, StoreName, Unfiled};
use css_domain::{Domain, Filing, Shape};
use css_ledger::{Ledger, Pack};
use css_log::{Log, Reader, Writer};
use std::alloc::{AllocError, Global};
use std::marker::Brand;
use std::sync::Wait;
use std::test::Fail;
use std::thread::{Threads, join};

/// Numbers without members, of which the odd ones count as positive. A rule makes a number from two.
struct Numbers;

#[derive(Drop)]
struct Pair {
    parent: u32,
    first: u32,
    second: u32,
}

impl Domain for Numbers {
    ghost use Rattle.std.specs.Prelude.{ℕ, [], ◌∷◌, ◌==◌, ◌%◌, nat_eq, refl};
    ghost use Rattle.std.proofs.Common.{sym, ◌∙◌};
    ghost use Rattle.std.proofs.lemmas.List.Sums.{sum_by-cons};
    ghost use Rattle.std.proofs.lemmas.Bool.{eqb-true};
    ghost use Rattle.css_domain.specs.Meanings.{Meaning};
    ghost use Rattle.css_domain.specs.declared.shape.Shape.TheVariants.{Union};

    type Class = u32;

    type Rule = Pair;

    ghost meaning = { record { same = nat_eq; positive = λ c. c % 2 == 1; count = λ c n. 0; parent = λ r. r.parent; children = λ r. r.first ∷ r.second ∷ []; shape = λ r. Union; holds = λ r. Unit {0}; complete = λ rulebook c rules. Unit {0} } };

    fn parent(rule: &Pair) -> &u32 {
        &rule.parent
    }

    fn arity(_rule: &Pair) -> u32 {
        2
    }

    fn child(rule: &Pair, slot: u32) -> &u32 {
        if slot == 0 {
            return &rule.first;
        }
        &rule.second
    }

    fn shape(_rule: &Pair) -> Shape {
        Shape::Union
    }

    fn positive(class: &u32) -> bool {
        class % 2 == 1
    }

    fn copy(_alloc: Global, class: &u32) -> Result<u32, AllocError> {
        Ok(*class)
    }

    fn copy_rule(_alloc: Global, rule: &Pair) -> Result<Pair, AllocError> {
        Ok(Pair {
            parent: rule.parent,
            first: rule.first,
            second: rule.second,
        })
    }

    ghost exact = { eqb-true };

    ghost same = { λ a b. refl };

    ghost combined = { λ r h n. sym (sum_by-cons (λ (c : ℕ → ℕ). c n) (λ m. 0) ((λ m. 0) ∷ []) ∙ sum_by-cons (λ (c : ℕ → ℕ). c n) (λ m. 0) []) };

    ghost none_of_length_0 = { λ c h. refl };
}

/// The filing of a number that makes it from each of the pairs.
fn filing_of(
    alloc: Global,
    parent: u32,
    pairs: &[(u32, u32)],
) -> Result<Filing<Numbers>, AllocError>
    requires { length pairs.now ≤ 4 }
    ensures { IfOk result (λ filing. (rulebook : ℕ) → IsFiling ⟦<Numbers as Domain>⟧.meaning rulebook filing) }
{
    let mut rules = Vec::new(alloc);
    for pair in pairs {
        rules.push(Pair {
            parent,
            first: pair.0,
            second: pair.1,
        })?;
    }
    Ok(Filing::of(rules))
}

/// A store of one worker.
fn made<N: StoreName>(
    alloc: Global,
    budget: u32,
    log: Log,
    writer: Writer,
) -> Result<Store<Numbers, N>, AllocError>
    requires some { 1 ≤ budget }
    requires few { budget ≤ 5000 }
    requires log { log ≡ N.log }
    requires writer { (writer.log ≡ N.log) × (writer.list ≡ []) × (writer.front ≡ 0) }
    requires room { HasRoomFor budget log }
    requires name { (budget ≡ N.budget) × (0 ≡ N.rulebook) }
{
    Store::new(alloc, 7, budget, 0, 1, log, writer)
}

/// The pack of a claim that answers work of class 0 with a copy of the root.
fn claim_root<N: StoreName>(
    rt: &impl Wait,
    alloc: Global,
    store: &Store<Numbers, N>,
) -> Result<Pack, AllocError> {
    match store.claim(rt, alloc) {
        StoreClaim::Work(pack, class) => {
            if pack.number() == 0 && class == 7 {
                return Ok(pack);
            }
            store.give_back(rt, pack);
            Err(AllocError)
        }
        StoreClaim::Spent => Err(AllocError),
        StoreClaim::Finished => Err(AllocError),
        StoreClaim::Stopped => Err(AllocError),
        StoreClaim::Memory => Err(AllocError),
    }
}

/// What a store answers to a claim; work is given back.
fn next_answer<N: StoreName>(
    rt: &impl Wait,
    alloc: Global,
    store: &Store<Numbers, N>,
) -> &'static str {
    match store.claim(rt, alloc) {
        StoreClaim::Work(pack, _) => {
            store.give_back(rt, pack);
            "work"
        }
        StoreClaim::Spent => "spent",
        StoreClaim::Finished => "finished",
        StoreClaim::Stopped => "stopped",
        StoreClaim::Memory => "memory",
    }
}

/// Files for the pack what makes a number from each of the pairs; what comes back is given back. Tells whether
/// it was filed, or was not out.
fn file<N: StoreName>(
    rt: &impl Wait,
    alloc: Global,
    store: &Store<Numbers, N>,
    pack: Pack,
    parent: u32,
    pairs: &[(u32, u32)],
) -> &'static str
    requires { length pairs.now ≤ 4 }
{
    let Ok(filing) = filing_of(alloc, parent, pairs) else {
        store.give_back(rt, pack);
        return "memory";
    };
    match store.file(rt, pack, filing) {
        Ok(()) => "filed",
        Err(Unfiled::NotOut(pack, _)) => {
            store.give_back(rt, pack);
            "not out"
        }
        Err(Unfiled::Memory(pack, _)) => {
            store.give_back(rt, pack);
            "memory"
        }
    }
}

/// Budget 1: the first claim is the root's.
fn claims_first<N: StoreName>(
    rt: &impl Wait,
    alloc: Global,
    log: Log,
    writer: Writer,
) -> Result<bool, AllocError>
    requires log { log ≡ N.log }
    requires writer { (writer.log ≡ N.log) × (writer.list ≡ []) × (writer.front ≡ 0) }
    requires room { HasRoomFor 1 log }
    requires name { (1 ≡ N.budget) × (0 ≡ N.rulebook) }
{
    let store = made::<N>(alloc, 1, log, writer)?;
    let pack = claim_root(rt, alloc, &store)?;
    store.give_back(rt, pack);
    Ok(true)
}

/// Budget 1: a second claim finds the budget spent.
fn claims_twice<N: StoreName>(
    rt: &impl Wait,
    alloc: Global,
    log: Log,
    writer: Writer,
) -> Result<bool, AllocError>
    requires log { log ≡ N.log }
    requires writer { (writer.log ≡ N.log) × (writer.list ≡ []) × (writer.front ≡ 0) }
    requires room { HasRoomFor 1 log }
    requires name { (1 ≡ N.budget) × (0 ≡ N.rulebook) }
{
    let store = made::<N>(alloc, 1, log, writer)?;
    let pack = claim_root(rt, alloc, &store)?;
    let spent = next_answer(rt, alloc, &store) == "spent";
    store.give_back(rt, pack);
    Ok(spent)
}

/// Budget 1: once the root is filed without rules, all is done.
fn claims_after_the_last_filing<N: StoreName>(
    rt: &impl Wait,
    alloc: Global,
    log: Log,
    writer: Writer,
) -> Result<bool, AllocError>
    requires log { log ≡ N.log }
    requires writer { (writer.log ≡ N.log) × (writer.list ≡ []) × (writer.front ≡ 0) }
    requires room { HasRoomFor 1 log }
    requires name { (1 ≡ N.budget) × (0 ≡ N.rulebook) }
{
    let store = made::<N>(alloc, 1, log, writer)?;
    let pack = claim_root(rt, alloc, &store)?;
    let filed = file(rt, alloc, &store, pack, 7, &[]) == "filed";
    Ok(filed && next_answer(rt, alloc, &store) == "finished")
}

/// Budget 2: what was claimed is given back, and after a stop a claim is answered by it.
fn claims_after_a_stop<N: StoreName>(
    rt: &impl Wait,
    alloc: Global,
    log: Log,
    writer: Writer,
    mut reader: Reader,
) -> Result<bool, AllocError>
    requires log { log ≡ N.log }
    requires writer { (writer.log ≡ N.log) × (writer.list ≡ []) × (writer.front ≡ 0) }
    requires reader { reader.log ≡ N.log }
    requires room { HasRoomFor 2 log }
    requires name { (2 ≡ N.budget) × (0 ≡ N.rulebook) }
{
    let store = made::<N>(alloc, 2, log, writer)?;
    let pack = claim_root(rt, alloc, &store)?;
    store.give_back(rt, pack);
    store.stop(rt, &mut reader);
    Ok(next_answer(rt, alloc, &store) == "stopped")
}

/// Budget 2: the root's filing is a growth by its four words.
fn grows<N: StoreName>(
    rt: &impl Wait,
    alloc: Global,
    log: Log,
    writer: Writer,
) -> Result<bool, AllocError>
    requires log { log ≡ N.log }
    requires writer { (writer.log ≡ N.log) × (writer.list ≡ []) × (writer.front ≡ 0) }
    requires room { HasRoomFor 2 log }
    requires name { (2 ≡ N.budget) × (0 ≡ N.rulebook) }
{
    let store = made::<N>(alloc, 2, log, writer)?;
    let pack = claim_root(rt, alloc, &store)?;
    let filed = file(rt, alloc, &store, pack, 7, &[(10, 21)]) == "filed";
    let Growth::Grown(note) = store.await_growth(rt, 0) else {
        return Ok(false);
    };
    Ok(filed && note.front() == 4)
}

/// Budget 2: past these words the growth ends once the worker has retired.
fn ends<N: StoreName>(
    rt: &impl Wait,
    alloc: Global,
    log: Log,
    writer: Writer,
) -> Result<bool, AllocError>
    requires log { log ≡ N.log }
    requires writer { (writer.log ≡ N.log) × (writer.list ≡ []) × (writer.front ≡ 0) }
    requires room { HasRoomFor 2 log }
    requires name { (2 ≡ N.budget) × (0 ≡ N.rulebook) }
{
    let store = made::<N>(alloc, 2, log, writer)?;
    let pack = claim_root(rt, alloc, &store)?;
    let filed = file(rt, alloc, &store, pack, 7, &[(10, 21)]) == "filed";
    store.retire(rt);
    Ok(filed && matches!(store.await_growth(rt, 4), Growth::Ended))
}

/// Budget 2: nothing is read before a filing; after the root's there is a note of four words, which are read,
/// and once the worker has retired the growth ends there.
fn grows_and_ends<N: StoreName>(
    rt: &impl Wait,
    alloc: Global,
    log: Log,
    writer: Writer,
    mut reader: Reader,
) -> Result<bool, AllocError>
    requires log { log ≡ N.log }
    requires writer { (writer.log ≡ N.log) × (writer.list ≡ []) × (writer.front ≡ 0) }
    requires reader { reader.log ≡ N.log }
    requires room { HasRoomFor 2 log }
    requires name { (2 ≡ N.budget) × (0 ≡ N.rulebook) }
{
    let store = made::<N>(alloc, 2, log, writer)?;
    let none = store.look(&mut reader) == 0;
    store.pull(&mut reader)?;
    let empty = reader.words().is_empty();
    let pack = claim_root(rt, alloc, &store)?;
    let filed = file(rt, alloc, &store, pack, 7, &[(10, 21)]) == "filed";
    let Growth::Grown(note) = store.await_growth(rt, 0) else {
        return Ok(false);
    };
    let front = note.front();
    store.learn(&mut reader, note);
    let seen = store.look(&mut reader);
    store.pull(&mut reader)?;
    let read = reader.words() == [0, 2, 2, 5].as_slice();
    store.retire(rt);
    store.retire(rt);
    let ended = matches!(store.await_growth(rt, 4), Growth::Ended);
    let Ok(closed) = store.close(reader) else {
        return Err(AllocError);
    };
    let words = closed.words.as_slice() == [0, 2, 2, 5].as_slice();
    let rules = closed.ledger.counts().rules == 1;
    Ok(none && empty && filed && front == 4 && seen == 4 && read && ended && words && rules)
}

/// Budget 2: the pack of another store's root is not out here, and comes back with the filing; so does a filing
/// whose rule makes another number.
fn not_out<N: StoreName, M: StoreName>(
    rt: &impl Wait,
    alloc: Global,
    log: Log,
    writer: Writer,
    other: &Store<Numbers, M>,
) -> Result<bool, AllocError>
    requires log { log ≡ N.log }
    requires writer { (writer.log ≡ N.log) × (writer.list ≡ []) × (writer.front ≡ 0) }
    requires room { HasRoomFor 2 log }
    requires name { (2 ≡ N.budget) × (0 ≡ N.rulebook) }
{
    let store = made::<N>(alloc, 2, log, writer)?;
    let filing = filing_of(alloc, 7, &[])?;
    let pack = claim_root(rt, alloc, other)?;
    let back = match store.file(rt, pack, filing) {
        Ok(()) => false,
        Err(Unfiled::NotOut(pack, filing)) => {
            let both = pack.number() == 0 && filing.as_slice().is_empty();
            other.give_back(rt, pack);
            both
        }
        Err(Unfiled::Memory(pack, _)) => {
            other.give_back(rt, pack);
            false
        }
    };
    let pack = claim_root(rt, alloc, &store)?;
    let other_number = file(rt, alloc, &store, pack, 8, &[(10, 21)]) == "not out";
    Ok(back && other_number)
}

/// The same, where the other store is of this name.
fn not_out_of<M: StoreName>(
    rt: &impl Wait,
    alloc: Global,
    other: (Log, Writer),
    log: Log,
    writer: Writer,
) -> Result<bool, AllocError>
    requires other { (other.0 ≡ M.log) × (other.1.log ≡ M.log) × (other.1.list ≡ []) × (other.1.front ≡ 0) }
    requires other_room { HasRoomFor 2 other.0 }
    requires name { (2 ≡ M.budget) × (0 ≡ M.rulebook) }
    requires writer { (writer.log ≡ log) × (writer.list ≡ []) × (writer.front ≡ 0) }
    requires room { HasRoomFor 2 log }
{
    let store = made::<M>(alloc, 2, other.0, other.1)?;
    not_out::<Brand, M>(rt, alloc, log, writer, &store)
}

/// Whether a desk has nothing to do now; work is given back.
fn is_idle<N: StoreName>(alloc: Global, desk: &mut Desk<Numbers, N>, log: &Log) -> bool
    requires { log.now ≡ N.log }
{
    match desk.claim(alloc, log) {
        DeskClaim::Work(pack, _) => {
            desk.give_back(pack);
            false
        }
        DeskClaim::Idle => true,
        DeskClaim::Spent => false,
        DeskClaim::Finished => false,
        DeskClaim::Stopped => false,
        DeskClaim::Memory => false,
    }
}

/// Budget 2, the calls of the desk alone: the root is claimed and filed, there is a note of four words, and
/// once the worker has retired the growth ends there.
fn desk_answers<N: StoreName>(alloc: Global, log: &Log, writer: Writer) -> Result<bool, AllocError>
    requires log { log.now ≡ N.log }
    requires writer { (writer.log ≡ N.log) × (writer.list ≡ []) × (writer.front ≡ 0) }
    requires room { HasRoomFor 2 log.now }
    requires name { (2 ≡ N.budget) × (0 ≡ N.rulebook) }
{
    let filing = filing_of(alloc, 7, &[(10, 21)])?;
    let ledger = Ledger::<Numbers>::new(alloc, 7, 2, 0)?;
    let mut desk = Desk::<Numbers, N>::new(ledger, writer, 1);
    let pack = match desk.claim(alloc, log) {
        DeskClaim::Work(pack, _) => pack,
        DeskClaim::Spent => return Ok(false),
        DeskClaim::Finished => return Ok(false),
        DeskClaim::Idle => return Ok(false),
        DeskClaim::Stopped => return Ok(false),
        DeskClaim::Memory => return Err(AllocError),
    };
    let idle = is_idle(alloc, &mut desk, log);
    match desk.file(log, pack, filing) {
        Ok(()) => {}
        Err(Unfiled::NotOut(pack, _)) => desk.give_back(pack),
        Err(Unfiled::Memory(pack, _)) => desk.give_back(pack),
    }
    let Some(Growth::Grown(note)) = desk.growth(log, 0) else {
        return Ok(false);
    };
    let none = desk.growth(log, 4).is_none();
    desk.retire();
    let ended = matches!(desk.growth(log, 4), Some(Growth::Ended));
    Ok(idle && note.front() == 4 && none && ended)
}

/// What a store answers to a claim, each case with a store of its own.
fn claims_answer(rt: &impl Wait, alloc: Global) -> Result<bool, AllocError> {
    let (log, writer, _) = Log::new(alloc, 2048)?;
    let first = claims_first::<Brand>(rt, alloc, log, writer)?;
    let (log, writer, _) = Log::new(alloc, 2048)?;
    let twice = claims_twice::<Brand>(rt, alloc, log, writer)?;
    let (log, writer, _) = Log::new(alloc, 2048)?;
    let last = claims_after_the_last_filing::<Brand>(rt, alloc, log, writer)?;
    let (log, writer, reader) = Log::new(alloc, 4096)?;
    let stopped = claims_after_a_stop::<Brand>(rt, alloc, log, writer, reader)?;
    Ok(first && twice && last && stopped)
}

/// What it answers to who waits for growth, and to a foreign pack, each case with a store of its own.
fn growth_answers(rt: &impl Wait, alloc: Global) -> Result<bool, AllocError> {
    let (log, writer, _) = Log::new(alloc, 4096)?;
    let grown = grows::<Brand>(rt, alloc, log, writer)?;
    let (log, writer, _) = Log::new(alloc, 4096)?;
    let ended = ends::<Brand>(rt, alloc, log, writer)?;
    let (other, other_writer, _) = Log::new(alloc, 4096)?;
    let (log, writer, _) = Log::new(alloc, 4096)?;
    let not_out = not_out_of::<Brand>(rt, alloc, (other, other_writer), log, writer)?;
    Ok(grown && ended && not_out)
}

#[test]
fn store_answers(rt: HostRuntime) -> Result<(), Fail> {
    assert!(rt; claims_answer(&rt, rt.alloc())?);
    assert!(rt; growth_answers(&rt, rt.alloc())?);
    Ok(())
}

#[test]
fn a_store_is_read(rt: HostRuntime) -> Result<(), Fail> {
    let (log, writer, reader) = Log::new(rt.alloc(), 4096)?;
    assert!(rt; grows_and_ends::<Brand>(&rt, rt.alloc(), log, writer, reader)?);
    Ok(())
}

#[test]
fn a_desk_answers(rt: HostRuntime) -> Result<(), Fail> {
    let (log, writer, _) = Log::new(rt.alloc(), 4096)?;
    assert!(rt; desk_answers::<Brand>(rt.alloc(), &log, writer)?);
    Ok(())
}

/// Claims and files until there is no more work: each number is made from 10 and 21.
fn work<N: StoreName>(rt: &impl Wait, alloc: Global, store: &Store<Numbers, N>) {
    for _ in rt.forever() {
        match store.claim(rt, alloc) {
            StoreClaim::Work(pack, class) => {
                file(rt, alloc, store, pack, class, &[(10, 21)]);
            }
            StoreClaim::Spent => break,
            StoreClaim::Finished => break,
            StoreClaim::Stopped => break,
            StoreClaim::Memory => break,
        }
    }
    store.retire(rt);
}

/// Reads what is published until no worker is left.
fn read<N: StoreName>(rt: &impl Wait, store: &Store<Numbers, N>, mut reader: Reader) -> Reader
    requires { reader.log ≡ N.log }
    ensures { result.log ≡ N.log }
{
    for _ in rt.forever() {
        let Growth::Grown(note) = store.await_growth(rt, reader.words().len() as u64) else {
            break;
        };
        store.learn(&mut reader, note);
        if store.pull(&mut reader).is_err() {
            break;
        }
    }
    reader
}

/// Budget 3: one thread files three classes while another reads their words.
fn reads_beside<N: StoreName, R: Threads + Wait + Sync>(
    rt: &R,
    alloc: Global,
    log: Log,
    writer: Writer,
    reader: Reader,
) -> Result<bool, AllocError>
where
    N: Send + Sync,
    requires log { log ≡ N.log }
    requires writer { (writer.log ≡ N.log) × (writer.list ≡ []) × (writer.front ≡ 0) }
    requires reader { reader.log ≡ N.log }
    requires room { HasRoomFor 3 log }
    requires name { (3 ≡ N.budget) × (0 ≡ N.rulebook) }
{
    let store = made::<N>(alloc, 3, log, writer)?;
    let ((), reader) = join(rt, || work(rt, alloc, &store), || read(rt, &store, reader));
    let words = [0, 2, 2, 5, 4294967296, 2, 2, 5, 8589934592, 2, 2, 5];
    let read = reader.words() == words.as_slice();
    let Ok(closed) = store.close(reader) else {
        return Err(AllocError);
    };
    Ok(read && closed.words.as_slice() == words.as_slice())
}

#[test]
fn a_second_thread_reads_what_is_filed(rt: HostRuntime) -> Result<(), Fail> {
    let (log, writer, reader) = Log::new(rt.alloc(), 6144)?;
    assert!(rt; reads_beside::<Brand, _>(&rt, rt.alloc(), log, writer, reader)?);
    Ok(())
}

/// Claims a class and tells its number. The root's rules are filed after a while, in which whoever waits is woken
/// in vain; another class is given back.
fn takes_one<N: StoreName>(rt: &impl Wait, alloc: Global, store: &Store<Numbers, N>) -> u32 {
    match store.claim(rt, alloc) {
        StoreClaim::Work(pack, class) => {
            let number = pack.number();
            if class != 7 {
                store.give_back(rt, pack);
                return number;
            }
            for _ in 0..2000u32 {
                store.retire(rt);
            }
            file(rt, alloc, store, pack, class, &[(10, 21)]);
            number
        }
        StoreClaim::Spent => 64,
        StoreClaim::Finished => 64,
        StoreClaim::Stopped => 64,
        StoreClaim::Memory => 64,
    }
}

/// Budget 2: while the root is out there is nothing to do, so a second claim waits until it is filed, and is that
/// of class 1.
fn waits_for_work<N: StoreName, R: Threads + Wait + Sync>(
    rt: &R,
    alloc: Global,
    log: Log,
    writer: Writer,
) -> Result<bool, AllocError>
where
    N: Send + Sync,
    requires log { log ≡ N.log }
    requires writer { (writer.log ≡ N.log) × (writer.list ≡ []) × (writer.front ≡ 0) }
    requires room { HasRoomFor 2 log }
    requires name { (2 ≡ N.budget) × (0 ≡ N.rulebook) }
{
    let store = made::<N>(alloc, 2, log, writer)?;
    let (first, second) = join(
        rt,
        || takes_one(rt, alloc, &store),
        || takes_one(rt, alloc, &store),
    );
    Ok((first == 0 && second == 1) || (first == 1 && second == 0))
}

#[test]
fn a_claim_waits_for_a_filing(rt: HostRuntime) -> Result<(), Fail> {
    let (log, writer, _) = Log::new(rt.alloc(), 4096)?;
    assert!(rt; waits_for_work::<Brand, _>(&rt, rt.alloc(), log, writer)?);
    Ok(())
}
