ghost use Rattle.std.specs.Prelude.{◌≡◌};
ghost use Rattle.css_store.specs.Desks.{HasRoomFor};

use crate::answers::{DeskClaim, Growth, StoreClaim, Unfiled};
use crate::desk::Desk;
use crate::name::StoreName;
use css_domain::{Domain, Filing};
use css_ledger::{Ledger, Pack};
use css_log::{Log, Note, Reader, Writer};
use std::alloc::{AllocError, Global};
use std::sync::{Condvar, Mutex, Wait};

/// The ledger of a closed store, and the words of its records.
#[derive(Drop)]
pub struct Closed<D: Domain> {
    pub ledger: Ledger<D>,
    pub words: Vec<u64>,
}

/// A desk under its lock, beside the log, which is the one that the name says and has room for 2,048 words for
/// each class of the name's budget (docs/RULES.md, "The store").
#[derive(Drop)]
pub struct Store<D: Domain, N: StoreName> {
    desk: Mutex<Desk<D, N>>,
    changed: Condvar,
    log: Log,
    ghost named: { log ≡ N.log },
    ghost room: { HasRoomFor N.budget N.log },
}

impl<D: Domain, N: StoreName> Store<D, N> {
    ghost use Rattle.std.specs.Prelude.{◌≡◌, ◌≤◌, [], true, length, max, IfOk, OnOk, OnErr, IfErr};
    ghost use mathlib.Core.List.{IsPrefix};
    ghost use Rattle.css_domain.specs.Records.{words_of};
    ghost use Rattle.css_domain.specs.Ledgers.{records};
    ghost use Rattle.css_domain.specs.WholeRecords.{IsWhole};
    ghost use Rattle.css_log.specs.States.{ReaderState};
    ghost use Rattle.css_store.specs.Desks.{HasRoomFor};
    ghost use Rattle.css_store.specs.Answers.{IsGrowth, ComeBack};
    ghost use Rattle.css_store.specs.Filings.{IsFiling};

    /// The store of a new ledger, for 1 to 64 workers and a budget of 1 to 5,000, over a log whose writer has
    /// appended nothing. The reader stays with the caller. The refusal is want of memory.
    pub fn new(
        alloc: Global,
        root: D::Class,
        budget: u32,
        rulebook: u32,
        workers: u32,
        log: Log,
        writer: Writer,
    ) -> Result<Store<D, N>, AllocError>
        requires some { 1 ≤ budget }
        requires few { budget ≤ 5000 }
        requires worker { 1 ≤ workers }
        requires few_workers { workers ≤ 64 }
        requires log { log ≡ N.log }
        requires writer { (writer.log ≡ N.log) × (writer.list ≡ []) × (writer.front ≡ 0) }
        requires room { HasRoomFor budget log }
        requires budget { budget ≡ N.budget }
        requires rulebook { rulebook ≡ N.rulebook }
    {
        let ledger = Ledger::new(alloc, root, budget, rulebook)?;
        Ok(Store {
            desk: Mutex::new(Desk::new(ledger, writer, workers)),
            changed: Condvar::new(),
            log,
        })
    }

    /// A class to file with a copy of it, or why there is none. Each critical section makes one claim of the
    /// desk; where that has nothing to do now it waits, and every other answer is handed on.
    pub fn claim(&self, rt: &impl Wait, alloc: Global) -> StoreClaim<D> {
        let mut desk = self.desk.lock(rt);
        for _ in rt.forever() {
            match desk.claim(alloc, &self.log) {
                DeskClaim::Work(pack, class) => return StoreClaim::Work(pack, class),
                DeskClaim::Spent => return StoreClaim::Spent,
                DeskClaim::Finished => return StoreClaim::Finished,
                DeskClaim::Stopped => return StoreClaim::Stopped,
                DeskClaim::Memory => return StoreClaim::Memory,
                DeskClaim::Idle => desk = self.changed.wait(rt, desk),
            }
        }
        unreachable!()
    }

    /// Files the rules by one filing of the desk, whose answer is handed on, and wakes all that wait. Where they
    /// aren't filed, both values come back.
    pub fn file(&self, rt: &impl Wait, pack: Pack, filing: Filing<D>) -> Result<(), Unfiled<D>>
        requires { IsFiling D.meaning N.rulebook filing }
        ensures back { IfErr result (λ back. ComeBack pack filing back) }
    {
        let answer = self.desk.lock(rt).file(&self.log, pack, filing);
        self.changed.notify_all();
        answer
    }

    /// Spends the pack, whose class is fresh again where it is out here, and wakes all that wait.
    pub fn give_back(&self, rt: &impl Wait, pack: Pack) {
        self.desk.lock(rt).give_back(pack);
        self.changed.notify_all();
    }

    /// Says that one worker has ended, and wakes all that wait. Where every worker has, nothing changes.
    pub fn retire(&self, rt: &impl Wait) {
        self.desk.lock(rt).retire();
        self.changed.notify_all();
    }

    /// Waits until more is published than was seen, of which there is a note then, or until no worker is left.
    /// Each critical section asks the desk once.
    pub fn await_growth(&self, rt: &impl Wait, seen: u64) -> Growth
        ensures { IsGrowth N.log seen result }
    {
        let mut desk = self.desk.lock(rt);
        for _ in rt.forever() {
            if let Some(growth) = desk.growth(&self.log, seen) {
                return growth;
            }
            desk = self.changed.wait(rt, desk);
        }
        unreachable!()
    }

    /// The count of published words, which is never below an earlier look nor below a note that was learnt.
    /// Takes no lock and no memory.
    pub fn look(&self, reader: &mut Reader) -> u64
        requires { reader.old.log ≡ N.log }
        ensures count { reader.new ≡ record reader.old { seen = result } }
        ensures grows { reader.old.seen ≤ result }
    {
        reader.look(&self.log)
    }

    /// Takes in what the note says is published. Takes no lock and no memory.
    pub fn learn(&self, reader: &mut Reader, note: Note)
        requires own { reader.old.log ≡ N.log }
        requires note { note.log ≡ N.log }
        ensures { reader.new ≡ record reader.old { seen = max reader.old.seen note.front } }
    {
        reader.learn(&self.log, note);
    }

    /// Copies the words up to the count last looked at, or up to the front of a note learnt since where that is
    /// greater. Takes no lock. The refusal is want of memory; nothing has changed.
    pub fn pull(&self, reader: &mut Reader) -> Result<(), AllocError>
        requires { reader.old.log ≡ N.log }
        ensures ok { OnOk result (reader.new ≡ record reader.old { copy = reader.new.copy }) }
        ensures all { OnOk result (length reader.new.copy ≡ reader.old.seen) }
        ensures longer { OnOk result (IsPrefix reader.old.copy reader.new.copy) }
        ensures whole { OnOk result (IsWhole reader.new.copy) }
        ensures err { OnErr result (reader.new ≡ reader.old) }
    {
        reader.pull(&self.log)
    }

    /// Asks the workers to stop, then takes the lock and leaves it once, and wakes all that wait.
    pub fn stop(&self, rt: &impl Wait, reader: &mut Reader)
        requires { reader.old.log ≡ N.log }
        ensures { reader.new ≡ record reader.old { stops = true } }
    {
        reader.set_stop(&self.log);
        drop(self.desk.lock(rt));
        self.changed.notify_all();
    }

    /// Ends the store and gives the ledger and the words of its records, of which the reader's copy is a prefix.
    /// The refusal is want of memory; it hands the store and the reader back.
    pub fn close(self, reader: Reader) -> Result<Closed<D>, (Store<D, N>, Reader)>
        requires { reader.log ≡ N.log }
        ensures words { IfOk result (λ closed. closed.words.items ≡ words_of (records D.meaning closed.ledger)) }
        ensures copied { IfOk result (λ closed. IsPrefix reader.copy closed.words.items) }
        ensures seen { IfOk result (λ closed. reader.seen ≤ length closed.words.items) }
        ensures budget { IfOk result (λ closed. closed.ledger.budget ≡ N.budget) }
        ensures rulebook { IfOk result (λ closed. closed.ledger.rulebook ≡ N.rulebook) }
        ensures back { IfErr result (λ back. back.1 ≡ reader) }
    {
        let Store { desk, changed, log } = self;
        let Desk {
            ledger,
            writer,
            workers,
            of,
        } = desk.into_inner();
        match log.close(writer, reader) {
            Ok(words) => Ok(Closed { ledger, words }),
            Err((log, writer, reader)) => {
                let desk = Desk {
                    ledger,
                    writer,
                    workers,
                    of,
                };
                let store = Store {
                    desk: Mutex::new(desk),
                    changed,
                    log,
                };
                Err((store, reader))
            }
        }
    }
}
