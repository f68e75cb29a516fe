ghost use Rattle.std.specs.Prelude.{◌≡◌, ◌<◌, length};
ghost use Rattle.std.specs.List.{list_all};
ghost use Rattle.css_domain.specs.LedgerFacts.{IsLedger, HasSizes};
ghost use Rattle.css_store.specs.Answers.{Hands};
ghost use Rattle.css_store.specs.Filings.{may_file};

use crate::answers::{DeskClaim, Growth, Unfiled};
use crate::name::StoreName;
use crate::words::append_records;
use css_domain::{Domain, Filing};
use css_ledger::{Claimed, Ledger, Pack};
use css_log::{Log, Writer};
use std::alloc::Global;
use std::marker::{Model, PhantomData};

/// A ledger with the writer of the words of its records, and the number of workers that haven't retired. All
/// words are published; the log, the budget and the rulebook are those of the name (docs/RULES.md, "The
/// store"). The calls wait for nobody.
#[derive(Drop)]
pub struct Desk<D: Domain, N: StoreName> {
    pub(crate) ledger: Ledger<D>,
    pub(crate) writer: Writer,
    pub(crate) workers: u32,
    pub(crate) of: PhantomData<N>,
}

impl<D: Domain, N: StoreName> Model for Desk<D, N> {
    ghost use Rattle.std.specs.Prelude.{◌≡◌, length};
    ghost use Rattle.css_domain.specs.Records.{words_of};
    ghost use Rattle.css_domain.specs.Ledgers.{records};
    ghost use Rattle.css_store.specs.Desks.{DeskState};

    ghost Value = { DeskState D.Class D.Rule };

    ghost view = { λ d. record {
      books = d.ledger;
      workers = d.workers;
      found = d.writer.found;
    } };

    ghost invariant = { λ d.
        (d.writer.log ≡ N.log)
        × (d.writer.list ≡ words_of (records D.meaning d.ledger))
        × (d.writer.front ≡ length d.writer.list)
        × (d.ledger.budget ≡ N.budget)
        × (d.ledger.rulebook ≡ N.rulebook) };
}

/// The ledger's answer to a claim, with an equal copy of the class where there is work. Want of memory for the
/// copy leaves the ledger as it was.
fn claim_class<D: Domain>(alloc: Global, ledger: &mut Ledger<D>) -> DeskClaim<D>
    ensures { Hands D.meaning ledger.old result ledger.new }
{
    let pack = match ledger.claim() {
        Claimed::Work(pack) => pack,
        Claimed::Spent => return DeskClaim::Spent,
        Claimed::Idle => return DeskClaim::Idle,
        Claimed::Finished => return DeskClaim::Finished,
    };
    match D::copy(alloc, ledger.class(pack.number())) {
        Ok(class) => DeskClaim::Work(pack, class),
        Err(_) => {
            ledger.give_back(pack);
            DeskClaim::Memory
        }
    }
}

/// Whether the class of the number is out, and each rule makes it.
fn may_file_here<D: Domain>(ledger: &Ledger<D>, number: u32, rules: &[D::Rule]) -> bool
    ensures answer { result ≡ may_file D.meaning ledger.now number rules.now }
    ensures ledger { IsLedger D.meaning ledger.now }
{
    if !ledger.is_out(number) {
        return false;
    }
    all_make::<D>(ledger.class(number), rules)
}

/// Whether each rule makes the class.
fn all_make<D: Domain>(class: &D::Class, rules: &[D::Rule]) -> bool
    ensures { result ≡ list_all (λ r. D.Class.eq (D.meaning.parent r) class.now) rules.now }
{
    rules.iter().all(|rule| D::parent(rule) == class)
}

impl<D: Domain, N: StoreName> Desk<D, N> {
    ghost use Rattle.std.specs.Prelude.{◌≡◌, ◌≤◌, ◌-◌, length, true, false, OnOk, IfErr, OnErr};
    ghost use Rattle.css_domain.specs.Records.{words_of};
    ghost use Rattle.css_domain.specs.Ledgers.{records, with_filing, given_back, is_among};
    ghost use Rattle.css_store.specs.declared.answers.DeskClaim.TheVariants.{Stopped};
    ghost use Rattle.css_store.specs.Desks.{DeskState, HasRoomFor};
    ghost use Rattle.css_store.specs.Answers.{Grows, Claims, HandsBack};
    ghost use Rattle.css_store.specs.Filings.{IsFiling, may_file};

    /// The desk of a ledger whose words the writer has published. Takes no memory.
    pub fn new(ledger: Ledger<D>, writer: Writer, workers: u32) -> Desk<D, N>
        requires log { writer.log ≡ N.log }
        requires words { writer.list ≡ words_of (records D.meaning ledger) }
        requires shown { writer.front ≡ length writer.list }
        requires budget { ledger.budget ≡ N.budget }
        requires rulebook { ledger.rulebook ≡ N.rulebook }
        ensures { result ≡ record { books = ledger; workers = workers; found = writer.found } }
    {
        Desk {
            ledger,
            writer,
            workers,
            of: PhantomData,
        }
    }

    /// One load of the stop word: where it is set, the answer is that the reader has asked to stop. Else it is
    /// the ledger's, with an equal copy of the class where there is work; want of memory for the copy leaves
    /// the ledger as it was.
    pub fn claim(&mut self, alloc: Global, log: &Log) -> DeskClaim<D>
        requires log { log.now ≡ N.log }
        ensures answer { Claims D.meaning self.old result self.new }
        ensures stays { self.old.found ≡ true → result ≡ Stopped }
    {
        if self.writer.stopped(log) {
            return DeskClaim::Stopped;
        }
        claim_class(alloc, &mut self.ledger)
    }

    /// Files the rules where the pack's class is out and each rule makes it, appends their words and publishes
    /// them. Else the two values are handed back, and nothing has changed; so are they for want of memory.
    pub fn file(&mut self, log: &Log, pack: Pack, filing: Filing<D>) -> Result<(), Unfiled<D>>
        requires log { log.now ≡ N.log }
        requires room { HasRoomFor N.budget N.log }
        requires filing { IsFiling D.meaning N.rulebook filing }
        ensures filed { OnOk result (self.new ≡ record self.old { books = with_filing self.old.books pack.number filing }) }
        ensures may { OnOk result (may_file D.meaning self.old.books pack.number filing ≡ true) }
        ensures back { IfErr result (λ back. HandsBack (may_file D.meaning self.old.books pack.number filing) pack filing back) }
        ensures unchanged { OnErr result (self.new ≡ self.old) }
    {
        let number = pack.number();
        if !may_file_here(&self.ledger, number, filing.as_slice()) {
            return Err(Unfiled::NotOut(pack, filing));
        }
        let first = self.ledger.counts().rules;
        if let Err((pack, filing)) = self.ledger.file(pack, filing) {
            return Err(Unfiled::Memory(pack, filing));
        }
        let _ = self.writer.front();
        append_records(&self.ledger, &mut self.writer, log, number, first);
        self.writer.publish(log);
        Ok(())
    }

    /// A note of the published count, exactly where that is over what was seen; else the end, exactly where no
    /// worker is left; else nothing. Takes no memory.
    pub fn growth(&mut self, log: &Log, seen: u64) -> Option<Growth>
        requires log { log.now ≡ N.log }
        ensures answer { Grows N.log (length (words_of (records D.meaning self.old.books))) self.old.workers seen result }
        ensures unchanged { self.new ≡ self.old }
    {
        if seen < self.writer.front() {
            Some(Growth::Grown(self.writer.note(log)))
        } else if self.workers == 0 {
            Some(Growth::Ended)
        } else {
            None
        }
    }

    /// Spends the pack. Its class is fresh again where it is out here; else nothing changes. Takes no memory.
    pub fn give_back(&mut self, pack: Pack)
        ensures given { self.new ≡ record self.old { books = given_back self.old.books pack.number } }
        ensures unchanged { is_among pack.number self.old.books.out ≡ false → self.new ≡ self.old }
    {
        self.ledger.give_back(pack);
    }

    /// One worker less, where one is left. Takes no memory.
    pub fn retire(&mut self)
        ensures { self.new ≡ record self.old { workers = self.old.workers - 1 } }
    {
        self.workers = self.workers.saturating_sub(1);
    }
}
