ghost use Rattle.std.specs.Prelude.{◌≡◌, ◌<◌, ◌≤◌, ℕ, false, length, take, slice_get, Some, IfOk, IfErr, OnOk, OnErr};
ghost use Rattle.css_domain.specs.Ledgers.{new_books, classes, records, done, is_among, claimed, with_work, with_filing, given_back, recalled, counts};
ghost use Rattle.css_domain.specs.LedgerFacts.{IsFilingOf, IsLedger, HasSizes};
ghost use Rattle.css_domain.specs.Ledgers.Claimed.{Work};
ghost use Rattle.lists.specs.Members.{IsIn};
ghost use Rattle.css_ledger.specs.Answers.{claimed_as, counted_as};

use crate::pack::{Claimed, Pack, pack_of, spend, without_fresh};
use crate::room::{Added, added_by, append_all, copy_records, make_room, push_one};
use crate::stage::{Stage, done_at, least_fresh, out_at, recall_all};
use css_domain::{Domain, Filing, Record};
use indexmap::IndexSet;
use std::alloc::{AllocError, Global};
use std::marker::Model;

/// The expanded classes, all classes and the rules, in number.
#[derive(Clone, Copy, Debug, PartialEq, Eq)]
pub struct Counts {
    pub expanded: u32,
    pub classes: u32,
    pub rules: u32,
}

/// Classes by number, rules by position, and the journal of filings (docs/RULES.md, "The ledger"). The root
/// has number 0. Contracts see the root, the budget, the number of the rulebook, the rules, the journal and
/// the numbers that are out; the classes and the records follow from these.
#[derive(Drop)]
pub struct Ledger<D: Domain> {
    alloc: Global,
    root: D::Class,
    budget: u32,
    rulebook: u32,
    classes: IndexSet<D::Class>,
    stages: Vec<Stage>,
    rules: Vec<D::Rule>,
    records: Vec<Record>,
    journal: Vec<(u32, u32)>,
    out: u32,
    /// No class below this number is fresh.
    low: u32,
}

impl<D: Domain> Model for Ledger<D> {
    ghost use Rattle.css_domain.specs.Ledgers.{Books};
    ghost use Rattle.css_ledger.specs.Stages.{outs, IsNoneFresh};
    ghost use Rattle.css_ledger.specs.Kept.{AreKept};

    ghost Value = { Books D.Class D.Rule };

    ghost view = { λ l. record { root = l.root; budget = l.budget; rulebook = l.rulebook; rules = l.rules.items; journal = l.journal.items; out = outs l.stages.items } };

    ghost invariant = { λ l. AreKept D.meaning (record { root = l.root; budget = l.budget; rulebook = l.rulebook; rules = l.rules.items; journal = l.journal.items; out = outs l.stages.items }) l.classes.keys l.stages.items l.records.items l.out × IsNoneFresh l.low l.stages.items };
}

impl<D: Domain> Ledger<D> {
    /// The ledger with one class, the root, which is fresh. The budget is the number of classes that may be
    /// out or done together; room for so many filings is taken here. The rulebook is the number by which
    /// filings are complete. The refusal is want of memory.
    pub fn new(
        alloc: Global,
        root: D::Class,
        budget: u32,
        rulebook: u32,
    ) -> Result<Ledger<D>, AllocError>
        requires some { 1 ≤ budget }
        requires few { budget ≤ 5000 }
        ensures { IfOk result (λ ledger. ledger ≡ new_books root budget rulebook) }
    {
        let mut classes = IndexSet::new(alloc);
        classes.insert(D::copy(alloc, &root)?)?;
        let stages = vec![in alloc; Stage::Fresh]?;
        let journal = Vec::with_capacity(alloc, budget as usize)?;
        Ok(Ledger {
            alloc,
            root,
            budget,
            rulebook,
            classes,
            stages,
            rules: Vec::new(alloc),
            records: Vec::new(alloc),
            journal,
            out: 0,
            low: 0,
        })
    }

    /// What is to be done next: the least fresh class, which is out from now on, or why there is none. Giving
    /// its pack back undoes it. Takes no memory.
    pub fn claim(&mut self) -> Claimed
        ensures answer { claimed_as result ≡ claimed D.meaning self.old }
        ensures after { self.new ≡ with_work self.old (claimed D.meaning self.old) }
        ensures undone { (n : ℕ) → claimed D.meaning self.old ≡ Work n → given_back self.new n ≡ self.old }
    {
        let spent = self.out + self.journal.len() as u32 == self.budget;
        let Some(number) = least_fresh(self.stages.as_slice(), self.low as usize) else {
            return without_fresh(self.out, spent);
        };
        if spent {
            return Claimed::Spent;
        }
        self.stages[number] = Stage::Out;
        self.out += 1;
        self.low = number as u32 + 1;
        Claimed::Work(pack_of(number as u32))
    }

    /// Files the rules of a class that is out: each child that has no number yet gets the next one and is
    /// fresh, rule by rule and slot by slot, and the class is done. The rules must hold and make that class,
    /// and be complete for the rulebook where there is one. The refusal is want of memory; it hands the two
    /// values back, and nothing has changed.
    pub fn file(&mut self, pack: Pack, filing: Filing<D>) -> Result<(), (Pack, Filing<D>)>
        requires out { IsIn pack.number self.old.out }
        requires filing { (c : D.Class) → slice_get (classes D.meaning self.old) pack.number ≡ Some c → IsFilingOf D.meaning self.old.rulebook c filing }
        ensures filed { OnOk result (self.new ≡ with_filing self.old pack.number filing) }
        ensures old_classes { OnOk result (take (length (classes D.meaning self.old)) (classes D.meaning self.new) ≡ classes D.meaning self.old) }
        ensures old_records { OnOk result (take (length self.old.rules) (records D.meaning self.new) ≡ records D.meaning self.old) }
        ensures unchanged { OnErr result (self.new ≡ self.old) }
        ensures pack_back { IfErr result (λ back. back.0 ≡ pack) }
        ensures filing_back { IfErr result (λ back. back.1 ≡ filing) }
    {
        let before = self.classes.len();
        let count = filing.as_slice().len();
        let Ok(added) = added_by::<D>(
            self.alloc,
            &mut self.classes,
            pack.number(),
            filing.as_slice(),
        ) else {
            return Err((pack, filing));
        };
        let Added { records, stages } = added;
        let room = make_room::<D>(
            &mut self.stages,
            &mut self.rules,
            &mut self.records,
            &mut self.journal,
            stages.len(),
            count,
        );
        if room.is_err() {
            self.classes.truncate(before);
            return Err((pack, filing));
        }
        append_all(&mut self.stages, stages);
        append_all(&mut self.records, records);
        append_all(&mut self.rules, filing.into_vec());
        let number = spend(pack);
        push_one(&mut self.journal, (number, count as u32));
        self.stages[number as usize] = Stage::Done;
        self.out -= 1;
        Ok(())
    }

    /// Spends the pack. Its class is fresh again where it is out in this ledger; else nothing changes. Takes
    /// no memory.
    pub fn give_back(&mut self, pack: Pack)
        ensures given { self.new ≡ given_back self.old pack.number }
        ensures unchanged { is_among pack.number self.old.out ≡ false → self.new ≡ self.old }
    {
        let number = spend(pack);
        if !out_at(self.stages.as_slice(), number as usize) {
            return;
        }
        self.stages[number as usize] = Stage::Fresh;
        self.out -= 1;
        self.low = self.low.min(number);
    }

    /// Each class that is out is fresh again. Takes no memory.
    pub fn recall(&mut self)
        ensures { self.new ≡ recalled self.old }
    {
        recall_all(&mut self.stages);
        self.out = 0;
        self.low = 0;
    }

    /// The class of a number. Takes no memory.
    pub fn class(&self, number: u32) -> &D::Class
        requires number { number < length (classes D.meaning self.now) }
        ensures { slice_get (classes D.meaning self.now) number ≡ Some result.now }
    {
        &self.classes.as_slice()[number as usize]
    }

    /// The rule at a position. Takes no memory.
    pub fn rule(&self, position: u32) -> &D::Rule
        requires position { position < length self.now.rules }
        ensures { slice_get self.now.rules position ≡ Some result.now }
    {
        &self.rules[position as usize]
    }

    /// Whether the number is that of a class that is out. Takes no memory.
    pub fn is_out(&self, number: u32) -> bool
        ensures answer { result ≡ is_among number self.now.out }
        ensures ledger { IsLedger D.meaning self.now }
        ensures sizes { HasSizes D.meaning self.now }
    {
        out_at(self.stages.as_slice(), number as usize)
    }

    /// Whether the class of a number is done. Takes no memory.
    pub fn is_done(&self, number: u32) -> bool
        requires number { number < length (classes D.meaning self.now) }
        ensures { result ≡ is_among number (done self.now) }
    {
        done_at(self.stages.as_slice(), number as usize)
    }

    /// The number of a class and of its rules, at a place of the journal. Takes no memory.
    pub fn filed(&self, place: u32) -> (u32, u32)
        requires place { place < length self.now.journal }
        ensures { slice_get self.now.journal place ≡ Some result }
    {
        self.journal[place as usize]
    }

    /// The number of a child of the rule at a position. Takes no memory.
    pub fn child(&self, position: u32, slot: u32) -> u32
        requires position { position < length self.now.rules }
        requires slot { (r : D.Rule) → slice_get self.now.rules position ≡ Some r → slot < length (D.meaning.children r) }
        ensures { (r : D.Rule) (c : D.Class) → slice_get self.now.rules position ≡ Some r → slice_get (D.meaning.children r) slot ≡ Some c → slice_get (classes D.meaning self.now) result ≡ Some c }
    {
        self.records[position as usize].children.as_slice()[slot as usize].0
    }

    /// One record for each rule, in order. The refusal is want of memory.
    pub fn records(&self, alloc: Global) -> Result<Vec<Record>, AllocError>
        ensures { IfOk result (λ copied. copied.items ≡ records D.meaning self.now) }
    {
        copy_records(alloc, self.records.as_slice())
    }

    /// The record of the rule at a position. The refusal is want of memory.
    pub fn record_at(&self, alloc: Global, position: u32) -> Result<Record, AllocError>
        requires position { position < length self.now.rules }
        ensures { IfOk result (λ copied. slice_get (records D.meaning self.now) position ≡ Some copied) }
    {
        let copied = self.records[position as usize].copied(alloc)?;
        Ok(copied)
    }

    /// The expanded classes, all classes and the rules, in number. Takes no memory.
    pub fn counts(&self) -> Counts
        ensures answer { counted_as result ≡ counts D.meaning self.now }
        ensures ledger { IsLedger D.meaning self.now }
        ensures sizes { HasSizes D.meaning self.now }
    {
        Counts {
            expanded: self.journal.len() as u32,
            classes: self.classes.len() as u32,
            rules: self.rules.len() as u32,
        }
    }
}
