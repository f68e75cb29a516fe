ghost use Rattle.std.specs.Prelude.{◌≡◌, ◌+◌, ◌≤◌, ◌++◌, ◌∷◌, [], ℕ, false, length, slice_index, IfOk, OnOk, OnErr};
ghost use mathlib.Core.List.{IsPrefix};
ghost use Rattle.css_domain.specs.Records.{AreWithin, words_of};
ghost use Rattle.css_domain.specs.Standing.{TellsStanding, rank_of, pick_of};
ghost use Rattle.css_domain.specs.WholeRecords.{IsNarrowShape, IsWhole};
ghost use Rattle.css_domain.specs.WordViews.{ViewState};
ghost use Rattle.css_prune.specs.Pruning.{kept, HasLength};

use crate::pruned::{Pruned, standing_among};
use crate::reading::read_on;
use css_domain::{Record, Shape, WordView};
use std::alloc::{AllocError, Global};
use std::marker::Model;

/// Records that come one after another, from a ledger or from words, and can be pruned at any time (docs/RULES.md,
/// "Standing, ranks and picks"). Contracts see the list of the records.
#[derive(Drop)]
pub struct Pruner {
    alloc: Global,
    records: Vec<Record>,
    words: u64,
}

impl Model for Pruner {
    ghost use Rattle.std.specs.Prelude.{List};
    ghost use Rattle.css_domain.specs.declared.record.Record.{Record};
    ghost use Rattle.css_prune.specs.AmongWords.{AreKept};

    ghost Value = { List Record };

    ghost view = { λ p. p.records.items };

    ghost invariant = { λ p. AreKept p.records.items p.words };
}

/// That the length of an atom fits its code.
fn is_coded(shape: Shape) -> bool
    ensures { IsNarrowShape shape }
{
    match shape {
        Shape::Union => true,
        Shape::Product => true,
        Shape::Nothing => true,
        Shape::Atom(_) => true,
    }
}

impl Pruner {
    /// A pruner without records. The refusal is want of memory.
    pub fn new(alloc: Global) -> Result<Pruner, AllocError>
        ensures { IfOk result (λ pruner. pruner ≡ []) }
    {
        Ok(Pruner {
            alloc,
            records: Vec::new(alloc),
            words: 0,
        })
    }

    /// Appends an equal record. The refusal is want of memory, as which more records, children or words than can
    /// be counted are refused too; nothing has changed.
    pub fn push(&mut self, item: &Record) -> Result<(), AllocError>
        ensures pushed { OnOk result (self.new ≡ self.old ++ item.now ∷ []) }
        ensures err { OnErr result (self.new ≡ self.old) }
    {
        let arity = item.children.as_slice().len();
        if self.records.len() >= u32::MAX as usize || arity > u32::MAX as usize {
            return Err(AllocError);
        }
        if self.words > u64::MAX - 4294967300 {
            return Err(AllocError);
        }
        let copied = item.copied(self.alloc)?;
        is_coded(copied.shape);
        self.records.push(copied)?;
        self.words += 2 + arity as u64;
        Ok(())
    }

    /// Takes in the records of a whole view that are not there yet; the words of those that are there must be its
    /// first ones. No word of these is read again: the readings grow by at most the number of the others. The
    /// refusal is want of memory; nothing has changed but the readings.
    pub fn take(&mut self, view: &mut WordView<'_>) -> Result<(), AllocError>
        requires whole { IsWhole view.old.words }
        requires first { IsPrefix (words_of self.old) view.old.words }
        requires few { view.old.reads + length view.old.words ≤ 18446744073709551615 }
        ensures records { OnOk result ((w : IsWhole view.old.words) → self.new ≡ w.records) }
        ensures told { OnOk result (words_of self.new ≡ view.old.words) }
        ensures words { view.new.words ≡ view.old.words }
        ensures reads { view.new.reads + length (words_of self.old) ≤ view.old.reads + length view.old.words }
        ensures err { OnErr result (self.new ≡ self.old) }
    {
        let count = self.records.len();
        match read_on(self.alloc, &mut self.records, view, self.words) {
            Ok(words) => {
                self.words = words;
                Ok(())
            }
            Err(error) => {
                self.records.truncate(count);
                Err(error)
            }
        }
    }

    /// The number of the words of its records. Takes no memory.
    pub fn taken(&self) -> u64
        ensures { result ≡ length (words_of self.now) }
    {
        self.words
    }

    /// The records, in the order in which they came. Takes no memory.
    pub fn records(&self) -> &[Record]
        ensures { result.now ≡ self.now }
    {
        self.records.as_slice()
    }

    /// Which classes stand among its records, with their ranks and picks (docs/RULES.md, "Standing, ranks and
    /// picks"). All numbers are below `classes`. The refusal is want of memory.
    pub fn prune(&self, alloc: Global, classes: u32) -> Result<Pruned, AllocError>
        requires within { AreWithin classes self.now }
        ensures as_many { IfOk result (λ pruned. HasLength classes pruned) }
        ensures standing { IfOk result (λ pruned. TellsStanding self.now (kept pruned.keep)) }
        ensures ranked { IfOk result (λ pruned. (c : ℕ) → slice_index pruned.rank c ≡ rank_of (kept pruned.keep) self.now c) }
        ensures picked { IfOk result (λ pruned. (c : ℕ) → slice_index pruned.pick c ≡ pick_of (kept pruned.keep) self.now c) }
        ensures none_elsewhere { IfOk result (λ pruned. (c : ℕ) → kept pruned.keep c ≡ false → (slice_index pruned.rank c ≡ 0) × (slice_index pruned.pick c ≡ 0)) }
    {
        standing_among(alloc, self.records.as_slice(), classes)
    }
}
