ghost use Rattle.std.specs.Prelude.{◌≡◌, ◌<◌, ℕ, true, false, length, slice_index, IfOk};
ghost use Rattle.css_domain.specs.Standing.{TellsStanding, rank_of, pick_of};
ghost use Rattle.css_prune.specs.Marks.{how_many, AreDropped, AreShort};
ghost use Rattle.css_domain.specs.Records.{AreWithin};
ghost use Rattle.css_prune.specs.Pruning.{kept, HasLength};

use crate::pruner::Pruner;
use crate::round::{Marks, marks_of};
use crate::waiting::waiting_of;
use css_domain::Record;
use sequences::Sequence;
use std::alloc::{AllocError, Global};

/// Whether each class is kept, and its rank and pick, which are 0 where it isn't (docs/RULES.md,
/// "Standing, ranks and picks").
#[derive(Debug, Drop)]
pub struct Pruned {
    pub keep: Sequence<bool>,
    pub rank: Sequence<u32>,
    pub pick: Sequence<u32>,
}

/// Drops the classes without a rank. Answers whether there was one.
fn drop_unranked(keep: &mut [bool], ranks: &[u32]) -> bool
    requires { length ranks.now ≡ length keep.old }
    ensures kept { AreDropped ranks.now keep.old keep.new }
    ensures fewer { result ≡ true → how_many keep.new < how_many keep.old }
    ensures same { result ≡ false → keep.new ≡ keep.old }
{
    let mut fewer = false;
    for class in 0..ranks.len() {
        if keep[class] {
            if ranks[class] == 0 {
                keep[class] = false;
                fewer = true;
            }
        }
    }
    fewer
}

/// Which classes stand among the records, with their ranks and picks. The records, and the children of each, can be
/// numbered. The refusal is want of memory.
pub(crate) fn standing_among(
    alloc: Global,
    records: &[Record],
    classes: u32,
) -> Result<Pruned, AllocError>
    requires within { AreWithin classes records.now }
    requires short { AreShort records.now }
    ensures as_many { IfOk result (λ pruned. HasLength classes pruned) }
    ensures standing { IfOk result (λ pruned. TellsStanding records.now (kept pruned.keep)) }
    ensures ranked { IfOk result (λ pruned. (c : ℕ) → slice_index pruned.rank c ≡ rank_of (kept pruned.keep) records.now c) }
    ensures picked { IfOk result (λ pruned. (c : ℕ) → slice_index pruned.pick c ≡ pick_of (kept pruned.keep) records.now c) }
    ensures none_elsewhere { IfOk result (λ pruned. (c : ℕ) → kept pruned.keep c ≡ false → (slice_index pruned.rank c ≡ 0) × (slice_index pruned.pick c ≡ 0)) }
{
    let waiting = waiting_of(alloc, records, classes)?;
    let mut keep = vec![in alloc; true; classes as usize]?;
    loop {
        let Marks { ranks, picks } = marks_of(alloc, records, &waiting, keep.as_slice())?;
        if !drop_unranked(&mut keep, ranks.as_slice()) {
            return Ok(pruned_of(keep, ranks, picks));
        }
    }
}

/// Which classes stand among the records, with their ranks and picks (docs/RULES.md, "Standing, ranks and picks"). All
/// numbers are below `classes`. The refusal is want of memory.
pub fn prune(alloc: Global, records: &[Record], classes: u32) -> Result<Pruned, AllocError>
    requires within { AreWithin classes records.now }
    ensures as_many { IfOk result (λ pruned. HasLength classes pruned) }
    ensures standing { IfOk result (λ pruned. TellsStanding records.now (kept pruned.keep)) }
    ensures ranked { IfOk result (λ pruned. (c : ℕ) → slice_index pruned.rank c ≡ rank_of (kept pruned.keep) records.now c) }
    ensures picked { IfOk result (λ pruned. (c : ℕ) → slice_index pruned.pick c ≡ pick_of (kept pruned.keep) records.now c) }
    ensures none_elsewhere { IfOk result (λ pruned. (c : ℕ) → kept pruned.keep c ≡ false → (slice_index pruned.rank c ≡ 0) × (slice_index pruned.pick c ≡ 0)) }
{
    let mut pruner = Pruner::new(alloc)?;
    for item in records {
        pruner.push(item)?;
    }
    pruner.prune(alloc, classes)
}

fn pruned_of(keep: Vec<bool>, ranks: Vec<u32>, picks: Vec<u32>) -> Pruned
    ensures { result ≡ record { keep = keep.items; rank = ranks.items; pick = picks.items } }
{
    Pruned {
        keep: Sequence::of(keep),
        rank: Sequence::of(ranks),
        pick: Sequence::of(picks),
    }
}
