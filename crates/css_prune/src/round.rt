ghost use Rattle.std.specs.Prelude.{◌≡◌, ◌<◌, ◌^◌, ℕ, suc, [], length, slice_index, IfOk, OnOk};
ghost use Rattle.css_prune.specs.Marks.{AreShort, AreAfter, AreRanks};
ghost use Rattle.css_prune.specs.InRound.{AreUnder, IsRun};
ghost use Rattle.css_prune.specs.Waiting.{AreWaiting, IsWaiting, WaitsForOne};
ghost use Rattle.css_domain.specs.Records.{AreWithin};
ghost use Rattle.css_prune.specs.Pruning.{kept};
ghost use Rattle.lists.specs.Members.{IsIn};

use crate::gift::give;
use crate::waiting::Waiting;
use css_domain::Record;
use std::alloc::{AllocError, Global};

/// Tries the record at the place in the round after `done` rounds. Its parent is listed where its rank is new.
fn try_record(
    records: &[Record],
    place: u32,
    keep: &[bool],
    ranks: &mut [u32],
    picks: &mut [u32],
    next: &mut Vec<u32>,
    done: u32,
) -> Result<(), AllocError>
    requires within { AreWithin (length keep.now) records.now }
    requires short { AreShort records.now }
    requires early { done < length records.now }
    requires there { place < length records.now }
    requires ranks { length ranks.old ≡ length keep.now }
    requires picks { length picks.old ≡ length keep.now }
    requires under { AreUnder (kept keep.now) records.now done (length keep.now) ranks.old picks.old next.old.items }
    ensures { OnOk result (IsRun (kept keep.now) records.now done (length keep.now) (λ p. p ≡ place) ranks.old picks.old next.old.items ranks.new picks.new next.new.items) }
{
    let item = &records[place as usize];
    if give(item, place, keep, ranks, picks, done + 1) {
        next.push(item.parent)?;
    }
    Ok(())
}

/// Tries all records.
fn try_all(
    records: &[Record],
    keep: &[bool],
    ranks: &mut [u32],
    picks: &mut [u32],
    next: &mut Vec<u32>,
    done: u32,
) -> Result<(), AllocError>
    requires within { AreWithin (length keep.now) records.now }
    requires short { AreShort records.now }
    requires early { done < length records.now }
    requires ranks { length ranks.old ≡ length keep.now }
    requires picks { length picks.old ≡ length keep.now }
    requires under { AreUnder (kept keep.now) records.now done (length keep.now) ranks.old picks.old next.old.items }
    ensures { OnOk result (IsRun (kept keep.now) records.now done (length keep.now) (λ p. p < length records.now) ranks.old picks.old next.old.items ranks.new picks.new next.new.items) }
{
    for place in 0..records.len() {
        try_record(records, place as u32, keep, ranks, picks, next, done)?;
    }
    Ok(())
}

/// Settles the slots that wait for the class: tries their records.
fn settle(
    records: &[Record],
    waiting: &Waiting,
    class: u32,
    keep: &[bool],
    ranks: &mut [u32],
    picks: &mut [u32],
    next: &mut Vec<u32>,
    done: u32,
) -> Result<(), AllocError>
    requires within { AreWithin (length keep.now) records.now }
    requires short { AreShort records.now }
    requires early { done < length records.now }
    requires waiting { AreWaiting records.now (length keep.now) waiting.now }
    requires class { class < length keep.now }
    requires ranks { length ranks.old ≡ length keep.now }
    requires picks { length picks.old ≡ length keep.now }
    requires under { AreUnder (kept keep.now) records.now done (length keep.now) ranks.old picks.old next.old.items }
    ensures { OnOk result (IsRun (kept keep.now) records.now done (length keep.now) (λ p. IsWaiting waiting.now.slots.items class p) ranks.old picks.old next.old.items ranks.new picks.new next.new.items) }
{
    let mut at = waiting.last[class as usize];
    while at > 0 {
        let slot = waiting.slots[at - 1];
        try_record(records, slot.place, keep, ranks, picks, next, done)?;
        at = slot.before;
    }
    Ok(())
}

/// Settles the slots that wait for the classes.
fn settle_all(
    records: &[Record],
    waiting: &Waiting,
    classes: &[u32],
    keep: &[bool],
    ranks: &mut [u32],
    picks: &mut [u32],
    next: &mut Vec<u32>,
    done: u32,
) -> Result<(), AllocError>
    requires within { AreWithin (length keep.now) records.now }
    requires short { AreShort records.now }
    requires early { done < length records.now }
    requires waiting { AreWaiting records.now (length keep.now) waiting.now }
    requires classes { (c : ℕ) → IsIn c classes.now → c < length keep.now }
    requires ranks { length ranks.old ≡ length keep.now }
    requires picks { length picks.old ≡ length keep.now }
    requires under { AreUnder (kept keep.now) records.now done (length keep.now) ranks.old picks.old next.old.items }
    ensures { OnOk result (IsRun (kept keep.now) records.now done (length keep.now) (WaitsForOne waiting.now.slots.items classes.now) ranks.old picks.old next.old.items ranks.new picks.new next.new.items) }
{
    for place in 0..classes.len() {
        settle(
            records,
            waiting,
            classes[place],
            keep,
            ranks,
            picks,
            next,
            done,
        )?;
    }
    Ok(())
}

/// The round after `done` rounds: ranks and picks of those classes that it adds, which it answers. The first one tries
/// all records, a later one those that wait for a class of the round before.
fn run_round(
    alloc: Global,
    records: &[Record],
    waiting: &Waiting,
    fresh: &[u32],
    keep: &[bool],
    ranks: &mut [u32],
    picks: &mut [u32],
    done: u32,
) -> Result<Vec<u32>, AllocError>
    requires within { AreWithin (length keep.now) records.now }
    requires short { AreShort records.now }
    requires early { done < length records.now }
    requires waiting { AreWaiting records.now (length keep.now) waiting.now }
    requires fresh { 0 < done → (c : ℕ) → slice_index ranks.old c ≡ done → IsIn c fresh.now }
    requires small { (c : ℕ) → IsIn c fresh.now → c < length keep.now }
    requires ranks { length ranks.old ≡ length keep.now }
    requires picks { length picks.old ≡ length keep.now }
    requires before { AreAfter (kept keep.now) records.now done ranks.old picks.old }
    ensures after { IfOk result (λ next. AreAfter (kept keep.now) records.now (suc done) ranks.new picks.new) }
    ensures none { IfOk result (λ next. next.items ≡ [] → ranks.new ≡ ranks.old) }
    ensures fresh { IfOk result (λ next. (c : ℕ) → slice_index ranks.new c ≡ suc done → IsIn c next.items) }
    ensures small { IfOk result (λ next. (c : ℕ) → IsIn c next.items → c < length keep.now) }
{
    let mut next = Vec::new(alloc);
    if done == 0 {
        try_all(records, keep, ranks, picks, &mut next, done)?;
    } else {
        settle_all(records, waiting, fresh, keep, ranks, picks, &mut next, done)?;
    }
    Ok(next)
}

/// The ranks and picks by class, 0 where there is none.
#[derive(Drop)]
pub struct Marks {
    pub ranks: Vec<u32>,
    pub picks: Vec<u32>,
}

/// The ranks and picks of the kept classes by the records.
pub fn marks_of(
    alloc: Global,
    records: &[Record],
    waiting: &Waiting,
    keep: &[bool],
) -> Result<Marks, AllocError>
    requires within { AreWithin (length keep.now) records.now }
    requires short { AreShort records.now }
    requires small { length keep.now < 2 ^ 32 }
    requires waiting { AreWaiting records.now (length keep.now) waiting.now }
    ensures ranks { IfOk result (λ marks. length marks.ranks.items ≡ length keep.now) }
    ensures picks { IfOk result (λ marks. length marks.picks.items ≡ length keep.now) }
    ensures are { IfOk result (λ marks. AreRanks (kept keep.now) records.now marks.ranks.items marks.picks.items) }
{
    let mut ranks = vec![in alloc; 0u32; keep.len()]?;
    let mut picks = vec![in alloc; 0u32; keep.len()]?;
    let mut fresh = Vec::new(alloc);
    for done in 0..records.len() {
        fresh = run_round(
            alloc,
            records,
            waiting,
            fresh.as_slice(),
            keep,
            &mut ranks,
            &mut picks,
            done as u32,
        )?;
        if fresh.is_empty() {
            return Ok(Marks { ranks, picks });
        }
    }
    Ok(Marks { ranks, picks })
}
