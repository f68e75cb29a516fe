ghost use Rattle.std.specs.Prelude.{◌≡◌, ◌<◌, ◌+◌, ◌^◌, ℕ, length, IfOk, OnOk};
ghost use Rattle.css_domain.specs.Records.{AreWithin, IsWithin};
ghost use Rattle.css_prune.specs.Marks.{AreShort};
ghost use Rattle.css_prune.specs.Waiting.{AreChained, AreWaiting, AllWait, IsWaiting, RecordWaits};

use css_domain::{Record, same_length};
use std::alloc::{AllocError, Global};

/// A slot that waits for the rank of its class: the place of its record, and the number of the slot before it that
/// waits for this class. Numbers count from 1, and 0 is none.
#[derive(Clone, Copy, Drop)]
pub struct Slot {
    pub class: u32,
    pub place: u32,
    pub before: usize,
}

/// The slots that wait, and by class the number of the last one.
#[derive(Drop)]
pub struct Waiting {
    pub last: Vec<usize>,
    pub slots: Vec<Slot>,
}

/// One slot more waits.
fn wait(last: &mut [usize], slots: &mut Vec<Slot>, class: u32, place: u32) -> Result<(), AllocError>
    requires within { class < length last.old }
    ensures chained { OnOk result ((count : ℕ) → place < count → AreChained count last.old slots.old.items → AreChained count last.new slots.new.items) }
    ensures old { OnOk result ((c p : ℕ) → IsWaiting slots.old.items c p → IsWaiting slots.new.items c p) }
    ensures waits { OnOk result (IsWaiting slots.new.items class place) }
{
    let before = last[class as usize];
    slots.push(Slot {
        class,
        place,
        before,
    })?;
    last[class as usize] = slots.len();
    Ok(())
}

/// The record's slots wait whose child can be as long as the parent.
fn wait_all(
    last: &mut [usize],
    slots: &mut Vec<Slot>,
    item: &Record,
    place: u32,
) -> Result<(), AllocError>
    requires within { IsWithin (length last.old) item.now }
    requires short { length item.now.children < 2 ^ 32 }
    ensures chained { OnOk result ((count : ℕ) → place < count → AreChained count last.old slots.old.items → AreChained count last.new slots.new.items) }
    ensures old { OnOk result ((c p : ℕ) → IsWaiting slots.old.items c p → IsWaiting slots.new.items c p) }
    ensures waits { OnOk result (RecordWaits slots.new.items place item.now (length item.now.children)) }
{
    let children = item.children.as_slice();
    for slot in 0..children.len() {
        if same_length(item.shape, children, slot as u32) {
            wait(last, slots, children[slot].0, place)?;
        }
    }
    Ok(())
}

/// The slots of all records that wait.
pub fn waiting_of(alloc: Global, records: &[Record], classes: u32) -> Result<Waiting, AllocError>
    requires within { AreWithin classes records.now }
    requires short { AreShort records.now }
    ensures { IfOk result (λ waiting. AreWaiting records.now classes waiting) }
{
    let mut last = vec![in alloc; 0usize; classes as usize]?;
    let mut slots = Vec::new(alloc);
    for place in 0..records.len() {
        wait_all(&mut last, &mut slots, &records[place], place as u32)?;
    }
    Ok(Waiting { last, slots })
}
