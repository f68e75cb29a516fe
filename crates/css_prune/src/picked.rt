ghost use Rattle.std.specs.Prelude.{◌≡◌, ◌<◌, ◌-◌, ℕ, IsTrue, IfOk, length, map, slice_index};
ghost use Rattle.std.specs.List.{AllZip};
ghost use Rattle.css_domain.specs.Ledgers.{classes, records};
ghost use Rattle.css_domain.specs.Entries.{IsPickOf, Picked};
ghost use Rattle.css_prune.specs.Pruning.{kept, HasLength, IsPruned};
ghost use Rattle.css_prune.specs.Extracting.{IsReady};
ghost use Rattle.lists.specs.Members.{IsIn};

use crate::entry::Entry;
use crate::order::{Order, order_of};
use crate::pruned::Pruned;
use crate::spec::{Spec, spec_of};
use css_domain::{Domain, Record};
use css_ledger::Ledger;
use sequences::Sequence;
use std::alloc::{AllocError, Global};

/// The children's places in the order of entries.
fn places_of(
    alloc: Global,
    places: &[u32],
    children: &[(u32, bool)],
) -> Result<Vec<u32>, AllocError>
    requires within { (d : ℕ) → IsIn d (map (λ child. child.0) children.now) → d < length places.now }
    requires placed { (d : ℕ) → IsIn d (map (λ child. child.0) children.now) → 0 < slice_index places.now d }
    ensures { IfOk result (λ found. found.items ≡ map (λ child. slice_index places.now child.0 - 1) children.now) }
{
    let mut found = Vec::with_capacity(alloc, children.len())?;
    for child in children {
        found.push(places[child.0 as usize] - 1)?;
    }
    Ok(found)
}

/// The entry of a class in the order: its pick and its rank.
fn entry_of<D: Domain>(
    alloc: Global,
    ledger: &Ledger<D>,
    items: &[Record],
    pruned: &Pruned,
    made: &Order,
    number: u32,
) -> Result<Entry<D>, AllocError>
    requires records { items.now ≡ records D.meaning ledger.now }
    requires as_many { HasLength (length (classes D.meaning ledger.now)) pruned.now }
    requires ready { IsReady D.meaning ledger.now (kept pruned.now.keep) made.now.order.items made.now.places.items pruned.now number }
    ensures { IfOk result (λ entry. IsPickOf D.meaning ledger.now (kept pruned.now.keep) made.now.order.items number entry) }
{
    let pick = pruned.pick.as_slice()[number as usize];
    let item = &items[pick as usize];
    let children = places_of(alloc, made.places.as_slice(), item.children.as_slice())?;
    let class = D::copy(alloc, ledger.class(number))?;
    let rule = D::copy_rule(alloc, ledger.rule(pick))?;
    let rank = pruned.rank.as_slice()[number as usize];
    Ok(Entry {
        class,
        rule,
        children: Sequence::of(children),
        rank,
    })
}

fn entries_of<D: Domain>(
    alloc: Global,
    ledger: &Ledger<D>,
    items: &[Record],
    pruned: &Pruned,
    made: &Order,
) -> Result<Vec<Entry<D>>, AllocError>
    requires records { items.now ≡ records D.meaning ledger.now }
    requires as_many { HasLength (length (classes D.meaning ledger.now)) pruned.now }
    requires ready { (c : ℕ) → IsIn c made.now.order.items → IsReady D.meaning ledger.now (kept pruned.now.keep) made.now.order.items made.now.places.items pruned.now c }
    ensures { IfOk result (λ entries. AllZip (λ c e. IsPickOf D.meaning ledger.now (kept pruned.now.keep) made.now.order.items c e) made.now.order.items entries.items) }
{
    let numbers = made.order.as_slice();
    let mut entries = Vec::with_capacity(alloc, numbers.len())?;
    for number in numbers {
        entries.push(entry_of(alloc, ledger, items, pruned, made, *number)?)?;
    }
    Ok(entries)
}

/// The specification of the picks from a kept class on, which is its root: each class has its pick as its
/// rule, its rank, and the places of the pick's children (docs/RULES.md, "Standing, ranks and picks"). `pruned` is the
/// answer of `prune` for the ledger's records. The refusal is want of memory.
pub fn extract<D: Domain>(
    alloc: Global,
    ledger: &Ledger<D>,
    pruned: &Pruned,
    root: u32,
) -> Result<Spec<D>, AllocError>
    requires pruned { IsPruned (records D.meaning ledger.now) (length (classes D.meaning ledger.now)) pruned.now }
    requires kept { IsTrue (kept pruned.now.keep root) }
    ensures { IfOk result (λ spec. Picked D.meaning ledger.now root spec) }
{
    let _ = ledger.counts();
    let items = ledger.records(alloc)?;
    let made = order_of(
        alloc,
        items.as_slice(),
        pruned.keep.as_slice(),
        pruned.pick.as_slice(),
        root,
    )?;
    let entries = entries_of(alloc, ledger, items.as_slice(), pruned, &made)?;
    Ok(spec_of(entries))
}
