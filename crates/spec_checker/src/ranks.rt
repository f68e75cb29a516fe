ghost use Rattle.std.specs.Prelude.{◌≡◌, ◌≢◌, ◌<◌, ◌≤◌, ◌↔◌, ℕ, IsTrue, IfNone, IfSome, false, not, length, map, remove, slice_index_or};
ghost use Rattle.std.specs.List.{list_all};
ghost use Rattle.tiling_core.specs.Measures.{is_positive};
ghost use Rattle.css_domain.specs.Entries.{can_keep_length};
ghost use Rattle.css_prune.specs.Faults.{AreRanksRight, IsRankRight, IsFirstWrongSlot, IsFirstWrongRank};
ghost use Rattle.tile_rules.specs.Meaning.{tile_meaning};
ghost use Rattle.spec_text.specs.Joined.{IsJoined, AreJoined};
ghost use Rattle.spec_checker.specs.Passing.{HaveRightRanks};

use css_domain::{Domain, Shape};
use css_prune::Entry;
use tile_rules::{TileRule, Tiles};
use tiling_core::{Tiling, positive};

/// Whether another tiling than that in the slot is positive, at the other place.
fn is_other_positive(tilings: &[Tiling], slot: usize, other: usize) -> bool
    requires { other < length tilings.now }
    ensures yes { IsTrue result → (other ≢ slot) × IsTrue (slice_index_or (map is_positive tilings.now) other false) }
    ensures no { result ≡ false → other ≢ slot → slice_index_or (map is_positive tilings.now) other false ≡ false }
{
    if other == slot {
        return false;
    }
    positive(&tilings[other])
}

/// Whether no tiling but that in the slot is positive.
fn no_other_positive(tilings: &[Tiling], slot: usize) -> bool
    ensures { result ≡ list_all not (remove (map is_positive tilings.now) slot) }
{
    for other in 0..tilings.len() {
        if is_other_positive(tilings, slot, other) {
            return false;
        }
    }
    true
}

/// Whether the child in the slot can be as long as its parent.
fn can_keep_length(rule: &TileRule, slot: usize) -> bool
    ensures { result ≡ can_keep_length tile_meaning rule.now slot }
{
    match Tiles::shape(rule) {
        Shape::Union => true,
        Shape::Product => no_other_positive(rule.children(), slot),
        Shape::Atom(_) => false,
        Shape::Nothing => false,
    }
}

/// Whether the child in the slot has a smaller rank where it can be as long as its parent.
fn is_rank_right(entries: &[Entry<Tiles>], entry: &Entry<Tiles>, slot: usize) -> bool
    requires within { slot < length entry.now.children }
    requires joined { IsJoined entries.now entry.now }
    ensures { IsTrue result ↔ IsRankRight tile_meaning entries.now entry.now slot }
{
    if !can_keep_length(&entry.rule, slot) {
        return true;
    }
    let place = entry.children.as_slice()[slot] as usize;
    let named = &entries[place];
    named.rank < entry.rank
}

/// The entry's first slot with a wrong rank.
fn first_wrong_slot(entries: &[Entry<Tiles>], entry: &Entry<Tiles>) -> Option<usize>
    requires joined { IsJoined entries.now entry.now }
    ensures none { IfNone result ((slot : ℕ) → slot < length entry.now.children → IsRankRight tile_meaning entries.now entry.now slot) }
    ensures some { IfSome result (λ slot. IsFirstWrongSlot tile_meaning entries.now entry.now slot) }
{
    for slot in 0..entry.children.len() {
        if !is_rank_right(entries, entry, slot) {
            return Some(slot);
        }
    }
    None
}

/// The first entry with a wrong rank, and the entry that its first such slot names.
pub(crate) fn first_wrong_rank(entries: &[Entry<Tiles>]) -> Option<(u32, u32)>
    requires joined { AreJoined entries.now }
    requires few { length entries.now ≤ 100000 }
    ensures none { IfNone result (HaveRightRanks entries.now) }
    ensures some { IfSome result (λ found. IsFirstWrongRank tile_meaning entries.now found.0 found.1) }
{
    for place in 0..entries.len() {
        let entry = &entries[place];
        if let Some(slot) = first_wrong_slot(entries, entry) {
            return Some((place as u32, entry.children.as_slice()[slot]));
        }
    }
    None
}
