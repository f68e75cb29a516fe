ghost use Rattle.std.specs.Prelude.{◌≡◌, ◌≢◌, ◌<◌, ◌≤◌, ◌^◌, ◌↔◌, ℕ, IsTrue, IfNone, IfSome, false, not, length, map, remove, slice_index_or};
ghost use Rattle.std.specs.List.{list_all};
ghost use Rattle.css_domain.specs.Entries.{IsCalled, can_keep_length};
ghost use Rattle.css_prune.specs.Faults.{EachBefore, IsMatched, IsRepeated, IsRuleRight, IsRankRight, AreRanksRight, IsFirstWrongRule, IsFirstWrongSlot, IsFirstWrongRank};

use crate::entry::Entry;
use css_domain::{Domain, Shape};
use thiserror::Error;

/// Why entries are no specification. The first refusal that applies is answered.
#[derive(Clone, Copy, Debug, PartialEq, Eq, Error)]
pub enum SpecFault {
    /// There is no entry.
    #[error("there is no entry")]
    Empty,
    /// The first entry whose rule makes another class or has other children, whose class is an earlier
    /// one's, or that no earlier entry names, unless it is the first.
    #[error("entry {entry} has a wrong rule, child or class, or is named by no earlier one")]
    Rule { entry: u32 },
    /// The first entry with a child that can be as long as its parent and has no smaller rank, and the entry
    /// of its first such child.
    #[error("entry {child} is a child of entry {entry} without a smaller rank")]
    Rank { entry: u32, child: u32 },
}

fn is_same<D: Domain>(one: &D::Class, other: &D::Class) -> bool
    ensures { IsTrue result ↔ (one.now ≡ other.now) }
{
    one == other
}

/// Whether an entry before the place has the class.
fn is_repeated<D: Domain>(entries: &[Entry<D>], place: usize, class: &D::Class) -> bool
    requires { place ≤ length entries.now }
    ensures { IsTrue result ↔ IsRepeated D.meaning entries.now place class.now }
{
    for j in 0..place {
        let earlier = &entries[j];
        if is_same::<D>(&earlier.class, class) {
            return true;
        }
    }
    false
}

/// Whether an entry before the place names it as a child.
fn is_called<D: Domain>(entries: &[Entry<D>], place: u32) -> bool
    requires { place ≤ length entries.now }
    ensures { IsTrue result ↔ IsCalled D.meaning entries.now place }
{
    for j in 0..place as usize {
        let earlier = &entries[j];
        if earlier.children.as_slice().contains(&place) {
            return true;
        }
    }
    false
}

/// Whether the entry that is named for the slot has the class of the rule's child.
fn is_matched<D: Domain>(entries: &[Entry<D>], entry: &Entry<D>, slot: u32) -> bool
    requires named { slot < length entry.now.children }
    requires child { slot < length (D.meaning.children entry.now.rule) }
    ensures { IsTrue result ↔ IsMatched D.meaning entries.now entry.now slot }
{
    let place = entry.children.as_slice()[slot as usize] as usize;
    if place >= entries.len() {
        return false;
    }
    let named = &entries[place];
    is_same::<D>(D::child(&entry.rule, slot), &named.class)
}

fn are_matched<D: Domain>(entries: &[Entry<D>], entry: &Entry<D>) -> bool
    requires { length entry.now.children ≡ length (D.meaning.children entry.now.rule) }
    ensures { IsTrue result ↔ ((slot : ℕ) → slot < length entry.now.children → IsMatched D.meaning entries.now entry.now slot) }
{
    for slot in 0..D::arity(&entry.rule) {
        if !is_matched(entries, entry, slot) {
            return false;
        }
    }
    true
}

/// Whether the entry's rule makes its class.
fn has_own_class<D: Domain>(entry: &Entry<D>) -> bool
    ensures { IsTrue result ↔ (D.meaning.parent entry.now.rule ≡ entry.now.class) }
{
    is_same::<D>(D::parent(&entry.rule), &entry.class)
}

/// Whether as many entries are named as the rule has children.
fn has_all_children<D: Domain>(entry: &Entry<D>) -> bool
    ensures { IsTrue result ↔ (length entry.now.children ≡ length (D.meaning.children entry.now.rule)) }
{
    entry.children.as_slice().len() == D::arity(&entry.rule) as usize
}

/// Whether the entry at the place is the first, or an earlier one names it.
fn is_first_or_called<D: Domain>(entries: &[Entry<D>], place: u32) -> bool
    requires { place ≤ length entries.now }
    ensures { IsTrue result ↔ (0 < place → IsCalled D.meaning entries.now place) }
{
    if place == 0 {
        return true;
    }
    is_called(entries, place)
}

/// Whether nothing but a rank can be wrong in the entry at the place.
fn is_rule_right<D: Domain>(entries: &[Entry<D>], place: u32, entry: &Entry<D>) -> bool
    requires { place ≤ length entries.now }
    ensures { IsTrue result ↔ IsRuleRight D.meaning entries.now place entry.now }
{
    if !has_own_class(entry) {
        return false;
    }
    if !has_all_children(entry) {
        return false;
    }
    if !are_matched(entries, entry) {
        return false;
    }
    if is_repeated(entries, place as usize, &entry.class) {
        return false;
    }
    is_first_or_called(entries, place)
}

/// The first place where more than a rank is wrong.
pub fn first_wrong_rule<D: Domain>(entries: &[Entry<D>]) -> Option<u32>
    requires { length entries.now < 2 ^ 28 }
    ensures none { IfNone result (EachBefore (IsRuleRight D.meaning entries.now) entries.now (length entries.now)) }
    ensures some { IfSome result (λ place. IsFirstWrongRule D.meaning entries.now place) }
{
    for place in 0..entries.len() {
        if !is_rule_right(entries, place as u32, &entries[place]) {
            return Some(place as u32);
        }
    }
    None
}

/// Whether the child in the other slot is positive.
fn is_other_positive<D: Domain>(rule: &D::Rule, slot: u32, other: u32) -> bool
    requires { other < length (D.meaning.children rule.now) }
    ensures yes { IsTrue result → (other ≢ slot) × IsTrue (slice_index_or (map D.meaning.positive (D.meaning.children rule.now)) other false) }
    ensures no { result ≡ false → other ≢ slot → slice_index_or (map D.meaning.positive (D.meaning.children rule.now)) other false ≡ false }
{
    if other == slot {
        return false;
    }
    D::positive(D::child(rule, other))
}

/// Whether no child but that in the slot is positive.
fn no_other_positive<D: Domain>(rule: &D::Rule, slot: u32) -> bool
    ensures { result ≡ list_all not (remove (map D.meaning.positive (D.meaning.children rule.now)) slot) }
{
    for other in 0..D::arity(rule) {
        if is_other_positive::<D>(rule, slot, other) {
            return false;
        }
    }
    true
}

fn can_keep_length<D: Domain>(rule: &D::Rule, slot: u32) -> bool
    ensures { result ≡ can_keep_length D.meaning rule.now slot }
{
    match D::shape(rule) {
        Shape::Union => true,
        Shape::Product => no_other_positive::<D>(rule, slot),
        Shape::Atom(_) => false,
        Shape::Nothing => false,
    }
}

/// Whether the child in the slot has a smaller rank where it can be as long as its parent.
fn is_rank_right<D: Domain>(entries: &[Entry<D>], entry: &Entry<D>, slot: u32) -> bool
    requires within { slot < length entry.now.children }
    requires matched { IsMatched D.meaning entries.now entry.now slot }
    ensures { IsTrue result ↔ IsRankRight D.meaning entries.now entry.now slot }
{
    if !can_keep_length::<D>(&entry.rule, slot) {
        return true;
    }
    let place = entry.children.as_slice()[slot as usize] as usize;
    let named = &entries[place];
    named.rank < entry.rank
}

/// The entry's first slot with a wrong rank.
fn first_wrong_slot<D: Domain>(entries: &[Entry<D>], entry: &Entry<D>) -> Option<u32>
    requires as_many { length entry.now.children ≡ length (D.meaning.children entry.now.rule) }
    requires matched { (slot : ℕ) → slot < length entry.now.children → IsMatched D.meaning entries.now entry.now slot }
    ensures none { IfNone result ((slot : ℕ) → slot < length entry.now.children → IsRankRight D.meaning entries.now entry.now slot) }
    ensures some { IfSome result (λ slot. IsFirstWrongSlot D.meaning entries.now entry.now slot) }
{
    for slot in 0..D::arity(&entry.rule) {
        if !is_rank_right(entries, entry, slot) {
            return Some(slot);
        }
    }
    None
}

/// The first entry with a wrong rank, and the entry that its first such slot names.
pub fn first_wrong_rank<D: Domain>(entries: &[Entry<D>]) -> Option<(u32, u32)>
    requires few { length entries.now < 2 ^ 28 }
    requires right { EachBefore (IsRuleRight D.meaning entries.now) entries.now (length entries.now) }
    ensures none { IfNone result (EachBefore (AreRanksRight D.meaning entries.now) entries.now (length entries.now)) }
    ensures some { IfSome result (λ found. IsFirstWrongRank D.meaning entries.now found.0 found.1) }
{
    for place in 0..entries.len() {
        let entry = &entries[place];
        if let Some(slot) = first_wrong_slot(entries, entry) {
            return Some((place as u32, entry.children.as_slice()[slot as usize]));
        }
    }
    None
}
