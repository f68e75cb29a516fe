ghost use Rattle.std.specs.Prelude.{◌≡◌, ◌<◌, ◌≤◌, ◌+◌, ◌++◌, ◌∷◌, [], ◌↔◌, ℕ, IsTrue, IfOk, IfNone, IfSome, length, map, take, slice_index_or, true, false};
ghost use Rattle.lists.specs.Members.{IsIn};
ghost use Rattle.rule_kinds.specs.Follows.{Follows};
ghost use Rattle.spec_text.specs.Joined.{AreJoined};
ghost use Rattle.spec_checker.specs.Refusing.{AreRulesRight, IsFirstWrongRule};
ghost use Rattle.spec_checker.specs.Passing.{AreMarked, TellsRule};

use crate::named::mark;
use css_prune::Entry;
use indexmap::IndexSet;
use std::alloc::{AllocError, Global};
use tile_rules::{Tiles, check_rule};
use tiling_core::Tiling;

/// Adds a tiling to those that were seen, and answers whether it is new.
fn is_new<'a>(seen: &mut IndexSet<&'a Tiling>, tiling: &'a Tiling) -> Result<bool, AllocError>
    ensures new { IfOk result (λ new. IsTrue new ↔ (IsIn tiling.now (map (λ t. t.now) seen.old.keys) → ⊥)) }
    ensures seen { IfOk result (λ new. IsTrue new → map (λ t. t.now) seen.new.keys ≡ map (λ t. t.now) seen.old.keys ++ tiling.now ∷ []) }
{
    Ok(seen.insert(tiling)?)
}

/// Whether the entry at the place is the first, or an earlier one names it.
fn is_called(named: &[bool], place: usize) -> bool
    requires { place < length named.now }
    ensures { IsTrue result ↔ (0 < place → slice_index_or named.now place false ≡ true) }
{
    if place == 0 {
        return true;
    }
    named[place]
}

/// Whether the entry's rule follows.
fn follows(alloc: Global, entry: &Entry<Tiles>) -> Result<bool, AllocError>
    ensures { IfOk result (λ it_does. IsTrue it_does ↔ Follows entry.now.rule) }
{
    check_rule(alloc, &entry.rule)
}

/// Whether nothing but a rank can be wrong in the entry at the place, before which these tilings were seen and these
/// entries named; its tiling is seen then.
fn is_rule_right<'a>(
    alloc: Global,
    seen: &mut IndexSet<&'a Tiling>,
    named: &[bool],
    entries: &'a [Entry<Tiles>],
    place: usize,
) -> Result<bool, AllocError>
    requires within { place < length entries.now }
    requires seen { map (λ t. t.now) seen.old.keys ≡ map (λ e. e.class) (take place entries.now) }
    requires named { AreMarked entries.now place named.now }
    ensures right { IfOk result (λ right. TellsRule entries.now place right) }
    ensures seen { IfOk result (λ right. IsTrue right → map (λ t. t.now) seen.new.keys ≡ map (λ e. e.class) (take (place + 1) entries.now)) }
{
    let entry = &entries[place];
    if !is_new(seen, &entry.class)? {
        return Ok(false);
    }
    if !is_called(named, place) {
        return Ok(false);
    }
    follows(alloc, entry)
}

/// The first entry where more than a rank is wrong.
pub(crate) fn first_wrong_rule(
    alloc: Global,
    entries: &[Entry<Tiles>],
) -> Result<Option<u32>, AllocError>
    requires joined { AreJoined entries.now }
    requires few { length entries.now ≤ 100000 }
    ensures none { IfOk result (λ found. IfNone found (AreRulesRight entries.now)) }
    ensures some { IfOk result (λ found. IfSome found (λ place. IsFirstWrongRule entries.now place)) }
{
    let mut seen = IndexSet::new(alloc);
    let mut named = vec![in alloc; false; entries.len()]?;
    for place in 0..entries.len() {
        if !is_rule_right(alloc, &mut seen, &named, entries, place)? {
            return Ok(Some(place as u32));
        }
        let entry = &entries[place];
        mark(&mut named, entry.children.as_slice());
    }
    Ok(None)
}
