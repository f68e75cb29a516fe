ghost use Rattle.std.specs.Prelude.{◌≡◌, ◌<◌, ◌^◌, ◌&&◌, ◌||◌, ◌⊎◌, not, true, false, length, map, slice_index};
ghost use Rattle.std.specs.List.{list_all, range_with_len};
ghost use Rattle.css_domain.specs.Shapes.{is_same_length};
ghost use Rattle.css_prune.specs.Marks.{has_rank_below, gives_mark, is_passed, AreBelow, AreShort, IsGiven, IsBetter, IsSkipped};
ghost use Rattle.css_domain.specs.Records.{IsWithin};
ghost use Rattle.css_prune.specs.Pruning.{kept};

use css_domain::{Record, Shape, same_length};

/// Whether the class has a rank, and one below the end.
fn has_rank_below(end: u32, ranks: &[u32], class: u32) -> bool
    requires { class < length ranks.now }
    ensures { result ≡ has_rank_below end ranks.now class }
{
    let rank = ranks[class as usize];
    0 < rank && rank < end
}

/// Whether all children are kept.
fn are_kept(keep: &[bool], children: &[(u32, bool)]) -> bool
    requires { AreBelow (length keep.now) children.now }
    ensures { result ≡ list_all (kept keep.now) (map (λ child. child.0) children.now) }
{
    for child in children {
        if !keep[child.0 as usize] {
            return false;
        }
    }
    true
}

/// Whether the child in a slot has a rank below the end, unless it is shorter.
fn is_lower(shape: Shape, children: &[(u32, bool)], slot: usize, ranks: &[u32], end: u32) -> bool
    requires below { AreBelow (length ranks.now) children.now }
    requires within { slot < length children.now }
    requires short { length children.now < 2 ^ 32 }
    ensures { result ≡ (not (is_same_length shape (map (λ child. child.1) children.now) slot)
        || has_rank_below end ranks.now (slice_index (map (λ child. child.0) children.now) slot)) }
{
    if same_length(shape, children, slot as u32) {
        has_rank_below(end, ranks, children[slot].0)
    } else {
        true
    }
}

/// Whether the children that can be as long as their parent have ranks below the end.
fn are_lower(shape: Shape, children: &[(u32, bool)], ranks: &[u32], end: u32) -> bool
    requires below { AreBelow (length ranks.now) children.now }
    requires short { length children.now < 2 ^ 32 }
    ensures { result ≡ list_all (λ slot. not (is_same_length shape (map (λ child. child.1) children.now) slot)
        || has_rank_below end ranks.now (slice_index (map (λ child. child.0) children.now) slot)) (range_with_len 0 (length children.now)) }
{
    for slot in 0..children.len() {
        if !is_lower(shape, children, slot, ranks, end) {
            return false;
        }
    }
    true
}

/// Whether the record gives its parent a rank above those below the end.
fn gives_mark(item: &Record, keep: &[bool], ranks: &[u32], end: u32) -> bool
    requires within { IsWithin (length keep.now) item.now }
    requires short { length item.now.children < 2 ^ 32 }
    requires as_many { length ranks.now ≡ length keep.now }
    ensures { result ≡ gives_mark (kept keep.now) end ranks.now item.now }
{
    let children = item.children.as_slice();
    keep[item.parent as usize]
        && are_kept(keep, children)
        && are_lower(item.shape, children, ranks, end)
}

/// Whether nothing is left to give: the class has an earlier rank, or this one by an earlier record.
fn is_passed(end: u32, place: u32, rank: u32, pick: u32) -> bool
    ensures { result ≡ is_passed end place rank pick }
{
    0 < rank && (rank != end || pick <= place)
}

/// Gives the record's parent the rank `end` where it has none and the record gives it, and makes the record its pick
/// where it has this rank by a later record. Answers whether the rank is new.
pub fn give(
    item: &Record,
    place: u32,
    keep: &[bool],
    ranks: &mut [u32],
    picks: &mut [u32],
    end: u32,
) -> bool
    requires within { IsWithin (length keep.now) item.now }
    requires short { length item.now.children < 2 ^ 32 }
    requires ranks { length ranks.old ≡ length keep.now }
    requires picks { length picks.old ≡ length keep.now }
    ensures given { result ≡ true → IsGiven (kept keep.now) end place item.now ranks.old picks.old ranks.new picks.new }
    ensures left { result ≡ false → IsBetter (kept keep.now) end place item.now ranks.old picks.old ranks.new picks.new
        ⊎ IsSkipped (kept keep.now) end place item.now ranks.old picks.old ranks.new picks.new }
{
    let parent = item.parent as usize;
    let rank = ranks[parent];
    if is_passed(end, place, rank, picks[parent]) {
        return false;
    }
    if !gives_mark(item, keep, ranks, end) {
        return false;
    }
    picks[parent] = place;
    if rank != 0 {
        return false;
    }
    ranks[parent] = end;
    true
}
