ghost use Rattle.std.specs.Prelude.{◌≡◌, ◌<◌, ◌+◌, nat_le, MatchOption, All};
ghost use Rattle.tiling_core.specs.Tiles.{IsInGrid};
ghost use Rattle.coord_maps.specs.Stretches.{IsMapOf};
ghost use Rattle.rule_kinds.specs.Conditions.{preimages_in, preimage_sum, most_preimages, all_of};

use coord_maps::{GridMap, preimage_count};
use gridded::Gridded;
use sequences::Sequence;
use tiling_core::Tiling;

/// The most preimages that a tiling's patterns may have in all.
const MOST_PREIMAGES: u64 = 131_072;

/// What is left of a number where the numbers of the patterns' preimages are taken away; None where it is less than
/// they are in all.
fn left_by(map: &GridMap, patterns: &[Gridded], most: u64) -> Option<u64>
    requires { IsInGrid map.now.columns.lines map.now.rows.lines patterns.now }
    ensures { MatchOption result (most < preimages_in map.now patterns.now) (λ left. left + preimages_in map.now patterns.now ≡ most) }
{
    let mut left = most;
    for pattern in patterns {
        let count = preimage_count(map, pattern);
        if left < count {
            return None;
        }
        left -= count;
    }
    Some(left)
}

/// The same for the members of all lists.
fn left_by_all(map: &GridMap, lists: &[Sequence<Gridded>], most: u64) -> Option<u64>
    requires { All (λ patterns. IsInGrid map.now.columns.lines map.now.rows.lines patterns) lists.now }
    ensures { MatchOption result (most < preimages_in map.now (all_of lists.now)) (λ left. left + preimages_in map.now (all_of lists.now) ≡ most) }
{
    let mut left = most;
    for patterns in lists {
        match left_by(map, patterns.as_slice(), left) {
            Some(rest) => left = rest,
            None => return None,
        }
    }
    Some(left)
}

/// Whether the tiling's obstructions and list members have at most 131,072 preimages in all.
pub(crate) fn has_few_preimages(map: &GridMap, tiling: &Tiling) -> bool
    requires { IsMapOf map.now tiling.now }
    ensures { result ≡ nat_le (preimage_sum map.now tiling.now) most_preimages }
{
    match left_by(map, tiling.obstructions(), MOST_PREIMAGES) {
        Some(left) => left_by_all(map, tiling.requirements(), left).is_some(),
        None => false,
    }
}
