// The preimages of a tiling's patterns, counted up to the most that a cut may have.
ghost use Rattle.std.specs.Prelude.{◌≡◌, ◌<◌, ◌≤◌, nat_le, All};
ghost use Rattle.tiling_core.specs.Tiles.{IsInGrid};
ghost use Rattle.coord_maps.specs.Stretches.{IsMapOf};
ghost use Rattle.rule_kinds.specs.Lines.{lines};
ghost use Rattle.rule_kinds.specs.Children.{halved};
ghost use Rattle.rule_kinds.specs.Conditions.{all_of, preimages_in, preimage_sum, most_preimages};
ghost use Rattle.separation.specs.Rooms.{room_left};

use crate::lines::lines;
use coord_maps::{GridMap, LineMap, preimage_count};
use gridded::{Axis, Gridded};
use sequences::Sequence;
use tiling_core::Tiling;

/// The most preimages that the patterns of a tiling may have where a line is cut.
const MOST_PREIMAGES: u64 = 131_072;

/// The map of a line's axis that cuts the line in two, and leaves the lines of the other axis.
pub(crate) fn halved(axis: Axis, tiling: &Tiling, line: u8) -> GridMap
    requires few { lines axis tiling.now ≤ 7 }
    requires inside { line < lines axis tiling.now }
    ensures value { result ≡ halved axis tiling.now line }
    ensures of { IsMapOf result tiling.now }
{
    match axis {
        Axis::Column => GridMap {
            columns: LineMap::cut(tiling.width(), line, 2),
            rows: LineMap::cut(tiling.height(), 0, 1),
        },
        Axis::Row => GridMap {
            columns: LineMap::cut(tiling.width(), 0, 1),
            rows: LineMap::cut(tiling.height(), line, 2),
        },
    }
}

/// How much room the preimages of some patterns leave; None where they have too many.
fn room_after(map: &GridMap, patterns: &[Gridded], room: u64) -> Option<u64>
    requires { IsInGrid map.now.columns.lines map.now.rows.lines patterns.now }
    ensures { result ≡ room_left room (preimages_in map.now patterns.now) }
{
    let mut left = room;
    for pattern in patterns {
        let count = preimage_count(map, pattern);
        if count > left {
            return None;
        }
        left -= count;
    }
    Some(left)
}

/// Whether there is room for the preimages of the members of all lists.
fn lists_fit(map: &GridMap, lists: &[Sequence<Gridded>], room: u64) -> bool
    requires { All (λ patterns. IsInGrid map.now.columns.lines map.now.rows.lines patterns) lists.now }
    ensures { result ≡ nat_le (preimages_in map.now (all_of lists.now)) room }
{
    let mut left = room;
    for patterns in lists {
        match room_after(map, patterns.as_slice(), left) {
            Some(less) => left = less,
            None => return false,
        }
    }
    true
}

/// Whether the patterns of a tiling have at most 131,072 preimages where a line is cut in two.
pub(crate) fn preimages_fit(axis: Axis, tiling: &Tiling, line: u8) -> bool
    requires few { lines axis tiling.now ≤ 7 }
    requires inside { line < lines axis tiling.now }
    ensures { result ≡ nat_le (preimage_sum (halved axis tiling.now line) tiling.now) most_preimages }
{
    let map = halved(axis, tiling, line);
    match room_after(&map, tiling.obstructions(), MOST_PREIMAGES) {
        Some(room) => lists_fit(&map, tiling.requirements(), room),
        None => false,
    }
}
