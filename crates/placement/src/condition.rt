ghost use Rattle.std.specs.Prelude.{◌≡◌, ◌≤◌, ◌&&◌, nat_le, true, length};
ghost use Rattle.std.specs.List.{list_all};
ghost use Rattle.rule_kinds.specs.Lines.{in_grid};
ghost use Rattle.rule_kinds.specs.Children.{around};
ghost use Rattle.rule_kinds.specs.Kinds.{pointed_cell};
ghost use Rattle.rule_kinds.specs.Conditions.{can_place, preimage_sum, most_preimages};
ghost use Rattle.placement.specs.Placing.{can_place_along, is_small};

use crate::counting::has_few_preimages;
use crate::directions::axis_of;
use crate::distinct::{are_distinct, share_line};
use crate::map_around::{around, pointed_cell};
use gridded::Axis;
use rule_kinds::{Direction, Pointed};
use tiling_core::Tiling;

/// Whether there are 1 to 8 patterns, and the sides are at most 6.
fn is_small(tiling: &Tiling, pointed: &[Pointed]) -> bool
    ensures { result ≡ is_small tiling.now pointed.now }
{
    let patterns = pointed.len();
    1 <= patterns && patterns <= 8 && tiling.width() <= 6 && tiling.height() <= 6
}

/// Whether the patterns lie in the grid.
fn lie_in_grid(tiling: &Tiling, pointed: &[Pointed]) -> bool
    ensures { result ≡ list_all (λ q. in_grid tiling.now q.pattern) pointed.now }
{
    let width = tiling.width();
    let height = tiling.height();
    pointed
        .iter()
        .all(|each| each.pattern().fits_grid(width, height))
}

/// Whether the tiling has few preimages by the map around the pointed cell of each pattern.
fn have_few_preimages(tiling: &Tiling, pointed: &[Pointed]) -> bool
    requires narrow { tiling.now.width ≤ 6 }
    requires low { tiling.now.height ≤ 6 }
    requires inside { list_all (λ q. in_grid tiling.now q.pattern) pointed.now ≡ true }
    ensures { result ≡ list_all (λ q. nat_le (preimage_sum (around tiling.now (pointed_cell q)) tiling.now) most_preimages) pointed.now }
{
    for each in pointed {
        if !has_few_preimages(&around(tiling, pointed_cell(each)), tiling) {
            return false;
        }
    }
    true
}

/// Whether the patterns can be placed in the directions that compare the lines of an axis.
pub(crate) fn can_place_along(tiling: &Tiling, pointed: &[Pointed], axis: Axis) -> bool
    ensures { result ≡ can_place_along tiling.now pointed.now axis }
{
    if !is_small(tiling, pointed) {
        return false;
    }
    if !lie_in_grid(tiling, pointed) {
        return false;
    }
    if !are_distinct(pointed) {
        return false;
    }
    if !share_line(pointed, axis) {
        return false;
    }
    have_few_preimages(tiling, pointed)
}

/// Whether the placement applies: there are 1 to 8 patterns, the sides are at most 6, all patterns lie in the grid,
/// their pointed cells are distinct and lie in one row for North and South, in one column for East and West, and by
/// the map around each of these cells the tiling's patterns have at most 131,072 preimages in all. Takes no memory
/// (docs/RULES.md, "Kinds of rules").
#[tactic(auto, using(crate::proofs::Lined::along))]
pub fn can_place(tiling: &Tiling, pointed: &[Pointed], direction: Direction) -> bool
    ensures { result ≡ can_place tiling.now pointed.now direction }
{
    can_place_along(tiling, pointed, axis_of(direction))
}
