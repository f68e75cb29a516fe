// Where a line can be cut.
ghost use Rattle.std.specs.Prelude.{◌≡◌, ◌<◌, ◌≤◌, ◌&&◌, ◌==◌, not, true, length, nat_le};
ghost use Rattle.gridded.specs.CellSets.{IsCellSet};
ghost use Rattle.gridded.specs.CellSetOrder.{set_eq};
ghost use Rattle.tiling_core.specs.Patterns.{active_cells};
ghost use Rattle.rule_kinds.specs.Lines.{lines, active_on};
ghost use Rattle.rule_kinds.specs.Children.{halved};
ghost use Rattle.rule_kinds.specs.Conditions.{can_cut, comes_first, is_proper_part, preimage_sum, most_preimages};
ghost use Rattle.separation.specs.OnLines.{IsOfLine};

use crate::bound::grown;
use crate::lines::{active_on, lines, shared};
use crate::room::preimages_fit;
use gridded::{Axis, CellSet};
use tiling_core::{Tiling, active};

/// Whether a set has a cell, what it shares with another one is all of it, and not all of the other.
fn is_some_of(common: CellSet, set: CellSet, whole: CellSet) -> bool
    ensures value { result ≡ (not (length set == 0) && set_eq common set && not (set_eq common whole)) }
    ensures is_set { IsCellSet set }
{
    set.count() != 0 && common == set && common != whole
}

/// Whether a set has some of the cells of a line that are given, no others, and not all.
fn is_proper_part(axis: Axis, line: u8, set: CellSet, whole: CellSet) -> bool
    requires low { line < 8 }
    requires of_line { IsOfLine axis line whole }
    ensures value { result ≡ is_proper_part set whole }
    ensures part { result ≡ true → IsOfLine axis line set }
{
    let common = shared(axis, line, set, whole);
    is_some_of(common, set, whole)
}

/// Whether the points of a set of active cells of a line lie before those of the line's others: no other cell is
/// bound to one of the set.
fn comes_first(axis: Axis, tiling: &Tiling, line: u8, whole: CellSet, set: CellSet) -> bool
    requires low { line < 8 }
    requires whole { whole ≡ active_on axis line tiling.now }
    requires whole_of_line { IsOfLine axis line whole }
    requires of_line { IsOfLine axis line set }
    requires part { is_proper_part set whole ≡ true }
    ensures { result ≡ comes_first axis tiling.now line set }
{
    grown(axis, tiling, line, whole, set) == set
}

/// Whether a line that is there can be cut with the points of the set first.
fn can_be_first(axis: Axis, tiling: &Tiling, line: u8, set: CellSet) -> bool
    requires few { lines axis tiling.now ≤ 7 }
    requires inside { line < lines axis tiling.now }
    ensures { result ≡ (is_proper_part set (active_on axis line tiling.now) && comes_first axis tiling.now line set && nat_le (preimage_sum (halved axis tiling.now line) tiling.now) most_preimages) }
{
    let whole = active_on(axis, tiling, active(tiling), line);
    if !is_proper_part(axis, line, set, whole) {
        return false;
    }
    if !comes_first(axis, tiling, line, whole, set) {
        return false;
    }
    preimages_fit(axis, tiling, line)
}

/// Whether a line, a row or a column by the axis, can be cut in two with the points of the set first: below the
/// others for a row, left of them for a column. There are at most seven such lines and this is one of them, the
/// set is a proper part of its active cells, each obstruction that a point of another cell before one of the set
/// would be is there, and the patterns have at most 131,072 preimages where it is cut (docs/RULES.md, "Kinds of
/// rules"). Takes no memory.
pub fn can_cut(axis: Axis, tiling: &Tiling, line: u8, set: CellSet) -> bool
    ensures { result ≡ can_cut axis tiling.now line set }
{
    let lines = lines(axis, tiling);
    if lines > 7 {
        return false;
    }
    if line >= lines {
        return false;
    }
    can_be_first(axis, tiling, line, set)
}
