// Which cells of a line must be where others are, and what that makes of a set of cells.
ghost use Rattle.std.specs.Prelude.{◌≡◌, ◌<◌, ◌&&◌, ◌||◌, [], ◌∷◌};
ghost use Rattle.std.specs.List.{list_any};
ghost use Rattle.lists.specs.Members.{IsIn};
ghost use Rattle.gridded.specs.Axes.{line_of};
ghost use Rattle.gridded.specs.CellSets.{is_among as has_cell};
ghost use Rattle.gridded.specs.Orders.{cell_eq};
ghost use Rattle.rule_kinds.specs.Conditions.{before};
ghost use Rattle.rule_kinds.specs.Choices.{is_bound, grown, closure};
ghost use Rattle.separation.specs.OnLines.{IsOfLine};

use crate::lines::{cell_on, with_wanted};
use gridded::{Axis, Cell, CellSet, Gridded};
use tiling_core::Tiling;

/// The pattern that has a point of another cell before one of a cell, which are on one line: below it for a row,
/// left of it for a column.
fn before(axis: Axis, other: Cell, cell: Cell) -> Gridded
    requires { line_of axis other ≡ line_of axis cell }
    ensures { result ≡ before axis other cell }
{
    match axis {
        Axis::Row => {
            if other.x < cell.x {
                Gridded::rising(other, cell)
            } else {
                Gridded::falling(cell, other)
            }
        }
        Axis::Column => {
            if other.y < cell.y {
                Gridded::rising(other, cell)
            } else {
                Gridded::falling(other, cell)
            }
        }
    }
}

/// Whether another cell of the line must be where a cell is: it may have points before those of the cell.
fn is_bound(axis: Axis, tiling: &Tiling, cell: Cell, other: Cell) -> bool
    requires { line_of axis other ≡ line_of axis cell }
    ensures { result ≡ is_bound axis tiling.now cell other }
{
    !tiling.forbids(&before(axis, other, cell))
}

/// Whether a cell is in a set, and another cell of its line is bound to it.
fn binds(axis: Axis, tiling: &Tiling, set: CellSet, cell: Cell, other: Cell) -> bool
    requires left { cell.x < 8 }
    requires low { cell.y < 8 }
    requires one_line { line_of axis other ≡ line_of axis cell }
    ensures { result ≡ (has_cell set cell && is_bound axis tiling.now cell other) }
{
    set.has(cell) && is_bound(axis, tiling, cell, other)
}

/// Whether a cell of the line is bound to one of a set of its cells.
fn is_reached(axis: Axis, tiling: &Tiling, line: u8, set: CellSet, other: Cell) -> bool
    requires low { line < 8 }
    requires of_line { IsOfLine axis line set }
    requires on_line { line_of axis other ≡ line }
    ensures { result ≡ list_any (λ c. is_bound axis tiling.now c other) set }
{
    for place in 0..8 {
        if binds(axis, tiling, set, cell_on(axis, line, place), other) {
            return true;
        }
    }
    false
}

/// Whether a cell of the line is in the set, or bound to one of its cells.
fn is_grown(axis: Axis, tiling: &Tiling, line: u8, set: CellSet, other: Cell) -> bool
    requires low { line < 8 }
    requires of_line { IsOfLine axis line set }
    requires on_line { line_of axis other ≡ line }
    requires left { other.x < 8 }
    requires lower { other.y < 8 }
    ensures { result ≡ list_any (λ c. cell_eq c other || is_bound axis tiling.now c other) set }
{
    set.has(other) || is_reached(axis, tiling, line, set, other)
}

/// The same of a cell that has to be among others.
fn is_linked(
    axis: Axis,
    tiling: &Tiling,
    line: u8,
    whole: CellSet,
    set: CellSet,
    other: Cell,
) -> bool
    requires low { line < 8 }
    requires of_line { IsOfLine axis line set }
    requires on_line { line_of axis other ≡ line }
    requires left { other.x < 8 }
    requires lower { other.y < 8 }
    ensures { result ≡ (has_cell whole other && list_any (λ c. cell_eq c other || is_bound axis tiling.now c other) set) }
{
    whole.has(other) && is_grown(axis, tiling, line, set, other)
}

/// The active cells of a line that are in the set or bound to one of its cells.
pub(crate) fn grown(axis: Axis, tiling: &Tiling, line: u8, whole: CellSet, set: CellSet) -> CellSet
    requires low { line < 8 }
    requires whole_of_line { IsOfLine axis line whole }
    requires of_line { IsOfLine axis line set }
    ensures value { result ≡ grown (is_bound axis tiling.now) whole set }
    ensures of_line { IsOfLine axis line result }
{
    let mut larger = CellSet::none();
    for place in 0..8 {
        let cell = cell_on(axis, line, place);
        let wanted = is_linked(axis, tiling, line, whole, set, cell);
        larger = with_wanted(larger, cell, wanted);
    }
    larger
}

/// The set of one cell of a line.
fn only(axis: Axis, line: u8, cell: Cell) -> CellSet
    requires left { cell.x < 8 }
    requires low { cell.y < 8 }
    requires on_line { line_of axis cell ≡ line }
    ensures value { result ≡ cell ∷ [] }
    ensures of_line { IsOfLine axis line result }
{
    CellSet::none().with(cell)
}

/// The least set of active cells of a line that has a cell, and with each cell those that are bound to it.
pub(crate) fn closure(axis: Axis, tiling: &Tiling, line: u8, whole: CellSet, cell: Cell) -> CellSet
    requires low { line < 8 }
    requires whole_of_line { IsOfLine axis line whole }
    requires among { IsIn cell whole }
    ensures value { result ≡ closure (is_bound axis tiling.now) whole cell }
{
    let mut set = only(axis, line, cell);
    for _round in 0..whole.count() {
        let larger = grown(axis, tiling, line, whole, set);
        if larger == set {
            return set;
        }
        set = larger;
    }
    set
}
