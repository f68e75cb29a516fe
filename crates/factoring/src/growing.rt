// The least set of cells that has a cell and all that is linked to its cells.
ghost use Rattle.std.specs.Prelude.{◌≡◌, ◌<◌, ◌||◌, ◌&&◌, ◌∷◌, [], Bool, true, All};
ghost use Rattle.std.specs.List.{list_any, range_with_len};
ghost use Rattle.gridded.specs.declared.cell.Cell.{Cell};
ghost use Rattle.gridded.specs.Axes.{shares_line};
ghost use Rattle.gridded.specs.CellSets.{cells_that, is_among, IsCellSet};
ghost use Rattle.gridded.specs.Orders.{cell_eq};
ghost use Rattle.gridded.specs.Places.{fits_grid, touches};
ghost use Rattle.tiling_core.specs.Tiles.{IsInGrid};
ghost use Rattle.tiling_core.specs.Patterns.{active_cells};
ghost use Rattle.lists.specs.Members.{IsIn};
ghost use Rattle.rule_kinds.specs.Conditions.{bundles};
ghost use Rattle.rule_kinds.specs.Choices.{closure, grown, is_linked};
ghost use Rattle.factoring.specs.Tied.{has_at, is_tied, is_tied_alone, is_next};

use crate::cells::{cell_of, contains, touch, touches};
use gridded::{Cell, CellSet, Gridded};
use sequences::Sequence;
use tiling_core::Tiling;

/// The cells, and those of a pattern.
fn with_pattern(cells: CellSet, g: &Gridded) -> CellSet
    requires { fits_grid 8 8 g.now ≡ true }
    ensures { (test : Cell → Bool) → list_any test result ≡ (list_any test cells || touches test g.now) }
{
    let mut larger = cells;
    let own = g.cells();
    for place in 0..own.len() {
        larger = larger.with(own[place]);
    }
    larger
}

/// The cells, and those of the patterns.
fn with_patterns(cells: CellSet, patterns: &[Gridded]) -> CellSet
    requires { IsInGrid 8 8 patterns.now }
    ensures { (test : Cell → Bool) → list_any test result ≡ (list_any test cells || list_any (touches test) patterns.now) }
{
    let mut larger = cells;
    for g in patterns {
        larger = with_pattern(larger, g);
    }
    larger
}

/// The cells, and those of an obstruction that is no single point and has a point in the set.
fn with_obstruction(cells: CellSet, set: CellSet, g: &Gridded) -> CellSet
    requires { fits_grid 8 8 g.now ≡ true }
    ensures { (test : Cell → Bool) → list_any test result ≡ (list_any test cells || is_tied_alone set test g.now) }
{
    if g.len() == 1 {
        return cells;
    }
    if !touches(set, g) {
        return cells;
    }
    with_pattern(cells, g)
}

/// The cells, and those of the obstructions that are no single points and have a point in the set.
fn with_obstructions(cells: CellSet, set: CellSet, patterns: &[Gridded]) -> CellSet
    requires { IsInGrid 8 8 patterns.now }
    ensures { (test : Cell → Bool) → list_any test result ≡ (list_any test cells || list_any (is_tied_alone set test) patterns.now) }
{
    let mut larger = cells;
    for g in patterns {
        larger = with_obstruction(larger, set, g);
    }
    larger
}

/// The cells, and those of the patterns of a list of which one has a point in the set.
fn with_list(cells: CellSet, set: CellSet, patterns: &[Gridded]) -> CellSet
    requires { IsInGrid 8 8 patterns.now }
    ensures { (test : Cell → Bool) → list_any test result ≡ (list_any test cells || is_tied set test patterns.now) }
{
    if !touch(set, patterns) {
        return cells;
    }
    with_patterns(cells, patterns)
}

/// The cells, and those of the lists of which some pattern has a point in the set.
fn with_lists(cells: CellSet, set: CellSet, lists: &[Sequence<Gridded>]) -> CellSet
    requires { All (λ patterns. IsInGrid 8 8 patterns) lists.now }
    ensures { (test : Cell → Bool) → list_any test result ≡ (list_any test cells || list_any (is_tied set test) lists.now) }
{
    let mut larger = cells;
    for patterns in lists {
        larger = with_list(larger, set, patterns.as_slice());
    }
    larger
}

/// The cells that are in one bundle with a cell of the set.
fn tied_cells(tiling: &Tiling, set: CellSet) -> CellSet
    ensures { (test : Cell → Bool) → list_any test result ≡ list_any (is_tied set test) (bundles tiling.now) }
{
    let alone = with_obstructions(CellSet::none(), set, tiling.obstructions());
    with_lists(alone, set, tiling.requirements())
}

/// Whether one of the two cells at a place of a cell's column and row is in the set.
fn has_at(set: CellSet, cell: Cell, place: u8) -> bool
    ensures { result ≡ has_at set cell place }
{
    contains(
        set,
        Cell {
            x: cell.x,
            y: place,
        },
    ) || contains(
        set,
        Cell {
            x: place,
            y: cell.y,
        },
    )
}

/// Whether one of the cells of a cell's column and row is in the set.
fn has_on_lines(set: CellSet, cell: Cell) -> bool
    ensures { result ≡ list_any (has_at set cell) (range_with_len 0 8) }
{
    (0..8).any(|place| has_at(set, cell, place))
}

/// Whether a cell shares a column or a row with one of the set.
fn meets(set: CellSet, cell: Cell) -> bool
    ensures { result ≡ list_any (λ c. shares_line c cell) set }
{
    // What a set keeps is known once it is read.
    let _ = set.count();
    has_on_lines(set, cell)
}

/// Whether a cell is one of the active ones, and is tied or shares a line with a cell of the set.
fn is_next(active: CellSet, tied: CellSet, set: CellSet, cell: Cell) -> bool
    ensures { result ≡ is_next active tied set cell }
{
    contains(active, cell) && (contains(tied, cell) || meets(set, cell))
}

/// The set, and the cell where it is wanted.
#[tactic(auto, using(tiling_core::proofs::GridCells::wanting))]
fn with_wanted(set: CellSet, cell: Cell, wanted: bool) -> CellSet
    requires left { cell.x < 8 }
    requires low { cell.y < 8 }
    requires is_set { IsCellSet set }
    ensures { result ≡ cells_that (λ c. is_among set c || (cell_eq c cell && wanted)) }
{
    if wanted { set.with(cell) } else { set }
}

/// The active cells that are linked to a cell of the set, or are in it.
fn grown(tiling: &Tiling, active: CellSet, set: CellSet) -> CellSet
    requires { active ≡ active_cells tiling.now }
    ensures { result ≡ grown (is_linked tiling.now) (active_cells tiling.now) set }
{
    // What a set keeps is known once it is read.
    let _ = active.count();
    let tied = tied_cells(tiling, set);
    let mut larger = CellSet::none();
    for number in 0..64 {
        let cell = cell_of(number);
        larger = with_wanted(larger, cell, is_next(active, tied, set, cell));
    }
    larger
}

/// The set with one cell.
fn only(cell: Cell) -> CellSet
    requires left { cell.x < 8 }
    requires low { cell.y < 8 }
    ensures { result ≡ cell ∷ [] }
{
    CellSet::none().with(cell)
}

/// The least set that has an active cell and, with each cell, the active cells that are linked to it.
pub(crate) fn closure(tiling: &Tiling, active: CellSet, cell: Cell) -> CellSet
    requires active { active ≡ active_cells tiling.now }
    requires there { IsIn cell (active_cells tiling.now) }
    ensures { result ≡ closure (is_linked tiling.now) (active_cells tiling.now) cell }
{
    let rounds = active.count();
    let mut set = only(cell);
    for _ in 0..rounds {
        if set == active {
            return set;
        }
        let larger = grown(tiling, active, set);
        if larger == set {
            return set;
        }
        set = larger;
    }
    set
}
