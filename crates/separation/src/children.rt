ghost use Rattle.std.specs.Prelude.{◌≡◌, ◌<◌, ◌≤◌, ◌&&◌, ◌++◌, true, false, [], ◌∷◌, map, filter, All, IfOk, IfErr, OnOk};
ghost use Rattle.gridded.specs.Axes.{line_of};
ghost use Rattle.gridded.specs.CellSets.{is_among as has_cell};
ghost use Rattle.gridded.specs.Small.{point_at};
ghost use Rattle.tiling_core.specs.Tiles.{IsTiling, IsInGrid};
ghost use Rattle.coord_maps.specs.Stretches.{preimages_of, each_preimages_of};
ghost use Rattle.rule_kinds.specs.Lines.{lines, active_on};
ghost use Rattle.rule_kinds.specs.Children.{barred_half, cut, raw_children};
ghost use Rattle.rule_kinds.specs.Conditions.{can_cut, applies};
ghost use Rattle.rule_kinds.specs.Kinds.{cut_kind};
ghost use Rattle.separation.specs.Building.{is_cut, IsRefused, wider};

use crate::condition::can_cut;
use crate::lines::{active_on, cell_on};
use crate::room::halved;
use coord_maps::{GridMap, add_preimages};
use gridded::{Axis, Cell, CellSet, Gridded};
use rule_kinds::{Kind, RawFault};
use sequences::Sequence;
use std::alloc::{AllocError, Global};
use tiling_core::{Tiling, active};

/// The half of a cut line in which a cell has no points: the second for the cells of the set, else the first.
fn barred_half(axis: Axis, set: CellSet, cell: Cell) -> Cell
    requires left { cell.x < 8 }
    requires low { cell.y < 8 }
    ensures { result ≡ barred_half axis set cell }
{
    if set.has(cell) {
        cell.with_line(axis, cell.line(axis) + 1)
    } else {
        cell
    }
}

/// Adds the pattern of the point in the barred half of a cell, where the cell is among those of a line.
fn add_barred(
    points: &mut Vec<Gridded>,
    axis: Axis,
    whole: CellSet,
    set: CellSet,
    cell: Cell,
) -> Result<(), AllocError>
    requires left { cell.x < 8 }
    requires low { cell.y < 8 }
    ensures { OnOk result (points.new.items ≡ points.old.items ++ map (λ c. point_at (barred_half axis set c)) (filter (has_cell whole) (cell ∷ []))) }
{
    if whole.has(cell) {
        points.push(Gridded::point_at(barred_half(axis, set, cell)))?;
    }
    Ok(())
}

/// The patterns of the points in the barred halves of the active cells of a line.
fn barred_points(
    alloc: Global,
    axis: Axis,
    tiling: &Tiling,
    line: u8,
    set: CellSet,
) -> Result<Vec<Gridded>, AllocError>
    requires { line < 8 }
    ensures { IfOk result (λ points. points.items ≡ map (λ c. point_at (barred_half axis set c)) (active_on axis line tiling.now)) }
{
    let whole = active_on(axis, tiling, active(tiling), line);
    let mut points = Vec::new(alloc);
    for place in 0..8 {
        add_barred(&mut points, axis, whole, set, cell_on(axis, line, place))?;
    }
    Ok(points)
}

/// Adds the preimages of each pattern, one pattern after another.
fn add_all_preimages(
    map: &GridMap,
    patterns: &[Gridded],
    found: &mut Vec<Gridded>,
) -> Result<(), AllocError>
    requires { IsInGrid map.now.columns.lines map.now.rows.lines patterns.now }
    ensures { OnOk result (found.new.items ≡ found.old.items ++ preimages_of map.now patterns.now) }
{
    for pattern in patterns {
        add_preimages(map, pattern, found)?;
    }
    Ok(())
}

/// The preimages of the members of each list, list by list.
fn each_preimages_of(
    alloc: Global,
    map: &GridMap,
    lists: &[Sequence<Gridded>],
) -> Result<Vec<Sequence<Gridded>>, AllocError>
    requires { All (λ patterns. IsInGrid map.now.columns.lines map.now.rows.lines patterns) lists.now }
    ensures { IfOk result (λ found. found.items ≡ each_preimages_of map.now lists.now) }
{
    let mut found = Vec::with_capacity(alloc, lists.len())?;
    for patterns in lists {
        let mut preimages = Vec::new(alloc);
        add_all_preimages(map, patterns.as_slice(), &mut preimages)?;
        found.push(Sequence::of(preimages))?;
    }
    Ok(found)
}

/// The sides of a tiling where one line is there once more.
fn wider(axis: Axis, tiling: &Tiling) -> Cell
    ensures { result ≡ wider axis tiling.now }
{
    let sides = Cell {
        x: tiling.width(),
        y: tiling.height(),
    };
    sides.with_line(axis, sides.line(axis) + 1)
}

/// The tiling with a line cut in two: the points of the set's cells are in the first half, those of the line's
/// other cells in the second. The refusal is want of memory, for which a list that would reach 268,435,456 items
/// counts (docs/RULES.md, "Kinds of rules").
pub fn cut_in_two(
    alloc: Global,
    axis: Axis,
    tiling: &Tiling,
    line: u8,
    set: CellSet,
) -> Result<Tiling, AllocError>
    requires { can_cut axis tiling.now line set ≡ true }
    ensures { IfOk result (λ child. child ≡ cut axis tiling.now line set) }
{
    let map = halved(axis, tiling, line);
    let wide = wider(axis, tiling);
    let mut obstructions = barred_points(alloc, axis, tiling, line, set)?;
    add_all_preimages(&map, tiling.obstructions(), &mut obstructions)?;
    let lists = each_preimages_of(alloc, &map, tiling.requirements())?;
    Tiling::in_grid(wide.x, wide.y, obstructions, lists)
}

/// The tiling with a line cut in two, alone in a list.
fn only_child(
    alloc: Global,
    axis: Axis,
    tiling: &Tiling,
    line: u8,
    set: CellSet,
) -> Result<Vec<Tiling>, AllocError>
    requires { can_cut axis tiling.now line set ≡ true }
    ensures { IfOk result (λ children. children.items ≡ cut axis tiling.now line set ∷ []) }
{
    let mut children = Vec::new(alloc);
    children.push(cut_in_two(alloc, axis, tiling, line, set)?)?;
    Ok(children)
}

/// The one child of a cut, where its condition holds.
fn cut_child(
    alloc: Global,
    axis: Axis,
    tiling: &Tiling,
    line: u8,
    set: CellSet,
) -> Result<Vec<Tiling>, RawFault>
    ensures made { IfOk result (λ children. children.items ≡ cut axis tiling.now line set ∷ []) }
    ensures applicable { OnOk result (can_cut axis tiling.now line set ≡ true) }
    ensures refused { IfErr result (λ fault. IsRefused tiling.now (cut_kind axis line set) fault) }
{
    if !can_cut(axis, tiling, line, set) {
        return Err(RawFault::NotApplicable);
    }
    Ok(only_child(alloc, axis, tiling, line, set)?)
}

/// The child of a tiling by a cut of a row or of a column, before it is reduced. Refused is each other kind, and a
/// cut whose condition fails, as NotApplicable, and nothing else but want of memory, which no other kind takes
/// (docs/RULES.md, "Kinds of rules").
#[tactic(auto, unfolding(rule_kinds::specs::Children::raw_children, rule_kinds::specs::Conditions::applies))]
pub fn build(alloc: Global, tiling: &Tiling, kind: &Kind) -> Result<Vec<Tiling>, RawFault>
    ensures made { IfOk result (λ children. children.items ≡ raw_children tiling.now kind.now) }
    ensures applicable { OnOk result ((is_cut kind.now && applies tiling.now kind.now) ≡ true) }
    ensures refused { IfErr result (λ fault. IsRefused tiling.now kind.now fault) }
    ensures others { is_cut kind.now ≡ false → result ≡ Err RawFault.NotApplicable }
{
    match kind {
        Kind::RowCut(row, set) => cut_child(alloc, Axis::Row, tiling, *row, *set),
        Kind::ColumnCut(column, set) => cut_child(alloc, Axis::Column, tiling, *column, *set),
        _ => Err(RawFault::NotApplicable),
    }
}
