// The least cuts of lines.
ghost use Rattle.std.specs.Prelude.{◌≡◌, ◌<◌, ◌≤◌, ◌&&◌, ◌++◌, not, IfOk, OnOk, map};
ghost use Rattle.std.specs.List.{list_any};
ghost use Rattle.gridded.specs.declared.axis.Axis.TheVariants as axis;
ghost use Rattle.gridded.specs.CellSetOrder.{set_eq};
ghost use Rattle.tiling_core.specs.Patterns.{active_cells};
ghost use Rattle.rule_kinds.specs.Lines.{lines, active_on};
ghost use Rattle.rule_kinds.specs.Kinds.{cut_kind};
ghost use Rattle.rule_kinds.specs.Choices.{is_bound, closure, least_cuts, cuts_along};
ghost use Rattle.separation.specs.OnLines.{IsOfLine};
ghost use Rattle.separation.specs.LeastCuts.{AreLeastCuts, leaves_out, proper_once, with_proper, with_closure, where_they_fit, cuts_of_line};

use crate::bound::closure;
use crate::lines::{active_on, cell_on, lines};
use crate::room::preimages_fit;
use cut_law::closures_come_first;
use gridded::{Axis, Cell, CellSet};
use rule_kinds::Kind;
use std::alloc::{AllocError, Global};
use tiling_core::{Tiling, active};

/// Whether a set is one of some sets.
fn is_listed(sets: &[CellSet], set: CellSet) -> bool
    ensures { result ≡ list_any (λ other. set_eq other set) sets.now }
{
    sets.iter().any(|other| *other == set)
}

/// Whether a set of cells of a line leaves one out, and is none of some sets.
fn is_new(sets: &[CellSet], whole: CellSet, set: CellSet) -> bool
    ensures { result ≡ (leaves_out whole set && not (list_any (λ other. set_eq other set) sets.now)) }
{
    set != whole && !is_listed(sets, set)
}

/// Adds a set of cells of a line, where it leaves one out and isn't there yet.
fn add_new(sets: &mut Vec<CellSet>, whole: CellSet, set: CellSet) -> Result<(), AllocError>
    ensures { OnOk result (sets.new.items ≡ with_proper whole sets.old.items set) }
{
    if is_new(sets, whole, set) {
        sets.push(set)?;
    }
    Ok(())
}

/// Adds the closure of a cell, where the cell is among those of a line and the closure is to be added.
fn add_closure(
    sets: &mut Vec<CellSet>,
    axis: Axis,
    tiling: &Tiling,
    line: u8,
    whole: CellSet,
    cell: Cell,
) -> Result<(), AllocError>
    requires left { cell.x < 8 }
    requires lower { cell.y < 8 }
    requires low { line < 8 }
    requires of_line { IsOfLine axis line whole }
    ensures { OnOk result (sets.new.items ≡ with_closure (is_bound axis tiling.now) whole sets.old.items cell) }
{
    if !whole.has(cell) {
        return Ok(());
    }
    add_new(sets, whole, closure(axis, tiling, line, whole, cell))
}

/// The closures of the active cells of a line that leave one out, in the order of the cells, each once.
fn proper_closures(
    alloc: Global,
    axis: Axis,
    tiling: &Tiling,
    line: u8,
    whole: CellSet,
) -> Result<Vec<CellSet>, AllocError>
    requires low { line < 8 }
    requires of_line { IsOfLine axis line whole }
    ensures { IfOk result (λ sets. sets.items ≡ proper_once whole (map (closure (is_bound axis tiling.now) whole) whole)) }
{
    let mut sets = Vec::new(alloc);
    for place in 0..8 {
        let cell = cell_on(axis, line, place);
        add_closure(&mut sets, axis, tiling, line, whole, cell)?;
    }
    Ok(sets)
}

/// The kind that cuts a line with the points of a set first.
fn cut_kind(axis: Axis, line: u8, set: CellSet) -> Kind
    ensures { result ≡ cut_kind axis line set }
{
    match axis {
        Axis::Row => Kind::RowCut(line, set),
        Axis::Column => Kind::ColumnCut(line, set),
    }
}

/// Adds the kinds that cut a line with the points of one of some sets first.
fn add_kinds(
    kinds: &mut Vec<Kind>,
    axis: Axis,
    line: u8,
    sets: &[CellSet],
) -> Result<(), AllocError>
    ensures { OnOk result (kinds.new.items ≡ kinds.old.items ++ map (cut_kind axis line) sets.now) }
{
    for set in sets {
        kinds.push(cut_kind(axis, line, *set))?;
    }
    Ok(())
}

/// The same where the preimages are few enough; they are counted only where there is a set.
fn add_fitting(
    kinds: &mut Vec<Kind>,
    axis: Axis,
    tiling: &Tiling,
    line: u8,
    sets: &[CellSet],
) -> Result<(), AllocError>
    requires few { lines axis tiling.now ≤ 7 }
    requires inside { line < lines axis tiling.now }
    ensures { OnOk result (kinds.new.items ≡ kinds.old.items ++ map (cut_kind axis line) (where_they_fit axis tiling.now line sets.now)) }
{
    if sets.is_empty() {
        return Ok(());
    }
    if !preimages_fit(axis, tiling, line) {
        return Ok(());
    }
    add_kinds(kinds, axis, line, sets)?;
    Ok(())
}

/// Adds the least cuts of a line whose condition holds.
fn add_cuts(
    alloc: Global,
    axis: Axis,
    tiling: &Tiling,
    active: CellSet,
    line: u8,
    kinds: &mut Vec<Kind>,
) -> Result<(), AllocError>
    requires few { lines axis tiling.now ≤ 7 }
    requires inside { line < lines axis tiling.now }
    requires active { active ≡ active_cells tiling.now }
    ensures { OnOk result (kinds.new.items ≡ kinds.old.items ++ cuts_of_line axis tiling.now line) }
{
    closures_come_first();
    let whole = active_on(axis, tiling, active, line);
    let sets = proper_closures(alloc, axis, tiling, line, whole)?;
    add_fitting(kinds, axis, tiling, line, &sets)?;
    Ok(())
}

/// The least cuts of all lines, line by line.
fn cuts_along(alloc: Global, axis: Axis, tiling: &Tiling) -> Result<Vec<Kind>, AllocError>
    ensures listed { IfOk result (λ kinds. kinds.items ≡ cuts_along axis tiling.now) }
    ensures least { IfOk result (λ kinds. AreLeastCuts axis tiling.now kinds.items) }
{
    closures_come_first();
    let mut kinds = Vec::new(alloc);
    let lines = lines(axis, tiling);
    if lines > 7 {
        return Ok(kinds);
    }
    let active = active(tiling);
    for line in 0..lines {
        add_cuts(alloc, axis, tiling, active, line, &mut kinds)?;
    }
    Ok(kinds)
}

/// The cuts of rows that are tried on a tiling: for each row from below, and for each of its active cells from
/// the left, the least set with it whose points can lie below those of the others, each once and where the cut's
/// whole condition holds. The refusal is want of memory (docs/RULES.md, "Kinds of rules").
pub fn rows(alloc: Global, tiling: &Tiling) -> Result<Vec<Kind>, AllocError>
    ensures listed { IfOk result (λ kinds. kinds.items ≡ cuts_along axis.Row tiling.now) }
    ensures least { IfOk result (λ kinds. AreLeastCuts axis.Row tiling.now kinds.items) }
{
    cuts_along(alloc, Axis::Row, tiling)
}

/// The cuts of columns that are tried on a tiling: for each column from the left, and for each of its active cells
/// from below, the least set with it whose points can lie left of those of the others, each once and where the
/// cut's whole condition holds. The refusal is want of memory (docs/RULES.md, "Kinds of rules").
pub fn columns(alloc: Global, tiling: &Tiling) -> Result<Vec<Kind>, AllocError>
    ensures listed { IfOk result (λ kinds. kinds.items ≡ cuts_along axis.Column tiling.now) }
    ensures least { IfOk result (λ kinds. AreLeastCuts axis.Column tiling.now kinds.items) }
{
    cuts_along(alloc, Axis::Column, tiling)
}
