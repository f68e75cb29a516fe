ghost use Rattle.std.specs.Prelude.{◌≡◌, ◌<◌, IfOk, All, length};

use crate::{build, can_factor, factored, parts};
use gridded::{Cell, CellSet, Gridded, GriddedFault};
use rule_kinds::{Kind, RawFault};
use sequences::Sequence;
use std::alloc::{AllocError, Global};
use std::test::Fail;
use tiling_core::Tiling;

/// The cell that two digits spell, each below 8.
fn cell(digits: u8) -> Cell
    ensures left { result.x < 8 }
    ensures low { result.y < 8 }
{
    Cell {
        x: digits / 10 % 8,
        y: digits % 10 % 8,
    }
}

/// The set of cells that are spelled by two digits each.
fn set(all: &[u8]) -> CellSet {
    let mut cells = CellSet::none();
    for digits in all {
        cells = cells.with(cell(*digits));
    }
    cells
}

/// The sets of such cells.
fn sets(alloc: Global, all: &[&[u8]]) -> Result<Vec<CellSet>, AllocError> {
    let mut found = Vec::new(alloc);
    for cells in all {
        found.push(set(cells))?;
    }
    Ok(found)
}

/// The point at a cell.
fn point(digits: u8) -> Gridded {
    Gridded::point_at(cell(digits))
}

/// Two points at cells, the right one higher.
fn rising(alloc: Global, left: u8, right: u8) -> Result<Gridded, GriddedFault> {
    Gridded::of(alloc, &[0, 1], &[cell(left), cell(right)])
}

/// The pattern 021 at a cell.
fn p021(alloc: Global, digits: u8) -> Result<Gridded, GriddedFault> {
    let cell = cell(digits);
    Gridded::of(alloc, &[0, 2, 1], &[cell, cell, cell])
}

/// One requirement list.
fn one_list(alloc: Global, patterns: Vec<Gridded>) -> Result<Vec<Sequence<Gridded>>, AllocError>
    requires { length patterns.items < 4 }
    ensures few { IfOk result (λ lists. length lists.items ≡ 1) }
    ensures each { IfOk result (λ lists. All (λ patterns. length patterns < 268435456) lists.items) }
{
    let mut lists = Vec::new(alloc);
    lists.push(Sequence::of(patterns))?;
    Ok(lists)
}

/// Two requirement lists of one point each.
fn two_lists(alloc: Global) -> Result<Vec<Sequence<Gridded>>, AllocError>
    ensures few { IfOk result (λ lists. length lists.items ≡ 2) }
    ensures each { IfOk result (λ lists. All (λ patterns. length patterns < 268435456) lists.items) }
{
    let mut lists = Vec::new(alloc);
    lists.push(Sequence::of(vec![in alloc; point(0)]?))?;
    lists.push(Sequence::of(vec![in alloc; point(11)]?))?;
    Ok(lists)
}

/// The 2x2 tiling whose active cells are the lower left and the upper right one, with these lists.
fn corners(alloc: Global, lists: Vec<Sequence<Gridded>>) -> Result<Tiling, Fail>
    requires few { length lists.items < 268435456 }
    requires each { All (λ patterns. length patterns < 268435456) lists.items }
{
    let obstructions = vec![in alloc; point(1), point(10)]?;
    Ok(Tiling::of(alloc, 2, 2, obstructions, lists)?)
}

/// The 2x2 tiling with one active cell, whose point is required.
fn one_corner(alloc: Global, active: u8, other: u8) -> Result<Tiling, Fail> {
    let obstructions = vec![in alloc; point(1), point(10), point(other)]?;
    let lists = one_list(alloc, vec![in alloc; point(active)]?)?;
    Ok(Tiling::of(alloc, 2, 2, obstructions, lists)?)
}

#[test]
fn each_factor_keeps_its_list(rt: HostRuntime) -> Result<(), Fail> {
    let alloc = rt.alloc();
    let tiling = corners(alloc, two_lists(alloc)?)?;
    let wanted = vec![in alloc; Kind::Factor(Sequence::of(sets(alloc, &[&[0], &[11]])?))]?;
    let kinds = parts(alloc, &tiling)?;
    assert!(rt; kinds == wanted);
    let factors = vec![in alloc; one_corner(alloc, 0, 11)?, one_corner(alloc, 11, 0)?]?;
    assert!(rt; build(alloc, &tiling, &wanted[0])? == factors);
    Ok(())
}

#[test]
fn other_kinds_and_sets_out_of_order_are_refused(rt: HostRuntime) -> Result<(), Fail> {
    let alloc = rt.alloc();
    let tiling = corners(alloc, Vec::new(alloc))?;
    let out_of_order = Kind::Factor(Sequence::of(sets(alloc, &[&[11], &[0]])?));
    for kind in &[Kind::Unit, out_of_order] {
        assert_eq!(rt; build(alloc, &tiling, kind), Err(RawFault::NotApplicable));
    }
    Ok(())
}

#[test]
fn cells_of_one_row_share_a_set(rt: HostRuntime) -> Result<(), Fail> {
    let alloc = rt.alloc();
    let obstructions = vec![in alloc; rising(alloc, 0, 10)?]?;
    let tiling = Tiling::of(alloc, 2, 1, obstructions, Vec::new(alloc))?;
    assert!(rt; !can_factor(&tiling, &sets(alloc, &[&[0], &[10]])?));
    assert_eq!(rt; parts(alloc, &tiling)?.len(), 0);
    Ok(())
}

#[test]
fn sets_share_out_the_active_cells_in_order(rt: HostRuntime) -> Result<(), Fail> {
    let alloc = rt.alloc();
    let obstructions = vec![in alloc; point(0), point(11), p021(alloc, 1)?, p021(alloc, 10)?]?;
    let tiling = Tiling::of(alloc, 2, 2, obstructions, Vec::new(alloc))?;
    let found = sets(alloc, &[&[1], &[10]])?;
    assert!(rt; can_factor(&tiling, &found));
    assert_eq!(rt; factored(alloc, &tiling, &found)?.len(), 2);
    let others: [&[&[u8]]; 4] = [
        &[&[10], &[1]],
        &[&[1]],
        &[&[1], &[10], &[11]],
        &[&[0], &[1], &[10]],
    ];
    for other in others {
        assert!(rt; !can_factor(&tiling, &sets(alloc, other)?));
    }
    Ok(())
}

/// The 3x3 tiling whose active cells are those from lower left to upper right, with these further obstructions and
/// lists.
fn diagonal(
    alloc: Global,
    other: Vec<Gridded>,
    lists: Vec<Sequence<Gridded>>,
) -> Result<Tiling, Fail>
    requires others { length other.items < 4 }
    requires few { length lists.items < 268435456 }
    requires each { All (λ patterns. length patterns < 268435456) lists.items }
{
    let mut obstructions = vec![in alloc;
        point(1),
        point(2),
        point(10),
        point(12),
        point(20),
        point(21),
    ]?;
    obstructions.extend_from_slice(&other)?;
    Ok(Tiling::of(alloc, 3, 3, obstructions, lists)?)
}

#[test]
fn a_factoring_may_be_coarser_than_the_finest(rt: HostRuntime) -> Result<(), Fail> {
    let alloc = rt.alloc();
    let tiling = diagonal(alloc, Vec::new(alloc), Vec::new(alloc))?;
    assert!(rt; can_factor(&tiling, &sets(alloc, &[&[0, 22], &[11]])?));
    let wanted = vec![in alloc; Kind::Factor(Sequence::of(sets(alloc, &[&[0], &[11], &[22]])?))]?;
    assert!(rt; parts(alloc, &tiling)? == wanted);
    Ok(())
}

#[test]
fn patterns_keep_sets_together(rt: HostRuntime) -> Result<(), Fail> {
    let alloc = rt.alloc();
    let apart = sets(alloc, &[&[0], &[11], &[22]])?;
    let joined = sets(alloc, &[&[0, 11], &[22]])?;
    let by_obstruction = diagonal(
        alloc,
        vec![in alloc; rising(alloc, 0, 11)?]?,
        Vec::new(alloc),
    )?;
    let list = one_list(alloc, vec![in alloc; point(0), point(11)]?)?;
    let by_list = diagonal(alloc, Vec::new(alloc), list)?;
    for tiling in &[by_obstruction, by_list] {
        assert!(rt; !can_factor(tiling, &apart));
        assert!(rt; can_factor(tiling, &joined));
    }
    Ok(())
}

#[test]
fn empty_patterns_and_lists_have_no_factoring(rt: HostRuntime) -> Result<(), Fail> {
    let alloc = rt.alloc();
    let found = sets(alloc, &[&[0], &[11]])?;
    let no_member = corners(alloc, one_list(alloc, Vec::new(alloc))?)?;
    assert!(rt; !can_factor(&no_member, &found));
    let patterns = vec![in alloc; Gridded::empty(), point(0)]?;
    let with_empty = corners(alloc, one_list(alloc, patterns)?)?;
    assert!(rt; !can_factor(&with_empty, &found));
    Ok(())
}
