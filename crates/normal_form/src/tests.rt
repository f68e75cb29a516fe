ghost use Rattle.std.specs.Prelude.{◌≡◌, ◌<◌, IfOk, length};

use crate::{
    normalise, normalise_thinned, replays_keep_members, steps_shrink, traces_are_determined,
};
use gridded::{Cell, Gridded, GriddedFault};
use sequences::Sequence;
use std::alloc::{AllocError, Global};
use std::test::Fail;
use steps::Step;
use tiling_core::Tiling;

const fn cell(x: u8, y: u8) -> Cell {
    Cell { x, y }
}

/// A list of one pattern.
fn one(alloc: Global, pattern: Gridded) -> Result<Vec<Gridded>, AllocError>
    ensures { IfOk result (λ list. length list.items ≡ 1) }
{
    let mut list = Vec::new(alloc);
    list.push(pattern)?;
    Ok(list)
}

/// Adds the points in cells to a list.
fn add_points(alloc: Global, list: &mut Vec<Gridded>, cells: &[Cell]) -> Result<(), Fail> {
    for place in cells {
        list.push(Gridded::of(alloc, &[0], &[*place])?)?;
    }
    Ok(())
}

/// Adds the pairs of points, rising and falling, from two columns of a 3x3 block whose least cell is (1, 1).
fn add_pairs(alloc: Global, list: &mut Vec<Gridded>, left: u8, right: u8) -> Result<(), Fail> {
    for low in 1..4 {
        for high in low..4 {
            list.push(Gridded::of(alloc, &[0, 1], &[cell(left, low), cell(right, high)])?)?;
            list.push(Gridded::of(alloc, &[1, 0], &[cell(left, high), cell(right, low)])?)?;
        }
    }
    Ok(())
}

/// The patterns 01:l.r, 021:l.l.l and 021:r.r.r for two cells l and r.
fn add_outer(alloc: Global, list: &mut Vec<Gridded>, left: Cell, right: Cell) -> Result<(), Fail> {
    list.push(Gridded::of(alloc, &[0, 1], &[left, right])?)?;
    list.push(Gridded::of(alloc, &[0, 2, 1], &[left, left, left])?)?;
    list.push(Gridded::of(alloc, &[0, 2, 1], &[right, right, right])?)?;
    Ok(())
}

/// The 3x2 tiling with a point in its middle column and upper row, and an avoider of 021 on each side of it.
fn parent(alloc: Global) -> Result<(Vec<Gridded>, Vec<Gridded>), Fail> {
    let middle = cell(1, 1);
    let mut obstructions = Vec::new(alloc);
    add_points(
        alloc,
        &mut obstructions,
        &[cell(0, 1), cell(1, 0), cell(2, 1)],
    )?;
    add_outer(alloc, &mut obstructions, cell(0, 0), cell(2, 0))?;
    obstructions.push(Gridded::of(alloc, &[0, 1], &[middle, middle])?)?;
    obstructions.push(Gridded::of(alloc, &[1, 0], &[middle, middle])?)?;
    Ok((
        obstructions,
        one(alloc, Gridded::of(alloc, &[0], &[middle])?)?,
    ))
}

/// The obstructions of the child of that tiling in which the middle column and the upper row are cut into
/// three, and the topmost point lies in the middle of the nine cells.
fn child_obstructions(alloc: Global) -> Result<Vec<Gridded>, Fail> {
    let mut list = Vec::new(alloc);
    add_points(alloc, &mut list, &[cell(0, 1), cell(0, 2), cell(0, 3)])?;
    add_points(alloc, &mut list, &[cell(1, 0), cell(2, 0), cell(3, 0)])?;
    add_points(alloc, &mut list, &[cell(4, 1), cell(4, 2), cell(4, 3)])?;
    add_points(alloc, &mut list, &[cell(1, 2), cell(3, 2), cell(2, 1)])?;
    add_points(alloc, &mut list, &[cell(1, 3), cell(2, 3), cell(3, 3)])?;
    add_outer(alloc, &mut list, cell(0, 0), cell(4, 0))?;
    for left in 1..4 {
        for right in left..4 {
            add_pairs(alloc, &mut list, left, right)?;
        }
    }
    Ok(list)
}

/// The points in the nine cells.
fn child_points(alloc: Global) -> Result<Vec<Gridded>, Fail> {
    let mut list = Vec::new(alloc);
    for row in 1..4 {
        add_points(
            alloc,
            &mut list,
            &[cell(1, row), cell(2, row), cell(3, row)],
        )?;
    }
    Ok(list)
}

#[test]
fn a_forbidden_cell_leaves_the_unit_tiling(rt: HostRuntime) -> Result<(), Fail> {
    let alloc = rt.alloc();
    steps_shrink();
    traces_are_determined();
    replays_keep_members();
    let obstructions = one(alloc, Gridded::of(alloc, &[0], &[cell(0, 0)])?)?;
    let tiling = Tiling::of(alloc, 1, 1, obstructions, Vec::new(alloc))?;
    let (answer, trace) = normalise(alloc, tiling)?;
    assert_eq!(rt;
        answer,
        Tiling::of(alloc, 0, 0, Vec::new(alloc), Vec::new(alloc))?
    );
    assert_eq!(rt;
        trace.as_slice(),
        [Step::Column(0), Step::Row(0)].as_slice()
    );
    Ok(())
}

#[test]
fn a_placed_point_leads_back_to_its_tiling(rt: HostRuntime) -> Result<(), Fail> {
    let alloc = rt.alloc();
    let obstructions = child_obstructions(alloc)?;
    let points = child_points(alloc)?;
    assert!(rt; obstructions.len() == 90 && points.len() == 9);
    let middle = one(alloc, Gridded::of(alloc, &[0], &[cell(2, 2)])?)?;
    let lists = vec![in alloc; Sequence::of(points), Sequence::of(middle)]?;
    let (answer, trace) = normalise(alloc, Tiling::of(alloc, 5, 4, obstructions, lists)?)?;
    assert_eq!(rt;
        trace.as_slice(),
        [
            Step::Min,
            Step::Clean(cell(2, 2)),
            Step::Min,
            Step::Lists,
            Step::Column(1),
            Step::Column(2),
            Step::Row(1),
            Step::Row(2),
        ]
        .as_slice()
    );
    let (obstructions, list) = parent(alloc)?;
    assert!(rt; obstructions.len() == 8 && list.len() == 1);
    let lists = vec![in alloc; Sequence::of(list)]?;
    assert_eq!(rt; answer, Tiling::of(alloc, 3, 2, obstructions, lists)?);
    Ok(())
}

/// The tiling of one cell with these obstructions.
fn in_one_cell(alloc: Global, obstructions: Vec<Gridded>) -> Result<Tiling, Fail>
    requires { length obstructions.items < 9 }
{
    Ok(Tiling::of(alloc, 1, 1, obstructions, Vec::new(alloc))?)
}

fn rise(alloc: Global) -> Result<Gridded, Fail> {
    Ok(Gridded::of(alloc, &[0, 1], &[cell(0, 0); 2])?)
}

fn longer_rise(alloc: Global) -> Result<Gridded, Fail> {
    Ok(Gridded::of(alloc, &[0, 1, 2], &[cell(0, 0); 3])?)
}

fn hook(alloc: Global) -> Result<Gridded, Fail> {
    Ok(Gridded::of(alloc, &[0, 2, 1], &[cell(0, 0); 3])?)
}

#[test]
fn a_thinned_tiling_has_the_trace_of_the_whole(rt: HostRuntime) -> Result<(), Fail> {
    let alloc = rt.alloc();
    let whole = vec![in alloc; rise(alloc)?, longer_rise(alloc)?, hook(alloc)?]?;
    let (form, trace) = normalise(alloc, in_one_cell(alloc, whole)?)?;
    assert_eq!(rt; trace.as_slice(), [Step::Min].as_slice());
    let least = vec![in alloc; rise(alloc)?]?;
    let answer = normalise_thinned(alloc, in_one_cell(alloc, least)?, true)?;
    assert_eq!(rt; answer.1.as_slice(), trace.as_slice());
    assert_eq!(rt; answer.0, form);
    let some = vec![in alloc; hook(alloc)?, rise(alloc)?]?;
    let answer = normalise_thinned(alloc, in_one_cell(alloc, some)?, true)?;
    assert_eq!(rt; answer.1.as_slice(), trace.as_slice());
    assert_eq!(rt; answer.0, form);
    Ok(())
}

#[test]
fn void_comes_first_in_a_thinned_tiling(rt: HostRuntime) -> Result<(), Fail> {
    let alloc = rt.alloc();
    let empty = vec![in alloc; Gridded::empty()]?;
    let (form, trace) = normalise_thinned(alloc, in_one_cell(alloc, empty)?, true)?;
    assert_eq!(rt; trace.as_slice(), [Step::Void].as_slice());
    let void = vec![in alloc; Gridded::empty()]?;
    assert_eq!(rt; form, Tiling::of(alloc, 0, 0, void, Vec::new(alloc))?);
    Ok(())
}
