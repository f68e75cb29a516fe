ghost use Rattle.std.specs.Prelude.{◌≡◌, ◌<◌, ◌≤◌, IfOk, length};

use crate::{EmptyFault, InferFault, inferred, is_empty, is_inferable, members_within_weight};
use gridded::{Cell, Gridded, GriddedFault};
use sequences::Sequence;
use std::alloc::{AllocError, Global};
use std::test::Fail;
use tiling_core::{Tiling, weight};

const fn cell(x: u8, y: u8) -> Cell
    ensures { result ≡ record { x = x; y = y } }
{
    Cell { x, y }
}

/// The two cells of the lower row.
const ROW: [Cell; 2] = [Cell { x: 0, y: 0 }, Cell { x: 1, y: 0 }];

/// The point in a cell.
fn point(alloc: Global, x: u8, y: u8) -> Result<Gridded, GriddedFault> {
    Gridded::of(alloc, &[0], &[cell(x, y)])
}

/// Points with these letters, all in one cell.
fn within(alloc: Global, letters: &[u8], at: Cell) -> Result<Gridded, GriddedFault>
    requires { length letters.now ≤ 9 }
{
    let cells = [at; 9];
    Gridded::of(alloc, letters, &cells[..letters.len()])
}

/// The points of 00 stand left of those of 11 and below them.
fn rise(alloc: Global) -> Result<Gridded, GriddedFault> {
    Gridded::of(alloc, &[0, 1], &[cell(0, 0), cell(1, 1)])
}

/// A list of one pattern.
fn one(alloc: Global, pattern: Gridded) -> Result<Vec<Gridded>, AllocError>
    ensures { IfOk result (λ list. length list.items ≡ 1) }
{
    let mut list = Vec::new(alloc);
    list.push(pattern)?;
    Ok(list)
}

/// The obstructions 0:01 and 0:10.
fn two_corners(alloc: Global) -> Result<Vec<Gridded>, Fail>
    ensures { IfOk result (λ list. length list.items ≡ 2) }
{
    let mut obstructions = one(alloc, point(alloc, 0, 1)?)?;
    obstructions.push(point(alloc, 1, 0)?)?;
    Ok(obstructions)
}

/// The obstructions 0:01, 0:10 and 01:00.11.
fn one_corner(alloc: Global) -> Result<Vec<Gridded>, Fail>
    ensures { IfOk result (λ list. length list.items ≡ 3) }
{
    let mut obstructions = two_corners(alloc)?;
    obstructions.push(rise(alloc)?)?;
    Ok(obstructions)
}

/// 2x2 with these obstructions and two lists of one pattern each.
fn two_lists(
    alloc: Global,
    obstructions: Vec<Gridded>,
    first: Gridded,
    second: Gridded,
) -> Result<Tiling, Fail>
    requires { length obstructions.items < 10 }
{
    let mut lists = Vec::new(alloc);
    lists.push(Sequence::of(one(alloc, first)?))?;
    lists.push(Sequence::of(one(alloc, second)?))?;
    Ok(Tiling::of(alloc, 2, 2, obstructions, lists)?)
}

/// A tiling with these obstructions and one list of one pattern.
fn one_list(
    alloc: Global,
    side: u8,
    obstructions: Vec<Gridded>,
    pattern: Gridded,
) -> Result<Tiling, Fail>
    requires { length obstructions.items < 10 }
{
    let mut lists = Vec::new(alloc);
    lists.push(Sequence::of(one(alloc, pattern)?))?;
    Ok(Tiling::of(alloc, side, side, obstructions, lists)?)
}

#[test]
fn six_points_that_cannot_stand_together(rt: HostRuntime) -> Result<(), Fail> {
    let alloc = rt.alloc();
    let near = within(alloc, &[0, 1, 2], cell(0, 0))?;
    let far = within(alloc, &[0, 1, 2], cell(1, 1))?;
    let tiling = two_lists(alloc, one_corner(alloc)?, near, far)?;
    assert_eq!(rt; weight(&tiling), 6);
    assert_eq!(rt; is_empty(alloc, &tiling), Ok(true));
    Ok(())
}

#[test]
fn six_points_that_can(rt: HostRuntime) -> Result<(), Fail> {
    let alloc = rt.alloc();
    members_within_weight();
    let near = within(alloc, &[0, 1, 2], cell(0, 0))?;
    let far = within(alloc, &[0, 1, 2], cell(1, 1))?;
    let tiling = two_lists(alloc, two_corners(alloc)?, near, far)?;
    assert_eq!(rt; is_empty(alloc, &tiling), Ok(false));
    Ok(())
}

#[test]
fn a_weight_of_seven_is_heavy(rt: HostRuntime) -> Result<(), Fail> {
    let alloc = rt.alloc();
    let near = within(alloc, &[0, 1, 2, 3], cell(0, 0))?;
    let far = within(alloc, &[0, 1, 2], cell(1, 1))?;
    let tiling = two_lists(alloc, two_corners(alloc)?, near, far)?;
    assert_eq!(rt; weight(&tiling), 7);
    assert_eq!(rt; is_empty(alloc, &tiling), Err(EmptyFault::Heavy));
    Ok(())
}

#[test]
fn no_point_joins_the_lower_left(rt: HostRuntime) -> Result<(), Fail> {
    let alloc = rt.alloc();
    let tiling = one_list(alloc, 2, one_corner(alloc)?, point(alloc, 0, 0)?)?;
    let patterns = inferred(alloc, &tiling)?;
    assert_eq!(rt; patterns.len(), 3);
    assert_eq!(rt; patterns[0], point(alloc, 1, 1)?);
    assert_eq!(rt; patterns[1], within(alloc, &[0, 1], cell(1, 1))?);
    assert_eq!(rt; patterns[2], within(alloc, &[1, 0], cell(1, 1))?);
    Ok(())
}

#[test]
fn a_weight_of_five_is_heavy(rt: HostRuntime) -> Result<(), Fail> {
    let alloc = rt.alloc();
    let long = within(alloc, &[0, 1, 2, 3, 4], cell(0, 0))?;
    let tiling = one_list(alloc, 1, Vec::new(alloc), long)?;
    assert_eq!(rt; inferred(alloc, &tiling), Err(InferFault::Heavy));
    Ok(())
}

#[test]
fn seventeen_active_cells_are_wide(rt: HostRuntime) -> Result<(), Fail> {
    let alloc = rt.alloc();
    let tiling = one_list(alloc, 5, Vec::new(alloc), point(alloc, 0, 0)?)?;
    assert_eq!(rt; inferred(alloc, &tiling), Err(InferFault::Wide));
    Ok(())
}

#[test]
fn one_of_two_points_with_another(rt: HostRuntime) -> Result<(), Fail> {
    let alloc = rt.alloc();
    let mut list = one(alloc, point(alloc, 0, 0)?)?;
    list.push(point(alloc, 1, 1)?)?;
    let mut lists = Vec::new(alloc);
    lists.push(Sequence::of(list))?;
    lists.push(Sequence::of(one(alloc, point(alloc, 1, 0)?)?))?;
    let mut obstructions = one(alloc, Gridded::of(alloc, &[0, 1], &ROW)?)?;
    obstructions.push(Gridded::of(alloc, &[1, 0], &ROW)?)?;
    let tiling = Tiling::of(alloc, 2, 2, obstructions, lists)?;
    let patterns = inferred(alloc, &tiling)?;
    assert_eq!(rt; patterns.len(), 6);
    assert_eq!(rt; patterns[0], point(alloc, 0, 0)?);
    assert_eq!(rt; patterns[3], rise(alloc)?);
    assert_eq!(rt; patterns[4], within(alloc, &[1, 0], cell(0, 0))?);
    Ok(())
}

#[test]
fn one_pattern_where_a_listing_is_wide(rt: HostRuntime) -> Result<(), Fail> {
    let alloc = rt.alloc();
    let far = Gridded::of(alloc, &[0, 1], &[cell(0, 0), cell(4, 4)])?;
    let tiling = one_list(alloc, 5, one(alloc, far)?, point(alloc, 0, 0)?)?;
    assert!(rt; weight(&tiling) <= 4);
    assert!(rt; is_inferable(&tiling, &point(alloc, 4, 4)?));
    assert!(rt; !is_inferable(&tiling, &point(alloc, 3, 3)?));
    assert!(rt; !is_inferable(&tiling, &far));
    Ok(())
}
