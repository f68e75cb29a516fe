ghost use Rattle.std.specs.Prelude.{◌≡◌, ◌≤◌, ◌<◌, IfOk, length};
ghost use Rattle.gridded.specs.Grids.{points};

use crate::{Tiling, TilingFault, active, holds_one, member, positive, read_patterns, weight};
use gridded::{Cell, Gridded, GriddedFault};
use sequences::{Copied, Sequence};
use std::alloc::{AllocError, Global};
use std::cmp::Ordering;
use std::test::Fail;

const fn cell(x: u8, y: u8) -> Cell
    ensures { result ≡ record { x = x; y = y } }
{
    Cell { x, y }
}

/// The point in a cell.
fn point(alloc: Global, x: u8, y: u8) -> Result<Gridded, GriddedFault> {
    Gridded::of(alloc, &[0], &[cell(x, y)])
}

/// Two points in cells.
fn pair(alloc: Global, letters: [u8; 2], cells: [Cell; 2]) -> Result<Gridded, GriddedFault> {
    Gridded::of(alloc, letters.as_slice(), cells.as_slice())
}

/// A list of one pattern.
fn one(alloc: Global, pattern: Gridded) -> Result<Vec<Gridded>, AllocError>
    ensures { IfOk result (λ list. length list.items ≡ 1) }
{
    let mut list = Vec::new(alloc);
    list.push(pattern)?;
    Ok(list)
}

/// 2x1 with the obstructions 01:00.10 and 0:00, in this order and the second twice.
fn two_columns(alloc: Global) -> Result<Tiling, Fail> {
    let mut obstructions = one(alloc, pair(alloc, [0, 1], [cell(0, 0), cell(1, 0)])?)?;
    obstructions.push(point(alloc, 0, 0)?)?;
    obstructions.push(point(alloc, 0, 0)?)?;
    Ok(Tiling::of(alloc, 2, 1, obstructions, Vec::new(alloc))?)
}

#[test]
fn a_side_over_8_is_refused(rt: HostRuntime) {
    let alloc = rt.alloc();
    let wide = Tiling::of(alloc, 9, 1, Vec::new(alloc), Vec::new(alloc));
    assert_eq!(rt; wide, Err(TilingFault::Side));
    let high = Tiling::of(alloc, 1, 9, Vec::new(alloc), Vec::new(alloc));
    assert_eq!(rt; high, Err(TilingFault::Side));
    assert!(rt; Tiling::of(alloc, 8, 8, Vec::new(alloc), Vec::new(alloc)).is_ok());
}

#[test]
fn a_cell_outside_is_refused(rt: HostRuntime) -> Result<(), Fail> {
    let alloc = rt.alloc();
    let obstructions = one(alloc, point(alloc, 1, 0)?)?;
    let outside = Tiling::of(alloc, 1, 1, obstructions, Vec::new(alloc));
    assert_eq!(rt; outside, Err(TilingFault::Outside { list: 0, index: 0 }));
    Ok(())
}

#[test]
fn patterns_are_sorted_once_each(rt: HostRuntime) -> Result<(), Fail> {
    let alloc = rt.alloc();
    let tiling = two_columns(alloc)?;
    assert_eq!(rt; tiling.width(), 2);
    assert_eq!(rt; tiling.height(), 1);
    assert_eq!(rt; tiling.obstructions().len(), 2);
    assert_eq!(rt; tiling.obstructions()[0], point(alloc, 0, 0)?);
    assert_eq!(rt; tiling.lists(), 0);
    assert_eq!(rt; tiling.requirements().len(), 0);
    assert_eq!(rt; tiling.copy(alloc)?, tiling);
    Ok(())
}

#[test]
fn members_hold_no_obstruction(rt: HostRuntime) -> Result<(), Fail> {
    let alloc = rt.alloc();
    let tiling = two_columns(alloc)?;
    assert!(rt; member(&tiling, &point(alloc, 1, 0)?));
    assert!(rt; !member(&tiling, &point(alloc, 0, 0)?));
    assert!(rt; !member(&tiling, &point(alloc, 1, 1)?));
    let free = active(&tiling);
    assert_eq!(rt; free.count(), 1);
    assert!(rt; free.has(cell(1, 0)));
    Ok(())
}

#[test]
fn requirements_are_met(rt: HostRuntime) -> Result<(), Fail> {
    let alloc = rt.alloc();
    let mut requirements = Vec::new(alloc);
    requirements.push(Sequence::of(one(alloc, point(alloc, 0, 0)?)?))?;
    let tiling = Tiling::of(alloc, 1, 1, Vec::new(alloc), requirements)?;
    assert_eq!(rt; tiling.lists(), 1);
    assert_eq!(rt; tiling.list(0).len(), 1);
    assert!(rt; positive(&tiling));
    assert_eq!(rt; weight(&tiling), 1);
    assert!(rt; !member(&tiling, &Gridded::of(alloc, &[], &[])?));
    assert!(rt; member(&tiling, &point(alloc, 0, 0)?));
    Ok(())
}

#[test]
fn single_tilings_are_made_and_ordered(rt: HostRuntime) -> Result<(), Fail> {
    let alloc = rt.alloc();
    let unit = Tiling::unit(alloc)?;
    let one = Tiling::point(alloc)?;
    let void = Tiling::void(alloc)?;
    assert!(rt; unit.cmp(&void) == Ordering::Less);
    assert!(rt; void.cmp(&one) == Ordering::Less);
    assert!(rt; void.forbids(&Gridded::empty()));
    assert!(rt; !holds_one(&Gridded::empty(), one.obstructions()));
    read_patterns(one.obstructions());
    one.read();
    Ok(())
}

#[test]
fn in_grid_needs_no_check(rt: HostRuntime) -> Result<(), Fail> {
    let alloc = rt.alloc();
    let unit = Tiling::in_grid(0, 0, Vec::new(alloc), Vec::new(alloc))?;
    assert!(rt; member(&unit, &Gridded::of(alloc, &[], &[])?));
    assert!(rt; !positive(&unit));
    assert_eq!(rt; weight(&unit), 0);
    assert_eq!(rt; active(&unit).count(), 0);
    crate::membership_is_decided();
    crate::counts_add_up();
    crate::insertion_adds_up();
    crate::minimal_obstructions_suffice();
    crate::root_counts_avoiders();
    crate::single_tilings();
    Ok(())
}
