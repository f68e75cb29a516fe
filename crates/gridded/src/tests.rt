ghost use Rattle.std.specs.Prelude.{◌≡◌};

use crate::{
    Axis, Cell, CellSet, Gridded, GriddedFault, gridded_permutations_are_listed_once, holds,
    restrict, without,
};
use sequences::Copied;
use std::alloc::Global;
use std::cmp::Ordering;
use std::test::Fail;

const fn cell(x: u8, y: u8) -> Cell
    ensures { result ≡ record { x = x; y = y } }
{
    Cell { x, y }
}

/// 021:00.11.20
fn three(alloc: Global) -> Result<Gridded, GriddedFault> {
    Gridded::of(alloc, &[0, 2, 1], &[cell(0, 0), cell(1, 1), cell(2, 0)])
}

#[test]
fn of_makes_or_names_the_first_refusal(rt: HostRuntime) -> Result<(), Fail> {
    let alloc = rt.alloc();
    let lower = cell(0, 0);
    let upper = cell(1, 1);
    let made = Gridded::of(alloc, &[0, 1], &[lower, upper])?;
    assert_eq!(rt; made.letters(), [0u8, 1].as_slice());
    assert_eq!(rt; made.cells(), [lower, upper].as_slice());
    assert_eq!(rt; made.len(), 2);
    let columns = Gridded::of(alloc, &[0, 1], &[upper, lower]);
    assert_eq!(rt; columns, Err(GriddedFault::Columns { index: 1 }));
    let rows = Gridded::of(alloc, &[1, 0], &[lower, upper]);
    assert_eq!(rt; rows, Err(GriddedFault::Rows { index: 1 }));
    Ok(())
}

#[test]
fn of_refuses_lengths_and_letters_first(rt: HostRuntime) -> Result<(), Fail> {
    let alloc = rt.alloc();
    let lower = cell(0, 0);
    let upper = cell(1, 1);
    let lengths = Gridded::of(alloc, &[5, 5], &[upper]);
    assert_eq!(rt; lengths, Err(GriddedFault::Lengths));
    let repeat = Gridded::of(alloc, &[0, 0], &[upper, lower]);
    assert_eq!(rt; repeat, Err(GriddedFault::NotPerm { index: 1 }));
    let same_cell = Gridded::of(alloc, &[1, 0], &[lower, lower]);
    assert!(rt; same_cell.is_ok());
    Ok(())
}

#[test]
fn a_pattern_is_held_in_its_cells(rt: HostRuntime) -> Result<(), Fail> {
    let alloc = rt.alloc();
    let whole = three(alloc)?;
    let rise = Gridded::of(alloc, &[0, 1], &[cell(0, 0), cell(2, 0)])?;
    assert!(rt; holds(&whole, &rise));
    let elsewhere = Gridded::of(alloc, &[0, 1], &[cell(0, 0), cell(2, 1)])?;
    assert!(rt; !holds(&whole, &elsewhere));
    let fall = Gridded::of(alloc, &[1, 0], &[cell(0, 0), cell(2, 0)])?;
    assert!(rt; !holds(&whole, &fall));
    Ok(())
}

#[test]
fn patterns_of_four_and_five_points(rt: HostRuntime) -> Result<(), Fail> {
    let alloc = rt.alloc();
    let whole = Gridded::of(alloc, &[1, 3, 4, 0, 2], &[cell(7, 7); 5])?;
    let held = Gridded::of(alloc, &[1, 3, 0, 2], &[cell(7, 7); 4])?;
    let apart = Gridded::of(alloc, &[0, 1, 2, 3], &[cell(7, 7); 4])?;
    assert!(rt; holds(&whole, &held));
    assert!(rt; !holds(&whole, &apart));
    assert!(rt; holds(&whole, &whole));
    Ok(())
}

#[test]
fn cells_beyond_eight_are_told_apart(rt: HostRuntime) -> Result<(), Fail> {
    // 8x + y of the two is one number.
    let high = Gridded::point_at(cell(0, 8));
    let right = Gridded::point_at(cell(1, 0));
    assert!(rt; !holds(&high, &right));
    assert!(rt; !holds(&right, &high));
    assert!(rt; holds(&high, &high));
    Ok(())
}

#[test]
fn small_patterns_are_made(rt: HostRuntime) -> Result<(), Fail> {
    let lower = cell(0, 0);
    let upper = cell(1, 1);
    assert!(rt; Gridded::empty().is_empty());
    assert_eq!(rt; Gridded::point_at(upper).cells(), [upper].as_slice());
    assert!(rt; !Gridded::point_at(upper).fits_grid(1, 2));
    assert_eq!(rt;
        Gridded::rising(lower, upper).letters(),
        [0u8, 1].as_slice()
    );
    assert_eq!(rt;
        Gridded::falling(upper, upper).letters(),
        [1u8, 0].as_slice()
    );
    Ok(())
}

#[test]
fn what_is_left_closes_up(rt: HostRuntime) -> Result<(), Fail> {
    let alloc = rt.alloc();
    let whole = three(alloc)?;
    let rest = Gridded::of(alloc, &[0, 1], &[cell(0, 0), cell(2, 0)])?;
    assert_eq!(rt; whole.len(), 3);
    assert_eq!(rt; without(alloc, &whole, 1)?, rest);
    let set = CellSet::none().with(cell(2, 0)).with(cell(0, 0));
    assert_eq!(rt; restrict(alloc, &whole, set)?, rest);
    Ok(())
}

#[test]
fn a_set_has_its_cells(rt: HostRuntime) -> Result<(), Fail> {
    let none = CellSet::none();
    assert_eq!(rt; none.least(), None);
    let set = none.with(cell(7, 7)).with(cell(2, 0)).with(cell(1, 5));
    assert_eq!(rt; set.count(), 3);
    assert_eq!(rt; set.least(), Some(cell(1, 5)));
    assert!(rt; set.has(cell(7, 7)));
    assert!(rt; !set.has(cell(0, 2)));
    assert!(rt; set == set.copy(rt.alloc())?);
    let cells = set.cells(rt.alloc())?;
    assert_eq!(rt;
        cells.as_slice(),
        [cell(1, 5), cell(2, 0), cell(7, 7)].as_slice()
    );
    assert!(rt; none.is_empty());
    assert!(rt; set != none);
    Ok(())
}

#[test]
fn copies_are_equal_and_order_is_by_length(rt: HostRuntime) -> Result<(), Fail> {
    let alloc = rt.alloc();
    let whole = three(alloc)?;
    let first = Gridded::from_consistent(&[0], &[cell(2, 0)]);
    assert_eq!(rt; whole.copy(alloc)?, whole);
    let copies = Gridded::copy_all(&[whole, first], alloc)?;
    assert_eq!(rt; copies.as_slice(), [whole, first].as_slice());
    assert!(rt; first.cmp(&whole) == Ordering::Less);
    gridded_permutations_are_listed_once();
    Ok(())
}

#[test]
fn columns_and_rows_are_lines(rt: HostRuntime) {
    assert_eq!(rt; cell(3, 5).line(Axis::Column), 3);
    assert_eq!(rt; cell(3, 5).line(Axis::Row), 5);
    assert_eq!(rt; cell(3, 5).with_line(Axis::Row, 1), cell(3, 1));
}
