ghost use Rattle.std.specs.Prelude.{◌≡◌, IfOk, length};

use crate::{ReplayFault, Step, StepFault, applies, apply, replay, steps_keep_members};
use gridded::{Cell, Gridded, GriddedFault};
use sequences::Sequence;
use std::alloc::Global;
use std::test::Fail;
use tiling_core::{Tiling, TilingFault};

const ORIGIN: Cell = Cell { x: 0, y: 0 };

/// The point at 00.
fn point(alloc: Global) -> Result<Gridded, GriddedFault> {
    Gridded::of(alloc, &[0], &[ORIGIN])
}

/// The pattern 01:00.00.
fn rise(alloc: Global) -> Result<Gridded, GriddedFault> {
    Gridded::of(alloc, &[0, 1], &[ORIGIN, ORIGIN])
}

/// The 1x1 tiling with an obstruction and no list.
fn forbidding_one(alloc: Global, pattern: Gridded) -> Result<Tiling, TilingFault> {
    match vec![in alloc; pattern] {
        Ok(obstructions) => Tiling::of(alloc, 1, 1, obstructions, Vec::new(alloc)),
        Err(_) => Err(TilingFault::Memory),
    }
}

/// The 1x1 tiling with the obstructions 0:00 and 01:00.00.
fn forbidding_both(alloc: Global, point: Gridded, rise: Gridded) -> Result<Tiling, TilingFault> {
    match vec![in alloc; point, rise] {
        Ok(obstructions) => Tiling::of(alloc, 1, 1, obstructions, Vec::new(alloc)),
        Err(_) => Err(TilingFault::Memory),
    }
}

/// The tiling with no cell, obstruction or list.
fn unit(alloc: Global) -> Result<Tiling, TilingFault> {
    Tiling::of(alloc, 0, 0, Vec::new(alloc), Vec::new(alloc))
}

#[test]
fn min_leaves_the_point(rt: HostRuntime) -> Result<(), Fail> {
    let alloc = rt.alloc();
    steps_keep_members();
    let tiling = forbidding_both(alloc, point(alloc)?, rise(alloc)?)?;
    assert_eq!(rt; applies(Step::Min, &tiling), true);
    let least = forbidding_one(alloc, point(alloc)?)?;
    assert_eq!(rt; apply(alloc, &Step::Min, tiling), Ok(least));
    Ok(())
}

#[test]
fn min_needs_an_obstruction_that_holds_another(rt: HostRuntime) -> Result<(), Fail> {
    let alloc = rt.alloc();
    let tiling = forbidding_one(alloc, point(alloc)?)?;
    assert_eq!(rt;
        apply(alloc, &Step::Min, tiling),
        Err(StepFault::NotApplicable)
    );
    Ok(())
}

#[test]
fn min_applies_once(rt: HostRuntime) -> Result<(), Fail> {
    let alloc = rt.alloc();
    let tiling = forbidding_both(alloc, point(alloc)?, rise(alloc)?)?;
    let twice = replay(alloc, tiling, &[Step::Min, Step::Min]);
    assert_eq!(rt; twice, Err(ReplayFault::NotApplicable { at: 1 }));
    Ok(())
}

#[test]
fn a_blank_cell_goes(rt: HostRuntime) -> Result<(), Fail> {
    let alloc = rt.alloc();
    let tiling = forbidding_both(alloc, point(alloc)?, rise(alloc)?)?;
    let left = replay(alloc, tiling, &[Step::Min, Step::Column(0), Step::Row(0)]);
    assert_eq!(rt; left, Ok(unit(alloc)?));
    Ok(())
}

/// The list with the point at 00 alone.
fn point_here(alloc: Global) -> Result<Sequence<Gridded>, Fail>
    ensures { IfOk result (λ list. length list ≡ 1) }
{
    Ok(Sequence::of(vec![in alloc; point(alloc)?]?))
}

/// The list with the points at 00 and 11.
fn point_here_or_there(alloc: Global) -> Result<Sequence<Gridded>, Fail>
    ensures { IfOk result (λ list. length list ≡ 2) }
{
    let other = Gridded::of(alloc, &[0], &[Cell { x: 1, y: 1 }])?;
    Ok(Sequence::of(vec![in alloc; point(alloc)?, other]?))
}

/// The tiling with no cell and the empty pattern as obstruction.
fn void(alloc: Global) -> Result<Tiling, Fail> {
    let empty = Gridded::of(alloc, &[], &[])?;
    Ok(Tiling::of(alloc, 0, 0, vec![in alloc; empty]?, Vec::new(alloc))?)
}

#[test]
fn an_empty_obstruction_leaves_the_void_tiling(rt: HostRuntime) -> Result<(), Fail> {
    let alloc = rt.alloc();
    let tiling = forbidding_one(alloc, Gridded::of(alloc, &[], &[])?)?;
    assert_eq!(rt; apply(alloc, &Step::Void, tiling), Ok(void(alloc)?));
    Ok(())
}

#[test]
fn the_void_tiling_stays(rt: HostRuntime) -> Result<(), Fail> {
    let alloc = rt.alloc();
    assert_eq!(rt;
        apply(alloc, &Step::Void, void(alloc)?),
        Err(StepFault::NotApplicable)
    );
    Ok(())
}

#[test]
fn lists_drop_the_implied_one(rt: HostRuntime) -> Result<(), Fail> {
    let alloc = rt.alloc();
    let lists = vec![in alloc; point_here(alloc)?, point_here_or_there(alloc)?]?;
    let tiling = Tiling::of(alloc, 2, 2, Vec::new(alloc), lists)?;
    let lists = vec![in alloc; point_here(alloc)?]?;
    let left = Tiling::of(alloc, 2, 2, Vec::new(alloc), lists)?;
    assert_eq!(rt; apply(alloc, &Step::Lists, tiling), Ok(left));
    Ok(())
}
