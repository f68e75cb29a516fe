use crate::{arguments, build};
use gridded::{Cell, Gridded, GriddedFault};
use rule_kinds::{Kind, RawFault};
use sequences::Sequence;
use std::alloc::Global;
use std::test::Fail;
use tiling_core::{Tiling, TilingFault};

const ORIGIN: Cell = Cell { x: 0, y: 0 };

const RIGHT: Cell = Cell { x: 1, y: 0 };

/// The pattern with one point.
fn point(alloc: Global, cell: Cell) -> Result<Gridded, GriddedFault> {
    Gridded::of(alloc, &[0], &[cell])
}

/// The 1x1 tiling with the obstruction 021:00.00.00.
fn without_021(alloc: Global) -> Result<Tiling, TilingFault> {
    let Ok(pattern) = Gridded::of(alloc, &[0, 2, 1], &[ORIGIN, ORIGIN, ORIGIN]) else {
        return Err(TilingFault::Memory);
    };
    match vec![in alloc; pattern] {
        Ok(obstructions) => Tiling::of(alloc, 1, 1, obstructions, Vec::new(alloc)),
        Err(_) => Err(TilingFault::Memory),
    }
}

#[test]
fn a_point_is_inserted_into_the_tiling_of_021(rt: HostRuntime) -> Result<(), Fail> {
    let alloc = rt.alloc();
    let kinds = arguments(alloc, &without_021(alloc)?)?;
    let wanted = vec![in alloc; Kind::Insert(point(alloc, ORIGIN)?)]?;
    assert!(rt; kinds == wanted);
    Ok(())
}

#[test]
fn a_required_point_is_not_inserted(rt: HostRuntime) -> Result<(), Fail> {
    let alloc = rt.alloc();
    let list = vec![in alloc; point(alloc, ORIGIN)?]?;
    let lists = vec![in alloc; Sequence::of(list)]?;
    let kinds = arguments(alloc, &Tiling::of(alloc, 2, 1, Vec::new(alloc), lists)?)?;
    let wanted = vec![in alloc; Kind::Insert(point(alloc, RIGHT)?)]?;
    assert!(rt; kinds == wanted);
    Ok(())
}

#[test]
fn an_insertion_has_two_children(rt: HostRuntime) -> Result<(), Fail> {
    let alloc = rt.alloc();
    let kind = Kind::Insert(point(alloc, ORIGIN)?);
    assert_eq!(rt; build(alloc, &without_021(alloc)?, &kind)?.len(), 2);
    Ok(())
}

#[test]
fn other_kinds_are_refused(rt: HostRuntime) -> Result<(), Fail> {
    let alloc = rt.alloc();
    let tiling = without_021(alloc)?;
    assert_eq!(rt;
        build(alloc, &tiling, &Kind::Unit),
        Err(RawFault::NotApplicable)
    );
    Ok(())
}
