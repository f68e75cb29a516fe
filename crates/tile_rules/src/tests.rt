ghost use Rattle.std.specs.Prelude.{◌≡◌, ◌<◌, IfOk, All, length};

use crate::{
    Direction, Kind, Pointed, RawFault, TileRule, check_rule, raw_children, root_raw, rules_count,
};
use gridded::{Cell, Gridded, GriddedFault};
use perm_core::Perm;
use sequences::{Copied, Sequence};
use std::alloc::{AllocError, Global};
use std::test::Fail;
use steps::Step;
use tiling_core::{Tiling, TilingFault};

const ORIGIN: Cell = Cell { x: 0, y: 0 };

const FAR: Cell = Cell { x: 1, y: 1 };

/// The pattern 0:00.
fn point(alloc: Global) -> Result<Gridded, GriddedFault> {
    Gridded::of(alloc, &[0], &[ORIGIN])
}

/// The 1x1 tiling with the obstruction 021:00.00.00.
fn without_021(alloc: Global) -> Result<Tiling, TilingFault> {
    let Ok(pattern) = Gridded::of(alloc, &[0, 2, 1], &[ORIGIN, ORIGIN, ORIGIN]) else {
        return Err(TilingFault::Memory);
    };
    match vec![in alloc; pattern] {
        Ok(obstructions) => Tiling::of(alloc, 1, 1, obstructions, Vec::new(alloc)),
        Err(_) => Err(TilingFault::Memory),
    }
}

/// The tiling of a word that isn't empty.
fn root_of_one(alloc: Global, word: Perm) -> Result<Tiling, AllocError> {
    if word.letters().is_empty() {
        return Err(AllocError);
    }
    root_raw(alloc, &[word])
}

/// The kind that places the point of 0:00 to the north.
fn placing(alloc: Global, point: Gridded) -> Result<Kind, AllocError> {
    if point.len() == 0 {
        return Err(AllocError);
    }
    let pointed = vec![in alloc; Pointed::of(point, 0)]?;
    Ok(Kind::Place(Sequence::of(pointed), Direction::North))
}

#[test]
fn the_root_of_021(rt: HostRuntime) -> Result<(), Fail> {
    let alloc = rt.alloc();
    rules_count();
    let root = root_of_one(alloc, Perm::of(alloc, &[0, 2, 1])?)?;
    assert_eq!(rt; root, without_021(alloc)?);
    Ok(())
}

/// The 1x1 tiling without a point.
fn without_points(alloc: Global) -> Result<Tiling, Fail> {
    let obstructions = vec![in alloc;
        point(alloc)?,
        rising(alloc, ORIGIN, ORIGIN)?,
        falling(alloc, ORIGIN, ORIGIN)?,
    ]?;
    Ok(Tiling::of(alloc, 1, 1, obstructions, Vec::new(alloc))?)
}

#[test]
fn a_point_is_inserted_into_the_root(rt: HostRuntime) -> Result<(), Fail> {
    let alloc = rt.alloc();
    let root = without_pairs(alloc, Vec::new(alloc))?;
    let with = without_pairs(alloc, one_list(alloc, point(alloc)?)?)?;
    let expected = vec![in alloc; without_points(alloc)?, with]?;
    let children = raw_children(alloc, &root, &Kind::Insert(point(alloc)?))?;
    assert_eq!(rt; children, expected);
    Ok(())
}

#[test]
fn a_point_is_placed_in_the_root(rt: HostRuntime) -> Result<(), Fail> {
    let alloc = rt.alloc();
    let root = without_pairs(alloc, Vec::new(alloc))?;
    let children = raw_children(alloc, &root, &placing(alloc, point(alloc)?)?)?;
    assert_eq!(rt; children.len(), 2);
    assert_eq!(rt; children[0], without_points(alloc)?);
    assert_eq!(rt; children[1].width(), 3);
    Ok(())
}

#[test]
fn kinds_that_do_not_apply_to_the_root(rt: HostRuntime) -> Result<(), Fail> {
    let alloc = rt.alloc();
    let root = without_pairs(alloc, Vec::new(alloc))?;
    let far = Kind::Insert(Gridded::of(alloc, &[0], &[FAR])?);
    let kinds = vec![in alloc; Kind::Unit, Kind::Point, Kind::Void, far]?;
    for kind in &kinds {
        assert_eq!(rt;
            raw_children(alloc, &root, kind),
            Err(RawFault::NotApplicable)
        );
    }
    Ok(())
}

#[test]
fn the_void_tiling_has_no_member(rt: HostRuntime) -> Result<(), Fail> {
    let alloc = rt.alloc();
    let nothing = vec![in alloc; Gridded::of(alloc, &[], &[])?]?;
    let void = Tiling::of(alloc, 0, 0, nothing, Vec::new(alloc))?;
    assert_eq!(rt; raw_children(alloc, &void, &Kind::Void)?.len(), 0);
    Ok(())
}

#[test]
fn a_kind_is_copied(rt: HostRuntime) -> Result<(), Fail> {
    let alloc = rt.alloc();
    let kind = placing(alloc, point(alloc)?)?;
    assert_eq!(rt; kind.copy(alloc)?, kind);
    Ok(())
}

/// The step of the first column, and that of the first row.
const FIRST_COLUMN: Step = Step::Column(0);

const FIRST_ROW: Step = Step::Row(0);

/// Two points in these cells, the right one higher.
fn rising(alloc: Global, left: Cell, right: Cell) -> Result<Gridded, GriddedFault> {
    Gridded::of(alloc, &[0, 1], &[left, right])
}

/// Two points in these cells, the right one lower.
fn falling(alloc: Global, left: Cell, right: Cell) -> Result<Gridded, GriddedFault> {
    Gridded::of(alloc, &[1, 0], &[left, right])
}

/// One requirement list, of one pattern.
fn one_list(alloc: Global, pattern: Gridded) -> Result<Vec<Sequence<Gridded>>, AllocError>
    ensures few { IfOk result (λ lists. length lists.items ≡ 1) }
    ensures each { IfOk result (λ lists. All (λ patterns. length patterns < 268435456) lists.items) }
{
    let mut lists = Vec::new(alloc);
    lists.push(Sequence::of(vec![in alloc; pattern]?))?;
    Ok(lists)
}

/// The 1x1 tiling without two points, and with these requirement lists.
fn without_pairs(alloc: Global, lists: Vec<Sequence<Gridded>>) -> Result<Tiling, Fail>
    requires few { length lists.items < 268435456 }
    requires each { All (λ patterns. length patterns < 268435456) lists.items }
{
    let obstructions = vec![in alloc;
        rising(alloc, ORIGIN, ORIGIN)?,
        falling(alloc, ORIGIN, ORIGIN)?,
    ]?;
    Ok(Tiling::of(alloc, 1, 1, obstructions, lists)?)
}

/// The rule that inserts a point into the 1x1 tiling without two points, by this trace of the first child.
fn insertion(alloc: Global, trace: Vec<Step>) -> Result<TileRule, Fail>
    requires { length trace.items < 4 }
{
    let root = without_pairs(alloc, Vec::new(alloc))?;
    let unit = Tiling::of(alloc, 0, 0, Vec::new(alloc), Vec::new(alloc))?;
    let one = without_pairs(alloc, one_list(alloc, point(alloc)?)?)?;
    let children = vec![in alloc; unit, one]?;
    let traces = vec![in alloc; Sequence::of(trace), Sequence::of(Vec::new(alloc))]?;
    Ok(TileRule::of(
        Kind::Insert(point(alloc)?),
        root,
        Sequence::of(children),
        Sequence::of(traces),
    ))
}

#[test]
fn insertions_follow_by_their_traces(rt: HostRuntime) -> Result<(), Fail> {
    let alloc = rt.alloc();
    let whole = vec![in alloc; Step::Min, FIRST_COLUMN, FIRST_ROW]?;
    assert_eq!(rt; check_rule(alloc, &insertion(alloc, whole)?), Ok(true));
    assert_eq!(rt;
        check_rule(alloc, &insertion(alloc, Vec::new(alloc))?),
        Ok(false)
    );
    Ok(())
}

/// The 2x2 tiling of points in the lower left cell, which there are, or in the upper right one, where there is no
/// point right of one in the lower left.
fn one_corner(alloc: Global) -> Result<Tiling, Fail> {
    let above = Gridded::of(alloc, &[0], &[Cell { x: 0, y: 1 }])?;
    let beside = Gridded::of(alloc, &[0], &[Cell { x: 1, y: 0 }])?;
    let obstructions = vec![in alloc; above, beside, rising(alloc, ORIGIN, FAR)?]?;
    Ok(Tiling::of(alloc, 2, 2, obstructions, one_list(alloc, point(alloc)?)?)?)
}

#[test]
fn the_far_corner_is_inferred(rt: HostRuntime) -> Result<(), Fail> {
    let alloc = rt.alloc();
    let far = Gridded::of(alloc, &[0], &[FAR])?;
    let patterns = vec![in alloc; far, rising(alloc, FAR, FAR)?, falling(alloc, FAR, FAR)?]?;
    let kind = Kind::Infer(Sequence::of(patterns));
    let children = raw_children(alloc, &one_corner(alloc)?, &kind)?;
    assert_eq!(rt; children.len(), 1);
    Ok(())
}

#[test]
fn a_point_of_all_members_is_not_inferred(rt: HostRuntime) -> Result<(), Fail> {
    let alloc = rt.alloc();
    let kind = Kind::Infer(Sequence::of(vec![in alloc; point(alloc)?]?));
    assert_eq!(rt;
        raw_children(alloc, &one_corner(alloc)?, &kind),
        Err(RawFault::NotApplicable)
    );
    Ok(())
}
