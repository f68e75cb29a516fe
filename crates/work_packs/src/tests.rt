ghost use Rattle.std.specs.Prelude.{◌≡◌, IfOk, length};

use crate::{Packs, expand};
use gridded::{Cell, Gridded};
use normal_form::normalise;
use sequences::{Copied, Sequence};
use std::alloc::{AllocError, Global};
use std::test::Fail;
use steps::Step;
use tile_rules::{Kind, Tiles};
use tiling_core::Tiling;

const ORIGIN: Cell = Cell { x: 0, y: 0 };

const CORNER: Cell = Cell { x: 1, y: 1 };

const FIRST_COLUMN: Step = Step::Column(0);

const FIRST_ROW: Step = Step::Row(0);

const NONE: Packs = Packs {
    i: false,
    r: false,
    c: false,
    p: false,
    f: false,
    s: false,
    n: false,
};

const ONLY_I: Packs = Packs {
    i: true,
    r: false,
    c: false,
    p: false,
    f: false,
    s: false,
    n: false,
};

const ONLY_N: Packs = Packs {
    i: false,
    r: false,
    c: false,
    p: false,
    f: false,
    s: false,
    n: true,
};

const I_AND_N: Packs = Packs {
    i: true,
    r: false,
    c: false,
    p: false,
    f: false,
    s: false,
    n: true,
};

const ALL: Packs = Packs {
    i: true,
    r: true,
    c: true,
    p: true,
    f: true,
    s: true,
    n: true,
};

#[test]
fn texts_of_packs(rt: HostRuntime) {
    assert_eq!(rt; Packs::read("i"), Some(ONLY_I));
    assert_eq!(rt; Packs::read("in"), Some(I_AND_N));
    assert_eq!(rt; Packs::read(""), None);
    assert_eq!(rt; Packs::read("ii"), None);
    assert_eq!(rt; Packs::read("x"), None);
    assert_eq!(rt; Packs::read("ircpfsn"), Some(ALL));
}

#[test]
fn numbers_of_packs(rt: HostRuntime) {
    assert_eq!(rt; NONE.rulebook(), 0);
    assert_eq!(rt; I_AND_N.rulebook(), 65);
    assert_eq!(rt; ALL.rulebook(), 127);
}

/// The kinds of the rules in the filing of a tiling's normal form.
fn kinds_filed(alloc: Global, tiling: Tiling, packs: Packs) -> Result<Vec<Kind>, AllocError> {
    let (normal, _) = normalise(alloc, tiling)?;
    let filing = expand(alloc, &normal, packs)?;
    let mut kinds = Vec::new(alloc);
    for rule in filing.as_slice() {
        kinds.push(rule.kind().copy(alloc)?)?;
    }
    Ok(kinds)
}

/// The pattern with one point.
fn point(alloc: Global, cell: Cell) -> Result<Gridded, Fail> {
    Ok(Gridded::of(alloc, &[0], &[cell])?)
}

/// The pattern with two points in a cell.
fn pair(alloc: Global, first: u8, second: u8, cell: Cell) -> Result<Gridded, Fail> {
    Ok(Gridded::of(alloc, &[first, second], &[cell, cell])?)
}

/// The patterns of two points in the one cell.
fn pairs(alloc: Global) -> Result<Vec<Gridded>, Fail>
    ensures { IfOk result (λ patterns. length patterns.items ≡ 2) }
{
    let mut patterns = Vec::new(alloc);
    patterns.push(pair(alloc, 0, 1, ORIGIN)?)?;
    patterns.push(pair(alloc, 1, 0, ORIGIN)?)?;
    Ok(patterns)
}

#[test]
fn a_cell_of_at_most_one_point_has_an_insertion(rt: HostRuntime) -> Result<(), Fail> {
    let alloc = rt.alloc();
    let tiling = Tiling::of(alloc, 1, 1, pairs(alloc)?, Vec::new(alloc))?;
    let kinds = kinds_filed(alloc, tiling, ONLY_I)?;
    let wanted = vec![in alloc; Kind::Insert(point(alloc, ORIGIN)?)]?;
    assert!(rt; kinds == wanted);
    Ok(())
}

/// The traces of the rules in the filing of a tiling's normal form, one after another.
fn traces_filed(
    alloc: Global,
    tiling: Tiling,
    packs: Packs,
) -> Result<Vec<Sequence<Step>>, AllocError> {
    let (normal, _) = normalise(alloc, tiling)?;
    let filing = expand(alloc, &normal, packs)?;
    let mut traces = Vec::new(alloc);
    for rule in filing.as_slice() {
        for trace in rule.traces() {
            traces.push(Sequence::of(Vec::from_slice(alloc, trace.as_slice())?))?;
        }
    }
    Ok(traces)
}

#[test]
fn an_insertion_is_filed_with_its_traces(rt: HostRuntime) -> Result<(), Fail> {
    let alloc = rt.alloc();
    let tiling = Tiling::of(alloc, 1, 1, pairs(alloc)?, Vec::new(alloc))?;
    let without = vec![in alloc; Step::Min, FIRST_COLUMN, FIRST_ROW]?;
    let wanted = vec![in alloc; Sequence::of(without), Sequence::of(Vec::new(alloc))]?;
    assert!(rt; traces_filed(alloc, tiling, ONLY_I)? == wanted);
    Ok(())
}

#[test]
fn the_unit_tiling_is_unit(rt: HostRuntime) -> Result<(), Fail> {
    let alloc = rt.alloc();
    let unit = Tiling::of(alloc, 0, 0, Vec::new(alloc), Vec::new(alloc))?;
    assert!(rt; kinds_filed(alloc, unit, ONLY_I)? == vec![in alloc; Kind::Unit]?);
    Ok(())
}

#[test]
fn the_point_tiling_is_point(rt: HostRuntime) -> Result<(), Fail> {
    let alloc = rt.alloc();
    let list = vec![in alloc; point(alloc, ORIGIN)?]?;
    let lists = vec![in alloc; Sequence::of(list)]?;
    let tiling = Tiling::of(alloc, 1, 1, pairs(alloc)?, lists)?;
    let kinds = kinds_filed(alloc, tiling, ONLY_I)?;
    assert!(rt; kinds == vec![in alloc; Kind::Point]?);
    Ok(())
}

#[test]
fn an_empty_cell_is_inferred(rt: HostRuntime) -> Result<(), Fail> {
    let alloc = rt.alloc();
    let above = point(alloc, Cell { x: 0, y: 1 })?;
    let beside = point(alloc, Cell { x: 1, y: 0 })?;
    let apart = Gridded::of(alloc, &[0, 1], &[ORIGIN, CORNER])?;
    let obstructions = vec![in alloc; above, beside, apart]?;
    let list = vec![in alloc; point(alloc, ORIGIN)?]?;
    let lists = vec![in alloc; Sequence::of(list)]?;
    let tiling = Tiling::of(alloc, 2, 2, obstructions, lists)?;
    let patterns = vec![in alloc;
        point(alloc, CORNER)?,
        pair(alloc, 0, 1, CORNER)?,
        pair(alloc, 1, 0, CORNER)?,
    ]?;
    let wanted = vec![in alloc; Kind::Infer(Sequence::of(patterns))]?;
    assert!(rt; kinds_filed(alloc, tiling, ONLY_N)? == wanted);
    Ok(())
}
