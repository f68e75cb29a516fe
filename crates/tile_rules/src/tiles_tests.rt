ghost use Rattle.std.specs.Prelude.{◌≡◌, ◌<◌, IfOk, All, length};

use crate::{Kind, TileRule, Tiles, members_are_carried};
use css_domain::{Domain, Filing, Shape};
use gridded::{Cell, CellSet, Gridded};
use sequences::Sequence;
use std::alloc::{AllocError, Global};
use std::test::Fail;
use steps::Step;
use tiling_core::Tiling;

const LEFT: Cell = Cell { x: 0, y: 0 };

const MIDDLE: Cell = Cell { x: 1, y: 1 };

const RIGHT: Cell = Cell { x: 2, y: 0 };

const BESIDE: Cell = Cell { x: 1, y: 0 };

const FIRST_COLUMN: Step = Step::Column(0);

const MIDDLE_COLUMN: Step = Step::Column(1);

const FIRST_ROW: Step = Step::Row(0);

const UPPER_ROW: Step = Step::Row(1);

/// Adds the points in cells that have none.
fn add_points(alloc: Global, list: &mut Vec<Gridded>) -> Result<(), Fail> {
    for place in [
        Cell { x: 0, y: 1 },
        Cell { x: 1, y: 0 },
        Cell { x: 2, y: 1 },
    ] {
        list.push(Gridded::of(alloc, &[0], &[place])?)?;
    }
    Ok(())
}

/// Adds the pairs of points that no member holds.
fn add_pairs(alloc: Global, list: &mut Vec<Gridded>) -> Result<(), Fail> {
    list.push(Gridded::of(alloc, &[0, 1], &[LEFT, RIGHT])?)?;
    list.push(Gridded::of(alloc, &[0, 1], &[MIDDLE, MIDDLE])?)?;
    list.push(Gridded::of(alloc, &[1, 0], &[MIDDLE, MIDDLE])?)?;
    Ok(())
}

/// Adds the pattern 021 in one cell, for two cells.
fn add_triples(alloc: Global, list: &mut Vec<Gridded>) -> Result<(), Fail> {
    for place in [LEFT, RIGHT] {
        list.push(Gridded::of(alloc, &[0, 2, 1], &[place, place, place])?)?;
    }
    Ok(())
}

/// The 3x2 tiling with a point in its middle column and upper row, and an avoider of 021 on each side of it.
fn around_a_point(alloc: Global) -> Result<Tiling, Fail> {
    let mut obstructions = Vec::new(alloc);
    add_points(alloc, &mut obstructions)?;
    add_pairs(alloc, &mut obstructions)?;
    add_triples(alloc, &mut obstructions)?;
    if obstructions.len() != 8 {
        return Err(Fail::from(AllocError));
    }
    let list = vec![in alloc; Gridded::of(alloc, &[0], &[MIDDLE])?]?;
    let lists = vec![in alloc; Sequence::of(list)]?;
    Ok(Tiling::of(alloc, 3, 2, obstructions, lists)?)
}

/// The kind that takes that point out.
fn apart(alloc: Global) -> Result<Kind, AllocError> {
    let outer = CellSet::none().with(LEFT).with(RIGHT);
    let sets = vec![in alloc; outer, CellSet::none().with(MIDDLE)]?;
    Ok(Kind::Factor(Sequence::of(sets)))
}

/// The 2x1 tiling of the avoiders of 021 in two cells, none of which has a point below one of the right cell.
fn of_the_sides(alloc: Global) -> Result<Tiling, Fail> {
    let mut obstructions = vec![in alloc; Gridded::of(alloc, &[0, 1], &[LEFT, BESIDE])?]?;
    for place in [LEFT, BESIDE] {
        obstructions.push(Gridded::of(alloc, &[0, 2, 1], &[place, place, place])?)?;
    }
    if obstructions.len() != 3 {
        return Err(Fail::from(AllocError));
    }
    Ok(Tiling::of(alloc, 2, 1, obstructions, Vec::new(alloc))?)
}

/// The point tiling.
fn of_the_point(alloc: Global) -> Result<Tiling, Fail> {
    let rising = Gridded::of(alloc, &[0, 1], &[LEFT, LEFT])?;
    let falling = Gridded::of(alloc, &[1, 0], &[LEFT, LEFT])?;
    let obstructions = vec![in alloc; rising, falling]?;
    let list = vec![in alloc; Gridded::of(alloc, &[0], &[LEFT])?]?;
    let lists = vec![in alloc; Sequence::of(list)]?;
    Ok(Tiling::of(alloc, 1, 1, obstructions, lists)?)
}

/// The steps that reduce both parts.
fn traces(alloc: Global) -> Result<Vec<Sequence<Step>>, AllocError>
    ensures few { IfOk result (λ traces. length traces.items ≡ 2) }
    ensures each { IfOk result (λ traces. All (λ steps. length steps < 268435456) traces.items) }
{
    let sides = vec![in alloc; MIDDLE_COLUMN, UPPER_ROW]?;
    let point = vec![in alloc; FIRST_COLUMN, MIDDLE_COLUMN, FIRST_ROW]?;
    let traces = vec![in alloc; Sequence::of(sides), Sequence::of(point)]?;
    Ok(traces)
}

/// The rule that factors that tiling.
fn of_a_factoring(alloc: Global) -> Result<TileRule, Fail> {
    let kind = apart(alloc)?;
    let parent = around_a_point(alloc)?;
    let children = vec![in alloc; of_the_sides(alloc)?, of_the_point(alloc)?]?;
    let traces = traces(alloc)?;
    Ok(TileRule::of(kind, parent, Sequence::of(children), Sequence::of(traces)))
}

#[test]
fn a_class_is_copied(rt: HostRuntime) -> Result<(), Fail> {
    let alloc = rt.alloc();
    let class = around_a_point(alloc)?;
    assert!(rt; Tiles::positive(&class));
    assert_eq!(rt; Tiles::copy(alloc, &class)?, class);
    Ok(())
}

#[test]
fn a_factoring_is_a_product(rt: HostRuntime) -> Result<(), Fail> {
    let alloc = rt.alloc();
    let rule = of_a_factoring(alloc)?;
    assert_eq!(rt; Tiles::copy_rule(alloc, &rule)?, rule);
    assert_eq!(rt; Tiles::shape(&rule), Shape::Product);
    assert_eq!(rt; Tiles::arity(&rule), 2);
    Ok(())
}

#[test]
fn rules_are_filed(rt: HostRuntime) -> Result<(), Fail> {
    let alloc = rt.alloc();
    let rules = vec![in alloc; of_a_factoring(alloc)?]?;
    let filing: Filing<Tiles> = Filing::of(rules);
    assert_eq!(rt; filing.as_slice().len(), 1);
    assert_eq!(rt; filing.into_vec().len(), 1);
    Ok(())
}

#[test]
fn a_child_stands_in_its_slot(rt: HostRuntime) -> Result<(), Fail> {
    let alloc = rt.alloc();
    let child = around_a_point(alloc)?;
    let rule = TileRule::of(
        apart(alloc)?,
        around_a_point(alloc)?,
        Sequence::of(vec![in alloc; child]?),
        Sequence::of(Vec::new(alloc)),
    );
    assert_eq!(rt; Tiles::child(&rule, 0), Tiles::parent(&rule));
    Ok(())
}

#[test]
fn laws_compute_nothing() {
    members_are_carried();
}
