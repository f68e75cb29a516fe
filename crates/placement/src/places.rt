ghost use Rattle.std.specs.Prelude.{◌≡◌, ◌++◌, map, filter, IfOk};
ghost use Rattle.rule_kinds.specs.Conditions.{applies};
ghost use Rattle.rule_kinds.specs.Choices.{short_singles, point_placements};
ghost use Rattle.placement.specs.Placing.{place_kind, short_single, kinds_in_all, places_of};

use crate::listing::add_both;
use gridded::Gridded;
use rule_kinds::{Direction, Kind, Pointed};
use std::alloc::{AllocError, Global};
use tiling_core::Tiling;

/// The most requirement lists whose patterns are placed.
const MOST_LISTS: usize = 16;

/// Adds the one pattern of a list, where it has one or two points.
fn add_short(patterns: &[Gridded], found: &mut Vec<Gridded>) -> Result<(), AllocError>
    ensures { IfOk result (λ _. found.new.items ≡ found.old.items ++ short_single patterns.now) }
{
    if patterns.len() != 1 {
        return Ok(());
    }
    let pattern = &patterns[0];
    if pattern.len() == 1 || pattern.len() == 2 {
        found.push(*pattern)?;
    }
    Ok(())
}

/// The patterns of the first 16 lists that have one pattern, of one or two points.
fn short_singles(alloc: Global, tiling: &Tiling) -> Result<Vec<Gridded>, AllocError>
    ensures { IfOk result (λ found. found.items ≡ short_singles tiling.now) }
{
    let mut found = Vec::new(alloc);
    for patterns in tiling.requirements() {
        if found.len() == MOST_LISTS {
            return Ok(found);
        }
        add_short(patterns.as_slice(), &mut found)?;
    }
    Ok(found)
}

/// Adds the placements of a pattern pointed at each of its places, in each direction, where they apply.
fn add_places(
    alloc: Global,
    tiling: &Tiling,
    pattern: Gridded,
    kinds: &mut Vec<Kind>,
) -> Result<(), AllocError>
    ensures { IfOk result (λ _. kinds.new.items ≡ kinds.old.items ++ kinds_in_all tiling.now (places_of pattern)) }
{
    for index in 0..pattern.len() as u8 {
        let pointed = [Pointed::of(pattern, index)];
        add_both(
            alloc,
            tiling,
            &pointed,
            Direction::North,
            Direction::South,
            kinds,
        )?;
        add_both(
            alloc,
            tiling,
            &pointed,
            Direction::East,
            Direction::West,
            kinds,
        )?;
    }
    Ok(())
}

/// The placements that are tried for the requirement lists of a tiling: for the first 16 lists that have one pattern,
/// of one or two points, and for each place of that pattern, that of the pattern pointed there, North, South, East and
/// West, where they apply. The refusal is want of memory (docs/RULES.md, "Kinds of rules").
pub fn points(alloc: Global, tiling: &Tiling) -> Result<Vec<Kind>, AllocError>
    ensures { IfOk result (λ kinds. kinds.items ≡ filter (applies tiling.now) (map place_kind (point_placements tiling.now))) }
{
    let singles = short_singles(alloc, tiling)?;
    let mut kinds = Vec::new(alloc);
    for pattern in &singles {
        add_places(alloc, tiling, *pattern, &mut kinds)?;
    }
    Ok(kinds)
}
