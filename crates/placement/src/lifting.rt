ghost use Rattle.std.specs.Prelude.{◌≡◌, ◌<◌, ◌++◌, true, cond, length, [], ◌∷◌, IfOk};
ghost use Rattle.coord_maps.specs.GridMaps.{fits_old};
ghost use Rattle.rule_kinds.specs.Kinds.{point_of};
ghost use Rattle.rule_kinds.specs.Children.{lifts_pointed};
ghost use Rattle.placement.specs.Placing.{is_sought};

use crate::directions::is_beyond;
use crate::map_around::pointed_cell;
use coord_maps::{GridMap, preimages};
use gridded::{Cell, Gridded};
use rule_kinds::{Direction, Pointed};
use std::alloc::{AllocError, Global};

/// Which preimages are sought, by the cell of their pointed point: those in the middle cell, or those that lie
/// farther than it in a direction.
#[derive(Clone, Copy)]
pub(crate) enum Sought {
    Middle,
    Beyond(Direction),
}

/// Whether preimages with their pointed point in a cell are sought.
fn is_sought(sought: Sought, middle: Cell, cell: Cell) -> bool
    ensures { result ≡ is_sought sought middle cell }
{
    match sought {
        Sought::Middle => middle == cell,
        Sought::Beyond(direction) => is_beyond(direction, middle, cell),
    }
}

/// Adds a preimage if it is sought.
fn add_if_sought(
    sought: Sought,
    middle: Cell,
    place: u8,
    pattern: &Gridded,
    found: &mut Vec<Gridded>,
) -> Result<(), AllocError>
    requires { place < length pattern.now }
    ensures { IfOk result (λ _. found.new.items ≡ found.old.items ++ cond (is_sought sought middle (point_of pattern.now place).cell) (pattern.now ∷ []) []) }
{
    if is_sought(sought, middle, pattern.cells()[usize::from(place)]) {
        found.push(*pattern)?;
    }
    Ok(())
}

/// Adds the preimages of a pattern that are sought.
pub(crate) fn add_lifted(
    alloc: Global,
    map: &GridMap,
    middle: Cell,
    sought: Sought,
    pointed: &Pointed,
    found: &mut Vec<Gridded>,
) -> Result<(), AllocError>
    requires { fits_old map.now pointed.now.pattern ≡ true }
    ensures { IfOk result (λ _. found.new.items ≡ found.old.items ++ lifts_pointed map.now (is_sought sought middle) pointed.now) }
{
    let place = pointed.index();
    let lifted = preimages(alloc, map, pointed.pattern())?;
    for pattern in &lifted {
        add_if_sought(sought, middle, place, pattern, found)?;
    }
    Ok(())
}
