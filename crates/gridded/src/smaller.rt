ghost use Rattle.std.specs.Prelude.{◌≡◌, ◌<◌, length, filter, remove, IfOk};
ghost use Rattle.gridded.specs.CellSets.{is_among};
ghost use Rattle.gridded.specs.Parts.{without_point, restricted, IsClosedUp};

use crate::cell_set::CellSet;
use crate::gridded::Gridded;
use crate::part::Part;
use std::alloc::{AllocError, Global};

/// What is left of a gridded permutation without the point at a place, which there is, counted from 0. The
/// letters close up: they are 0, 1, .. in the same relative order. Refused for want of memory alone.
pub fn without(_alloc: Global, g: &Gridded, index: u32) -> Result<Gridded, AllocError>
    requires { index < length g.now }
    ensures value { IfOk result (λ rest. rest ≡ without_point g.now index) }
    ensures closed_up { IfOk result (λ rest. IsClosedUp (remove g.now index) rest) }
{
    let letters = g.letters();
    let cells = g.cells();
    let place = index as usize;
    let mut kept = Part::none();
    kept.extend(&letters[..place], &cells[..place]);
    kept.extend(&letters[place + 1..], &cells[place + 1..]);
    Ok(kept.close_up())
}

/// The points of a gridded permutation whose cells are in a set. The letters close up. Refused for want of
/// memory alone.
pub fn restrict(_alloc: Global, g: &Gridded, set: CellSet) -> Result<Gridded, AllocError>
    ensures value { IfOk result (λ part. part ≡ restricted (λ c. is_among set c) g.now) }
    ensures closed_up { IfOk result
        (λ part. IsClosedUp (filter (λ p. is_among set p.cell) g.now) part) }
{
    let letters = g.letters();
    let cells = g.cells();
    let mut kept = Part::none();
    for place in 0..letters.len() {
        if set.contains(cells[place]) {
            kept.push(letters[place], cells[place]);
        }
    }
    Ok(kept.close_up())
}
