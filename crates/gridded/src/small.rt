// Patterns of no point, of one and of two.
ghost use Rattle.std.specs.Prelude.{◌≡◌, ◌≤◌, []};
ghost use Rattle.gridded.specs.Small.{point_at, rising, falling};

use crate::cell::Cell;
use crate::gridded::Gridded;

#[tactic(auto, using(crate::proofs::SmallFits::fitting))]
impl Gridded {
    /// The pattern with no point. Takes no memory.
    pub fn empty() -> Gridded
        ensures { result ≡ [] }
    {
        Gridded::from_consistent(&[], &[])
    }

    /// The pattern with one point. Takes no memory.
    pub fn point_at(cell: Cell) -> Gridded
        ensures { result ≡ point_at cell }
    {
        Gridded::from_consistent(&[0], &[cell])
    }

    /// Two points, of which the right one is higher; its cell lies neither left of the other nor below it. Takes
    /// no memory.
    pub fn rising(left: Cell, right: Cell) -> Gridded
        requires columns { left.x ≤ right.x }
        requires rows { left.y ≤ right.y }
        ensures { result ≡ rising left right }
    {
        Gridded::from_consistent(&[0, 1], &[left, right])
    }

    /// Two points, of which the right one is lower; its cell lies neither left of the other nor above it. Takes
    /// no memory.
    pub fn falling(left: Cell, right: Cell) -> Gridded
        requires columns { left.x ≤ right.x }
        requires rows { right.y ≤ left.y }
        ensures { result ≡ falling left right }
    {
        Gridded::from_consistent(&[1, 0], &[left, right])
    }
}
