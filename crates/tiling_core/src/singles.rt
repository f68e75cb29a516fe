// The tilings with one member or none, and the test of an obstruction.
ghost use Rattle.std.specs.Prelude.{◌≡◌, ◌↔◌, IfOk, IsTrue};
ghost use Rattle.tiling_core.specs.Patterns.{is_among, forbids};
ghost use Rattle.tiling_core.specs.Roots.{unit_tiling, point_tiling, void_tiling};
ghost use Rattle.lists.specs.Members.{IsIn};

use crate::tiling::Tiling;
use gridded::{Cell, Gridded};
use sequences::Sequence;
use std::alloc::{AllocError, Global};

/// The cell of a grid of one column and one row.
const ONLY_CELL: Cell = Cell { x: 0, y: 0 };

/// Whether a pattern is in a list.
fn is_listed(patterns: &[Gridded], pattern: &Gridded) -> bool
    ensures { result ≡ is_among patterns.now pattern.now }
{
    patterns.iter().any(|g| *pattern == *g)
}

#[tactic(auto, using(crate::proofs::Joined::single))]
impl Tiling {
    /// The unit tiling, whose one member has no point.
    pub fn unit(alloc: Global) -> Result<Tiling, AllocError>
        ensures { IfOk result (λ tiling. tiling ≡ unit_tiling) }
    {
        Tiling::in_grid(0, 0, Vec::new(alloc), Vec::new(alloc))
    }

    /// The point tiling, whose one member is a point.
    pub fn point(alloc: Global) -> Result<Tiling, AllocError>
        ensures { IfOk result (λ tiling. tiling ≡ point_tiling) }
    {
        let rising = Gridded::rising(ONLY_CELL, ONLY_CELL);
        let falling = Gridded::falling(ONLY_CELL, ONLY_CELL);
        let obstructions = vec![in alloc; rising, falling]?;
        let patterns = vec![in alloc; Gridded::point_at(ONLY_CELL)]?;
        let mut lists = Vec::new(alloc);
        lists.push(Sequence::of(patterns))?;
        Tiling::in_grid(1, 1, obstructions, lists)
    }

    /// The void tiling, which has no member: no cell, and the empty pattern as obstruction.
    pub fn void(alloc: Global) -> Result<Tiling, AllocError>
        ensures { IfOk result (λ tiling. tiling ≡ void_tiling) }
    {
        let obstructions = vec![in alloc; Gridded::empty()]?;
        Tiling::in_grid(0, 0, obstructions, Vec::new(alloc))
    }

    /// Whether a pattern is an obstruction. Takes no memory.
    pub fn forbids(&self, pattern: &Gridded) -> bool
        ensures value { result ≡ forbids self.now pattern.now }
        ensures meaning { IsTrue result ↔ IsIn pattern.now self.now.obstructions }
    {
        is_listed(self.obstructions(), pattern)
    }
}
