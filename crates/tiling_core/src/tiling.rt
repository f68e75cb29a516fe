ghost use Rattle.std.specs.Prelude.{◌≡◌, ◌<◌, ◌↔◌, IsTrue, length, slice_get, Some};
ghost use Rattle.tiling_core.specs.Tiles.{IsTiling};
ghost use Rattle.tiling_core.specs.Same.{tiles_eq};

use gridded::Gridded;
use sequences::{Copied, Exact, Sequence};
use std::alloc::{AllocError, Global};
use std::cmp::Ordering;
use std::marker::Model;

/// A tiling with sides of 0 to 8. Every cell of a pattern lies in the grid, the obstructions and each
/// requirement list ascend without repeats, and so does the list of lists; each has fewer than 268,435,456
/// items (docs/RULES.md, "Tilings"). Two tilings are equal exactly where contracts see the same value; they are
/// ordered by width, height, obstructions, then requirement lists.
#[derive(Debug, Drop, Hash)]
pub struct Tiling {
    pub(crate) width: u8,
    pub(crate) height: u8,
    pub(crate) obstructions: Sequence<Gridded>,
    pub(crate) requirements: Sequence<Sequence<Gridded>>,
}

impl Model for Tiling {
    ghost use Rattle.tiling_core.specs.Tiles.{Tiles, IsTiling};

    ghost Value = { Tiles };

    ghost view = { λ t. record { width = t.width; height = t.height; obstructions = t.obstructions; requirements = t.requirements } };

    ghost invariant = { λ t. IsTiling (record { width = t.width; height = t.height; obstructions = t.obstructions; requirements = t.requirements }) };

    ghost inverse = { λ t. record { width = t.width; height = t.height; obstructions = t.obstructions; requirements = t.requirements } };
}

impl Tiling {
    /// Whether each field is equal.
    fn has_fields_of(&self, other: &Tiling) -> bool
        ensures { result ≡ tiles_eq self.now other.now }
    {
        self.width == other.width
            && self.height == other.height
            && self.obstructions == other.obstructions
            && self.requirements == other.requirements
    }

    /// Tells what every tiling keeps, to a caller that needs the facts alone. Does nothing.
    pub fn read(&self)
        ensures { IsTiling self.now }
    {
        let _ = &self.width;
    }

    /// The number of columns, 0 to 8. Takes no memory.
    pub fn width(&self) -> u8
        ensures value { result ≡ self.now.width }
        ensures kept { IsTiling self.now }
    {
        self.width
    }

    /// The number of rows, 0 to 8. Takes no memory.
    pub fn height(&self) -> u8
        ensures value { result ≡ self.now.height }
        ensures kept { IsTiling self.now }
    {
        self.height
    }

    /// The obstructions, ascending. Takes no memory.
    pub fn obstructions(&self) -> &[Gridded]
        ensures value { result.now ≡ self.now.obstructions }
        ensures kept { IsTiling self.now }
    {
        self.obstructions.as_slice()
    }

    /// The requirement lists, ascending. Takes no memory.
    pub fn requirements(&self) -> &[Sequence<Gridded>]
        ensures value { result.now ≡ self.now.requirements }
        ensures kept { IsTiling self.now }
    {
        self.requirements.as_slice()
    }

    /// The number of requirement lists. Takes no memory.
    pub fn lists(&self) -> u32
        ensures value { result ≡ length self.now.requirements }
        ensures kept { IsTiling self.now }
    {
        self.requirements.len() as u32
    }

    /// A requirement list by its number from 0, which is below the number of lists. Takes no memory.
    pub fn list(&self, index: u32) -> &[Gridded]
        requires { index < length self.now.requirements }
        ensures value { slice_get self.now.requirements index ≡ Some result.now }
        ensures kept { IsTiling self.now }
    {
        self.requirements.as_slice()[index as usize].as_slice()
    }
}

impl PartialEq for Tiling {
    ghost use Rattle.tiling_core.specs.Same.{tiles_eq, tiles_equiv};
    ghost use Rattle.std.specs.Cmp.{partial_equiv_from_equiv};

    ghost eq = { tiles_eq };

    ghost laws = { partial_equiv_from_equiv tiles_equiv };

    fn eq(&self, other: &Tiling) -> bool
        ensures value { result ≡ tiles_eq self.now other.now }
        ensures exact { IsTrue result ↔ (self.now ≡ other.now) }
    {
        self.has_fields_of(other)
    }
}

#[derived]
impl Hash for Tiling {
    ghost use Rattle.tiling_core.specs.Same.{tiles_eq_decides};

    ghost respects_eq = { λ s t e. λ i. Self.hash_input ((tiles_eq_decides s t).0 e i) };
}

impl Eq for Tiling {
    ghost use Rattle.tiling_core.specs.Same.{tiles_equiv};

    ghost laws = { tiles_equiv };
}

impl PartialOrd for Tiling {
    ghost use Rattle.std.specs.Ordering.{as_partial_cmp};
    ghost use Rattle.tiling_core.specs.Order.{tiles_cmp, tiles_order};

    ghost partial_cmp = { as_partial_cmp tiles_cmp };

    ghost laws = { tiles_order };

    fn partial_cmp(&self, other: &Tiling) -> Option<Ordering> {
        Some(self.cmp(other))
    }
}

impl Ord for Tiling {
    ghost use Rattle.std.specs.Prelude.{refl};
    ghost use Rattle.tiling_core.specs.Order.{tiles_cmp, tiles_total, tiles_ties};

    ghost cmp = { tiles_cmp };

    ghost total = { tiles_total };

    ghost matches_partial_cmp = { λ x y. refl };

    ghost matches_eq = { tiles_ties };

    fn cmp(&self, other: &Tiling) -> Ordering {
        match self.width.cmp(&other.width) {
            Ordering::Equal => match self.height.cmp(&other.height) {
                Ordering::Equal => match self.obstructions.cmp(&other.obstructions) {
                    Ordering::Equal => self.requirements.cmp(&other.requirements),
                    unequal => unequal,
                },
                unequal => unequal,
            },
            unequal => unequal,
        }
    }
}

impl Copied for Tiling {
    fn copy(&self, alloc: Global) -> Result<Tiling, AllocError> {
        Ok(Tiling {
            width: self.width,
            height: self.height,
            obstructions: self.obstructions.copy(alloc)?,
            requirements: self.requirements.copy(alloc)?,
        })
    }
}

impl Exact for Tiling {
    ghost use Rattle.tiling_core.specs.Same.{tiles_eq_decides};

    ghost exact = { λ s t. (tiles_eq_decides s t).0 };
}
