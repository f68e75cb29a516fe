ghost use Rattle.std.specs.Prelude.{◌≡◌, ◌<◌, length};

use gridded::Gridded;
use sequences::Copied;
use std::alloc::{AllocError, Global};
use std::marker::Model;

/// A pattern with one of its places, from 0, whose point is placed.
#[derive(Clone, Copy, Debug, PartialEq, Eq)]
pub struct Pointed {
    pattern: Gridded,
    index: u8,
}

impl Model for Pointed {
    ghost use Rattle.std.specs.Prelude.{◌<◌, length};
    ghost use Rattle.rule_kinds.specs.Pointeds.{PointedPattern};

    ghost Value = { PointedPattern };

    ghost view = { λ q. record { pattern = q.pattern; index = q.index } };

    ghost invariant = { λ q. q.index < length q.pattern };

    ghost inverse = { λ q. record { pattern = q.pattern; index = q.index } };
}

impl Pointed {
    /// The pattern with this place, which is below its length. Takes no memory.
    pub fn of(pattern: Gridded, index: u8) -> Pointed
        requires { index < length pattern }
        ensures { result ≡ record { pattern = pattern; index = index } }
    {
        Pointed { pattern, index }
    }

    /// The pattern. Takes no memory.
    pub fn pattern(&self) -> &Gridded
        ensures { result.now ≡ self.now.pattern }
    {
        &self.pattern
    }

    /// The place of its pointed point. Takes no memory.
    pub fn index(&self) -> u8
        ensures value { result ≡ self.now.index }
        ensures place { self.now.index < length self.now.pattern }
    {
        self.index
    }
}

impl Copied for Pointed {
    fn copy(&self, _alloc: Global) -> Result<Pointed, AllocError> {
        Ok(*self)
    }

    fn copy_all(items: &[Pointed], alloc: Global) -> Result<Vec<Pointed>, AllocError> {
        Vec::from_slice(alloc, items)
    }
}
