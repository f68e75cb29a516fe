ghost use Rattle.std.specs.Prelude.{◌≡◌, IfOk};

use crate::shape::Shape;
use sequences::Sequence;
use std::alloc::{AllocError, Global};

/// A rule by the numbers of its classes: its parent's number, its shape, and each child's number with a
/// flag that says that the child is positive (docs/RULES.md, "Records").
#[derive(Debug, Drop)]
pub struct Record {
    pub parent: u32,
    pub shape: Shape,
    pub children: Sequence<(u32, bool)>,
}

impl Record {
    /// An equal record. The refusal is want of memory.
    pub fn copied(&self, alloc: Global) -> Result<Record, AllocError>
        ensures { IfOk result (λ copied. copied ≡ self.now) }
    {
        let children = Vec::from_slice(alloc, self.children.as_slice())?;
        Ok(Record {
            parent: self.parent,
            shape: self.shape,
            children: Sequence::of(children),
        })
    }
}
