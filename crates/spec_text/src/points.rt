ghost use Rattle.std.specs.Prelude.{decimal};
ghost use Rattle.spec_lines.specs.Patterns.{word_text, cell_text, pattern_text, list_text};

use crate::spell::{Spell, put_all, put_bytes, put_number, put_separated};
use gridded::{Cell, Gridded};
use perm_core::Perm;
use sequences::Sequence;
use std::alloc::AllocError;

impl Spell for Cell {
    ghost text = { cell_text };

    fn put(&self, out: &mut Vec<u8>) -> Result<(), AllocError> {
        put_number(out, u32::from(self.x))?;
        put_number(out, u32::from(self.y))
    }
}

impl Spell for u8 {
    ghost text = { decimal };

    fn put(&self, out: &mut Vec<u8>) -> Result<(), AllocError> {
        put_number(out, u32::from(*self))
    }
}

impl Spell for Perm {
    ghost text = { word_text };

    fn put(&self, out: &mut Vec<u8>) -> Result<(), AllocError> {
        put_all(out, self.letters())
    }
}

impl Spell for Gridded {
    ghost text = { pattern_text };

    fn put(&self, out: &mut Vec<u8>) -> Result<(), AllocError> {
        if self.len() == 0 {
            return put_bytes(out, b"e");
        }
        put_all(out, self.letters())?;
        put_bytes(out, b":")?;
        put_separated(out, b'.', self.cells())
    }
}

impl Spell for Sequence<Gridded> {
    ghost text = { list_text };

    fn put(&self, out: &mut Vec<u8>) -> Result<(), AllocError> {
        if self.len() == 0 {
            return put_bytes(out, b"x");
        }
        put_separated(out, b'|', self.as_slice())
    }
}
