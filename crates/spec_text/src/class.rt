ghost use Rattle.std.specs.Prelude.{◌≡◌, ◌++◌, OnOk, OnErr, map};
ghost use Rattle.spec_lines.specs.Lines.{line, or_dash};
ghost use Rattle.spec_text.specs.Classes.{grid_line, class_text};

use crate::spell::{Spell, put_bytes, put_each_after, put_number, put_whole};
use std::alloc::AllocError;
use tiling_core::Tiling;

/// Appends a line of a word and the items, or a dash where there is none.
pub(crate) fn put_line<T: Spell>(
    out: &mut Vec<u8>,
    word: &[u8],
    items: &[T],
) -> Result<(), AllocError>
    ensures { OnOk result (out.new.items ≡ out.old.items ++ line word.now (or_dash (map T.text items.now))) }
{
    put_bytes(out, word)?;
    if items.is_empty() {
        return put_bytes(out, b" -\n");
    }
    put_each_after(out, b' ', items)?;
    put_bytes(out, b"\n")
}

/// Appends the line of a class's sides.
fn put_grid(out: &mut Vec<u8>, class: &Tiling) -> Result<(), AllocError>
    ensures { OnOk result (out.new.items ≡ out.old.items ++ grid_line class.now) }
{
    put_bytes(out, b"grid ")?;
    put_number(out, u32::from(class.width()))?;
    put_bytes(out, b" ")?;
    put_number(out, u32::from(class.height()))?;
    put_bytes(out, b"\n")
}

impl Spell for Tiling {
    ghost text = { class_text };

    fn put(&self, out: &mut Vec<u8>) -> Result<(), AllocError> {
        put_grid(out, self)?;
        put_line(out, b"obs", self.obstructions())?;
        put_line(out, b"req", self.requirements())
    }
}

/// Appends the lines `grid`, `obs` and `req` of a class (docs/FORMATS.md, "The text of a
/// specification"). The refusal is want of memory, and then `out` is as before.
pub fn put_class(out: &mut Vec<u8>, class: &Tiling) -> Result<(), AllocError>
    ensures ok { OnOk result (out.new.items ≡ out.old.items ++ class_text class.now) }
    ensures err { OnErr result (out.new.items ≡ out.old.items) }
{
    put_whole(out, class)
}
