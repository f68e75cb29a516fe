ghost use Rattle.std.specs.Prelude.{◌≡◌, ◌++◌, ◌∷◌, [], List, ℕ, OnOk, OnErr, flat_map, map, decimal};
ghost use Rattle.spec_lines.specs.Lines.{each_after, separated};

use itoa::Buffer;
use std::alloc::AllocError;

/// What has a text in a specification.
pub(crate) trait Spell {
    ghost text: { Self → List ℕ };

    /// Appends the text. Where there is no memory, a part of it may be there.
    fn put(&self, out: &mut Vec<u8>) -> Result<(), AllocError>
        ensures { OnOk result (out.new.items ≡ out.old.items ++ text self.now) };
}

/// Appends bytes.
pub(crate) fn put_bytes(out: &mut Vec<u8>, bytes: &[u8]) -> Result<(), AllocError>
    ensures { OnOk result (out.new.items ≡ out.old.items ++ bytes.now) }
{
    out.extend_from_slice(bytes)
}

/// Appends the whole text of an item. The refusal is want of memory, and then `out` is as before.
pub(crate) fn put_whole<T: Spell>(out: &mut Vec<u8>, item: &T) -> Result<(), AllocError>
    ensures ok { OnOk result (out.new.items ≡ out.old.items ++ T.text item.now) }
    ensures err { OnErr result (out.new.items ≡ out.old.items) }
{
    let mut text = Vec::new(*out.allocator());
    item.put(&mut text)?;
    out.extend_from_slice(text.as_slice())
}

/// Appends a decimal number. The refusal is want of memory, and then `out` is as before.
pub fn put_number(out: &mut Vec<u8>, number: u32) -> Result<(), AllocError>
    ensures ok { OnOk result (out.new.items ≡ out.old.items ++ decimal number) }
    ensures err { OnErr result (out.new.items ≡ out.old.items) }
{
    let mut buffer = Buffer::new();
    out.extend_from_slice(buffer.format(number).as_bytes())
}

/// Appends the items' texts, with nothing between them.
pub(crate) fn put_all<T: Spell>(out: &mut Vec<u8>, items: &[T]) -> Result<(), AllocError>
    ensures { OnOk result (out.new.items ≡ out.old.items ++ flat_map T.text items.now) }
{
    for item in items {
        item.put(out)?;
    }
    Ok(())
}

/// Appends the items' texts, each after a byte.
pub(crate) fn put_each_after<T: Spell>(
    out: &mut Vec<u8>,
    byte: u8,
    items: &[T],
) -> Result<(), AllocError>
    ensures { OnOk result (out.new.items ≡ out.old.items ++ each_after byte (map T.text items.now)) }
{
    for item in items {
        put_bytes(out, &[byte])?;
        item.put(out)?;
    }
    Ok(())
}

/// Appends the items' texts, with a byte between two.
pub(crate) fn put_separated<T: Spell>(
    out: &mut Vec<u8>,
    byte: u8,
    items: &[T],
) -> Result<(), AllocError>
    ensures { OnOk result (out.new.items ≡ out.old.items ++ separated byte (map T.text items.now)) }
{
    let Some((first, rest)) = items.split_first() else {
        return Ok(());
    };
    first.put(out)?;
    put_each_after(out, byte, rest)
}
