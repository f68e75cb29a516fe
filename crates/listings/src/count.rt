ghost use Rattle.std.specs.Prelude.{◌≡◌, ◌≤◌, ◌++◌, IfOk, OnOk, codes, decimal};
ghost use Rattle.listings.specs.Counts.{count_line};

use itoa::Buffer;
use perm_core::{Perm, count_avoiders};
use std::alloc::{AllocError, Global};

/// Appends a blank and a number.
fn put_number(out: &mut Vec<u8>, number: u64) -> Result<(), AllocError>
    ensures { OnOk result (out.new.items ≡ out.old.items ++ (codes " " ++ decimal number)) }
{
    let mut buffer = Buffer::new();
    out.extend_from_slice(b" ")?;
    out.extend_from_slice(buffer.format(number).as_bytes())
}

/// The line of `count`: how many permutations of each length from 0 to `last`, which is at most 9, contain no word of
/// the basis. The refusal is want of memory.
pub fn count_line(alloc: Global, basis: &[Perm], last: u8) -> Result<Vec<u8>, AllocError>
    requires { last ≤ 9 }
    ensures { IfOk result (λ line. line.items ≡ count_line basis.now last) }
{
    let mut out = Vec::from_slice(alloc, b"count")?;
    for n in 0..last + 1 {
        let count = count_avoiders(alloc, basis, n)?;
        put_number(&mut out, count)?;
    }
    out.push(b'\n')?;
    Ok(out)
}
