ghost use Rattle.std.specs.Prelude.{◌≤◌};

use crate::count::count_line;
use crate::draw::draw_bases;
use perm_core::read_basis;
use std::alloc::Global;
use std::process::Abort;
use std::test::Fail;

/// The line of counts of the basis that a text names.
fn expect(rt: &impl Abort, alloc: Global, text: &str, last: u8, line: &str) -> Result<(), Fail>
    requires { last ≤ 9 }
{
    let Ok(basis) = read_basis(alloc, text) else {
        return Err(Fail::from("no basis"));
    };
    let counted = count_line(alloc, basis.as_slice(), last)?;
    assert_eq!(rt; counted.as_slice(), line.as_bytes(), "at {text}");
    Ok(())
}

#[test]
fn lines_of_counts(rt: HostRuntime) -> Result<(), Fail> {
    let alloc = rt.alloc();
    expect(&rt, alloc, "132", 5, "count 1 1 2 5 14 42\n")?;
    expect(&rt, alloc, "1", 2, "count 1 0 0\n")?;
    expect(&rt, alloc, "123_132", 0, "count 1\n")?;
    Ok(())
}

#[test]
fn bases_of_zero(rt: HostRuntime) -> Result<(), Fail> {
    let alloc = rt.alloc();
    let bases = draw_bases(alloc, 0)?;
    assert_eq!(rt; bases.len(), 40);
    let first = bases[0].as_slice();
    assert_eq!(rt; first.len(), 1);
    assert_eq!(rt; first[0].letters(), [0, 1, 2].as_slice());
    let second = bases[1].as_slice();
    assert_eq!(rt; second.len(), 2);
    assert_eq!(rt; second[0].letters(), [0, 2, 1].as_slice());
    assert_eq!(rt; second[1].letters(), [2, 1, 0].as_slice());
    let third = bases[2].as_slice();
    assert_eq!(rt; third.len(), 1);
    assert_eq!(rt; third[0].letters(), [2, 1, 0].as_slice());
    Ok(())
}
