use crate::basis::{BasisFault, read_basis};
use crate::contain::contains;
use crate::law::perms_are_those_listed;
use crate::perm::{Perm, PermFault};
use crate::standard::{DigitFault, standardise};
use crate::tally::count_avoiders;
use sequences::Copied;
use std::alloc::{AllocError, Global};
use std::collections::HashSet;
use std::test::Fail;

/// The fault that the text is refused with.
fn refusal(alloc: Global, text: &str) -> Option<BasisFault> {
    read_basis(alloc, text).err()
}

#[test]
fn permutations(rt: HostRuntime) -> Result<(), Fail> {
    let alloc = rt.alloc();
    let p = Perm::of(alloc, [0, 2, 1].as_slice())?;
    assert_eq!(rt; p.letters(), [0, 2, 1].as_slice());
    let repeated = Perm::of(alloc, [0, 2, 2].as_slice()).err();
    assert_eq!(rt; repeated, Some(PermFault::NotPerm { index: 2 }));
    let large = Perm::of(alloc, [3, 0, 3].as_slice()).err();
    assert_eq!(rt; large, Some(PermFault::NotPerm { index: 0 }));
    perms_are_those_listed();
    Ok(())
}

#[test]
fn orders_and_copies(rt: HostRuntime) -> Result<(), Fail> {
    let alloc = rt.alloc();
    let short = Perm::of(alloc, [1, 0].as_slice())?;
    let long = Perm::of(alloc, [0, 1, 2].as_slice())?;
    assert!(rt; short < long);
    assert_eq!(rt; short.copy(alloc)?, short);
    let copies = Perm::copy_all([short, long].as_slice(), alloc)?;
    assert_eq!(rt; copies.as_slice(), [short, long].as_slice());
    let mut seen = HashSet::new(alloc);
    seen.insert(short)?;
    assert!(rt; seen.contains(&short));
    Ok(())
}

#[test]
fn containment(rt: HostRuntime) -> Result<(), Fail> {
    let alloc = rt.alloc();
    let whole = Perm::of(alloc, [1, 3, 0, 2].as_slice())?;
    let held = Perm::of(alloc, [0, 2, 1].as_slice())?;
    let apart = Perm::of(alloc, [0, 1, 2].as_slice())?;
    assert!(rt; contains(&whole, &held));
    assert!(rt; !contains(&whole, &apart));
    let longer = Perm::of(alloc, [1, 3, 4, 0, 2].as_slice())?;
    let rising = Perm::of(alloc, [0, 1, 2, 3].as_slice())?;
    assert!(rt; contains(&longer, &whole));
    assert!(rt; !contains(&longer, &rising));
    assert!(rt; contains(&longer, &longer));
    Ok(())
}

#[test]
fn standards(rt: HostRuntime) -> Result<(), Fail> {
    let alloc = rt.alloc();
    let p = standardise(alloc, [5, 1, 9].as_slice())?;
    assert_eq!(rt; p.letters(), [1, 0, 2].as_slice());
    let repeated = standardise(alloc, [5, 5].as_slice()).err();
    assert_eq!(rt; repeated, Some(DigitFault::Repeated { index: 1 }));
    Ok(())
}

#[test]
fn bases(rt: HostRuntime) -> Result<(), Fail> {
    let alloc = rt.alloc();
    let both = read_basis(alloc, "21,12")?;
    assert_eq!(rt; both.len(), 2);
    assert_eq!(rt; both[0].letters(), [0, 1].as_slice());
    assert_eq!(rt; both[1].letters(), [1, 0].as_slice());
    let once = read_basis(alloc, "132_132")?;
    assert_eq!(rt; once.len(), 1);
    assert_eq!(rt; once[0].letters(), [0, 2, 1].as_slice());
    Ok(())
}

#[test]
fn refused_bases(rt: HostRuntime) -> Result<(), Fail> {
    let alloc = rt.alloc();
    assert_eq!(rt; refusal(alloc, ""), Some(BasisFault::Empty));
    assert_eq!(rt; refusal(alloc, "13,,2"), Some(BasisFault::Empty));
    assert_eq!(rt; refusal(alloc, "1x2"), Some(BasisFault::BadByte { at: 1 }));
    assert_eq!(rt; refusal(alloc, "112"), Some(BasisFault::Repeated { at: 1 }));
    assert_eq!(rt;
        refusal(alloc, "1234567890"),
        Some(BasisFault::TooLong { at: 9 })
    );
    Ok(())
}

#[test]
fn too_many_words(rt: HostRuntime) -> Result<(), Fail> {
    let alloc = rt.alloc();
    let most = "1,1,1,1,1,1,1,1,1,1,1,1,1,1,1,1,1,1,1,1,1,1,1,1,1,1,1,1,1,1,1,1";
    assert_eq!(rt; read_basis(alloc, most)?.len(), 1);
    let more = "1,1,1,1,1,1,1,1,1,1,1,1,1,1,1,1,1,1,1,1,1,1,1,1,1,1,1,1,1,1,1,1,1";
    assert_eq!(rt; refusal(alloc, more), Some(BasisFault::TooMany));
    Ok(())
}

#[test]
fn counts(rt: HostRuntime) -> Result<(), Fail> {
    let alloc = rt.alloc();
    let mut basis = Vec::new(alloc);
    basis.push(Perm::of(alloc, [0, 2, 1].as_slice())?)?;
    assert_eq!(rt; count_avoiders(alloc, basis.as_slice(), 4)?, 14);
    Ok(())
}
