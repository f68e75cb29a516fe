//! A pruner that is fed by words: the insertion of a class 0 into 1 and, positive, 2, and then the atoms of the lengths
//! 0 and 1 that these two are.
ghost use Rattle.std.specs.Prelude.{◌≡◌, ◌≤◌, ◌++◌, ◌∷◌, [], length, IfOk, OnOk};
ghost use mathlib.Core.List.{IsPrefix};
ghost use Rattle.css_domain.specs.Records.{words_of};
ghost use Rattle.css_domain.specs.WholeRecords.{IsWhole};

use crate::pruner::Pruner;
use css_domain::{Record, Shape, WordView};
use sequences::Sequence;
use std::alloc::{AllocError, Global};
use std::test::Fail;

const INSERTION: [u64; 4] = [0, 2, 2, 5];

const ALL: [u64; 8] = [0, 2, 2, 5, 4294967312, 0, 8589934609, 0];

/// Takes in the words, and tells how many of them were read.
fn take_all(pruner: &mut Pruner, words: &[u64]) -> Result<u64, AllocError>
    requires whole { IsWhole words.now }
    requires first { IsPrefix (words_of pruner.old) words.now }
    requires few { length words.now ≤ 8 }
    ensures { OnOk result ((w : IsWhole words.now) → pruner.new ≡ w.records) }
{
    let mut view = WordView::of(words);
    pruner.take(&mut view)?;
    Ok(view.reads())
}

/// Whether nothing stands by the insertion alone, all three do by all records, and no word is read twice.
fn is_fed(alloc: Global) -> Result<bool, AllocError> {
    let mut pruner = Pruner::new(alloc)?;
    let first = take_all(&mut pruner, &INSERTION)?;
    let none = pruner.prune(alloc, 3)?;
    let nothing = none.keep.as_slice() == [false, false, false].as_slice();
    let second = take_all(&mut pruner, &ALL)?;
    let all = pruner.prune(alloc, 3)?;
    let ranks = all.rank.as_slice() == [2, 1, 1].as_slice();
    let kept = all.keep.as_slice() == [true, true, true].as_slice();
    Ok(first <= 4 && nothing && second <= 4 && ranks && kept && pruner.taken() == 8)
}

#[test]
fn words_are_taken_once(rt: HostRuntime) -> Result<(), Fail> {
    assert!(rt; is_fed(rt.alloc())?);
    Ok(())
}

#[test]
fn a_pushed_record_has_its_words(rt: HostRuntime) -> Result<(), Fail> {
    let mut pruner = Pruner::new(rt.alloc())?;
    assert_eq!(rt; pruner.taken(), 0);
    let children = vec![in rt.alloc(); (1u32, false), (2, true)]?;
    pruner.push(&Record {
        parent: 0,
        shape: Shape::Union,
        children: Sequence::of(children),
    })?;
    assert_eq!(rt; pruner.taken(), 4);
    Ok(())
}
