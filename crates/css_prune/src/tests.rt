ghost use Rattle.std.specs.Prelude.{◌≡◌, ◌<◌, IsTrue, IfOk, OnOk};
ghost use Rattle.css_domain.specs.Records.{AreWithin};
ghost use Rattle.css_prune.specs.Marks.{AreBelow};

use crate::pruned::{Pruned, prune};
use css_domain::{Record, Shape};
use sequences::Sequence;
use std::alloc::{AllocError, Global};
use std::test::Fail;

/// Records with what stands among them, worked out apart from this program. A row has the number of
/// classes; the records, each a parent, a shape and the children, with + where they are positive; for each
/// class its rank, which is 0 exactly where it isn't kept; and its pick. The last two have the record of a point
/// that is placed again, which makes a class its own child: alone, and before those of the avoiders of 021.
const ROWS: [&str; 49] = [
    "0 |  |  | ",
    "1 |  | 0 | 0",
    "1 | 0 atom0 | 1 | 0",
    "1 | 0 union 0 | 0 | 0",
    "1 | 0 product 0 | 0 | 0",
    "1 | 0 product 0+ | 0 | 0",
    "1 | 0 nothing | 1 | 0",
    "1 | 0 atom1; 0 atom0 | 1 | 0",
    "3 | 0 union 1 2+; 1 atom0; 2 atom1 | 2 1 1 | 0 1 2",
    "3 | 0 union 1 2+; 1 atom0 | 0 1 0 | 0 1 0",
    "4 | 0 union 1 2+; 1 atom0; 2 product 0 3+; 3 atom1 | 3 1 2 1 | 0 1 2 3",
    "4 | 0 union 1 2+; 1 atom0; 2 product 0 3; 3 atom1 | 0 1 0 1 | 0 1 0 3",
    "4 | 0 union 1 2+; 1 atom0; 2 product 0+ 3; 3 atom1 | 0 1 0 1 | 0 1 0 3",
    "2 | 0 union 1; 1 union 0; 0 atom0 | 1 2 | 2 1",
    "3 | 1 union 0; 0 union 1; 1 union 2; 2 nothing | 3 2 1 | 1 2 3",
    "2 | 0 product 1+ 1+; 1 product 0+ 0+ | 1 1 | 0 1",
    "3 | 0 product 1+ 1; 1 product 0+ 2+; 2 atom1 | 2 1 1 | 0 1 2",
    "1 | 0 union | 1 | 0",
    "1 | 0 product | 1 | 0",
    "3 | 2 atom1; 1 union 2+; 0 union 1+; 0 union 2+; 1 atom0 | 2 1 1 | 2 4 0",
    "3 | 2 atom1; 2 atom0; 0 atom0 | 1 0 1 | 2 0 0",
    "3 | 2 atom1 | 0 0 1 | 0 0 0",
    "2 | 0 union 0+ | 0 0 | 0 0",
    "6 | 4 atom1 | 0 0 0 0 1 0 | 0 0 0 0 0 0",
    "3 | 1 union 2 2; 2 atom0; 0 union 0+ 0+ | 0 2 1 | 0 0 1",
    "3 | 2 union 2+; 1 product 2+ 2+; 0 product 2+ | 0 0 0 | 0 0 0",
    "2 | 0 nothing; 0 nothing; 0 product 0+ | 1 0 | 0 0",
    "6 | 2 product 5+; 2 nothing | 0 0 1 0 0 0 | 0 0 1 0 0 0",
    "6 | 1 nothing | 0 1 0 0 0 0 | 0 0 0 0 0 0",
    "2 | 0 atom1 | 1 0 | 0 0",
    "2 | 1 union 0 0; 1 product 1 | 0 0 | 0 0",
    "2 | 0 atom1; 0 product 1; 1 product 0+ | 1 2 | 0 2",
    "4 | 0 union 2+ 2+ 0+ | 0 0 0 0 | 0 0 0 0",
    "3 | 1 atom0 | 0 1 0 | 0 0 0",
    "3 | 1 union 2+ 1+; 2 atom1 | 0 0 1 | 0 0 1",
    "4 | 3 product 3+ 3+ 2+; 3 union 3+; 1 union 3+; 1 nothing; 0 nothing | 1 1 0 0 | 4 3 0 0",
    "4 | 2 product 0 2+ 0 | 0 0 0 0 | 0 0 0 0",
    "5 | 2 union 0; 1 product 1+; 3 union 4+ 1+ 1+; 2 product 1+ 2+ 1+; 4 nothing | 0 0 0 0 1 | 0 0 0 0 4",
    "2 | 1 atom1 | 0 1 | 0 0",
    "2 | 0 union 0 0 | 0 0 | 0 0",
    "5 | 3 nothing | 0 0 0 1 0 | 0 0 0 0 0",
    "2 | 0 nothing; 0 product 1; 1 product 0 0 1; 1 nothing | 1 1 | 0 3",
    "2 | 0 product 0 1+ 0; 1 product 1+; 0 atom0 | 1 0 | 2 0",
    "2 | 0 product 0+ 1+; 1 nothing; 0 product 1+ 1+ 0+; 0 product 1+ 1+ | 1 1 | 0 1",
    "2 | 1 nothing; 0 union 0+ | 0 1 | 0 0",
    "5 | 0 product 4+ | 0 0 0 0 0 | 0 0 0 0 0",
    "4 | 3 atom0 | 0 0 0 1 | 0 0 0 0",
    "12 | 2 union 11 2+ | 0 0 0 0 0 0 0 0 0 0 0 0 | 0 0 0 0 0 0 0 0 0 0 0 0",
    "12 | 2 union 11 2+; 0 union 1 2+; 0 union 1 3+; 1 atom0; 2 product 4 5+; 3 product 6 5+; 4 union 7; 5 atom1; 6 union 1 8+ 9+; 6 union 1 10+ 3+; 7 product 0 0; 11 nothing | 3 1 2 0 5 1 0 4 0 0 0 1 | 1 3 4 0 6 7 0 10 0 0 0 11",
];

fn are_below(children: &[(u32, bool)], classes: u32) -> bool
    ensures { IsTrue result → AreBelow classes children.now }
{
    for child in children {
        if child.0 >= classes {
            return false;
        }
    }
    true
}

/// Adds a record whose numbers are below `classes`; another one is refused.
fn add(
    alloc: Global,
    records: &mut Vec<Record>,
    classes: u32,
    parent: u32,
    shape: Shape,
    children: &[(u32, bool)],
) -> Result<(), AllocError>
    requires { AreWithin classes records.old.items }
    ensures { OnOk result (AreWithin classes records.new.items) }
{
    if parent >= classes {
        return Err(AllocError);
    }
    if !are_below(children, classes) {
        return Err(AllocError);
    }
    let copied = Vec::from_slice(alloc, children)?;
    records.push(Record {
        parent,
        shape,
        children: Sequence::of(copied),
    })?;
    Ok(())
}

pub fn number_of(word: &str) -> Result<u32, AllocError> {
    word.parse::<u32>().map_err(|_| AllocError)
}

fn numbers_of(alloc: Global, text: &str) -> Result<Vec<u32>, AllocError> {
    let mut numbers = Vec::new(alloc);
    for word in text.split_whitespace() {
        numbers.push(number_of(word)?)?;
    }
    Ok(numbers)
}

pub fn shape_of(word: &str) -> Result<Shape, AllocError> {
    match word {
        "union" => Ok(Shape::Union),
        "product" => Ok(Shape::Product),
        "atom0" => Ok(Shape::Atom(0)),
        "atom1" => Ok(Shape::Atom(1)),
        "nothing" => Ok(Shape::Nothing),
        _ => Err(AllocError),
    }
}

fn child_of(word: &str) -> Result<(u32, bool), AllocError> {
    match word.strip_suffix('+') {
        Some(number) => Ok((number_of(number)?, true)),
        None => Ok((number_of(word)?, false)),
    }
}

/// Adds the record of a text, where it has one.
fn add_text(
    alloc: Global,
    records: &mut Vec<Record>,
    classes: u32,
    text: &str,
) -> Result<(), AllocError>
    requires { AreWithin classes records.old.items }
    ensures { OnOk result (AreWithin classes records.new.items) }
{
    let mut words = text.split_whitespace();
    let Some(parent) = words.next() else {
        return Ok(());
    };
    let shape = shape_of(words.next().ok_or(AllocError)?)?;
    let mut children = Vec::new(alloc);
    for word in words {
        children.push(child_of(word)?)?;
    }
    add(
        alloc,
        records,
        classes,
        number_of(parent)?,
        shape,
        children.as_slice(),
    )
}

fn records_of(alloc: Global, classes: u32, text: &str) -> Result<Vec<Record>, AllocError>
    ensures { IfOk result (λ records. AreWithin classes records.items) }
{
    let mut records = Vec::new(alloc);
    for piece in text.split(';') {
        add_text(alloc, &mut records, classes, piece)?;
    }
    Ok(records)
}

/// Whether the ranks and picks are these, and what is kept is what has a rank.
fn has_marks(pruned: &Pruned, ranks: &[u32], picks: &[u32]) -> bool {
    let kept = pruned.keep.as_slice();
    if kept.len() != ranks.len() {
        return false;
    }
    for class in 0..kept.len() {
        if kept[class] != (ranks[class] != 0) {
            return false;
        }
    }
    pruned.rank.as_slice() == ranks && pruned.pick.as_slice() == picks
}

/// Whether a row's records are pruned as it says.
fn is_met(alloc: Global, row: &str) -> Result<bool, AllocError> {
    let mut parts = row.split('|');
    let classes = number_of(parts.next().ok_or(AllocError)?.trim())?;
    let records = records_of(alloc, classes, parts.next().ok_or(AllocError)?)?;
    let ranks = numbers_of(alloc, parts.next().ok_or(AllocError)?)?;
    let picks = numbers_of(alloc, parts.next().ok_or(AllocError)?)?;
    let pruned = prune(alloc, records.as_slice(), classes)?;
    Ok(has_marks(&pruned, ranks.as_slice(), picks.as_slice()))
}

#[test]
fn rows_of_records(rt: HostRuntime) -> Result<(), Fail> {
    for row in ROWS {
        assert!(rt; is_met(rt.alloc(), row)?, "at {row}");
    }
    Ok(())
}
