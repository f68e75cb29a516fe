//! Records that are read from words (docs/RULES.md, "Records").
ghost use Rattle.std.specs.Prelude.{◌≡◌, ◌+◌, ◌≤◌, ◌<◌, ◌^◌, ◌++◌, ℕ, List, length, take, IfOk, OnOk, OnErr};
ghost use Rattle.css_domain.specs.declared.record.Record.{Record as Item};
ghost use Rattle.css_domain.specs.Records.{shape_code, words_of};
ghost use Rattle.css_domain.specs.WholeRecords.{IsNarrowShape, IsWhole};
ghost use Rattle.css_domain.specs.WordViews.{ViewState};
ghost use Rattle.css_prune.specs.AmongWords.{StandsAt, StandsThere, AreKept};

use css_domain::{Record, Shape, WordView};
use sequences::Sequence;
use std::alloc::{AllocError, Global};

/// The shape of a code.
fn shape_of(code: u64) -> Shape
    requires gap { 2 < code → 16 ≤ code }
    requires small { code < 272 }
    ensures narrow { IsNarrowShape result }
    ensures code { shape_code result ≡ code }
{
    match code {
        0 => Shape::Union,
        1 => Shape::Product,
        2 => Shape::Nothing,
        _ => Shape::Atom((code - 16) as u8),
    }
}

/// The children of the record that stands at a place, of which there are so many. One reading for each.
fn read_children(
    alloc: Global,
    view: &mut WordView<'_>,
    at: u64,
    count: u64,
) -> Result<Vec<(u32, bool)>, AllocError>
    requires there { StandsThere view.old.words at count }
    requires long { length view.old.words ≤ 18446744073709551615 }
    requires few { view.old.reads + count ≤ 18446744073709551615 }
    ensures children { IfOk result (λ children. (r : Item) → StandsAt view.old.words at r → children.items ≡ r.children) }
    ensures words { view.new.words ≡ view.old.words }
    ensures reads { view.new.reads ≤ view.old.reads + count }
{
    let mut children = Vec::new(alloc);
    for slot in 0..count {
        let word = view.word(at + 2 + slot);
        children.push(((word / 2) as u32, word % 2 == 1))?;
    }
    Ok(children)
}

/// The record that stands at a place. One reading for each of its words. A record of more children than 32 bits
/// can count is refused as want of memory is.
fn read_record(alloc: Global, view: &mut WordView<'_>, at: u64) -> Result<Record, AllocError>
    requires there { (r : Item) × StandsAt view.old.words at r }
    requires long { length view.old.words ≤ 18446744073709551615 }
    requires few { view.old.reads + length view.old.words ≤ 18446744073709551615 + at }
    ensures made { IfOk result (λ item. (r : Item) → StandsAt view.old.words at r → item ≡ r) }
    ensures narrow { IfOk result (λ item. IsNarrowShape item.shape) }
    ensures short { IfOk result (λ item. length item.children < 2 ^ 32) }
    ensures words { view.new.words ≡ view.old.words }
    ensures once { IfOk result (λ item. view.new.reads ≤ view.old.reads + (2 + length item.children)) }
    ensures reads { view.new.reads + at ≤ view.old.reads + length view.old.words }
{
    let head = view.word(at);
    let arity = view.word(at + 1);
    if arity > u32::MAX as u64 {
        return Err(AllocError);
    }
    let children = read_children(alloc, view, at, arity)?;
    Ok(Record {
        parent: (head / 4294967296) as u32,
        shape: shape_of(head % 4294967296),
        children: Sequence::of(children),
    })
}

/// Appends the records whose words stand from a place on, behind those of the records that are there; answers
/// the number of all words. Each word from there on is read once. The refusal is want of memory; the first
/// records are as before.
pub(crate) fn read_on(
    alloc: Global,
    records: &mut Vec<Record>,
    view: &mut WordView<'_>,
    from: u64,
) -> Result<u64, AllocError>
    requires whole { IsWhole view.old.words }
    requires first { (rest : List ℕ) × (words_of records.old.items ++ rest ≡ view.old.words) }
    requires kept { AreKept records.old.items from }
    requires few { view.old.reads + length view.old.words ≤ 18446744073709551615 }
    ensures all { OnOk result ((w : IsWhole view.old.words) → records.new.items ≡ w.records) }
    ensures told { OnOk result (words_of records.new.items ≡ view.old.words) }
    ensures kept { IfOk result (λ words. AreKept records.new.items words) }
    ensures first { OnErr result (take (length records.old.items) records.new.items ≡ records.old.items) }
    ensures words { view.new.words ≡ view.old.words }
    ensures reads { view.new.reads + from ≤ view.old.reads + length view.old.words }
{
    let mut at = from;
    while at < view.len() {
        if records.len() >= u32::MAX as usize {
            return Err(AllocError);
        }
        let item = read_record(alloc, view, at)?;
        at += 2 + item.children.as_slice().len() as u64;
        records.push(item)?;
    }
    Ok(at)
}
