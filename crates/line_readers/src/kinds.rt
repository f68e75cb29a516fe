ghost use Rattle.std.specs.Prelude.{◌≡◌, ℕ, List, true, option_map, Some};
ghost use Rattle.std.specs.List.{list_all};
ghost use Rattle.gridded.specs.declared.cell.Cell.{Cell};
ghost use Rattle.gridded.specs.Orders.{cells_of};
ghost use Rattle.rule_kinds.specs.declared.kind.Kind.TheVariants as kind;
ghost use Rattle.spec_lines.specs.Ranges.{is_kind_in_range, is_small};
ghost use Rattle.spec_lines.specs.Readings.{alone, direction_at};
ghost use Rattle.line_readers.specs.Arities.{children_by, children_in};
ghost use Rattle.line_readers.specs.Answers.{IsAnswer};
ghost use Rattle.line_readers.specs.KindItems.{word_of_kind, sole, insert_read, place_read, cut_read, factor_read, infer_read, kind_read, rule_read, is_cut_in_range};

use crate::ascending::ascends;
use crate::cells::are_small;
use crate::cuts::Items;
use crate::digit_set::DigitSet;
use crate::fault::ItemFault;
use crate::narrow::{Wide, narrow_all};
use crate::numbers::Number;
use crate::pattern::Pattern;
use crate::pointed::WidePointed;
use crate::spelt::{Spelt, read_all};
use gridded::CellSet;
use rule_kinds::{Direction, Kind};
use sequences::Sequence;
use std::alloc::Global;

/// The word of a kind.
#[derive(Clone, Copy)]
pub(crate) enum KindWord {
    Unit,
    Point,
    Void,
    Insert,
    Place,
    RowCut,
    ColumnCut,
    Factor,
    Infer,
}

/// The kind whose word this is.
pub(crate) fn word_of_kind(word: &[u8]) -> Option<KindWord>
    ensures { result ≡ word_of_kind word.now }
{
    if word == b"unit".as_slice() {
        return Some(KindWord::Unit);
    }
    if word == b"point".as_slice() {
        return Some(KindWord::Point);
    }
    if word == b"void".as_slice() {
        return Some(KindWord::Void);
    }
    if word == b"insert".as_slice() {
        return Some(KindWord::Insert);
    }
    if word == b"place".as_slice() {
        return Some(KindWord::Place);
    }
    if word == b"rowcut".as_slice() {
        return Some(KindWord::RowCut);
    }
    if word == b"colcut".as_slice() {
        return Some(KindWord::ColumnCut);
    }
    if word == b"factor".as_slice() {
        return Some(KindWord::Factor);
    }
    if word == b"infer".as_slice() {
        return Some(KindWord::Infer);
    }
    None
}

/// How many children a kind has whose word has so many items behind it.
fn children_by(word: KindWord, items: usize) -> usize
    ensures { result ≡ children_by word items }
{
    match word {
        KindWord::Unit | KindWord::Point | KindWord::Void => 0,
        KindWord::Insert => 2,
        KindWord::Place | KindWord::Factor => items,
        KindWord::RowCut | KindWord::ColumnCut | KindWord::Infer => 1,
    }
}

/// How many children a rule with these items has.
pub(crate) fn children_in(mut items: Items<'_>) -> usize
    ensures { result ≡ children_in (Some items.entry) }
{
    let Some(item) = items.next() else {
        return 0;
    };
    let Some(word) = word_of_kind(item) else {
        return 0;
    };
    children_by(word, items.count())
}

/// A kind without items.
fn read_alone(kind: Kind, mut items: Items<'_>) -> Result<Kind, ItemFault>
    requires { is_kind_in_range kind ≡ true }
    ensures { IsAnswer (alone kind items.entry) is_kind_in_range (λ k. k) result }
{
    if items.next().is_some() {
        return Err(ItemFault::Form);
    }
    Ok(kind)
}

/// The only item.
fn sole<'a>(mut items: Items<'a>) -> Option<&'a [u8]>
    ensures { option_map (λ item. item.now) result ≡ sole items.entry }
{
    let item = items.next()?;
    if items.next().is_some() {
        return None;
    }
    Some(item)
}

/// An insertion.
fn read_insert(items: Items<'_>) -> Result<Kind, ItemFault>
    ensures { IsAnswer (insert_read items.entry) is_kind_in_range (λ k. k) result }
{
    let Some(item) = sole(items) else {
        return Err(ItemFault::Form);
    };
    let Some(pattern) = Pattern::of(item) else {
        return Err(ItemFault::Form);
    };
    match pattern.small() {
        Some(small) => Ok(Kind::Insert(small)),
        None => Err(ItemFault::Range),
    }
}

/// The direction that a text spells.
fn read_direction(text: &[u8]) -> Option<Direction>
    ensures { result ≡ direction_at text.now }
{
    if text == b"N".as_slice() {
        return Some(Direction::North);
    }
    if text == b"S".as_slice() {
        return Some(Direction::South);
    }
    if text == b"E".as_slice() {
        return Some(Direction::East);
    }
    if text == b"W".as_slice() {
        return Some(Direction::West);
    }
    None
}

/// A placement.
fn read_place(alloc: Global, mut items: Items<'_>) -> Result<Kind, ItemFault>
    ensures { IsAnswer (place_read items.entry) is_kind_in_range (λ k. k) result }
{
    let Some(item) = items.next() else {
        return Err(ItemFault::Form);
    };
    let Some(direction) = read_direction(item) else {
        return Err(ItemFault::Form);
    };
    let Some(pointed) = read_all::<WidePointed>(alloc, items)? else {
        return Err(ItemFault::Form);
    };
    let count = pointed.len();
    if count == 0 {
        return Err(ItemFault::Range);
    }
    if count > 64 {
        return Err(ItemFault::Range);
    }
    match narrow_all(alloc, pointed.as_slice())? {
        Some(pointed) => Ok(Kind::Place(Sequence::of(pointed), direction)),
        None => Err(ItemFault::Range),
    }
}

/// The number and the set of a cut.
fn read_cut(alloc: Global, mut items: Items<'_>) -> Result<(u8, CellSet), ItemFault>
    ensures { IsAnswer (cut_read items.entry) is_cut_in_range (λ cut. cut) result }
{
    let Some(number) = items.next() else {
        return Err(ItemFault::Form);
    };
    let Some(set) = items.next() else {
        return Err(ItemFault::Form);
    };
    if items.next().is_some() {
        return Err(ItemFault::Form);
    }
    let Some(number) = Number::read(number) else {
        return Err(ItemFault::Form);
    };
    let Some(set) = DigitSet::read(alloc, set)? else {
        return Err(ItemFault::Form);
    };
    let Some(line) = number.up_to(7) else {
        return Err(ItemFault::Range);
    };
    match set.narrow(alloc)? {
        Some(set) => Ok((line as u8, set)),
        None => Err(ItemFault::Range),
    }
}

/// A cut of a row.
fn read_row_cut(alloc: Global, items: Items<'_>) -> Result<Kind, ItemFault>
    ensures { IsAnswer (option_map (λ (p : ℕ × List Cell). kind.RowCut p.0 p.1) (cut_read items.entry)) is_kind_in_range (λ k. k) result }
{
    match read_cut(alloc, items) {
        Ok((row, set)) => Ok(Kind::RowCut(row, set)),
        Err(fault) => Err(fault),
    }
}

/// A cut of a column.
fn read_column_cut(alloc: Global, items: Items<'_>) -> Result<Kind, ItemFault>
    ensures { IsAnswer (option_map (λ (p : ℕ × List Cell). kind.ColumnCut p.0 p.1) (cut_read items.entry)) is_kind_in_range (λ k. k) result }
{
    match read_cut(alloc, items) {
        Ok((column, set)) => Ok(Kind::ColumnCut(column, set)),
        Err(fault) => Err(fault),
    }
}

/// A factoring.
fn read_factor(alloc: Global, items: Items<'_>) -> Result<Kind, ItemFault>
    ensures { IsAnswer (factor_read items.entry) is_kind_in_range (λ k. k) result }
{
    let Some(sets) = read_all::<DigitSet>(alloc, items)? else {
        return Err(ItemFault::Form);
    };
    if sets.len() == 0 {
        return Err(ItemFault::Form);
    }
    if sets.len() > 64 {
        return Err(ItemFault::Range);
    }
    match narrow_all(alloc, sets.as_slice())? {
        Some(sets) => Ok(Kind::Factor(Sequence::of(sets))),
        None => Err(ItemFault::Range),
    }
}

/// Whether the digits of each pattern's cells are at most 7.
fn are_all_small(patterns: &[Pattern]) -> bool
    ensures { result ≡ list_all (λ g. is_small (cells_of g)) patterns.now }
{
    patterns.iter().all(|pattern| are_small(pattern.cells()))
}

/// An inferral.
fn read_infer(alloc: Global, items: Items<'_>) -> Result<Kind, ItemFault>
    ensures { IsAnswer (infer_read items.entry) is_kind_in_range (λ k. k) result }
{
    let Some(patterns) = read_all::<Pattern>(alloc, items)? else {
        return Err(ItemFault::Form);
    };
    if patterns.len() == 0 {
        return Err(ItemFault::Form);
    }
    if !ascends(patterns.as_slice()) {
        return Err(ItemFault::Form);
    }
    if !are_all_small(patterns.as_slice()) {
        return Err(ItemFault::Range);
    }
    match narrow_all(alloc, patterns.as_slice())? {
        Some(patterns) => Ok(Kind::Infer(Sequence::of(patterns))),
        None => Err(ItemFault::Range),
    }
}

/// The kind that a word begins.
fn read_named(alloc: Global, word: KindWord, items: Items<'_>) -> Result<Kind, ItemFault>
    ensures { IsAnswer (kind_read word items.entry) is_kind_in_range (λ k. k) result }
{
    match word {
        KindWord::Unit => read_alone(Kind::Unit, items),
        KindWord::Point => read_alone(Kind::Point, items),
        KindWord::Void => read_alone(Kind::Void, items),
        KindWord::Insert => read_insert(items),
        KindWord::Place => read_place(alloc, items),
        KindWord::RowCut => read_row_cut(alloc, items),
        KindWord::ColumnCut => read_column_cut(alloc, items),
        KindWord::Factor => read_factor(alloc, items),
        KindWord::Infer => read_infer(alloc, items),
    }
}

/// The kind of a rule's items.
pub(crate) fn read_kind(alloc: Global, mut items: Items<'_>) -> Result<Kind, ItemFault>
    ensures { IsAnswer (rule_read items.entry) is_kind_in_range (λ k. k) result }
{
    let Some(item) = items.next() else {
        return Err(ItemFault::Form);
    };
    let Some(word) = word_of_kind(item) else {
        return Err(ItemFault::Form);
    };
    read_named(alloc, word, items)
}
