ghost use Rattle.std.specs.Prelude.{◌≡◌, ℕ, Option, codes, option_and_then, option_map, IfOk, MatchOption, None, Some};
ghost use Rattle.perm_core.specs.Orders.{perm_cmp};
ghost use Rattle.spec_lines.specs.Forms.{ascending};
ghost use Rattle.spec_lines.specs.Forms.Line.{Basis as basis_value, Root as root_value, Count as count_value, Entry as entry_value, Grid as grid_value, Child as child_value};
ghost use Rattle.spec_lines.specs.Follows.Place.{AtBasis, AtRoot, AtCount, AtEntry, AtGrid, AtChild};
ghost use Rattle.spec_lines.specs.Items.{behind, items, dashed};
ghost use Rattle.spec_lines.specs.Readings.{line_at, number_at, step_at};
ghost use Rattle.line_readers.specs.Answers.{IsLineAnswer, is_numbered};
ghost use Rattle.line_readers.specs.Kept.{where_it};
ghost use Rattle.line_readers.specs.LineItems.{words_of, one_number, two_numbers, entry_numbers, child_items};

use crate::ascending::ascends;
use crate::cuts::Items;
use crate::fault::ItemFault;
use crate::narrow::narrow_all;
use crate::numbers::Number;
use crate::spelt::{Spelt, dashed, read_all};
use crate::words::Word;
use perm_core::Perm;
use sequences::Sequence;
use std::alloc::{AllocError, Global};
use steps::Step;

/// The items after the word that a line begins with.
pub(crate) fn behind<'a>(line: &'a [u8], word: &[u8]) -> Option<Items<'a>>
    ensures { result ≡ behind word.now (items 32 line.now) }
{
    let mut items = Items::of(line, b' ');
    let first = items.next()?;
    if first != word {
        return None;
    }
    Some(items)
}

/// The trace of the line `root`.
fn root_trace(alloc: Global, line: &[u8]) -> Result<Option<Sequence<Step>>, AllocError>
    ensures { IfOk result (λ trace. trace ≡ option_and_then (dashed step_at) (behind (codes "root") (items 32 line.now))) }
{
    let Some(items) = behind(line, b"root") else {
        return Ok(None);
    };
    dashed(alloc, items)
}

/// The steps of the line `root`.
pub fn root_line(alloc: Global, line: &[u8]) -> Result<Vec<Step>, ItemFault>
    ensures { IsLineAnswer (line_at AtRoot line.now) (λ trace. root_value trace.items) result }
{
    let Some(trace) = root_trace(alloc, line)? else {
        return Err(ItemFault::Form);
    };
    Ok(trace.into_vec())
}

/// The only item, as a number.
fn one_number(mut items: Items<'_>) -> Option<Number>
    ensures { result ≡ one_number items.entry }
{
    let item = items.next()?;
    if items.next().is_some() {
        return None;
    }
    Number::read(item)
}

/// The number of the line `entries`, by its items.
fn counted(line: &[u8]) -> Option<Number>
    ensures { result ≡ option_and_then one_number (behind (codes "entries") (items 32 line.now)) }
{
    one_number(behind(line, b"entries")?)
}

/// The number of the line `entries`, in range or not.
pub fn announced(line: &[u8]) -> Option<Number>
    ensures { MatchOption result (line_at AtCount line.now ≡ None) (λ n. line_at AtCount line.now ≡ Some (count_value n)) }
{
    counted(line)
}

/// The number of entries that the line `entries` announces.
pub fn entries_line(line: &[u8]) -> Result<u32, ItemFault>
    ensures { IsLineAnswer (line_at AtCount line.now) (λ entries. count_value entries) result }
{
    let Some(number) = counted(line) else {
        return Err(ItemFault::Form);
    };
    match number.up_to(100_000) {
        Some(0) => Err(ItemFault::Range),
        Some(entries) => Ok(entries),
        None => Err(ItemFault::Range),
    }
}

/// The words of the line `basis`, which ascend.
fn basis_words(alloc: Global, line: &[u8]) -> Result<Option<Sequence<Word>>, AllocError>
    ensures { IfOk result (λ words. words ≡ where_it (ascending perm_cmp) (option_and_then words_of (behind (codes "basis") (items 32 line.now)))) }
{
    let Some(mut items) = behind(line, b"basis") else {
        return Ok(None);
    };
    let Some(item) = items.next() else {
        return Ok(None);
    };
    if items.next().is_some() {
        return Ok(None);
    }
    let Some(words) = read_all::<Word>(alloc, Items::of(item, b','))? else {
        return Ok(None);
    };
    if !ascends(words.as_slice()) {
        return Ok(None);
    }
    Ok(Some(words))
}

/// The words of the line `basis`.
pub fn basis_line(alloc: Global, line: &[u8]) -> Result<Vec<Perm>, ItemFault>
    ensures { IsLineAnswer (line_at AtBasis line.now) (λ words. basis_value words.items) result }
{
    let Some(words) = basis_words(alloc, line)? else {
        return Err(ItemFault::Form);
    };
    if words.len() > 32 {
        return Err(ItemFault::Range);
    }
    match narrow_all(alloc, words.as_slice())? {
        Some(perms) => Ok(perms),
        None => Err(ItemFault::Range),
    }
}

/// The only two items, as numbers.
fn two_numbers(mut items: Items<'_>) -> Option<(Number, Number)>
    ensures { result ≡ two_numbers items.entry }
{
    let first = items.next()?;
    let second = items.next()?;
    if items.next().is_some() {
        return None;
    }
    Some((Number::read(first)?, Number::read(second)?))
}

/// The two numbers of the line `grid`.
fn sides(line: &[u8]) -> Option<(Number, Number)>
    ensures { result ≡ option_and_then two_numbers (behind (codes "grid") (items 32 line.now)) }
{
    two_numbers(behind(line, b"grid")?)
}

/// The width and the height of the line `grid`.
pub fn grid_line(_alloc: Global, line: &[u8]) -> Result<(u8, u8), ItemFault>
    ensures { IsLineAnswer (line_at (AtGrid 0 0) line.now) (λ sides. grid_value sides.0 sides.1) result }
{
    let Some((width, height)) = sides(line) else {
        return Err(ItemFault::Form);
    };
    let Some(columns) = width.up_to(8) else {
        return Err(ItemFault::Range);
    };
    match height.up_to(8) {
        Some(rows) => Ok((columns as u8, rows as u8)),
        None => Err(ItemFault::Range),
    }
}

/// The number and the rank of the line `entry`.
fn number_and_rank(line: &[u8]) -> Option<(Number, Number)>
    ensures { result ≡ option_and_then entry_numbers (behind (codes "entry") (items 32 line.now)) }
{
    let mut items = behind(line, b"entry")?;
    let number = items.next()?;
    let word = items.next()?;
    let rank = items.next()?;
    if items.next().is_some() || word != b"rank".as_slice() {
        return None;
    }
    Some((Number::read(number)?, Number::read(rank)?))
}

/// The rank of the line `entry`, where it is the entry of this number.
pub fn entry_line(line: &[u8], number: u32) -> Result<u32, ItemFault>
    ensures { IsLineAnswer (where_it (is_numbered number) (line_at (AtEntry number 0) line.now)) (λ rank. entry_value number rank) result }
{
    let Some((entry, rank)) = number_and_rank(line) else {
        return Err(ItemFault::Form);
    };
    if !entry.is(number) {
        return Err(ItemFault::Form);
    }
    match rank.up_to(u32::MAX) {
        Some(rank) => Ok(rank),
        None => Err(ItemFault::Range),
    }
}

/// The number and the trace of the line `to`.
fn child_and_trace(
    alloc: Global,
    line: &[u8],
) -> Result<Option<(Number, Sequence<Step>)>, AllocError>
    ensures { IfOk result (λ child. child ≡ option_and_then child_items (behind (codes "to") (items 32 line.now))) }
{
    let Some(mut items) = behind(line, b"to") else {
        return Ok(None);
    };
    let Some(item) = items.next() else {
        return Ok(None);
    };
    let Some(number) = Number::read(item) else {
        return Ok(None);
    };
    let Some(trace) = dashed(alloc, items)? else {
        return Ok(None);
    };
    Ok(Some((number, trace)))
}

/// The child's entry and its trace, of the line `to`.
pub fn to_line(alloc: Global, line: &[u8]) -> Result<(u32, Vec<Step>), ItemFault>
    ensures { IsLineAnswer (line_at (AtChild 0 0 0) line.now) (λ child. child_value child.0 child.1.items) result }
{
    let Some((number, trace)) = child_and_trace(alloc, line)? else {
        return Err(ItemFault::Form);
    };
    match number.up_to(u32::MAX) {
        Some(child) => Ok((child, trace.into_vec())),
        None => Err(ItemFault::Range),
    }
}
