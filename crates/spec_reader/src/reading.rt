ghost use Rattle.std.specs.Prelude.{◌≡◌, ℕ};
ghost use Rattle.spec_lines.specs.Follows.Place.{AtFirst, AtBasis, AtRoot, AtCount, AtEntry, AtGrid, AtObstructions, AtRequirements, AtRule, AtChild, AtTerms, AtEnd};
ghost use Rattle.spec_reader.specs.Positions.{place_of};
ghost use Rattle.spec_reader.specs.Values.{IsReading, read_without};

use crate::places::{Jump, Position, Stage};
use crate::readers::{
    ItemFault, announced, basis_line, entries_line, entry_line, grid_line, obs_line, req_line,
    root_line, rule_children, rule_line, terms_line, to_line,
};
use crate::values::{LineFault, LineRead, LineValue};
use sequences::Sequence;
use std::alloc::Global;

/// What the reader of a line answered where it gave no value, and the line says so much of those after it.
fn without_value(fault: ItemFault, jump: Jump) -> Result<LineRead, LineFault>
    ensures { result ≡ read_without fault jump }
{
    match fault {
        ItemFault::Form => Err(LineFault::Form),
        ItemFault::Range => Ok(LineRead::Beyond(jump)),
        ItemFault::Memory => Err(LineFault::Memory),
    }
}

/// The first line.
fn read_first(line: &[u8]) -> Result<LineRead, LineFault>
    ensures { IsReading AtFirst line.now result }
{
    if line != b"tilescope 1".as_slice() {
        return Err(LineFault::Form);
    }
    Ok(LineRead::InRange(LineValue::First))
}

/// The last line.
fn read_end(line: &[u8]) -> Result<LineRead, LineFault>
    ensures { IsReading AtEnd line.now result }
{
    if line != b"end".as_slice() {
        return Err(LineFault::Form);
    }
    Ok(LineRead::InRange(LineValue::End))
}

fn read_basis(alloc: Global, line: &[u8]) -> Result<LineRead, LineFault>
    ensures { IsReading AtBasis line.now result }
{
    match basis_line(alloc, line) {
        Ok(words) => Ok(LineRead::InRange(LineValue::Basis(Sequence::of(words)))),
        Err(fault) => without_value(fault, Jump::Plain),
    }
}

fn read_root(alloc: Global, line: &[u8]) -> Result<LineRead, LineFault>
    ensures { IsReading AtRoot line.now result }
{
    match root_line(alloc, line) {
        Ok(trace) => Ok(LineRead::InRange(LineValue::Root(Sequence::of(trace)))),
        Err(fault) => without_value(fault, Jump::Plain),
    }
}

fn read_count(line: &[u8]) -> Result<LineRead, LineFault>
    ensures { IsReading AtCount line.now result }
{
    match entries_line(line) {
        Ok(entries) => Ok(LineRead::InRange(LineValue::Count(entries))),
        Err(ItemFault::Range) => match announced(line) {
            Some(entries) => Ok(LineRead::Beyond(Jump::Entries(entries))),
            None => Err(LineFault::Form),
        },
        Err(fault) => without_value(fault, Jump::Plain),
    }
}

/// The first line of the entry of a number.
fn read_entry(line: &[u8], number: u32) -> Result<LineRead, LineFault>
    ensures { (left : ℕ) → IsReading (AtEntry number left) line.now result }
{
    match entry_line(line, number) {
        Ok(rank) => Ok(LineRead::InRange(LineValue::Entry(number, rank))),
        Err(fault) => without_value(fault, Jump::Plain),
    }
}

fn read_grid(alloc: Global, line: &[u8]) -> Result<LineRead, LineFault>
    ensures { (i left : ℕ) → IsReading (AtGrid i left) line.now result }
{
    match grid_line(alloc, line) {
        Ok((width, height)) => Ok(LineRead::InRange(LineValue::Grid(width, height))),
        Err(fault) => without_value(fault, Jump::Plain),
    }
}

fn read_obstructions(alloc: Global, line: &[u8]) -> Result<LineRead, LineFault>
    ensures { (i left : ℕ) → IsReading (AtObstructions i left) line.now result }
{
    match obs_line(alloc, line) {
        Ok(patterns) => Ok(LineRead::InRange(LineValue::Obstructions(Sequence::of(patterns)))),
        Err(fault) => without_value(fault, Jump::Plain),
    }
}

fn read_requirements(alloc: Global, line: &[u8]) -> Result<LineRead, LineFault>
    ensures { (i left : ℕ) → IsReading (AtRequirements i left) line.now result }
{
    match req_line(alloc, line) {
        Ok(lists) => Ok(LineRead::InRange(LineValue::Requirements(Sequence::of(lists)))),
        Err(fault) => without_value(fault, Jump::Plain),
    }
}

fn read_rule(alloc: Global, line: &[u8]) -> Result<LineRead, LineFault>
    ensures { (i left : ℕ) → IsReading (AtRule i left) line.now result }
{
    match rule_line(alloc, 1, line) {
        Ok(kind) => Ok(LineRead::InRange(LineValue::Rule(kind))),
        Err(ItemFault::Range) => Ok(LineRead::Beyond(Jump::Children(rule_children(line)))),
        Err(fault) => without_value(fault, Jump::Plain),
    }
}

fn read_child(alloc: Global, line: &[u8]) -> Result<LineRead, LineFault>
    ensures { (i left more : ℕ) → IsReading (AtChild i left more) line.now result }
{
    match to_line(alloc, line) {
        Ok((child, trace)) => Ok(LineRead::InRange(LineValue::Child(child, Sequence::of(trace)))),
        Err(fault) => without_value(fault, Jump::Plain),
    }
}

fn read_terms(alloc: Global, line: &[u8]) -> Result<LineRead, LineFault>
    ensures { IsReading AtTerms line.now result }
{
    match terms_line(alloc, line) {
        Ok(terms) => Ok(LineRead::InRange(LineValue::Terms(Sequence::of(terms)))),
        Err(fault) => without_value(fault, Jump::Plain),
    }
}

/// Reads the line that stands at a position.
pub(crate) fn read_line(
    alloc: Global,
    position: &Position,
    line: &[u8],
) -> Result<LineRead, LineFault>
    ensures { IsReading (place_of position.now) line.now result }
{
    match position.stage {
        Stage::First => read_first(line),
        Stage::Basis => read_basis(alloc, line),
        Stage::Root => read_root(alloc, line),
        Stage::Count => read_count(line),
        Stage::Entry => read_entry(line, position.number),
        Stage::Grid => read_grid(alloc, line),
        Stage::Obstructions => read_obstructions(alloc, line),
        Stage::Requirements => read_requirements(alloc, line),
        Stage::Rule => read_rule(alloc, line),
        Stage::Child => read_child(alloc, line),
        Stage::Terms => read_terms(alloc, line),
        Stage::End => read_end(line),
        Stage::Done => Err(LineFault::Form),
    }
}
