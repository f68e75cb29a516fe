ghost use Rattle.std.specs.Prelude.{◌≡◌, ◌<◌, ◌++◌, [], length, slice_index_or, OnOk, OnErr};
ghost use Rattle.spec_lines.specs.Numbers.{entry_line};
ghost use Rattle.spec_text.specs.Entries.{child_lines, rule_text, entries_text};

use crate::kinds::put_rule_line;
use crate::spell::{Spell, put_bytes, put_number, put_whole};
use crate::traces::ChildLine;
use css_prune::Entry;
use sequences::Sequence;
use std::alloc::AllocError;
use steps::Step;
use tile_rules::{TileRule, Tiles};

/// The trace at a place, or that of no step where there is none.
fn trace_at(traces: &[Sequence<Step>], index: usize) -> &[Step]
    ensures { result.now ≡ slice_index_or traces.now index [] }
{
    match traces.get(index) {
        Some(trace) => trace.as_slice(),
        None => &[],
    }
}

/// Appends the line of each child.
fn put_child_lines(
    out: &mut Vec<u8>,
    children: &[u32],
    traces: &[Sequence<Step>],
) -> Result<(), AllocError>
    ensures { OnOk result (out.new.items ≡ out.old.items ++ child_lines children.now traces.now) }
{
    for index in 0..children.len() {
        let line = ChildLine {
            child: children[index],
            trace: trace_at(traces, index),
        };
        line.put(out)?;
    }
    Ok(())
}

/// The lines of a rule, whose children are the entries of these numbers.
#[derive(Clone, Copy)]
struct RuleLines<'a> {
    rule: &'a TileRule,
    children: &'a [u32],
}

impl<'a> Spell for RuleLines<'a> {
    ghost use Rattle.spec_text.specs.Entries.{rule_text};

    ghost text = { λ lines. rule_text lines.rule.now lines.children.now };

    fn put(&self, out: &mut Vec<u8>) -> Result<(), AllocError> {
        put_rule_line(out, self.rule.kind())?;
        put_child_lines(out, self.children, self.rule.traces())
    }
}

/// Appends the line `rule` of a rule and a line `to` for each child, whose entries' numbers are given, one for
/// each child (docs/FORMATS.md, "The text of a specification"). The refusal is want of memory, and then `out`
/// is as before.
pub fn put_rule(out: &mut Vec<u8>, rule: &TileRule, children: &[u32]) -> Result<(), AllocError>
    requires { length children.now ≡ length rule.now.children }
    ensures ok { OnOk result (out.new.items ≡ out.old.items ++ rule_text rule.now children.now) }
    ensures err { OnErr result (out.new.items ≡ out.old.items) }
{
    put_whole(out, &RuleLines { rule, children })
}

/// Appends the first line of an entry.
fn put_entry_line(out: &mut Vec<u8>, number: u32, rank: u32) -> Result<(), AllocError>
    ensures { OnOk result (out.new.items ≡ out.old.items ++ entry_line number rank) }
{
    put_bytes(out, b"entry ")?;
    put_number(out, number)?;
    put_bytes(out, b" rank ")?;
    put_number(out, rank)?;
    put_bytes(out, b"\n")
}

/// The lines of the entry of a number.
#[derive(Clone, Copy)]
struct EntryLines<'a> {
    number: u32,
    entry: &'a Entry<Tiles>,
}

impl<'a> Spell for EntryLines<'a> {
    ghost use Rattle.spec_text.specs.Entries.{entry_text};

    ghost text = { λ lines. entry_text lines.number lines.entry.now };

    fn put(&self, out: &mut Vec<u8>) -> Result<(), AllocError> {
        let entry = self.entry;
        put_entry_line(out, self.number, entry.rank)?;
        entry.class.put(out)?;
        let rule = &entry.rule;
        let children = entry.children.as_slice();
        RuleLines { rule, children }.put(out)
    }
}

/// Appends the lines of the entries, in order.
pub(crate) fn put_entries(out: &mut Vec<u8>, entries: &[Entry<Tiles>]) -> Result<(), AllocError>
    requires { length entries.now < 268435456 }
    ensures { OnOk result (out.new.items ≡ out.old.items ++ entries_text entries.now) }
{
    for (number, entry) in entries.iter().enumerate() {
        let lines = EntryLines {
            number: number as u32,
            entry,
        };
        lines.put(out)?;
    }
    Ok(())
}
