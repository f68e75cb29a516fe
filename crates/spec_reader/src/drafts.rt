ghost use Rattle.std.specs.Prelude.{◌≡◌, ◌&&◌, true, OnOk, OnErr, nat_lt};
ghost use Rattle.std.specs.List.{list_all};
ghost use Rattle.rule_kinds.specs.declared.kind.Kind.TheVariants.{Unit};
ghost use Rattle.spec_lines.specs.Ranges.{is_inside};
ghost use Rattle.line_readers.specs.Answers.{nothing_else};
ghost use Rattle.spec_reader.specs.Drafts.{blank, seen_of, with_child, begun_entry, cleared, with_entries, with_value, last_taken, taken};
ghost use Rattle.spec_reader.specs.Values.{value_of};
ghost use Rattle.spec_lines.specs.Ranges.{is_in_range};

use crate::entries::{EntryParts, put};
use crate::values::LineValue;
use css_terms::Term;
use gridded::{Cell, Gridded};
use perm_core::Perm;
use rule_kinds::Kind;
use sequences::Sequence;
use std::alloc::{AllocError, Global};
use std::marker::Model;
use std::mem;
use steps::Step;

/// What the lines of a text that have been read say, as long as they are in range.
#[derive(Drop)]
pub(crate) struct Draft {
    pub(crate) alloc: Global,
    pub(crate) basis: Sequence<Perm>,
    pub(crate) root_trace: Sequence<Step>,
    /// How many entries the text says that it has.
    pub(crate) count: u32,
    /// The entries that have been read to their end.
    pub(crate) entries: Vec<EntryParts>,
    /// The rank of the entry that has begun, and so on with what is known of it.
    pub(crate) rank: u32,
    pub(crate) width: u8,
    pub(crate) height: u8,
    pub(crate) obstructions: Vec<Gridded>,
    pub(crate) requirements: Vec<Sequence<Gridded>>,
    pub(crate) kind: Kind,
    pub(crate) children: Vec<u32>,
    pub(crate) traces: Vec<Sequence<Step>>,
    pub(crate) terms: Sequence<Term>,
}

impl Model for Draft {
    ghost use Rattle.spec_reader.specs.Drafts.{Built};

    ghost Value = { Built };

    ghost view = { λ d. record {
      basis = d.basis;
      root_trace = d.root_trace;
      count = d.count;
      entries = d.entries.items;
      rank = d.rank;
      width = d.width;
      height = d.height;
      obstructions = d.obstructions.items;
      requirements = d.requirements.items;
      kind = d.kind;
      children = d.children.items;
      traces = d.traces.items;
      terms = d.terms;
    } };
}

/// Whether the pattern lies in the grid.
#[tactic(auto, using(crate::proofs::Inside::short_inside))]
fn is_inside(width: u8, height: u8, pattern: &Gridded) -> bool
    ensures { result ≡ is_inside width height pattern.now }
{
    are_in(width, height, pattern.cells())
}

/// Whether each cell lies in the grid.
fn are_in(width: u8, height: u8, cells: &[Cell]) -> bool
    ensures { result ≡ list_all (λ c. nat_lt c.x width && nat_lt c.y height) cells.now }
{
    cells.iter().all(|cell| cell.x < width && cell.y < height)
}

/// Whether each cell of each pattern lies in the grid.
fn are_inside(width: u8, height: u8, patterns: &[Gridded]) -> bool
    ensures { result ≡ list_all (λ g. is_inside width height g) patterns.now }
{
    patterns
        .iter()
        .all(|pattern| is_inside(width, height, pattern))
}

/// Whether each cell of each pattern of each list lies in the grid.
fn are_all_inside(width: u8, height: u8, lists: &[Sequence<Gridded>]) -> bool
    ensures { result ≡ list_all (λ patterns. list_all (λ g. is_inside width height g) patterns) lists.now }
{
    lists
        .iter()
        .all(|patterns| are_inside(width, height, patterns.as_slice()))
}

impl Draft {
    /// Nothing has been read. Takes no memory.
    pub(crate) fn new(alloc: Global) -> Draft
        ensures { result ≡ blank }
    {
        Draft {
            alloc,
            basis: Sequence::of(Vec::new(alloc)),
            root_trace: Sequence::of(Vec::new(alloc)),
            count: 0,
            entries: Vec::new(alloc),
            rank: 0,
            width: 0,
            height: 0,
            obstructions: Vec::new(alloc),
            requirements: Vec::new(alloc),
            kind: Kind::Unit,
            children: Vec::new(alloc),
            traces: Vec::new(alloc),
            terms: Sequence::of(Vec::new(alloc)),
        }
    }

    /// Whether the value is in range, as far as the lines before it tell.
    pub(crate) fn allows(&self, value: &LineValue) -> bool
        requires { is_in_range nothing_else (value_of value.now) ≡ true }
        ensures { result ≡ is_in_range (seen_of self.now) (value_of value.now) }
    {
        match value {
            LineValue::Obstructions(patterns) => {
                are_inside(self.width, self.height, patterns.as_slice())
            }
            LineValue::Requirements(lists) => {
                are_all_inside(self.width, self.height, lists.as_slice())
            }
            LineValue::Child(child, _) => *child < self.count,
            _ => true,
        }
    }

    /// One more child of the entry that has begun. After a refusal nothing has changed.
    fn add_child(&mut self, child: u32, trace: Sequence<Step>) -> Result<(), AllocError>
        ensures ok { OnOk result (self.new ≡ with_child child trace self.old) }
        ensures err { OnErr result (self.new ≡ self.old) }
    {
        self.children.reserve(1)?;
        self.traces.push(trace)?;
        put(&mut self.children, child);
        Ok(())
    }

    /// Takes the value of the next line, which is in range. After a refusal nothing has changed.
    pub(crate) fn add(&mut self, value: LineValue) -> Result<(), AllocError>
        ensures ok { OnOk result (self.new ≡ with_value value self.old) }
        ensures err { OnErr result (self.new ≡ self.old) }
    {
        match value {
            LineValue::First | LineValue::End => {}
            LineValue::Basis(words) => self.basis = words,
            LineValue::Root(trace) => self.root_trace = trace,
            LineValue::Count(entries) => self.count = entries,
            LineValue::Entry(_, rank) => self.rank = rank,
            LineValue::Grid(width, height) => {
                self.width = width;
                self.height = height;
            }
            LineValue::Obstructions(patterns) => self.obstructions = patterns.into_vec(),
            LineValue::Requirements(lists) => self.requirements = lists.into_vec(),
            LineValue::Rule(kind) => {
                self.kind = kind;
                self.children = Vec::new(self.alloc);
                self.traces = Vec::new(self.alloc);
            }
            LineValue::Child(child, trace) => return self.add_child(child, trace),
            LineValue::Terms(terms) => self.terms = terms,
        }
        Ok(())
    }

    /// Takes out the entry that has begun.
    fn take_entry(&mut self) -> EntryParts
        ensures entry { result ≡ begun_entry self.old }
        ensures cleared { self.new ≡ cleared self.old }
    {
        let obstructions = mem::replace(&mut self.obstructions, Vec::new(self.alloc));
        let requirements = mem::replace(&mut self.requirements, Vec::new(self.alloc));
        let kind = mem::replace(&mut self.kind, Kind::Unit);
        let children = mem::replace(&mut self.children, Vec::new(self.alloc));
        let traces = mem::replace(&mut self.traces, Vec::new(self.alloc));
        EntryParts {
            width: self.width,
            height: self.height,
            obstructions,
            requirements,
            rank: self.rank,
            kind,
            children: Sequence::of(children),
            traces: Sequence::of(traces),
        }
    }

    /// Takes the value of the last line of the entry that has begun. After a refusal nothing has changed.
    fn take_last(&mut self, value: LineValue) -> Result<(), AllocError>
        ensures ok { OnOk result (self.new ≡ last_taken value self.old) }
        ensures err { OnErr result (self.new ≡ self.old) }
    {
        self.entries.reserve(1)?;
        let mut entries = mem::replace(&mut self.entries, Vec::new(self.alloc));
        let Ok(()) = self.add(value) else {
            self.entries = entries;
            return Err(AllocError);
        };
        put(&mut entries, self.take_entry());
        self.entries = entries;
        Ok(())
    }

    /// Takes the value of the next line, which is in range; `goes_on` says whether a child is to come after it. After
    /// a refusal nothing has changed.
    pub(crate) fn take(&mut self, value: LineValue, goes_on: bool) -> Result<(), AllocError>
        ensures ok { OnOk result (self.new ≡ taken value goes_on self.old) }
        ensures err { OnErr result (self.new ≡ self.old) }
    {
        if value.is_of_rule() && !goes_on {
            return self.take_last(value);
        }
        self.add(value)
    }
}
