ghost use Rattle.std.specs.Prelude.{◌≡◌, ◌+◌, ◌-◌, ◌<◌, ◌≤◌};
ghost use Rattle.spec_lines.specs.Follows.{entry_or_terms, child_or_next};
ghost use Rattle.spec_lines.specs.Faults.{is_done};
ghost use Rattle.spec_reader.specs.Drafts.{is_child};
ghost use Rattle.spec_reader.specs.Positions.{place_of, IsPlaced, jumped};

use crate::readers::Number;

/// The kind of line that is to come.
#[derive(Clone, Copy, Debug, PartialEq, Eq)]
pub(crate) enum Stage {
    First,
    Basis,
    Root,
    Count,
    Entry,
    Grid,
    Obstructions,
    Requirements,
    Rule,
    Child,
    Terms,
    End,
    Done,
}

/// What a line says of the lines after it.
#[derive(Drop)]
pub(crate) enum Jump {
    Plain,
    /// So many entries follow.
    Entries(Number),
    /// So many children follow.
    Children(usize),
}

/// Where a text stands.
#[derive(Drop)]
pub(crate) struct Position {
    pub(crate) stage: Stage,
    /// The number of the entry that is to come or has begun.
    pub(crate) number: u32,
    /// How many entries the text says that it has.
    pub(crate) entries: Number,
    /// How many children of the entry stand after the one that is to come.
    pub(crate) more: usize,
}

impl Position {
    /// The first line is to come.
    pub(crate) fn start() -> Position
        ensures { result ≡ record { stage = Stage.First; number = 0; entries = 0; more = 0 } }
    {
        Position {
            stage: Stage::First,
            number: 0,
            entries: Number::of(0),
            more: 0,
        }
    }

    /// Whether no line is to come.
    pub(crate) fn is_done(&self) -> bool
        ensures { result ≡ is_done (place_of self.now) }
    {
        matches!(self.stage, Stage::Done)
    }

    /// Whether a child is to come after the next line, which says so much of those after it.
    pub(crate) fn leads_to_child(&self, jump: &Jump) -> bool
        ensures { result ≡ is_child (jumped (place_of self.now) jump.now) }
    {
        match (self.stage, jump) {
            (Stage::Rule, Jump::Children(children)) => *children > 0,
            (Stage::Child, _) => self.more > 0,
            _ => false,
        }
    }

    /// The entry of this number is to come, or the terms where there is none.
    fn before_entry(&mut self, number: u32)
        requires { number ≤ self.old.entries }
        ensures place { place_of self.new ≡ entry_or_terms number (self.old.entries - number) }
        ensures placed { IsPlaced self.new }
        ensures number { self.new.number ≡ number }
        ensures entries { self.new.entries ≡ self.old.entries }
    {
        self.number = number;
        self.stage = match self.entries.value() {
            Some(entries) if entries == u128::from(number) => Stage::Terms,
            _ => Stage::Entry,
        };
    }

    /// So many children are to come.
    fn before_child(&mut self, children: usize)
        requires within { self.old.number < self.old.entries }
        requires few { self.old.number < 4294967295 }
        ensures place { place_of self.new ≡ child_or_next self.old.number (self.old.entries - (self.old.number + 1)) children }
        ensures placed { IsPlaced self.new }
        ensures number { self.new.number ≤ self.old.number + 1 }
        ensures entries { self.new.entries ≡ self.old.entries }
    {
        match children.checked_sub(1) {
            Some(more) => {
                self.stage = Stage::Child;
                self.more = more;
            }
            None => self.before_entry(self.number + 1),
        }
    }

    /// Goes on over a line.
    pub(crate) fn move_on(&mut self, jump: Jump)
        requires placed { IsPlaced self.old }
        requires few { self.old.number < 4294967295 }
        ensures place { place_of self.new ≡ jumped (place_of self.old) jump }
        ensures placed { IsPlaced self.new }
        ensures number { self.new.number ≤ self.old.number + 1 }
    {
        match (self.stage, jump) {
            (Stage::First, _) => self.stage = Stage::Basis,
            (Stage::Basis, _) => self.stage = Stage::Root,
            (Stage::Root, _) => self.stage = Stage::Count,
            (Stage::Count, Jump::Entries(entries)) => {
                self.entries = entries;
                self.before_entry(0);
            }
            (Stage::Entry, _) => self.stage = Stage::Grid,
            (Stage::Grid, _) => self.stage = Stage::Obstructions,
            (Stage::Obstructions, _) => self.stage = Stage::Requirements,
            (Stage::Requirements, _) => self.stage = Stage::Rule,
            (Stage::Rule, Jump::Children(children)) => self.before_child(children),
            (Stage::Child, _) => self.before_child(self.more),
            (Stage::Terms, _) => self.stage = Stage::End,
            _ => self.stage = Stage::Done,
        }
    }
}
