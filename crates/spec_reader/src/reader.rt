ghost use Rattle.std.specs.Prelude.{◌≡◌, ◌<◌, ◌≤◌, ◌+◌, ◌++◌, ◌∷◌, [], List, ℕ, OnOk, OnErr, IfErr, None, true, is_some, IsTrue};
ghost use Rattle.spec_lines.specs.Follows.{after};
ghost use Rattle.spec_lines.specs.Forms.{is_line};
ghost use Rattle.spec_lines.specs.Machine.{step};
ghost use Rattle.spec_lines.specs.Ranges.{is_in_range};
ghost use Rattle.line_readers.specs.Answers.{nothing_else};
ghost use Rattle.spec_reader.specs.Ends.{IsEnd};
ghost use Rattle.spec_reader.specs.Kept.{IsKept};
ghost use Rattle.spec_reader.specs.Positions.{place_of, jumped};
ghost use Rattle.spec_reader.specs.States.{Advances, MayTake, state_of, noted_limit};
ghost use Rattle.spec_reader.specs.Values.{value_of};
ghost use Rattle.spec_reader.specs.Walks.{Takes, HasRead};
ghost use Rattle.spec_reader.specs.declared.values.LineFault.TheVariants.{Form};

use crate::drafts::Draft;
use crate::entries::all_made;
use crate::files::{SpecText, TextFault, is_nothing};
use crate::places::{Jump, Position};
use crate::reading::read_line;
use crate::values::{LineFault, LineRead, LineValue};
use sequences::Sequence;
use std::alloc::{AllocError, Global};
use std::marker::Model;

/// What has been read of a text.
#[derive(Drop)]
struct Reading {
    position: Position,
    lines: u32,
    /// The first line that is out of range.
    limit: Option<u32>,
    draft: Draft,
}

impl Reading {
    /// No line has been taken. Takes no memory.
    fn start(alloc: Global) -> Reading
        ensures kept { IsKept result.position result.lines result.limit result.draft }
        ensures read { HasRead [] (state_of result) }
    {
        Reading {
            position: Position::start(),
            lines: 0,
            limit: None,
            draft: Draft::new(alloc),
        }
    }

    /// A line has been gone over that is out of range.
    fn pass(&mut self, jump: Jump)
        requires few { self.old.lines < 4294967295 }
        requires kept { IsKept self.old.position self.old.lines self.old.limit self.old.draft }
        ensures kept { IsKept self.new.position self.new.lines self.new.limit self.new.draft }
        ensures place { place_of self.new.position ≡ jumped (place_of self.old.position) jump }
        ensures lines { self.new.lines ≡ self.old.lines + 1 }
        ensures limit { self.new.limit ≡ noted_limit self.old.limit (self.old.lines + 1) }
    {
        self.position.move_on(jump);
        self.lines += 1;
        if self.limit.is_none() {
            self.limit = Some(self.lines);
        }
    }

    /// A line has been gone over that is in range. After a refusal nothing has changed.
    fn build(&mut self, value: LineValue) -> Result<(), AllocError>
        requires few { self.old.lines < 4294967295 }
        requires kept { IsKept self.old.position self.old.lines self.old.limit self.old.draft }
        requires value { MayTake (state_of self.old) (value_of value) }
        requires none { self.old.limit ≡ None }
        requires range { is_in_range (state_of self.old).seen (value_of value) ≡ true }
        ensures ok { OnOk result (IsKept self.new.position self.new.lines self.new.limit self.new.draft × Advances (state_of self.old) (value_of value) (state_of self.new)) }
        ensures err { OnErr result (self.new ≡ self.old) }
    {
        let jump = value.jump();
        let goes_on = self.position.leads_to_child(&jump);
        self.draft.take(value, goes_on)?;
        self.position.move_on(jump);
        self.lines += 1;
        Ok(())
    }

    /// Takes the value of a line that is in range as far as it tells alone. After a refusal nothing has changed.
    fn take_value(&mut self, value: LineValue) -> Result<(), AllocError>
        requires few { self.old.lines < 4294967295 }
        requires kept { IsKept self.old.position self.old.lines self.old.limit self.old.draft }
        requires value { MayTake (state_of self.old) (value_of value) }
        ensures ok { OnOk result (IsKept self.new.position self.new.lines self.new.limit self.new.draft × Advances (state_of self.old) (value_of value) (state_of self.new)) }
        ensures err { OnErr result (self.new ≡ self.old) }
    {
        if self.limit.is_none() && self.draft.allows(&value) {
            return self.build(value);
        }
        self.pass(value.jump());
        Ok(())
    }
}

/// Reads the text of a specification line by line, each without its line feed (docs/FORMATS.md,
/// "The text of a specification"). After the first line with a quantity out of its range it goes on
/// for the form alone.
#[derive(Drop)]
pub struct SpecReader {
    alloc: Global,
    reading: Reading,
}

impl Model for SpecReader {
    ghost use Rattle.spec_reader.specs.Walks.{ReaderState};
    ghost use Rattle.spec_reader.specs.States.{state_of};
    ghost use Rattle.spec_reader.specs.Kept.{IsKept};

    ghost Value = { ReaderState };

    ghost view = { λ r. state_of r.reading };

    ghost invariant = { λ r. IsKept r.reading.position r.reading.lines r.reading.limit r.reading.draft };
}

impl SpecReader {
    /// No line has been taken. Takes no memory.
    pub fn new(alloc: Global) -> SpecReader
        ensures { HasRead [] result }
    {
        SpecReader {
            alloc,
            reading: Reading::start(alloc),
        }
    }

    /// How many lines have been taken. Takes no memory.
    pub fn lines(&self) -> u32
        ensures { result ≡ self.now.lines }
    {
        self.reading.lines
    }

    /// Takes the next line. `Form` comes exactly where no text of the form begins with the lines
    /// that were taken and this one. After a refusal nothing has changed.
    pub fn take_line(&mut self, line: &[u8]) -> Result<(), LineFault>
        requires { self.old.lines < 4294967295 }
        ensures taken { OnOk result ((lines : List (List ℕ)) → HasRead lines self.old → HasRead (lines ++ line.now ∷ []) self.new) }
        ensures counted { OnOk result (self.new.lines ≡ self.old.lines + 1) }
        ensures form { IfErr result (λ fault. fault ≡ Form → step self.old.place line.now ≡ None) }
        ensures stays { OnErr result (self.new ≡ self.old) }
    {
        match read_line(self.alloc, &self.reading.position, line)? {
            LineRead::Beyond(jump) => self.reading.pass(jump),
            LineRead::InRange(value) => {
                let Ok(()) = self.reading.take_value(value) else {
                    return Err(LineFault::Memory);
                };
            }
        }
        Ok(())
    }

    /// What the text says, after its last line was taken; behind it stand these bytes.
    pub fn finish(self, rest: &[u8]) -> Result<SpecText, TextFault>
        requires { self.lines < 4294967295 }
        ensures { IsEnd self rest.now result }
    {
        let Reading {
            position,
            lines,
            limit,
            draft,
        } = self.reading;
        if !(position.is_done() && is_nothing(rest)) {
            return Err(TextFault::Grammar { line: lines + 1 });
        }
        if let Some(line) = limit {
            return Err(TextFault::Limit { line });
        }
        let Draft {
            alloc,
            basis,
            root_trace,
            entries,
            terms,
            ..
        } = draft;
        let Ok(entries) = all_made(alloc, entries) else {
            return Err(TextFault::Memory);
        };
        Ok(SpecText {
            basis,
            root_trace,
            entries: Sequence::of(entries),
            terms,
        })
    }
}
