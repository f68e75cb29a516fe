ghost use Rattle.std.specs.Prelude.{◌≡◌, ◌≤◌, ◌<◌, ◌+◌, ℕ, List, length, not};
ghost use Rattle.spec_lines.specs.Forms.{has_items};
ghost use Rattle.spec_reader.specs.Ends.{IsAnswered};
ghost use Rattle.spec_reader.specs.Pieces.{IsOnItsWay};

use crate::entries::DraftEntry;
use crate::reader::SpecReader;
use crate::taking::{Stop, take_lines};
use css_terms::Term;
use perm_core::Perm;
use sequences::Sequence;
use std::alloc::Global;
use steps::Step;
use thiserror::Error;

/// What the text of a specification says (docs/FORMATS.md, "The text of a specification"), with the
/// children of each entry by their numbers.
#[derive(Drop)]
pub struct SpecText {
    /// The words of the basis, ascending.
    pub basis: Sequence<Perm>,
    /// The steps that reduce the 1x1 tiling of the basis to the class of entry 0.
    pub root_trace: Sequence<Step>,
    /// The entries by their numbers, 1 to 100,000.
    pub entries: Sequence<DraftEntry>,
    /// The counts for the lengths from 0 on, 1 to 201.
    pub terms: Sequence<Term>,
}

/// Why bytes are no text of a specification whose quantities are in their ranges (docs/FORMATS.md,
/// "The text of a specification"). Lines are counted from 1.
#[derive(Clone, Copy, Debug, PartialEq, Eq, Drop, Error)]
pub enum TextFault {
    /// No text has these first lines, up to this one, which may be missing or unfinished.
    #[error("line {line} is not of the form")]
    Grammar { line: u32 },
    /// The bytes are of the form, and this is the first line with a quantity out of its range.
    #[error("line {line} is out of range")]
    Limit { line: u32 },
    /// There was no memory.
    #[error("out of memory")]
    Memory,
}

/// Whether there are no bytes.
pub(crate) fn is_nothing(bytes: &[u8]) -> bool
    ensures { result ≡ not (has_items bytes.now) }
{
    match bytes {
        [] => true,
        [_, ..] => false,
    }
}

/// Why a reader takes no further line: no text has the one that is to come.
pub(crate) fn next_line_is_wrong(reader: &SpecReader) -> TextFault
    requires { reader.now.lines < 4294967295 }
    ensures { result ≡ TextFault.Grammar (reader.now.lines + 1) }
{
    TextFault::Grammar {
        line: reader.lines() + 1,
    }
}

/// What the text says whose last bytes these are, after a reader has taken the lines before them.
pub(crate) fn read_rest(mut reader: SpecReader, bytes: &[u8]) -> Result<SpecText, TextFault>
    requires { reader.lines + length bytes.now ≤ 268435456 }
    ensures { (text : List ℕ) → IsOnItsWay text bytes.now reader → IsAnswered text result }
{
    let (rest, stop) = take_lines(&mut reader, bytes);
    match stop {
        Stop::Unfinished => reader.finish(rest),
        Stop::Refused => Err(TextFault::Memory),
        Stop::Stuck => Err(next_line_is_wrong(&reader)),
    }
}

/// Reads the text of a specification of at most 268,435,456 bytes (docs/FORMATS.md, "The text of a
/// specification").
pub fn read_text(alloc: Global, bytes: &[u8]) -> Result<SpecText, TextFault>
    requires { length bytes.now ≤ 268435456 }
    ensures { IsAnswered bytes.now result }
{
    read_rest(SpecReader::new(alloc), bytes)
}
