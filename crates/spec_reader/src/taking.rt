ghost use Rattle.std.specs.Prelude.{◌≡◌, ◌≤◌, ◌+◌, ◌++◌, ℕ, List, length};
ghost use Rattle.spec_reader.specs.Pieces.{IsOnItsWay, IsTaken, EndsWith, is_stuck};

use crate::reader::SpecReader;
use crate::readers::cut;
use crate::values::LineFault;

/// Why no further line was taken.
#[derive(Clone, Copy)]
pub(crate) enum Stop {
    /// The bytes that are left have no line feed.
    Unfinished,
    /// There was no memory for the next line.
    Refused,
    /// No text has the next line.
    Stuck,
}

impl Stop {
    /// Whether no text has the next line.
    pub(crate) fn is_stuck(self) -> bool
        ensures { result ≡ is_stuck self }
    {
        matches!(self, Stop::Stuck)
    }
}

/// Takes the lines of bytes as far as that goes, and tells the bytes that are left and why.
pub(crate) fn take_lines<'a>(reader: &mut SpecReader, bytes: &'a [u8]) -> (&'a [u8], Stop)
    requires few { reader.old.lines + length bytes.now ≤ 268435456 }
    ensures taken { (text : List ℕ) → IsOnItsWay text bytes.now reader.old → IsTaken text result.0.now reader.new result.1 }
    ensures left { EndsWith bytes.now result.0.now }
    ensures few { reader.new.lines + length result.0.now ≤ reader.old.lines + length bytes.now }
{
    let mut rest = bytes;
    loop {
        let (line, behind) = cut(rest, b'\n');
        let Some(behind) = behind else {
            return (rest, Stop::Unfinished);
        };
        match reader.take_line(line) {
            Ok(()) => rest = behind,
            Err(LineFault::Form) => return (rest, Stop::Stuck),
            Err(LineFault::Memory) => return (rest, Stop::Refused),
        }
    }
}
