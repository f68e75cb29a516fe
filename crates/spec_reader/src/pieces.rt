ghost use Rattle.std.specs.Prelude.{◌≡◌, ◌≤◌, ◌+◌, ◌++◌, ℕ, List, [], IfOk, OnOk, OnErr, length, drop};
ghost use Rattle.spec_reader.specs.Ends.{IsAnswered};
ghost use Rattle.spec_reader.specs.Pieces.{IsOnItsWay, IsReadUpTo, HasReadBytes};

use crate::files::{SpecText, TextFault, next_line_is_wrong, read_rest};
use crate::reader::SpecReader;
use crate::taking::take_lines;
use std::alloc::{AllocError, Global};
use std::marker::Model;

/// The first bytes go.
fn drop_front(bytes: &mut Vec<u8>, count: usize)
    requires { count ≤ length bytes.old.items }
    ensures { bytes.new.items ≡ drop count bytes.old.items }
{
    bytes.rotate_left(count);
    let left = bytes.len() - count;
    bytes.truncate(left);
}

/// Goes on with a piece where nothing is kept: its lines are taken where they stand, and what is left of it is kept.
/// Tells whether no text has the next line. After a refusal nothing has changed.
fn read_at_once(
    reader: &mut SpecReader,
    rest: &mut Vec<u8>,
    piece: &[u8],
) -> Result<bool, AllocError>
    requires few { reader.old.lines + length rest.old.items + length piece.now ≤ 268435456 }
    requires nothing { rest.old.items ≡ [] }
    ensures read { IfOk result (λ stuck. (bytes : List ℕ) → IsOnItsWay bytes rest.old.items reader.old → IsReadUpTo stuck (bytes ++ piece.now) rest.new.items reader.new) }
    ensures few { OnOk result (reader.new.lines + length rest.new.items ≤ reader.old.lines + length rest.old.items + length piece.now) }
    ensures err { OnErr result ((reader.new ≡ reader.old) × (rest.new.items ≡ rest.old.items)) }
{
    rest.reserve(piece.len())?;
    let (left, stop) = take_lines(reader, piece);
    if stop.is_stuck() {
        return Ok(true);
    }
    let Ok(()) = rest.extend_from_slice(left) else {
        unreachable!()
    };
    Ok(false)
}

/// Goes on with a piece behind bytes that are kept. Tells whether no text has the next line. After a refusal nothing
/// has changed.
fn read_behind(
    reader: &mut SpecReader,
    rest: &mut Vec<u8>,
    piece: &[u8],
) -> Result<bool, AllocError>
    requires few { reader.old.lines + length rest.old.items + length piece.now ≤ 268435456 }
    ensures read { IfOk result (λ stuck. (bytes : List ℕ) → IsOnItsWay bytes rest.old.items reader.old → IsReadUpTo stuck (bytes ++ piece.now) rest.new.items reader.new) }
    ensures few { OnOk result (reader.new.lines + length rest.new.items ≤ reader.old.lines + length rest.old.items + length piece.now) }
    ensures err { OnErr result ((reader.new ≡ reader.old) × (rest.new.items ≡ rest.old.items)) }
{
    rest.extend_from_slice(piece)?;
    let (left, stop) = take_lines(reader, rest.as_slice());
    let taken = rest.len() - left.len();
    if stop.is_stuck() {
        rest.clear();
        return Ok(true);
    }
    drop_front(rest, taken);
    Ok(false)
}

/// Goes on with a piece. Tells whether no text has the next line. After a refusal nothing has changed.
fn read_piece(reader: &mut SpecReader, rest: &mut Vec<u8>, piece: &[u8]) -> Result<bool, AllocError>
    requires few { reader.old.lines + length rest.old.items + length piece.now ≤ 268435456 }
    ensures read { IfOk result (λ stuck. (bytes : List ℕ) → IsOnItsWay bytes rest.old.items reader.old → IsReadUpTo stuck (bytes ++ piece.now) rest.new.items reader.new) }
    ensures few { OnOk result (reader.new.lines + length rest.new.items ≤ reader.old.lines + length rest.old.items + length piece.now) }
    ensures err { OnErr result ((reader.new ≡ reader.old) × (rest.new.items ≡ rest.old.items)) }
{
    if rest.is_empty() {
        return read_at_once(reader, rest, piece);
    }
    read_behind(reader, rest, piece)
}

/// Reads the text of a specification that comes in pieces, cut anywhere (docs/FORMATS.md, "The text of a
/// specification"). It keeps what its lines say and the bytes of an unfinished line. Contracts see a relation between
/// it and the list of the bytes that it has read, `HasReadBytes`.
#[derive(Drop)]
pub struct PieceReader {
    alloc: Global,
    reader: SpecReader,
    rest: Vec<u8>,
    is_stuck: bool,
    many: u32,
}

impl Model for PieceReader {
    ghost use Rattle.spec_reader.specs.Pieces.{PiecesState, IsFed};

    ghost Value = { PiecesState };

    ghost view = { λ r. record { lines = r.reader; rest = r.rest.items; stuck = r.is_stuck; many = r.many } };

    ghost invariant = { λ r. IsFed (record { lines = r.reader; rest = r.rest.items; stuck = r.is_stuck; many = r.many }) };
}

impl PieceReader {
    /// No byte has been read. Takes no memory.
    pub fn new(alloc: Global) -> PieceReader
        ensures read { HasReadBytes [] result }
        ensures many { result.many ≡ 0 }
    {
        PieceReader {
            alloc,
            reader: SpecReader::new(alloc),
            rest: Vec::new(alloc),
            is_stuck: false,
            many: 0,
        }
    }

    /// How many bytes have been read. Takes no memory.
    pub fn bytes_read(&self) -> u32
        ensures { result ≡ self.now.many }
    {
        self.many
    }

    /// Goes on with a piece; all pieces together have at most 268,435,456 bytes. The refusal is want of memory, and
    /// then nothing has changed.
    pub fn feed(&mut self, piece: &[u8]) -> Result<(), AllocError>
        requires few { self.old.many + length piece.now ≤ 268435456 }
        ensures read { OnOk result ((bytes : List ℕ) → HasReadBytes bytes self.old → HasReadBytes (bytes ++ piece.now) self.new) }
        ensures many { OnOk result (self.new.many ≡ self.old.many + length piece.now) }
        ensures stays { OnErr result (self.new ≡ self.old) }
    {
        if self.is_stuck {
            self.many += piece.len() as u32;
            return Ok(());
        }
        self.is_stuck = read_piece(&mut self.reader, &mut self.rest, piece)?;
        self.many += piece.len() as u32;
        Ok(())
    }

    /// What the text says that has been read, or why it is none.
    pub fn finish(self) -> Result<SpecText, TextFault>
        ensures answered { (bytes : List ℕ) → HasReadBytes bytes self → IsAnswered bytes result }
        ensures some { (bytes : List ℕ) × IsAnswered bytes result }
    {
        if self.is_stuck {
            return Err(next_line_is_wrong(&self.reader));
        }
        read_rest(self.reader, self.rest.as_slice())
    }
}
