ghost use Rattle.std.specs.Prelude.{◌≤◌, ℕ, List, length};
ghost use Rattle.spec_lines.specs.Files.{IsFileText};
ghost use Rattle.spec_reader.specs.Ends.{file_of};
ghost use Rattle.spec_reader.specs.Pieces.{HasReadBytes};
ghost use Rattle.spec_text.specs.Joined.{IsReadAs};

use crate::families::join;
use css_prune::Entry;
use css_terms::Term;
use perm_core::Perm;
use sequences::Sequence;
use spec_reader::{PieceReader, SpecText, TextFault, read_text};
use std::alloc::Global;
use steps::Step;
use tile_rules::Tiles;

/// What the text of a specification says (docs/FORMATS.md, "The text of a specification"), whether or not its rules
/// follow.
#[derive(Drop)]
pub struct SpecFile {
    /// The words of the basis, ascending.
    pub basis: Sequence<Perm>,
    /// The steps that reduce the 1x1 tiling of the basis to the class of entry 0.
    pub root_trace: Sequence<Step>,
    /// The entries by their numbers, 1 to 100,000. The rule of each makes its class from those of the entries that
    /// are named for its children.
    pub entries: Sequence<Entry<Tiles>>,
    /// The counts for the lengths from 0 on, 1 to 201.
    pub terms: Sequence<Term>,
}

/// The file of what a text says.
fn join_text(alloc: Global, text: SpecText) -> Result<SpecFile, TextFault>
    requires { (bytes : List ℕ) × IsFileText bytes (file_of text) }
    ensures { (bytes : List ℕ) → IsFileText bytes (file_of text) → IsReadAs bytes result }
{
    let Ok(entries) = join(alloc, text.entries.into_vec()) else {
        return Err(TextFault::Memory);
    };
    Ok(SpecFile {
        basis: text.basis,
        root_trace: text.root_trace,
        entries: Sequence::of(entries),
        terms: text.terms,
    })
}

/// Reads the text of a specification of at most 268,435,456 bytes (docs/FORMATS.md, "The text of a specification").
/// The refusals: 1. no text has the first lines up to this one; 2. the line is the first with a quantity out of its
/// range; 3. there was no memory.
pub fn read_spec(alloc: Global, bytes: &[u8]) -> Result<SpecFile, TextFault>
    requires { length bytes.now ≤ 268435456 }
    ensures { IsReadAs bytes.now result }
{
    let text = read_text(alloc, bytes)?;
    join_text(alloc, text)
}

/// The file of a text that a reader has read in pieces, with the refusals of `read_spec`.
pub fn finish_spec(alloc: Global, reader: PieceReader) -> Result<SpecFile, TextFault>
    ensures { (bytes : List ℕ) → HasReadBytes bytes reader → IsReadAs bytes result }
{
    let text = reader.finish()?;
    join_text(alloc, text)
}
