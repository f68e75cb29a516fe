ghost use Rattle.std.specs.Prelude.{◌≡◌, IfOk, map};
ghost use Rattle.spec_lines.specs.Forms.Line.{Requirements};
ghost use Rattle.spec_lines.specs.Follows.Place.{AtRequirements};
ghost use Rattle.spec_lines.specs.Readings.{line_at};
ghost use Rattle.line_readers.specs.Answers.{IsLineAnswer};

use gridded::Gridded;
pub(crate) use line_readers::{
    ItemFault, Number, announced, basis_line, cut, entries_line, entry_line, grid_line, obs_line,
    root_line, rule_children, rule_line, terms_line, to_line,
};
use sequences::Sequence;
use std::alloc::{AllocError, Global};

/// Lists as sequences.
fn as_sequences(
    alloc: Global,
    lists: Vec<Vec<Gridded>>,
) -> Result<Vec<Sequence<Gridded>>, AllocError>
    ensures { IfOk result (λ v. v.items ≡ map (λ list. list.items) lists.items) }
{
    let mut sequences = Vec::with_capacity(alloc, lists.len())?;
    for list in lists {
        sequences.push(Sequence::of(list))?;
    }
    Ok(sequences)
}

/// The requirement lists of the line `req`.
pub(crate) fn req_line(alloc: Global, line: &[u8]) -> Result<Vec<Sequence<Gridded>>, ItemFault>
    ensures { IsLineAnswer (line_at (AtRequirements 0 0) line.now) (λ v. Requirements v.items) result }
{
    let lists = line_readers::req_line(alloc, line)?;
    let Ok(sequences) = as_sequences(alloc, lists) else {
        return Err(ItemFault::Memory);
    };
    Ok(sequences)
}
