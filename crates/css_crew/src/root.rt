// Whether the root stands among the records of words that were pulled.
ghost use Rattle.std.specs.Prelude.{◌≡◌, ◌+◌, ◌<◌, ◌≤◌, ℕ, IfOk, OnOk, length, slice_index};
ghost use mathlib.Core.List.{IsPrefix};
ghost use Rattle.css_domain.specs.declared.record.Record.{Record as Item};
ghost use Rattle.css_domain.specs.Records.{words_of, numbers, IsWithin};
ghost use Rattle.css_domain.specs.WholeRecords.{IsWhole};
ghost use Rattle.css_crew.specs.Crews.{TellsRoot};
ghost use Rattle.lists.specs.Members.{IsIn};

use css_domain::{Record, WordView};
use css_prune::Pruner;
use std::alloc::{AllocError, Global};

/// The greatest of a number and those of a record.
fn greatest(item: &Record, least: u32) -> u32
    ensures least { least ≤ result }
    ensures own { item.now.parent ≤ result }
    ensures child { (slot : ℕ) → slot < length (numbers item.now) → slice_index (numbers item.now) slot ≤ result }
{
    let mut most = least.max(item.parent);
    for child in item.children.as_slice() {
        most = most.max(child.0);
    }
    most
}

/// The greatest number of some records.
fn greatest_of(records: &[Record]) -> u32
    ensures { (item : Item) → IsIn item records.now → IsWithin (result + 1) item }
{
    let mut most = 0;
    for item in records {
        most = greatest(item, most);
    }
    most
}

/// Takes in the words that are new, each read once, and tells whether class 0 stands among the records of all of
/// them. The refusal is want of memory.
pub(crate) fn root_stands(
    alloc: Global,
    pruner: &mut Pruner,
    words: &[u64],
) -> Result<bool, AllocError>
    requires whole { IsWhole words.now }
    requires first { IsPrefix (words_of pruner.old) words.now }
    ensures root { IfOk result (λ stands. TellsRoot words.now stands) }
    ensures taken { OnOk result (words_of pruner.new ≡ words.now) }
{
    let mut view = WordView::of(words);
    pruner.take(&mut view)?;
    let Some(classes) = greatest_of(pruner.records()).checked_add(1) else {
        return Err(AllocError);
    };
    let pruned = pruner.prune(alloc, classes)?;
    Ok(pruned.keep.as_slice()[0])
}
