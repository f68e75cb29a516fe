ghost use Rattle.std.specs.Prelude.{◌≡◌, ◌<◌, ◌++◌, ◌∷◌, [], All, IfOk, vec_len, vec_capacity};
ghost use Rattle.spec_reader.specs.Drafts.{IsMakeable};

use gridded::Gridded;
use rule_kinds::Kind;
use sequences::Sequence;
use std::alloc::{AllocError, Global};
use std::marker::Model;
use steps::Step;
use tiling_core::Tiling;

/// An entry whose children are named by their numbers.
#[derive(Drop)]
pub struct DraftEntry {
    pub class: Tiling,
    pub rank: u32,
    pub kind: Kind,
    pub children: Sequence<u32>,
    pub traces: Sequence<Sequence<Step>>,
}

impl Model for DraftEntry {
    ghost use Rattle.spec_lines.specs.Files.{FileEntry};

    ghost Value = { FileEntry };

    ghost view = { λ e. record { class = e.class; rank = e.rank; kind = e.kind; children = e.children; traces = e.traces } };
}

/// An entry whose tiling is still in parts.
#[derive(Drop)]
pub(crate) struct EntryParts {
    pub(crate) width: u8,
    pub(crate) height: u8,
    pub(crate) obstructions: Vec<Gridded>,
    pub(crate) requirements: Vec<Sequence<Gridded>>,
    pub(crate) rank: u32,
    pub(crate) kind: Kind,
    pub(crate) children: Sequence<u32>,
    pub(crate) traces: Sequence<Sequence<Step>>,
}

impl Model for EntryParts {
    ghost use Rattle.spec_lines.specs.Files.{FileEntry};

    ghost Value = { FileEntry };

    ghost view = { λ e. record {
      class = record { width = e.width; height = e.height; obstructions = e.obstructions.items; requirements = e.requirements.items };
      rank = e.rank;
      kind = e.kind;
      children = e.children;
      traces = e.traces;
    } };
}

/// Appends an item to a vector that has room for it.
pub(crate) fn put<T: Drop>(items: &mut Vec<T>, item: T)
    requires { vec_len items.old < vec_capacity items.old }
    ensures { items.new.items ≡ items.old.items ++ item ∷ [] }
{
    let Ok(()) = items.push(item) else {
        unreachable!()
    };
}

/// The entry with its tiling.
fn made(parts: EntryParts) -> Result<DraftEntry, AllocError>
    requires { IsMakeable parts }
    ensures { IfOk result (λ entry. entry ≡ parts) }
{
    let class = Tiling::in_grid(
        parts.width,
        parts.height,
        parts.obstructions,
        parts.requirements,
    )?;
    Ok(DraftEntry {
        class,
        rank: parts.rank,
        kind: parts.kind,
        children: parts.children,
        traces: parts.traces,
    })
}

/// The entries with their tilings.
pub(crate) fn all_made(
    alloc: Global,
    entries: Vec<EntryParts>,
) -> Result<Vec<DraftEntry>, AllocError>
    requires { All (λ entry. IsMakeable entry) entries.items }
    ensures { IfOk result (λ made. made.items ≡ entries.items) }
{
    let mut whole = Vec::with_capacity(alloc, entries.len())?;
    for parts in entries {
        whole.push(made(parts)?)?;
    }
    Ok(whole)
}
