ghost use Rattle.std.specs.Prelude.{◌≡◌, ◌<◌, true, All, IfOk, Some, length, map};
ghost use Rattle.std.specs.List.{zip};
ghost use Rattle.sequences.specs.Bounds.{IsFew};
ghost use Rattle.spec_text.specs.Joining.{class_of, family_of, with_children, AreNumbers, IsJoining};

use css_prune::Entry;
use sequences::{Copied, Sequence, TOO_MANY};
use spec_reader::DraftEntry;
use std::alloc::{AllocError, Global};
use steps::Step;
use tile_rules::{TileRule, Tiles};
use tiling_core::Tiling;

/// Copies of the classes of the drafts of these numbers.
fn family(
    alloc: Global,
    drafts: &[DraftEntry],
    numbers: &[u32],
) -> Result<Sequence<Tiling>, AllocError>
    requires { All (λ number. number < length drafts.now) numbers.now }
    ensures classes { IfOk result (λ family. map Some family ≡ family_of drafts.now numbers.now) }
    ensures few { IfOk result (λ family. IsFew family) }
{
    let mut family = Vec::with_capacity(alloc, numbers.len())?;
    for number in numbers {
        let draft = &drafts[*number as usize];
        family.push(draft.class.copy(alloc)?)?;
    }
    Sequence::try_of(family)
}

/// For each draft copies of the classes that it names.
fn families(alloc: Global, drafts: &[DraftEntry]) -> Result<Vec<Sequence<Tiling>>, AllocError>
    requires { AreNumbers drafts.now }
    ensures classes { IfOk result (λ families. map (λ family. map Some family) families.items ≡ map (λ d. family_of drafts.now d.children) drafts.now) }
    ensures few { IfOk result (λ families. All (λ family. IsFew family) families.items) }
{
    let mut families = Vec::with_capacity(alloc, drafts.len())?;
    for draft in drafts {
        families.push(family(alloc, drafts, draft.children.as_slice())?)?;
    }
    Ok(families)
}

/// Whether no trace is too long to be kept.
fn are_few(traces: &[Sequence<Step>]) -> bool
    ensures { result ≡ true → All (λ trace. IsFew trace) traces.now }
{
    for trace in traces {
        if trace.len() >= TOO_MANY {
            return false;
        }
    }
    true
}

/// The entry of a draft, whose rule has these children.
fn joined(
    alloc: Global,
    draft: DraftEntry,
    family: Sequence<Tiling>,
) -> Result<Entry<Tiles>, AllocError>
    requires { IsFew family }
    ensures { IfOk result (λ entry. entry ≡ with_children draft family) }
{
    let DraftEntry {
        class,
        rank,
        kind,
        children,
        traces,
    } = draft;
    if !are_few(traces.as_slice()) {
        return Err(AllocError);
    }
    let traces = Sequence::try_of(traces.into_vec())?;
    let parent = class.copy(alloc)?;
    Ok(Entry {
        class,
        rule: TileRule::of(kind, parent, family, traces),
        children,
        rank,
    })
}

/// The entries of the drafts, whose rules have these children.
fn joined_all(
    alloc: Global,
    drafts: Vec<DraftEntry>,
    families: Vec<Sequence<Tiling>>,
) -> Result<Vec<Entry<Tiles>>, AllocError>
    requires { All (λ family. IsFew family) families.items }
    ensures { IfOk result (λ entries. entries.items ≡ map (λ p. with_children p.0 p.1) (zip drafts.items families.items)) }
{
    let mut entries = Vec::with_capacity(alloc, drafts.len())?;
    for (draft, family) in drafts.into_iter().zip(families) {
        entries.push(joined(alloc, draft, family)?)?;
    }
    Ok(entries)
}

/// The entries of the drafts: the children of each rule are copies of the classes that are named for them.
pub(crate) fn join(alloc: Global, drafts: Vec<DraftEntry>) -> Result<Vec<Entry<Tiles>>, AllocError>
    requires { AreNumbers drafts.items }
    ensures { IfOk result (λ entries. IsJoining drafts.items entries.items) }
{
    let families = families(alloc, drafts.as_slice())?;
    joined_all(alloc, drafts, families)
}
