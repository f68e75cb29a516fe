ghost use Rattle.std.specs.Prelude.{◌≡◌, ◌<◌, ◌↔◌, IsTrue, IfOk, Some, All, length};
ghost use Rattle.tiling_core.specs.Tiles.{IsTiling, IsKept};
ghost use Rattle.steps.specs.Traces.{replay};
ghost use Rattle.rule_kinds.specs.Replayed.{AreReplays};
ghost use Rattle.rule_kinds.specs.Follows.{Follows};

use crate::raw::raw_children;
use crate::rule::TileRule;
use rule_kinds::{RawFault, read_kind};
use sequences::Sequence;
use std::alloc::{AllocError, Global};
use steps::{ReplayFault, Step, replay};
use tiling_core::Tiling;

/// Reads each tiling, so that what their type keeps is known.
fn read_tilings(tilings: &[Tiling])
    ensures { All (λ t. IsTiling t) tilings.now }
{
    for tiling in tilings {
        let _ = tiling.width();
    }
}

/// Whether a trace leads from a raw child to a child.
fn leads_to(alloc: Global, raw: Tiling, trace: &[Step], child: &Tiling) -> Result<bool, AllocError>
    requires { IsKept trace.now }
    ensures { IfOk result (λ it_does. IsTrue it_does ↔ (replay raw trace.now ≡ Some child.now)) }
{
    match replay(alloc, raw, trace) {
        Ok(left) => Ok(left == *child),
        Err(ReplayFault::NotApplicable { .. }) => Ok(false),
        Err(ReplayFault::Memory) => Err(AllocError),
    }
}

/// Whether each trace leads from its raw child to its child.
fn lead_to(
    alloc: Global,
    raw: Vec<Tiling>,
    traces: &[Sequence<Step>],
    children: &[Tiling],
) -> Result<bool, AllocError>
    requires as_many_traces { length traces.now ≡ length raw.items }
    requires as_many_children { length children.now ≡ length raw.items }
    requires each_trace { All (λ trace. IsKept trace) traces.now }
    ensures { IfOk result (λ they_do. IsTrue they_do ↔ AreReplays raw.items traces.now children.now) }
{
    let mut at = 0;
    for tiling in raw {
        if !leads_to(alloc, tiling, traces[at].as_slice(), &children[at])? {
            return Ok(false);
        }
        at += 1;
    }
    Ok(true)
}

/// Whether a rule follows: its kind applies to its parent, and each child is the replay of its trace on the raw
/// child (docs/RULES.md, "Kinds of rules"). The refusal is want of memory.
pub fn check_rule(alloc: Global, rule: &TileRule) -> Result<bool, AllocError>
    ensures exact { IfOk result (λ it_does. IsTrue it_does ↔ Follows rule.now) }
{
    let raw = match raw_children(alloc, rule.parent(), rule.kind()) {
        Ok(raw) => raw,
        Err(RawFault::NotApplicable) => return Ok(false),
        Err(RawFault::Memory) => return Err(AllocError),
    };
    let traces = rule.traces();
    let children = rule.children();
    if traces.len() != raw.len() {
        return Ok(false);
    }
    if children.len() != raw.len() {
        return Ok(false);
    }
    let _ = rule.parent().width();
    read_kind(rule.kind());
    read_tilings(&raw);
    lead_to(alloc, raw, traces, children)
}
