ghost use Rattle.std.specs.Prelude.{◌≡◌, IfOk};
ghost use Rattle.rule_kinds.specs.Rules.{HasKeptLists};

use rule_kinds::Kind;
use sequences::{Copied, Sequence};
use std::alloc::{AllocError, Global};
use std::marker::Model;
use steps::Step;
use tiling_core::Tiling;

/// A rule: its kind, the tiling that it makes, the tilings that it makes it from, and for each of these the
/// steps that reduce the raw child to it. Its children, its traces and the steps of each are fewer than
/// 268,435,456.
#[derive(Debug, Drop, PartialEq, Eq)]
pub struct TileRule {
    kind: Kind,
    parent: Tiling,
    children: Sequence<Tiling>,
    traces: Sequence<Sequence<Step>>,
}

impl Model for TileRule {
    ghost use Rattle.rule_kinds.specs.Rules.{TilingRule, HasKeptLists};

    ghost Value = { TilingRule };

    ghost view = { λ r. record { kind = r.kind; parent = r.parent; children = r.children; traces = r.traces } };

    ghost invariant = { λ r. HasKeptLists (record { kind = r.kind; parent = r.parent; children = r.children; traces = r.traces }) };

    ghost inverse = { λ r. record { kind = r.kind; parent = r.parent; children = r.children; traces = r.traces } };
}

impl TileRule {
    /// The rule of these parts, each of whose lists has fewer than 268,435,456 items. Takes no memory.
    pub fn of(
        kind: Kind,
        parent: Tiling,
        children: Sequence<Tiling>,
        traces: Sequence<Sequence<Step>>,
    ) -> TileRule
        requires { HasKeptLists (record { kind = kind; parent = parent; children = children; traces = traces }) }
        ensures { result ≡ record { kind = kind; parent = parent; children = children; traces = traces } }
    {
        TileRule {
            kind,
            parent,
            children,
            traces,
        }
    }

    /// What it does. Takes no memory.
    pub fn kind(&self) -> &Kind
        ensures value { result.now ≡ self.now.kind }
        ensures kept { HasKeptLists self.now }
    {
        &self.kind
    }

    /// The tiling that it makes. Takes no memory.
    pub fn parent(&self) -> &Tiling
        ensures value { result.now ≡ self.now.parent }
        ensures kept { HasKeptLists self.now }
    {
        &self.parent
    }

    /// The tilings that it makes it from. Takes no memory.
    pub fn children(&self) -> &[Tiling]
        ensures value { result.now ≡ self.now.children }
        ensures kept { HasKeptLists self.now }
    {
        self.children.as_slice()
    }

    /// The steps that reduce each raw child to its child. Takes no memory.
    pub fn traces(&self) -> &[Sequence<Step>]
        ensures value { result.now ≡ self.now.traces }
        ensures kept { HasKeptLists self.now }
    {
        self.traces.as_slice()
    }
}

/// Copies of traces.
fn copies(alloc: Global, traces: &[Sequence<Step>]) -> Result<Vec<Sequence<Step>>, AllocError>
    ensures { IfOk result (λ copied. copied.items ≡ traces.now) }
{
    let mut copied = Vec::with_capacity(alloc, traces.len())?;
    for trace in traces {
        copied.push(Sequence::of(Vec::from_slice(alloc, trace.as_slice())?))?;
    }
    Ok(copied)
}

impl Copied for TileRule {
    fn copy(&self, alloc: Global) -> Result<TileRule, AllocError> {
        Ok(TileRule {
            kind: self.kind.copy(alloc)?,
            parent: self.parent.copy(alloc)?,
            children: self.children.copy(alloc)?,
            traces: Sequence::of(copies(alloc, self.traces.as_slice())?),
        })
    }
}
