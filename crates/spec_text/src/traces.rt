ghost use Rattle.std.specs.Prelude.{◌≡◌, ◌++◌, OnOk, OnErr, decimal, map};
ghost use Rattle.spec_lines.specs.Lines.{each_after};
ghost use Rattle.spec_lines.specs.Traces.{step_text, trace_items, basis_line, root_line, head_text, child_line};

use crate::class::put_line;
use crate::spell::{Spell, put_bytes, put_each_after, put_number, put_separated, put_whole};
use perm_core::Perm;
use std::alloc::AllocError;
use steps::Step;

impl Spell for Step {
    ghost text = { step_text };

    fn put(&self, out: &mut Vec<u8>) -> Result<(), AllocError> {
        match self {
            Step::Void => put_bytes(out, b"V"),
            Step::Min => put_bytes(out, b"M"),
            Step::Lists => put_bytes(out, b"L"),
            Step::Clean(cell) => {
                put_bytes(out, b"K")?;
                cell.put(out)
            }
            Step::Column(column) => {
                put_bytes(out, b"C")?;
                put_number(out, u32::from(*column))
            }
            Step::Row(row) => {
                put_bytes(out, b"R")?;
                put_number(out, u32::from(*row))
            }
        }
    }
}

/// Appends the line of the basis.
fn put_basis(out: &mut Vec<u8>, basis: &[Perm]) -> Result<(), AllocError>
    ensures { OnOk result (out.new.items ≡ out.old.items ++ basis_line basis.now) }
{
    put_bytes(out, b"basis ")?;
    put_separated(out, b',', basis)?;
    put_bytes(out, b"\n")
}

/// The lines of the basis and of the trace that leads to the root.
#[derive(Clone, Copy)]
pub(crate) struct HeadLines<'a> {
    pub(crate) basis: &'a [Perm],
    pub(crate) root_trace: &'a [Step],
}

impl<'a> Spell for HeadLines<'a> {
    ghost text = { λ head. head_text head.basis.now head.root_trace.now };

    fn put(&self, out: &mut Vec<u8>) -> Result<(), AllocError> {
        put_basis(out, self.basis)?;
        put_line(out, b"root", self.root_trace)
    }
}

/// Appends the lines `basis` and `root` of a specification (docs/FORMATS.md, "The text of a
/// specification"). The refusal is want of memory, and then `out` is as before.
pub fn put_head(out: &mut Vec<u8>, basis: &[Perm], root_trace: &[Step]) -> Result<(), AllocError>
    ensures ok { OnOk result (out.new.items ≡ out.old.items ++ head_text basis.now root_trace.now) }
    ensures err { OnErr result (out.new.items ≡ out.old.items) }
{
    put_whole(out, &HeadLines { basis, root_trace })
}

/// Appends the items of a trace, or a dash where it has no step, each after a blank.
fn put_trace(out: &mut Vec<u8>, trace: &[Step]) -> Result<(), AllocError>
    ensures { OnOk result (out.new.items ≡ out.old.items ++ each_after 32 (trace_items trace.now)) }
{
    if trace.is_empty() {
        return put_bytes(out, b" -");
    }
    put_each_after(out, b' ', trace)
}

/// The line of a child: the number of the entry that it is, and the trace that leads to it.
#[derive(Clone, Copy)]
pub(crate) struct ChildLine<'a> {
    pub(crate) child: u32,
    pub(crate) trace: &'a [Step],
}

impl<'a> Spell for ChildLine<'a> {
    ghost text = { λ line. child_line line.child line.trace.now };

    fn put(&self, out: &mut Vec<u8>) -> Result<(), AllocError> {
        put_bytes(out, b"to ")?;
        put_number(out, self.child)?;
        put_trace(out, self.trace)?;
        put_bytes(out, b"\n")
    }
}
