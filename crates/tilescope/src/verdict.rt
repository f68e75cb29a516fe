ghost use Rattle.std.specs.Prelude.{◌≡◌, ◌≤◌, ◌+◌, ◌++◌, IfOk, OnOk, IsNone, Some, None, length};
ghost use Rattle.perm_core.specs.Basis.{IsBasis};
ghost use Rattle.outside.specs.Counts.{Rose};
ghost use Rattle.tilescope.specs.Answers.{IsTextAnswer};
ghost use Rattle.tilescope.specs.Verdicts.{refusal_text, rejected_line, accepted_line, checked_line, IsRejection};

use crate::made::{Answer, MOST_BYTES};
use crate::stream::{StreamFault, check_source};
use crate::usage::put_place;
use command_words::{Command, Request};
use outside::Source;
use spec_checker::{CheckFault, Checked};
use spec_text::put_terms;
use std::alloc::{AllocError, Global};

/// What the checker finds: the status that it ends with, and the line that says it.
#[derive(Drop)]
struct Verdict {
    status: u8,
    line: Vec<u8>,
}

/// Appends why a text is refused.
fn put_refusal(out: &mut Vec<u8>, fault: CheckFault) -> Result<(), AllocError>
    ensures text { OnOk result (out.new.items ≡ out.old.items ++ refusal_text fault) }
    ensures short { OnOk result (length out.new.items ≤ length out.old.items + 100) }
{
    match fault {
        CheckFault::Grammar { line } => put_place(out, b"grammar ", u64::from(line)),
        CheckFault::Limit { line } => put_place(out, b"limit ", u64::from(line)),
        CheckFault::OtherBasis => out.extend_from_slice(b"basis"),
        CheckFault::Root => out.extend_from_slice(b"root"),
        CheckFault::Rule { entry } => put_place(out, b"rule ", u64::from(entry)),
        CheckFault::Rank { entry, child } => {
            put_place(out, b"rank ", u64::from(entry))?;
            put_place(out, b" ", u64::from(child))
        }
        CheckFault::Terms { length } => put_place(out, b"terms ", u64::from(length)),
        CheckFault::Memory => Ok(()),
    }
}

/// The line that says why a text is refused.
fn rejected_line(alloc: Global, fault: CheckFault) -> Result<Vec<u8>, AllocError>
    ensures text { IfOk result (λ line. line.items ≡ rejected_line fault) }
    ensures short { IfOk result (λ line. length line.items ≤ 110) }
{
    let mut out = Vec::from_slice(alloc, b"rejected ")?;
    put_refusal(&mut out, fault)?;
    out.extend_from_slice(b"\n")?;
    Ok(out)
}

/// The line that says how many entries and terms an accepted text has.
fn accepted_line(alloc: Global, entries: u32, terms: u64) -> Result<Vec<u8>, AllocError>
    ensures { IfOk result (λ line. line.items ≡ accepted_line entries terms) }
{
    let mut out = Vec::new(alloc);
    put_place(&mut out, b"accepted ", u64::from(entries))?;
    put_place(&mut out, b" ", terms)?;
    out.extend_from_slice(b"\n")?;
    Ok(out)
}

/// What a command writes of an accepted text.
fn checked_line(alloc: Global, command: Command, checked: &Checked) -> Result<Vec<u8>, AllocError>
    ensures { IfOk result (λ line. line.items ≡ checked_line command checked.now.entries checked.now.terms.items) }
{
    match command {
        Command::Terms => {
            let mut out = Vec::new(alloc);
            put_terms(&mut out, checked.terms.as_slice())?;
            Ok(out)
        }
        Command::Check | Command::Search | Command::Count | Command::Sample => {
            accepted_line(alloc, checked.entries, checked.terms.len() as u64)
        }
    }
}

/// What is said of a text that is refused, which is nothing where memory ran out.
fn reject(alloc: Global, fault: CheckFault) -> Result<Verdict, AllocError>
    ensures says { IfOk result (λ v. IsRejection fault v.status v.line.items) }
    ensures short { IfOk result (λ v. length v.line.items ≤ 110) }
{
    match fault {
        CheckFault::Memory => Err(AllocError),
        fault => Ok(Verdict {
            status: 3,
            line: rejected_line(alloc, fault)?,
        }),
    }
}

/// What is said of a text that is accepted.
fn accept(alloc: Global, request: &Request, found: &Checked) -> Result<Verdict, AllocError>
    ensures { IfOk result (λ v. (v.status ≡ 0) × (v.line.items ≡ checked_line request.now.command found.now.entries found.now.terms.items)) }
{
    Ok(Verdict {
        status: 0,
        line: checked_line(alloc, request.command, found)?,
    })
}

/// The answer that says a verdict.
fn answered(verdict: Verdict) -> Answer
    ensures { result ≡ record { status = verdict.status; text = Some verdict.line.items; ledger = None } }
{
    Answer::of_line(verdict.status, verdict.line)
}

/// The answer of a command that reads a text: the verdict on all that the source has left. Its line is never too long
/// to be written: that of terms is a line of the text itself.
pub(crate) fn ask<S: Source>(
    alloc: Global,
    request: &Request,
    source: &mut S,
) -> Result<Answer, AllocError>
    requires basis { IsBasis request.now.basis }
    ensures answer { IfOk result (λ a. IsTextAnswer request.now (Rose (S.faults source.old) (S.faults source.new)) (S.left source.old) (S.left source.new) a.status a.text) }
    ensures no_ledger { IfOk result (λ a. IsNone a.ledger) }
{
    match check_source(alloc, request.basis.as_slice(), source, MOST_BYTES) {
        Ok(found) => Ok(answered(accept(alloc, request, &found)?)),
        Err(StreamFault::Check(fault)) => Ok(answered(reject(alloc, fault)?)),
        Err(StreamFault::Read) => Ok(Answer::silent(4)),
        Err(StreamFault::TooLong { .. }) => Ok(Answer::silent(7)),
        Err(StreamFault::Memory) => Err(AllocError),
    }
}
