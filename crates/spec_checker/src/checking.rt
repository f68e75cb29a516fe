ghost use Rattle.std.specs.Prelude.{◌≡◌, ◌≢◌, ◌≤◌, ◌↔◌, ◌+◌, ◌++◌, ℕ, List, [], IsTrue, IsOk, IfOk, IfErr, OnOk, OnErr, Err, length};
ghost use Rattle.perm_core.specs.Basis.{IsBasis};
ghost use Rattle.spec_text.specs.Joined.{AreJoined, IsReadAs};
ghost use Rattle.spec_checker.specs.Accepting.{Accepts, IsAccepted, AreCounts};
ghost use Rattle.spec_checker.specs.Refusing.{IsRefused, UnlessMemory};
ghost use Rattle.spec_checker.specs.Passing.{IsJudged};
ghost use Rattle.spec_checker.specs.Pieces.{HasReadFor, IsFoundOut};
ghost use Rattle.spec_reader.specs.Pieces.{HasReadBytes};

use crate::counts::{counts_of, first_difference};
use crate::law::verdicts_are_one;
use crate::ranks::first_wrong_rank;
use crate::root::is_rooted;
use crate::rules::first_wrong_rule;
use crate::verdict::{CheckFault, Checked};
use basis_terms::exact_terms_are_avoiders;
use css_terms::Term;
use perm_core::Perm;
use sequences::{Copied, Sequence};
use spec_text::{PieceReader, SpecFile, TextFault, finish_spec};
use std::alloc::{AllocError, Global};
use std::marker::Model;

/// Whether the words are the same.
#[tactic(auto, using(crate::proofs::Same::words_decide))]
fn are_same(words: &[Perm], basis: &[Perm]) -> bool
    ensures { IsTrue result ↔ (words.now ≡ basis.now) }
{
    words == basis
}

/// Judges a file that was read, apart from its bytes.
fn judge(alloc: Global, basis: &[Perm], file: &SpecFile) -> Result<Checked, CheckFault>
    requires basis { IsBasis basis.now }
    requires joined { AreJoined file.now.entries }
    requires some_entries { 1 ≤ length file.now.entries }
    requires few_entries { length file.now.entries ≤ 100000 }
    requires some_terms { 1 ≤ length file.now.terms }
    requires few_terms { length file.now.terms ≤ 201 }
    ensures { IsJudged basis.now file.now result }
{
    if !are_same(file.basis.as_slice(), basis) {
        return Err(CheckFault::OtherBasis);
    }
    let entries = file.entries.as_slice();
    if !is_rooted(alloc, basis, file.root_trace.as_slice(), entries)? {
        return Err(CheckFault::Root);
    }
    if let Some(entry) = first_wrong_rule(alloc, entries)? {
        return Err(CheckFault::Rule { entry });
    }
    if let Some((entry, child)) = first_wrong_rank(entries) {
        return Err(CheckFault::Rank { entry, child });
    }
    let counts = counts_of(alloc, entries, file.terms.len())?;
    if let Some(length) = first_difference(file.terms.as_slice(), counts.as_slice()) {
        return Err(CheckFault::Terms { length });
    }
    Ok(Checked {
        entries: entries.len() as u32,
        terms: counts,
    })
}

/// The refusal of a text that is not read.
fn unread(fault: TextFault) -> CheckFault
    ensures { (basis : List (List ℕ)) (bytes : List ℕ) → IsReadAs bytes (Err fault) → IsRefused basis bytes result }
{
    match fault {
        TextFault::Grammar { line } => CheckFault::Grammar { line },
        TextFault::Limit { line } => CheckFault::Limit { line },
        TextFault::Memory => CheckFault::Memory,
    }
}

/// Judges what a reader has read.
fn judge_read(alloc: Global, basis: &[Perm], reader: PieceReader) -> Result<Checked, CheckFault>
    requires { IsBasis basis.now }
    ensures { (bytes : List ℕ) → HasReadBytes bytes reader → IsFoundOut basis.now bytes result }
{
    exact_terms_are_avoiders();
    verdicts_are_one();
    match finish_spec(alloc, reader) {
        Ok(file) => judge(alloc, basis, &file),
        Err(fault) => Err(unread(fault)),
    }
}

/// A text that is checked for a basis while it comes in pieces, cut anywhere (docs/FORMATS.md, "What the checker
/// does"). It keeps what the lines say and the bytes of an unfinished line. Contracts see a relation between it, a
/// basis and the list of the bytes that it has read, `HasReadFor`.
#[derive(Drop)]
pub struct Checking {
    alloc: Global,
    basis: Sequence<Perm>,
    reader: PieceReader,
}

impl Model for Checking {
    ghost use Rattle.perm_core.specs.Basis.{IsBasis};
    ghost use Rattle.spec_checker.specs.Pieces.{CheckingState};

    ghost Value = { CheckingState };

    ghost view = { λ c. record { basis = c.basis; read = c.reader } };

    ghost invariant = { λ c. IsBasis c.basis };
}

impl Checking {
    /// No byte has been read. The refusal is want of memory.
    pub fn new(alloc: Global, basis: &[Perm]) -> Result<Checking, AllocError>
        requires { IsBasis basis.now }
        ensures read { IfOk result (λ checking. HasReadFor basis.now [] checking) }
        ensures many { IfOk result (λ checking. checking.read.many ≡ 0) }
    {
        let basis = Sequence::of(Perm::copy_all(basis, alloc)?);
        Ok(Checking {
            alloc,
            basis,
            reader: PieceReader::new(alloc),
        })
    }

    /// How many bytes have been read. Takes no memory.
    pub fn bytes_read(&self) -> u32
        ensures { result ≡ self.now.read.many }
    {
        self.reader.bytes_read()
    }

    /// Goes on with a piece; all pieces together have at most 268,435,456 bytes. The refusal is want of memory, and
    /// then nothing has changed.
    pub fn feed(&mut self, piece: &[u8]) -> Result<(), AllocError>
        requires few { self.old.read.many + length piece.now ≤ 268435456 }
        ensures read { OnOk result ((basis : List (List ℕ)) (bytes : List ℕ) → HasReadFor basis bytes self.old → HasReadFor basis (bytes ++ piece.now) self.new) }
        ensures many { OnOk result (self.new.read.many ≡ self.old.read.many + length piece.now) }
        ensures stays { OnErr result (self.new ≡ self.old) }
    {
        self.reader.feed(piece)
    }

    /// What is found of the text that has been read, as `checked` tells.
    pub fn finish(self) -> Result<Checked, CheckFault>
        ensures { (basis : List (List ℕ)) (bytes : List ℕ) → HasReadFor basis bytes self → IsFoundOut basis bytes result }
    {
        let Checking {
            alloc,
            basis,
            reader,
        } = self;
        judge_read(alloc, basis.as_slice(), reader)
    }
}

/// Reads a text at once and judges it.
fn read_and_judge(alloc: Global, basis: &[Perm], bytes: &[u8]) -> Result<Checked, CheckFault>
    requires basis { IsBasis basis.now }
    requires few { length bytes.now ≤ 268435456 }
    ensures { IsFoundOut basis.now bytes.now result }
{
    let mut checking = Checking::new(alloc, basis)?;
    checking.feed(bytes)?;
    checking.finish()
}

/// Checks a text of at most 268,435,456 bytes for a basis as `read_basis` gives it: whether it has a specification of
/// the basis whose rules follow, with its counts. The refusals are those of `CheckFault`, in its order (docs/FORMATS.md,
/// "What the checker does").
pub fn checked(alloc: Global, basis: &[Perm], bytes: &[u8]) -> Result<Checked, CheckFault>
    requires basis { IsBasis basis.now }
    requires few { length bytes.now ≤ 268435456 }
    ensures accepted { IfOk result (λ c. IsAccepted basis.now bytes.now c.entries c.terms.items) }
    ensures accepts { Accepts basis.now bytes.now → UnlessMemory result (IsOk result) }
    ensures refused { IfErr result (λ fault. IsRefused basis.now bytes.now fault) }
    ensures refuses { (fault : CheckFault) → fault ≢ CheckFault.Memory → IsRefused basis.now bytes.now fault → UnlessMemory result (result ≡ Err fault) }
    ensures counts { IfOk result (λ c. AreCounts basis.now c.terms.items) }
{
    read_and_judge(alloc, basis, bytes)
}

/// The terms of a text that is accepted for a basis, as `checked` tells (docs/FORMATS.md, "What the checker does").
pub fn check(alloc: Global, basis: &[Perm], bytes: &[u8]) -> Result<Vec<Term>, CheckFault>
    requires basis { IsBasis basis.now }
    requires few { length bytes.now ≤ 268435456 }
    ensures accepted { IfOk result (λ terms. (entries : ℕ) × IsAccepted basis.now bytes.now entries terms.items) }
    ensures accepts { Accepts basis.now bytes.now → UnlessMemory result (IsOk result) }
    ensures refused { IfErr result (λ fault. IsRefused basis.now bytes.now fault) }
    ensures refuses { (fault : CheckFault) → fault ≢ CheckFault.Memory → IsRefused basis.now bytes.now fault → UnlessMemory result (result ≡ Err fault) }
    ensures counts { IfOk result (λ terms. AreCounts basis.now terms.items) }
{
    match checked(alloc, basis, bytes) {
        Ok(Checked { terms, .. }) => Ok(terms),
        Err(fault) => Err(fault),
    }
}
