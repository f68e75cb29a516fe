//! The words of the records of one filing (docs/RULES.md, "Records").
ghost use Rattle.std.specs.Prelude.{◌≡◌, ◌+◌, ◌*◌, ◌^◌, ◌<◌, ◌≤◌, ◌++◌, ◌∷◌, [], ℕ, cond, length, map, take, slice_get, Some};
ghost use Rattle.css_domain.specs.Records.{shape_code, record_words, words_of};
ghost use Rattle.css_domain.specs.Ledgers.{classes, record_of, records};
ghost use Rattle.css_domain.specs.LedgerFacts.{IsLedger};
ghost use Rattle.css_log.specs.States.{HasRoom};
ghost use Rattle.css_domain.specs.WholeRecords.{IsWhole, IsNarrowShape};
ghost use Rattle.css_store.specs.Desks.{HasRoomFor};
ghost use Rattle.css_store.specs.RecordWords.{child_words};

use css_domain::{Domain, Shape};
use css_ledger::Ledger;
use css_log::{Log, Writer};

fn code_of(shape: Shape) -> u64
    ensures code { result ≡ shape_code shape }
    ensures narrow { IsNarrowShape shape }
    ensures small { result < 2 ^ 32 }
{
    match shape {
        Shape::Union => 0,
        Shape::Product => 1,
        Shape::Nothing => 2,
        Shape::Atom(length) => 16 + length as u64,
    }
}

fn child_word(number: u32, positive: bool) -> u64
    ensures { result ≡ 2 * number + cond positive 1 0 }
{
    2 * number as u64 + positive as u64
}

/// Appends the words of the children of the rule at a position.
fn append_children<D: Domain>(
    ledger: &Ledger<D>,
    writer: &mut Writer,
    log: &Log,
    position: u32,
    rule: &D::Rule,
)
    requires ledger { IsLedger D.meaning ledger.now }
    requires log { writer.old.log ≡ log.now }
    requires position { position < length ledger.now.rules }
    requires rule { slice_get ledger.now.rules position ≡ Some rule.now }
    requires room { HasRoom log.now (length writer.old.list + length (D.meaning.children rule.now)) }
    ensures { writer.new ≡ record writer.old { list = writer.old.list ++ child_words (record_of D.meaning (classes D.meaning ledger.now) rule.now) } }
{
    for slot in 0..D::arity(rule) {
        let positive = D::positive(D::child(rule, slot));
        writer.append(log, &[child_word(ledger.child(position, slot), positive)]);
    }
}

/// Appends the words of the record of the rule at a position, whose class has the number.
fn append_record<D: Domain>(
    ledger: &Ledger<D>,
    writer: &mut Writer,
    log: &Log,
    number: u32,
    position: u32,
)
    requires ledger { IsLedger D.meaning ledger.now }
    requires log { writer.old.log ≡ log.now }
    requires position { position < length ledger.now.rules }
    requires own { (r : D.Rule) → slice_get ledger.now.rules position ≡ Some r → slice_get (classes D.meaning ledger.now) number ≡ Some (D.meaning.parent r) }
    requires room { (r : D.Rule) → slice_get ledger.now.rules position ≡ Some r → HasRoom log.now (length writer.old.list + (2 + length (D.meaning.children r))) }
    requires whole { IsWhole writer.old.list }
    ensures list { (r : D.Rule) → slice_get ledger.now.rules position ≡ Some r → writer.new ≡ record writer.old { list = writer.old.list ++ record_words (record_of D.meaning (classes D.meaning ledger.now) r) } }
    ensures whole { IsWhole writer.new.list }
{
    let rule = ledger.rule(position);
    let head = (number as u64) * 4294967296 + code_of(D::shape(rule));
    writer.append(log, &[head, D::arity(rule) as u64]);
    append_children(ledger, writer, log, position, rule);
}

/// Appends the words of the records from this position on, which are those of rules of the class of the number.
pub(crate) fn append_records<D: Domain>(
    ledger: &Ledger<D>,
    writer: &mut Writer,
    log: &Log,
    number: u32,
    first: u32,
)
    requires log { writer.old.log ≡ log.now }
    requires first { first ≤ length ledger.now.rules }
    requires before { writer.old.list ≡ words_of (take first (records D.meaning ledger.now)) }
    requires whole { IsWhole writer.old.list }
    requires own { (k : ℕ) (r : D.Rule) → first ≤ k → slice_get ledger.now.rules k ≡ Some r → slice_get (classes D.meaning ledger.now) number ≡ Some (D.meaning.parent r) }
    requires room { HasRoomFor ledger.now.budget log.now }
    ensures list { writer.new ≡ record writer.old { list = words_of (records D.meaning ledger.now) } }
    ensures whole { IsWhole writer.new.list }
{
    let end = ledger.counts().rules;
    for position in first..end {
        append_record(ledger, writer, log, number, position);
    }
}
