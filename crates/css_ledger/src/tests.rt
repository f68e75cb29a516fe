ghost use Rattle.std.specs.Prelude.{◌≤◌, ℕ, IfOk, length};
ghost use Rattle.css_domain.specs.LedgerFacts.{IsFilingOf};

use crate::ledger::{Counts, Ledger};
use crate::pack::{Claimed, Pack};
use css_domain::{Domain, Filing, Record, Shape};
use std::alloc::{AllocError, Global};
use std::test::Fail;

/// Numbers without members, of which the odd ones count as positive. A rule makes a number from two.
struct Numbers;

#[derive(Drop)]
struct Pair {
    parent: u32,
    first: u32,
    second: u32,
}

impl Domain for Numbers {
    ghost use Rattle.std.specs.Prelude.{ℕ, [], ◌∷◌, ◌==◌, ◌%◌, nat_eq, refl};
    ghost use Rattle.std.proofs.Common.{sym, ◌∙◌};
    ghost use Rattle.std.proofs.lemmas.List.Sums.{sum_by-cons};
    ghost use Rattle.std.proofs.lemmas.Bool.{eqb-true};
    ghost use Rattle.css_domain.specs.Meanings.{Meaning};
    ghost use Rattle.css_domain.specs.declared.shape.Shape.TheVariants.{Union};

    type Class = u32;

    type Rule = Pair;

    ghost meaning = { record { same = nat_eq; positive = λ c. c % 2 == 1; count = λ c n. 0; parent = λ r. r.parent; children = λ r. r.first ∷ r.second ∷ []; shape = λ r. Union; holds = λ r. Unit {0}; complete = λ rulebook c rules. Unit {0} } };

    fn parent(rule: &Pair) -> &u32 {
        &rule.parent
    }

    fn arity(_rule: &Pair) -> u32 {
        2
    }

    fn child(rule: &Pair, slot: u32) -> &u32 {
        if slot == 0 {
            return &rule.first;
        }
        &rule.second
    }

    fn shape(_rule: &Pair) -> Shape {
        Shape::Union
    }

    fn positive(class: &u32) -> bool {
        class % 2 == 1
    }

    fn copy(_alloc: Global, class: &u32) -> Result<u32, AllocError> {
        Ok(*class)
    }

    fn copy_rule(_alloc: Global, rule: &Pair) -> Result<Pair, AllocError> {
        Ok(Pair {
            parent: rule.parent,
            first: rule.first,
            second: rule.second,
        })
    }

    ghost exact = { eqb-true };

    ghost same = { λ a b. refl };

    ghost combined = { λ r h n. sym (sum_by-cons (λ (c : ℕ → ℕ). c n) (λ m. 0) ((λ m. 0) ∷ []) ∙ sum_by-cons (λ (c : ℕ → ℕ). c n) (λ m. 0) []) };

    ghost none_of_length_0 = { λ c h. refl };
}

/// The filing of a number that makes it from each of the pairs.
fn filing_of(
    alloc: Global,
    parent: u32,
    pairs: &[(u32, u32)],
) -> Result<Filing<Numbers>, AllocError>
    requires { length pairs.now ≤ 4 }
    ensures { IfOk result (λ filing. (rulebook : ℕ) → IsFilingOf ⟦<Numbers as Domain>⟧.meaning rulebook parent filing) }
{
    let mut rules = Vec::new(alloc);
    for pair in pairs {
        rules.push(Pair {
            parent,
            first: pair.0,
            second: pair.1,
        })?;
    }
    Ok(Filing::of(rules))
}

/// Files for the pack's number what makes it from each of the pairs.
fn file(
    alloc: Global,
    ledger: &mut Ledger<Numbers>,
    pack: Pack,
    pairs: &[(u32, u32)],
) -> Result<(), AllocError>
    requires { length pairs.now ≤ 4 }
{
    let number = pack.number();
    if !ledger.is_out(number) || number >= ledger.counts().classes {
        ledger.give_back(pack);
        return Err(AllocError);
    }
    let Ok(filing) = filing_of(alloc, *ledger.class(number), pairs) else {
        ledger.give_back(pack);
        return Err(AllocError);
    };
    let Err((pack, _)) = ledger.file(pack, filing) else {
        return Ok(());
    };
    ledger.give_back(pack);
    Err(AllocError)
}

fn has_classes(ledger: &Ledger<Numbers>, expected: &[u32]) -> bool {
    let counts = ledger.counts();
    if counts.classes as usize != expected.len() {
        return false;
    }
    for number in 0..counts.classes {
        if *ledger.class(number) != expected[number as usize] {
            return false;
        }
    }
    true
}

fn has_journal(ledger: &Ledger<Numbers>, expected: &[(u32, u32)]) -> bool {
    let counts = ledger.counts();
    if counts.expanded as usize != expected.len() {
        return false;
    }
    for place in 0..counts.expanded {
        if ledger.filed(place) != expected[place as usize] {
            return false;
        }
    }
    true
}

/// Whether these numbers are out and no others, up to one that is no class.
fn has_out(ledger: &Ledger<Numbers>, expected: &[u32]) -> bool {
    for number in 0..10 {
        if ledger.is_out(number) != expected.contains(&number) {
            return false;
        }
    }
    true
}

/// Whether these numbers are done and no other classes.
fn has_done(ledger: &Ledger<Numbers>, expected: &[u32]) -> bool {
    for number in 0..ledger.counts().classes {
        if ledger.is_done(number) != expected.contains(&number) {
            return false;
        }
    }
    true
}

/// Whether the rules have children with these numbers.
fn has_children(ledger: &Ledger<Numbers>, expected: &[(u32, u32)]) -> bool {
    let rules = ledger.counts().rules;
    if rules as usize != expected.len() {
        return false;
    }
    for position in 0..rules {
        let children = (ledger.child(position, 0), ledger.child(position, 1));
        if children != expected[position as usize] {
            return false;
        }
    }
    true
}

fn is_record(item: &Record, parent: u32, children: &[(u32, bool)]) -> bool {
    item.parent == parent && item.shape == Shape::Union && item.children.as_slice() == children
}

fn claim_work(ledger: &mut Ledger<Numbers>) -> Result<Pack, AllocError> {
    match ledger.claim() {
        Claimed::Work(pack) => Ok(pack),
        Claimed::Spent => Err(AllocError),
        Claimed::Idle => Err(AllocError),
        Claimed::Finished => Err(AllocError),
    }
}

/// Claims a number and files what makes it from each of the pairs. What is refused is tried again, if the
/// ledger is as before.
fn file_next(
    alloc: Global,
    ledger: &mut Ledger<Numbers>,
    pairs: &[(u32, u32)],
) -> Result<(), AllocError>
    requires { length pairs.now ≤ 4 }
{
    let before = ledger.counts();
    let pack = claim_work(ledger)?;
    if file(alloc, ledger, pack, pairs).is_ok() {
        return Ok(());
    }
    if ledger.counts() != before {
        return Err(AllocError);
    }
    let pack = claim_work(ledger)?;
    file(alloc, ledger, pack, pairs)
}

/// What a claim would answer now.
fn next_answer(ledger: &mut Ledger<Numbers>) -> &'static str {
    match ledger.claim() {
        Claimed::Work(pack) => {
            ledger.give_back(pack);
            "work"
        }
        Claimed::Spent => "spent",
        Claimed::Idle => "idle",
        Claimed::Finished => "finished",
    }
}

#[test]
fn a_claim_tells_why_there_is_no_work(rt: HostRuntime) -> Result<(), Fail> {
    let alloc = rt.alloc();
    let mut one = Ledger::<Numbers>::new(alloc, 50, 1, 0)?;
    let pack = claim_work(&mut one)?;
    assert_eq!(rt; pack.number(), 0);
    assert_eq!(rt; next_answer(&mut one), "spent");
    file(alloc, &mut one, pack, &[])?;
    assert_eq!(rt; next_answer(&mut one), "finished");
    let mut two = Ledger::<Numbers>::new(alloc, 50, 2, 0)?;
    assert_eq!(rt; next_answer(&mut two), "work");
    let pack = claim_work(&mut two)?;
    assert_eq!(rt; next_answer(&mut two), "idle");
    two.give_back(pack);
    Ok(())
}

#[test]
fn a_filing_numbers_children(rt: HostRuntime) -> Result<(), Fail> {
    let alloc = rt.alloc();
    let mut ledger = Ledger::<Numbers>::new(alloc, 50, 3, 0)?;
    file_next(alloc, &mut ledger, &[(60, 61)])?;
    assert!(rt; has_classes(&ledger, &[50, 60, 61]));
    assert!(rt; has_journal(&ledger, &[(0, 1)]));
    assert!(rt; has_done(&ledger, &[0]));
    let records = ledger.records(alloc)?;
    assert_eq!(rt; records.len(), 1);
    assert!(rt; is_record(&records[0], 0, &[(1, false), (2, true)]));
    assert_eq!(rt; ledger.counts().rules, 1);
    let item = ledger.record_at(alloc, 0)?;
    assert!(rt; is_record(&item, 0, &[(1, false), (2, true)]));
    Ok(())
}

#[test]
fn an_equal_child_is_numbered_once(rt: HostRuntime) -> Result<(), Fail> {
    let alloc = rt.alloc();
    let mut ledger = Ledger::<Numbers>::new(alloc, 50, 3, 0)?;
    file_next(alloc, &mut ledger, &[(60, 60), (71, 60), (50, 71)])?;
    file_next(alloc, &mut ledger, &[(71, 80)])?;
    assert!(rt; has_classes(&ledger, &[50, 60, 71, 80]));
    assert!(rt; has_children(&ledger, &[(1, 1), (2, 1), (0, 2), (2, 3)]));
    assert!(rt; has_journal(&ledger, &[(0, 3), (1, 1)]));
    assert_eq!(rt;
        ledger.counts(),
        Counts {
            expanded: 2,
            classes: 4,
            rules: 4
        }
    );
    Ok(())
}

/// A ledger of three classes with the first one done, of which three may be out or done.
fn after_one(alloc: Global) -> Result<Ledger<Numbers>, AllocError> {
    let mut ledger = Ledger::<Numbers>::new(alloc, 50, 3, 0)?;
    file_next(alloc, &mut ledger, &[(60, 61)])?;
    Ok(ledger)
}

#[test]
fn a_class_that_is_given_back_is_claimed_again(rt: HostRuntime) -> Result<(), Fail> {
    let mut ledger = after_one(rt.alloc())?;
    let one = claim_work(&mut ledger)?;
    let Ok(two) = claim_work(&mut ledger) else {
        ledger.give_back(one);
        return Ok(());
    };
    assert!(rt; has_out(&ledger, &[1, 2]));
    assert_eq!(rt; next_answer(&mut ledger), "spent");
    ledger.give_back(one);
    assert!(rt; has_out(&ledger, &[2]));
    ledger.recall();
    assert!(rt; has_out(&ledger, &[]));
    ledger.give_back(two);
    let again = claim_work(&mut ledger)?;
    assert_eq!(rt; again.number(), 1);
    ledger.give_back(again);
    Ok(())
}

#[test]
fn a_pack_of_another_ledger_changes_nothing(rt: HostRuntime) -> Result<(), Fail> {
    let alloc = rt.alloc();
    let mut ledger = after_one(alloc)?;
    let mut other = Ledger::<Numbers>::new(alloc, 50, 1, 0)?;
    let foreign = claim_work(&mut other)?;
    ledger.give_back(foreign);
    assert!(rt; has_done(&ledger, &[0]));
    assert!(rt; has_out(&ledger, &[]));
    assert!(rt; has_out(&other, &[0]));
    Ok(())
}
