ghost use Rattle.std.specs.Prelude.{◌≡◌, ℕ, length, IfOk, IfSome};
ghost use Rattle.css_domain.specs.LedgerFacts.{IsFilingOf};
ghost use Rattle.css_domain.specs.Ledgers.{classes, records};
ghost use Rattle.css_prune.specs.Pruning.{IsPruned};

use crate::entry::Entry;
use crate::faults::SpecFault;
use crate::picked::extract;
use crate::pruned::{Pruned, prune};
use crate::spec::Spec;
use crate::tests::{number_of, shape_of};
use css_domain::{Domain, Filing, Shape};
use css_ledger::{Claimed, Ledger, Pack};
use sequences::Sequence;
use std::alloc::{AllocError, Global};
use std::str::SplitWhitespace;
use std::test::Fail;

/// Numbers without members, of which the odd ones count as positive. A rule makes a number from two.
struct Numbers;

#[derive(Drop)]
struct Pair {
    parent: u32,
    shape: Shape,
    first: u32,
    second: u32,
}

impl Domain for Numbers {
    ghost use Rattle.std.specs.Prelude.{◌≡◌, ◌==◌, ◌%◌, ℕ, [], ◌∷◌, map, nat_eq, refl};
    ghost use Rattle.std.proofs.lemmas.Bool.{eqb-true};
    ghost use Rattle.css_domain.specs.Meanings.{Meaning};
    ghost use Rattle.css_domain.specs.Shapes.{combine};

    type Class = u32;

    type Rule = Pair;

    ghost meaning = { record { same = nat_eq; positive = λ c. c % 2 == 1; count = λ c n. 0; parent = λ r. r.parent; children = λ r. r.first ∷ r.second ∷ []; shape = λ r. r.shape; holds = λ r. (n : ℕ) → 0 ≡ combine r.shape ((λ m. 0) ∷ (λ m. 0) ∷ []) n; complete = λ rulebook c rules. Unit {0} } };

    fn parent(rule: &Pair) -> &u32 {
        &rule.parent
    }

    fn arity(_rule: &Pair) -> u32 {
        2
    }

    fn child(rule: &Pair, slot: u32) -> &u32 {
        if slot == 0 {
            return &rule.first;
        }
        &rule.second
    }

    fn shape(rule: &Pair) -> Shape {
        rule.shape
    }

    fn positive(class: &u32) -> bool {
        class % 2 == 1
    }

    fn copy(_alloc: Global, class: &u32) -> Result<u32, AllocError> {
        Ok(*class)
    }

    fn copy_rule(_alloc: Global, rule: &Pair) -> Result<Pair, AllocError> {
        Ok(Pair {
            parent: rule.parent,
            shape: rule.shape,
            first: rule.first,
            second: rule.second,
        })
    }

    ghost exact = { eqb-true };

    ghost same = { λ a b. refl };

    ghost combined = { λ r h n. h n };

    ghost none_of_length_0 = { λ c h. refl };
}

/// A rule that makes a number from the members of two, or says that it has none.
fn rule_of(parent: u32, union: bool, first: u32, second: u32) -> Pair
    ensures holds { ⟦<Numbers as Domain>⟧.meaning.holds result }
    ensures own { result.parent ≡ parent }
{
    if union {
        return Pair {
            parent,
            shape: Shape::Union,
            first,
            second,
        };
    }
    Pair {
        parent,
        shape: Shape::Nothing,
        first,
        second,
    }
}

/// What is filed for a number, always with the children 10 and 21: 30 is their union, and all others are empty.
fn filing_of(alloc: Global, class: u32) -> Result<Filing<Numbers>, AllocError>
    ensures { IfOk result (λ filing. (rulebook : ℕ) → IsFilingOf ⟦<Numbers as Domain>⟧.meaning rulebook class filing) }
{
    let rules = vec![in alloc; rule_of(class, class == 30, 10, 21)]?;
    Ok(Filing::of(rules))
}

/// Files for the pack's number what there is for it.
fn file(alloc: Global, ledger: &mut Ledger<Numbers>, pack: Pack) -> Result<(), AllocError> {
    let number = pack.number();
    if !ledger.is_out(number) || number >= ledger.counts().classes {
        ledger.give_back(pack);
        return Err(AllocError);
    }
    let Ok(filing) = filing_of(alloc, *ledger.class(number)) else {
        ledger.give_back(pack);
        return Err(AllocError);
    };
    let Err((pack, _)) = ledger.file(pack, filing) else {
        return Ok(());
    };
    ledger.give_back(pack);
    Err(AllocError)
}

/// Claims a number and files what there is for it.
fn file_next(alloc: Global, ledger: &mut Ledger<Numbers>) -> Result<(), AllocError> {
    match ledger.claim() {
        Claimed::Work(pack) => file(alloc, ledger, pack),
        Claimed::Spent => Err(AllocError),
        Claimed::Idle => Err(AllocError),
        Claimed::Finished => Err(AllocError),
    }
}

/// What stands in a ledger.
fn standing(alloc: Global, ledger: &Ledger<Numbers>) -> Result<Pruned, AllocError>
    ensures { IfOk result (λ pruned. IsPruned (records ⟦<Numbers as Domain>⟧.meaning ledger.now) (length (classes ⟦<Numbers as Domain>⟧.meaning ledger.now)) pruned) }
{
    let classes = ledger.counts().classes;
    let records = ledger.records(alloc)?;
    prune(alloc, records.as_slice(), classes)
}

/// The specification of the ledger's picks from a number on.
fn extracted(
    alloc: Global,
    ledger: &Ledger<Numbers>,
    root: u32,
) -> Result<Spec<Numbers>, AllocError> {
    let pruned = standing(alloc, ledger)?;
    let keep = pruned.keep.as_slice();
    if root as usize >= keep.len() {
        return Err(AllocError);
    }
    let stands = keep[root as usize];
    if !stands {
        return Err(AllocError);
    }
    extract(alloc, ledger, &pruned, root)
}

fn is_entry(entry: &Entry<Numbers>, class: u32, children: &[u32], rank: u32) -> bool {
    entry.class == class
        && entry.rule.parent == class
        && entry.children.as_slice() == children
        && entry.rank == rank
}

/// The ledger of the worked root: three numbers, each with its rule.
fn worked(alloc: Global) -> Result<Ledger<Numbers>, AllocError> {
    let mut ledger = Ledger::new(alloc, 30, 3, 0)?;
    for _ in 0..3 {
        file_next(alloc, &mut ledger)?;
    }
    Ok(ledger)
}

#[test]
fn the_worked_root_is_extracted(rt: HostRuntime) -> Result<(), Fail> {
    let alloc = rt.alloc();
    let ledger = worked(alloc)?;
    let spec = extracted(alloc, &ledger, 0)?;
    let entries = spec.entries();
    assert_eq!(rt; entries.len(), 3);
    assert!(rt; is_entry(&entries[0], 30, &[1, 2], 2));
    assert!(rt; is_entry(&entries[1], 10, &[1, 2], 1));
    assert!(rt; is_entry(&entries[2], 21, &[1, 2], 1));
    Ok(())
}

#[test]
fn another_root_is_extracted(rt: HostRuntime) -> Result<(), Fail> {
    let alloc = rt.alloc();
    let ledger = worked(alloc)?;
    // 21 comes first, then its child 10; both have 10 and 21 as children.
    let entries = extracted(alloc, &ledger, 2)?.into_entries();
    assert_eq!(rt; entries.len(), 2);
    assert!(rt; is_entry(&entries[0], 21, &[1, 0], 1));
    assert!(rt; is_entry(&entries[1], 10, &[1, 0], 1));
    Ok(())
}

fn next_number(words: &mut SplitWhitespace<'_>) -> Result<u32, AllocError> {
    number_of(words.next().ok_or(AllocError)?)
}

/// The entry of a text: its class; its rule's parent, shape and two numbers; its rank; the places that are
/// named for its children.
fn entry_of(alloc: Global, text: &str) -> Result<Entry<Numbers>, AllocError> {
    let mut words = text.split_whitespace();
    let class = next_number(&mut words)?;
    let parent = next_number(&mut words)?;
    let shape = shape_of(words.next().ok_or(AllocError)?)?;
    let first = next_number(&mut words)?;
    let second = next_number(&mut words)?;
    let rank = next_number(&mut words)?;
    let mut children = Vec::new(alloc);
    for word in words {
        children.push(number_of(word)?)?;
    }
    Ok(Entry {
        class,
        rule: Pair {
            parent,
            shape,
            first,
            second,
        },
        children: Sequence::of(children),
        rank,
    })
}

fn entries_of(alloc: Global, text: &str) -> Result<Vec<Entry<Numbers>>, AllocError> {
    let mut entries = Vec::new(alloc);
    for piece in text.split(';') {
        if !piece.is_empty() {
            entries.push(entry_of(alloc, piece)?)?;
        }
    }
    Ok(entries)
}

/// Why the entries of a text are no specification, where they aren't.
fn fault_of(alloc: Global, text: &str) -> Result<Option<SpecFault>, AllocError> {
    let entries = entries_of(alloc, text)?;
    if entries.len() > 9 {
        return Err(AllocError);
    }
    match Spec::of(entries) {
        Ok(_) => Ok(None),
        Err(fault) => Ok(Some(fault)),
    }
}

/// A specification, and entries that are none, with the first fault.
const RULE_CASES: [(&str, Option<SpecFault>); 10] = [
    // The worked root; no entry.
    (
        "30 30 union 10 21 2 1 2;10 10 nothing 10 10 1 1 1;21 21 nothing 21 21 1 2 2",
        None,
    ),
    ("", Some(SpecFault::Empty)),
    // The rule makes another class; one child is named; a place is past the end; children are exchanged.
    (
        "30 31 union 10 21 2 1 2;10 10 nothing 10 10 1 1 1;21 21 nothing 21 21 1 2 2",
        Some(SpecFault::Rule { entry: 0 }),
    ),
    (
        "30 30 union 10 21 2 1;10 10 nothing 10 10 1 1 1;21 21 nothing 21 21 1 2 2",
        Some(SpecFault::Rule { entry: 0 }),
    ),
    (
        "30 30 union 10 21 2 1 3;10 10 nothing 10 10 1 1 1;21 21 nothing 21 21 1 2 2",
        Some(SpecFault::Rule { entry: 0 }),
    ),
    (
        "30 30 union 10 21 2 2 1;10 10 nothing 10 10 1 1 1;21 21 nothing 21 21 1 2 2",
        Some(SpecFault::Rule { entry: 0 }),
    ),
    // Entry 2 is named, but its class is that of entry 1; entry 3 is named by itself alone.
    (
        "30 30 union 10 10 2 1 2;10 10 nothing 10 10 1 1 1;10 10 nothing 10 10 1 1 1",
        Some(SpecFault::Rule { entry: 2 }),
    ),
    (
        "30 30 union 10 21 2 1 2;10 10 nothing 10 10 1 1 1;21 21 nothing 21 21 1 2 2;40 40 nothing 40 40 1 3 3",
        Some(SpecFault::Rule { entry: 3 }),
    ),
    // Entries 1 and 2 are wrong: the least is told. A rank of entry 0 is wrong too: the rule is told first.
    (
        "30 30 union 10 21 2 1 2;10 11 nothing 10 10 1 1 1;21 20 nothing 21 21 1 2 2",
        Some(SpecFault::Rule { entry: 1 }),
    ),
    (
        "30 30 union 10 21 1 1 2;10 10 nothing 10 10 1 1 1;21 20 nothing 21 21 1 2 2",
        Some(SpecFault::Rule { entry: 2 }),
    ),
];

/// Entries in which nothing but a rank can be wrong. A number by nothing is named for itself, at any rank.
const RANK_CASES: [(&str, Option<SpecFault>); 8] = [
    // Both children have too high a rank: the first slot's is told, wherever it stands.
    (
        "30 30 union 10 21 1 1 2;10 10 nothing 10 10 1 1 1;21 21 nothing 21 21 1 2 2",
        Some(SpecFault::Rank { entry: 0, child: 1 }),
    ),
    (
        "30 30 union 21 10 1 2 1;10 10 nothing 10 10 1 1 1;21 21 nothing 21 21 1 2 2",
        Some(SpecFault::Rank { entry: 0, child: 2 }),
    ),
    // An equal rank of the second child alone; of a child of entry 1; of the entry itself.
    (
        "30 30 union 10 21 2 1 2;10 10 nothing 10 10 1 1 1;21 21 nothing 21 21 2 2 2",
        Some(SpecFault::Rank { entry: 0, child: 2 }),
    ),
    (
        "30 30 union 40 10 3 1 2;40 40 union 10 10 1 2 2;10 10 nothing 10 10 1 2 2",
        Some(SpecFault::Rank { entry: 1, child: 2 }),
    ),
    (
        "30 30 union 30 30 1 0 0",
        Some(SpecFault::Rank { entry: 0, child: 0 }),
    ),
    // A product's child is shorter beside a positive one: 10 is, 21 beside 10 isn't, both of two 21 are.
    (
        "40 40 product 10 21 2 1 2;10 10 nothing 10 10 5 1 1;21 21 nothing 21 21 1 2 2",
        None,
    ),
    (
        "40 40 product 10 21 2 1 2;10 10 nothing 10 10 5 1 1;21 21 nothing 21 21 2 2 2",
        Some(SpecFault::Rank { entry: 0, child: 2 }),
    ),
    ("40 40 product 21 21 1 1 1;21 21 nothing 21 21 9 1 1", None),
];

#[test]
fn first_wrong_rules(rt: HostRuntime) -> Result<(), Fail> {
    for (text, fault) in RULE_CASES {
        assert_eq!(rt; fault_of(rt.alloc(), text)?, fault, "at {text}");
    }
    Ok(())
}

#[test]
fn first_wrong_ranks(rt: HostRuntime) -> Result<(), Fail> {
    for (text, fault) in RANK_CASES {
        assert_eq!(rt; fault_of(rt.alloc(), text)?, fault, "at {text}");
    }
    Ok(())
}
