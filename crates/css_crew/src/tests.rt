ghost use Rattle.std.specs.Prelude.{◌≤◌, length, IfOk};
ghost use Rattle.css_crew.specs.Ways.{IsExpansion};

use crate::alone::{Solved, solve_alone};
use crate::expander::Expander;
use crate::laws::picks_are_filed;
use crate::reason::Reason;
use css_domain::{Domain, Filing, Shape};
use css_ledger::{Counts, Ledger};
use css_prune::Entry;
use std::alloc::{AllocError, Global};
use std::test::Fail;

/// Numbers without members. A rule makes a number from two, whose lengths don't matter to it.
pub(crate) struct Numbers;

#[derive(Drop)]
pub(crate) struct Pair {
    parent: u32,
    first: u32,
    second: u32,
}

impl Domain for Numbers {
    ghost use Rattle.std.specs.Prelude.{false, [], ◌∷◌, nat_eq, refl};
    ghost use Rattle.std.proofs.lemmas.Bool.{eqb-true};
    ghost use Rattle.css_domain.specs.Meanings.{Meaning};
    ghost use Rattle.css_domain.specs.declared.shape.Shape.TheVariants.{Nothing};

    type Class = u32;

    type Rule = Pair;

    ghost meaning = { record { same = nat_eq; positive = λ c. false; count = λ c n. 0; parent = λ r. r.parent; children = λ r. r.first ∷ r.second ∷ []; shape = λ r. Nothing; holds = λ r. Unit {0}; complete = λ rulebook c rules. Unit {0} } };

    fn parent(rule: &Pair) -> &u32 {
        &rule.parent
    }

    fn arity(_rule: &Pair) -> u32 {
        2
    }

    fn child(rule: &Pair, slot: u32) -> &u32 {
        if slot == 0 {
            return &rule.first;
        }
        &rule.second
    }

    fn shape(_rule: &Pair) -> Shape {
        Shape::Nothing
    }

    fn positive(_class: &u32) -> bool {
        false
    }

    fn copy(_alloc: Global, class: &u32) -> Result<u32, AllocError> {
        Ok(*class)
    }

    fn copy_rule(_alloc: Global, rule: &Pair) -> Result<Pair, AllocError> {
        Ok(Pair {
            parent: rule.parent,
            first: rule.first,
            second: rule.second,
        })
    }

    ghost exact = { eqb-true };

    ghost same = { λ a b. refl };

    ghost combined = { λ r h n. refl };

    ghost none_of_length_0 = { λ c h. refl };
}

/// What each number is made from: 7 from 10 and 20, and from 30 twice; 10 and 20 from themselves; 40 from 30.
pub(crate) fn pairs_of(class: u32) -> &'static [(u32, u32)]
    ensures { length result.now ≤ 4 }
{
    match class {
        7 => &[(10, 20), (30, 30)],
        10 => &[(10, 10)],
        20 => &[(20, 20)],
        40 => &[(30, 30)],
        _ => &[],
    }
}

/// The filing of a number that makes it from each of the pairs, for the rulebook 3.
pub(crate) fn filing_of(
    alloc: Global,
    parent: u32,
    pairs: &[(u32, u32)],
) -> Result<Filing<Numbers>, AllocError>
    requires { length pairs.now ≤ 4 }
    ensures { IfOk result (λ filing. IsExpansion ⟦<Numbers as Domain>⟧.meaning 3 parent filing) }
{
    let mut rules = Vec::new(alloc);
    for pair in pairs {
        rules.push(Pair {
            parent,
            first: pair.0,
            second: pair.1,
        })?;
    }
    Ok(Filing::of(rules))
}

/// Expands each number by its pairs.
pub(crate) struct ByPairs;

impl Expander<Numbers> for ByPairs {
    ghost rulebook_of = { λ _. 3 };

    fn rulebook(&self) -> u32 {
        3
    }

    fn expand(&self, alloc: Global, class: &u32) -> Result<Filing<Numbers>, AllocError> {
        filing_of(alloc, *class, pairs_of(*class))
    }
}

/// The numbers of rules that were filed for the classes 0, 1, 2 and so on.
fn has_filed(ledger: &Ledger<Numbers>, expected: &[u32]) -> bool {
    let expanded = ledger.counts().expanded;
    if expanded as usize != expected.len() {
        return false;
    }
    for place in 0..expanded {
        if ledger.filed(place) != (place, expected[place as usize]) {
            return false;
        }
    }
    true
}

pub(crate) fn is_entry(entry: &Entry<Numbers>, class: u32, children: &[u32], rank: u32) -> bool {
    entry.class == class
        && entry.rule.parent == class
        && entry.children.as_slice() == children
        && entry.rank == rank
}

fn solved(alloc: Global, root: u32, budget: u32) -> Result<Solved<Numbers>, AllocError>
    requires some { 1 ≤ budget }
    requires few { budget ≤ 5000 }
{
    solve_alone(alloc, root, budget, &ByPairs)
}

#[test]
fn the_root_is_found_as_soon_as_it_stands(rt: HostRuntime) -> Result<(), Fail> {
    // 7, 10 and 20 are filed, and 7 stands by its first rule. 30, which has the number 3, is left.
    let solved = solved(rt.alloc(), 7, 9)?;
    assert_eq!(rt; solved.reason, Reason::Found);
    assert!(rt; has_filed(&solved.ledger, &[2, 1, 1]));
    assert_eq!(rt;
        solved.ledger.counts(),
        Counts {
            expanded: 3,
            classes: 4,
            rules: 4
        }
    );
    let spec = solved.spec.ok_or("none")?;
    let entries = spec.entries();
    assert_eq!(rt; entries.len(), 3);
    assert!(rt; is_entry(&entries[0], 7, &[1, 2], 1));
    assert!(rt; is_entry(&entries[1], 10, &[1, 1], 1));
    assert!(rt; is_entry(&entries[2], 20, &[2, 2], 1));
    Ok(())
}

/// Whether the search of a root ends for this reason, with these counts and a specification only where found.
fn ends(
    alloc: Global,
    root: u32,
    budget: u32,
    reason: Reason,
    counts: Counts,
) -> Result<bool, AllocError>
    requires some { 1 ≤ budget }
    requires few { budget ≤ 5000 }
{
    let solved = solved(alloc, root, budget)?;
    Ok(
        solved.reason == reason
            && solved.ledger.counts() == counts
            && solved.spec.is_some() == (reason == Reason::Found),
    )
}

pub(crate) fn counts(expanded: u32, classes: u32, rules: u32) -> Counts {
    Counts {
        expanded,
        classes,
        rules,
    }
}

#[test]
fn each_reason_comes_in_its_order(rt: HostRuntime) -> Result<(), Fail> {
    let alloc = rt.alloc();
    // 10 stands after its filing, though all is done and the budget is spent.
    assert!(rt; ends(alloc, 10, 1, Reason::Found, counts(1, 1, 1))?);
    // 40 rests on 30, which has no rule, and all is done, though the budget is spent.
    assert!(rt; ends(alloc, 40, 2, Reason::Exhausted, counts(2, 2, 1))?);
    assert!(rt; ends(alloc, 30, 5, Reason::Exhausted, counts(1, 1, 0))?);
    // 7 and 10 are filed; 20 and 30 are not.
    assert!(rt; ends(alloc, 7, 2, Reason::Budget, counts(2, 4, 3))?);
    Ok(())
}

#[test]
fn a_law_computes_nothing() {
    picks_are_filed::<Numbers>();
}
