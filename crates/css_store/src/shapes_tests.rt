//! The words of filings with rules of each shape. Each of five numbers has one rule: 5 is made from 7 and 11 by a
//! product, 7 from 10 and 21 by a union, 10 and 21 are atoms of the lengths 0 and 1, and 11 has no member.
ghost use Rattle.std.specs.Prelude.{◌≡◌, ℕ, [], IfOk};
ghost use Rattle.css_log.specs.States.{ReaderState};
ghost use Rattle.css_store.specs.Desks.{HasRoomFor};
ghost use Rattle.css_store.specs.Filings.{IsFiling};

use crate::{Store, StoreClaim, StoreName, Unfiled};
use css_domain::{Domain, Filing, Shape};
use css_ledger::Pack;
use css_log::{Log, Reader, Writer};
use std::alloc::{AllocError, Global};
use std::marker::Brand;
use std::sync::Wait;
use std::test::Fail;

/// The five numbers; a rule is the number that it makes.
struct Five;

impl Domain for Five {
    ghost use Rattle.std.specs.Prelude.{◌≡◌, ℕ, [], ◌∷◌, ◌==◌, if◌then◌else◌, map, nat_eq, refl};
    ghost use Rattle.std.proofs.lemmas.Bool.{eqb-true};
    ghost use Rattle.css_domain.specs.Meanings.{Meaning};
    ghost use Rattle.css_domain.specs.Shapes.{combine};
    ghost use Rattle.css_domain.specs.declared.shape.Shape.TheVariants.{Union, Product, Atom, Nothing};

    type Class = u32;

    type Rule = u32;

    ghost meaning = { let empty : ℕ → ℕ = combine (Atom 0) [] in
        let point : ℕ → ℕ = combine (Atom 1) [] in
        let none : ℕ → ℕ = combine Nothing [] in
        let sum : ℕ → ℕ = combine Union (empty ∷ point ∷ []) in
        let count : ℕ → ℕ → ℕ = λ c. if c == 5 then combine Product (sum ∷ none ∷ []) else (if c == 7 then sum else (if c == 10 then empty else (if c == 21 then point else none))) in
        let children = λ (c : ℕ). if c == 5 then 7 ∷ 11 ∷ [] else (if c == 7 then 10 ∷ 21 ∷ [] else []) in
        let shape = λ (c : ℕ). if c == 5 then Product else (if c == 7 then Union else (if c == 10 then Atom 0 else (if c == 21 then Atom 1 else Nothing))) in
        record { same = nat_eq; positive = λ c. c == 21; count = count; parent = λ r. r; children = children; shape = shape; holds = λ r. (n : ℕ) → count r n ≡ combine (shape r) (map count (children r)) n; complete = λ rulebook c rules. Unit {0} } };

    fn parent(rule: &u32) -> &u32 {
        rule
    }

    fn arity(rule: &u32) -> u32 {
        if *rule == 5 || *rule == 7 { 2 } else { 0 }
    }

    fn child(rule: &u32, slot: u32) -> &u32 {
        if *rule == 5 {
            return if slot == 0 { &7 } else { &11 };
        }
        if slot == 0 { &10 } else { &21 }
    }

    fn shape(rule: &u32) -> Shape {
        match *rule {
            5 => Shape::Product,
            7 => Shape::Union,
            10 => Shape::Atom(0),
            21 => Shape::Atom(1),
            _ => Shape::Nothing,
        }
    }

    fn positive(class: &u32) -> bool {
        *class == 21
    }

    fn copy(_alloc: Global, class: &u32) -> Result<u32, AllocError> {
        Ok(*class)
    }

    fn copy_rule(_alloc: Global, rule: &u32) -> Result<u32, AllocError> {
        Ok(*rule)
    }

    ghost exact = { eqb-true };

    ghost same = { λ a b. refl };

    ghost combined = { λ r h n. h n };

    ghost none_of_length_0 = { λ c h. let e : c ≡ 21 = eqb-true c 21 h in Prim.rw e };
}

/// The filing of a number's one rule.
fn filing_of(alloc: Global, class: u32) -> Result<Filing<Five>, AllocError>
    requires { ⟦<Five as Domain>⟧.meaning.holds class }
    ensures { IfOk result (λ filing. (rulebook : ℕ) → IsFiling ⟦<Five as Domain>⟧.meaning rulebook filing) }
{
    let rules = vec![in alloc; class]?;
    Ok(Filing::of(rules))
}

fn expansion(alloc: Global, class: u32) -> Result<Filing<Five>, AllocError>
    ensures { IfOk result (λ filing. (rulebook : ℕ) → IsFiling ⟦<Five as Domain>⟧.meaning rulebook filing) }
{
    match class {
        5 => filing_of(alloc, 5),
        7 => filing_of(alloc, 7),
        10 => filing_of(alloc, 10),
        21 => filing_of(alloc, 21),
        _ => filing_of(alloc, 11),
    }
}

/// Files the class of the pack.
fn file<N: StoreName>(
    rt: &impl Wait,
    alloc: Global,
    store: &Store<Five, N>,
    pack: Pack,
    class: u32,
) {
    let Ok(filing) = expansion(alloc, class) else {
        store.give_back(rt, pack);
        return;
    };
    match store.file(rt, pack, filing) {
        Ok(()) => {}
        Err(Unfiled::NotOut(pack, _)) => store.give_back(rt, pack),
        Err(Unfiled::Memory(pack, _)) => store.give_back(rt, pack),
    }
}

/// Files the five classes that are claimed first, or as many as there are.
fn file_all<N: StoreName>(rt: &impl Wait, alloc: Global, store: &Store<Five, N>) {
    for _ in 0..5u32 {
        match store.claim(rt, alloc) {
            StoreClaim::Work(pack, class) => file(rt, alloc, store, pack, class),
            StoreClaim::Spent => {}
            StoreClaim::Finished => {}
            StoreClaim::Stopped => {}
            StoreClaim::Memory => {}
        }
    }
}

/// Whether the words of all that is filed from the root on are these.
fn words_are<N: StoreName>(
    rt: &impl Wait,
    alloc: Global,
    root: u32,
    words: &[u64],
    log: Log,
    writer: Writer,
    reader: Reader,
) -> Result<bool, AllocError>
    requires log { log ≡ N.log }
    requires writer { (writer.log ≡ N.log) × (writer.list ≡ []) × (writer.front ≡ 0) }
    requires reader { reader.log ≡ N.log }
    requires room { HasRoomFor 5 log }
    requires name { (5 ≡ N.budget) × (0 ≡ N.rulebook) }
{
    let store = Store::<Five, N>::new(alloc, root, 5, 0, 1, log, writer)?;
    file_all(rt, alloc, &store);
    let Ok(closed) = store.close(reader) else {
        return Err(AllocError);
    };
    Ok(closed.words.as_slice() == words)
}

#[test]
fn three_filings_have_their_words(rt: HostRuntime) -> Result<(), Fail> {
    let (log, writer, reader) = Log::new(rt.alloc(), 10240)?;
    let words = [0, 2, 2, 5, 4294967312, 0, 8589934609, 0];
    assert!(rt; words_are::<Brand>(&rt, rt.alloc(), 7, words.as_slice(), log, writer, reader)?);
    Ok(())
}

#[test]
fn each_shape_has_its_words(rt: HostRuntime) -> Result<(), Fail> {
    let (log, writer, reader) = Log::new(rt.alloc(), 10240)?;
    let words = [
        1,
        2,
        2,
        4,
        4294967296,
        2,
        6,
        9,
        8589934594,
        0,
        12884901904,
        0,
        17179869201,
        0,
    ];
    assert!(rt; words_are::<Brand>(&rt, rt.alloc(), 5, words.as_slice(), log, writer, reader)?);
    Ok(())
}
