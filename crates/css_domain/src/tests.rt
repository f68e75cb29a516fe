use crate::domain::Domain;
use crate::filing::Filing;
use crate::laws::{counts_are_determined, filed_specs_stand};
use crate::record::Record;
use crate::shape::{Shape, same_length};
use crate::word_view::WordView;
use sequences::Sequence;
use std::alloc::{AllocError, Global};

/// Numbers, each with one member of length 0; the rule of a number makes it from itself.
struct Numbers;

impl Domain for Numbers {
    ghost use Rattle.std.specs.Prelude.{ℕ, false, [], ◌∷◌, nat_eq, ◌==◌, if◌then◌else◌, refl};
    ghost use Rattle.std.proofs.Common.{sym, ◌∙◌, add-zero};
    ghost use Rattle.std.proofs.lemmas.List.Sums.{sum_by-cons};
    ghost use Rattle.std.proofs.lemmas.Bool.{eqb-true};
    ghost use Rattle.css_domain.specs.Meanings.{Meaning};
    ghost use Rattle.css_domain.specs.declared.shape.Shape.TheVariants.{Union};

    type Class = u32;

    type Rule = u32;

    ghost meaning = { record { same = nat_eq; positive = λ c. false; count = λ c n. if n == 0 then 1 else 0; parent = λ r. r; children = λ r. r ∷ []; shape = λ r. Union; holds = λ r. Unit {0}; complete = λ rulebook c rules. Unit {0} } };

    fn parent(rule: &u32) -> &u32 {
        rule
    }

    fn arity(_rule: &u32) -> u32 {
        1
    }

    fn child(rule: &u32, _slot: u32) -> &u32 {
        rule
    }

    fn shape(_rule: &u32) -> Shape {
        Shape::Union
    }

    fn positive(_class: &u32) -> bool {
        false
    }

    fn copy(_alloc: Global, class: &u32) -> Result<u32, AllocError> {
        Ok(*class)
    }

    fn copy_rule(_alloc: Global, rule: &u32) -> Result<u32, AllocError> {
        Ok(*rule)
    }

    ghost exact = { eqb-true };

    ghost same = { λ a b. refl };

    ghost combined = { λ r h n. sym (sum_by-cons (λ (c : ℕ → ℕ). c n) (λ m. if m == 0 then 1 else 0) [] ∙ add-zero (if n == 0 then 1 else 0)) };

    ghost none_of_length_0 = { λ c h. absurd Prim.cc };
}

#[test]
fn same_length_of_each_shape(rt: HostRuntime) {
    let beside_point = [(4, false), (5, true)];
    assert_eq!(rt; same_length(Shape::Union, &beside_point, 0), true);
    assert_eq!(rt; same_length(Shape::Product, &beside_point, 0), false);
    assert_eq!(rt; same_length(Shape::Product, &beside_point, 1), true);
    assert_eq!(rt;
        same_length(Shape::Product, &[(0, false), (0, false)], 1),
        true
    );
    assert_eq!(rt; same_length(Shape::Product, &[(0, true)], 0), true);
}

#[test]
fn a_filing_is_its_rules(rt: HostRuntime) {
    let rules = vec![in rt.alloc(); 7u32, 3].expect(&rt, "memory");
    let filing: Filing<Numbers> = Filing::of(rules);
    assert_eq!(rt; filing.as_slice()[1], 3);
    assert_eq!(rt; filing.words(), 6);
    assert_eq!(rt; filing.into_vec().len(), 2);
}

#[test]
fn a_record_is_its_parts(rt: HostRuntime) {
    let children = vec![in rt.alloc(); (1u32, false), (2, true)].expect(&rt, "memory");
    let insertion = Record {
        parent: 0,
        shape: Shape::Union,
        children: Sequence::of(children),
    };
    assert_eq!(rt;
        same_length(insertion.shape, insertion.children.as_slice(), 1),
        true
    );
    let copied = insertion.copied(rt.alloc()).expect(&rt, "memory");
    assert!(rt; copied.children.as_slice() == insertion.children.as_slice());
}

#[test]
fn laws_compute_nothing() {
    counts_are_determined::<Numbers>();
    filed_specs_stand::<Numbers>();
}

#[test]
fn a_view_counts_its_readings(rt: HostRuntime) {
    let words = [7, 9];
    let mut view = WordView::of(words.as_slice());
    assert_eq!(rt; view.len(), 2);
    assert_eq!(rt; view.reads(), 0);
    assert_eq!(rt; view.word(1), 9);
    assert_eq!(rt; view.word(1), 9);
    assert_eq!(rt; view.reads(), 2);
}
