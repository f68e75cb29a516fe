ghost use Rattle.std.specs.Prelude.{◌≡◌, ◌<◌, ◌≤◌, ℕ, List, IfOk, IsTrue, true, length, slice_get, Some, map};
ghost use Rattle.css_domain.specs.Shapes.{combine};

use crate::shape::Shape;
use std::alloc::{AllocError, Global};
use std::hash::Hash;

/// Classes with a count for each length, and rules that make a class from others (docs/RULES.md, "Classes,
/// rules and counts"). Where a rule holds, the count of its parent combines those of its children. Threads
/// may share it.
pub trait Domain: Send + Sync {
    ghost use Rattle.css_domain.specs.Meanings.{Meaning};

    /// Two classes are equal exactly where contracts see the same value.
    type Class: Eq + Hash + Drop;

    type Rule: Drop;

    /// The counts, which rules hold and which filings are complete.
    ghost meaning: { Meaning Self.Class Self.Rule };

    /// The class that the rule makes. Takes no memory.
    fn parent(rule: &Self::Rule) -> &Self::Class
        ensures { result.now ≡ meaning.parent rule.now };

    /// The number of the rule's children. Takes no memory.
    fn arity(rule: &Self::Rule) -> u32
        ensures { result ≡ length (meaning.children rule.now) };

    /// The child in a slot below the arity. Takes no memory.
    fn child(rule: &Self::Rule, slot: u32) -> &Self::Class
        requires { slot < length (meaning.children rule.now) }
        ensures { slice_get (meaning.children rule.now) slot ≡ Some result.now };

    /// The rule's shape. Takes no memory.
    fn shape(rule: &Self::Rule) -> Shape
        ensures { result ≡ meaning.shape rule.now };

    /// Whether the class is known to have no member of length 0. Takes no memory.
    fn positive(class: &Self::Class) -> bool
        ensures { result ≡ meaning.positive class.now };

    /// An equal class. The refusal is want of memory.
    fn copy(alloc: Global, class: &Self::Class) -> Result<Self::Class, AllocError>
        ensures { IfOk result (λ copied. copied ≡ class.now) };

    /// An equal rule. The refusal is want of memory.
    fn copy_rule(alloc: Global, rule: &Self::Rule) -> Result<Self::Rule, AllocError>
        ensures { IfOk result (λ copied. copied ≡ rule.now) };

    ghost exact: { (a b : Self.Class) → Self.Class.eq a b ≡ true → a ≡ b };

    ghost same: { (a b : Self.Class) → meaning.same a b ≡ Self.Class.eq a b };

    ghost combined: { (r : Self.Rule) → meaning.holds r → (n : ℕ) → meaning.count (meaning.parent r) n ≡ combine (meaning.shape r) (map meaning.count (meaning.children r)) n };

    ghost none_of_length_0: { (c : Self.Class) → meaning.positive c ≡ true → meaning.count c 0 ≡ 0 };
}
