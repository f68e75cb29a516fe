ghost use Rattle.std.specs.Prelude.{◌≡◌, ℕ, ◌+◌, ◌*◌, ◌==◌, if◌then◌else◌};
ghost use Rattle.css_terms.specs.Terms.{capped, term_of};

/// A number up to 2^128 - 1, or Big for every number from 2^128 on (docs/RULES.md, "Terms").
#[derive(Clone, Copy, Debug, PartialEq, Eq)]
pub enum Term {
    Exact(u128),
    Big,
}

impl Term {
    /// The sum of any two numbers that the terms stand for, capped. Takes no memory.
    pub fn plus(self, other: Term) -> Term
        ensures capped { (a b : ℕ) → self ≡ capped a → other ≡ capped b → result ≡ capped (a + b) }
    {
        match (self, other) {
            (Term::Exact(a), Term::Exact(b)) => exact_or_big(a.checked_add(b)),
            _ => Term::Big,
        }
    }

    /// The product of any two numbers that the terms stand for, capped: 0 times Big is 0. Takes no memory.
    pub fn times(self, other: Term) -> Term
        ensures capped { (a b : ℕ) → self ≡ capped a → other ≡ capped b → result ≡ capped (a * b) }
    {
        match (self, other) {
            (Term::Exact(a), Term::Exact(b)) => exact_or_big(a.checked_mul(b)),
            (Term::Exact(a), Term::Big) => big_times(a),
            (Term::Big, Term::Exact(b)) => big_times(b),
            (Term::Big, Term::Big) => Term::Big,
        }
    }
}

fn big_times(factor: u128) -> Term
    ensures { result ≡ (if factor == 0 then Term.Exact 0 else Term.Big) }
{
    if factor == 0 {
        Term::Exact(0)
    } else {
        Term::Big
    }
}

fn exact_or_big(number: Option<u128>) -> Term
    ensures { result ≡ term_of number }
{
    match number {
        Some(number) => Term::Exact(number),
        None => Term::Big,
    }
}
