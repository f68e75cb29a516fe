ghost use Rattle.std.specs.Prelude.{◌≡◌, ◌+◌, ◌≤◌, ℕ, [], map, length, sum_by, IfOk};
ghost use Rattle.css_domain.specs.Shapes.{combine};
ghost use Rattle.css_domain.specs.declared.shape.Shape.TheVariants.{Product};
ghost use Rattle.lists.specs.Products.{product_count};
ghost use Rattle.css_terms.specs.Terms.{capped};
ghost use Rattle.css_terms.specs.Series.{Knows, ShowsTails, AreTailsAt, AreBelow, items_of, places};

use crate::rows::Row;
use crate::series::{convolution_at, series_at, term_at};
use crate::term::Term;
use css_domain::Shape;
use std::alloc::{AllocError, Global};

fn sum_of(children: &[(u32, bool)], series: &[Vec<Term>], n: usize) -> Term
    requires { AreBelow (length series.now) (places children.now) }
    ensures { (known : ℕ → ℕ → ℕ) → Knows (items_of series.now) known → result ≡ capped (sum_by (λ c. c n) (map known (places children.now))) }
{
    let mut total = Term::Exact(0);
    for child in children {
        total = total.plus(term_at(series_at(series, child.0 as usize), n));
    }
    total
}

fn unit_at(n: usize) -> Term
    ensures { result ≡ capped (product_count [] n) }
{
    if n == 0 {
        Term::Exact(1)
    } else {
        Term::Exact(0)
    }
}

/// The terms of the products of the last children, of none, of one, and so on to all, at the length after
/// those that are kept.
pub fn next_tails(
    alloc: Global,
    children: &[(u32, bool)],
    series: &[Vec<Term>],
    tails: &[Vec<Term>],
) -> Result<Vec<Term>, AllocError>
    requires below { AreBelow (length series.now) (places children.now) }
    ensures as_long { IfOk result (λ lasts. length lasts.items ≡ length children.now + 1) }
    ensures terms { IfOk result (λ lasts. (known : ℕ → ℕ → ℕ) → Knows (items_of series.now) known → ShowsTails (items_of tails.now) (length tails.now) (places children.now) known → AreTailsAt lasts.items (length tails.now) (places children.now) known) }
{
    let mut lasts = Vec::new(alloc);
    lasts.push(unit_at(tails.len()))?;
    for back in 0..children.len() {
        let place = children[children.len() - 1 - back].0 as usize;
        let next = convolution_at(series_at(series, place), tails, back, lasts[back]);
        lasts.push(next)?;
    }
    Ok(lasts)
}

/// The term of an entry at a length, from the series of all entries; of a product, from its tails too.
pub fn value_of(
    alloc: Global,
    row: &Row,
    series: &[Vec<Term>],
    tails: &[Vec<Term>],
    n: usize,
) -> Result<Term, AllocError>
    requires below { AreBelow (length series.now) (places row.now.children) }
    requires kept { row.now.shape ≡ Product → length tails.now ≡ n }
    ensures { IfOk result (λ term. (known : ℕ → ℕ → ℕ) → Knows (items_of series.now) known → (row.now.shape ≡ Product → ShowsTails (items_of tails.now) n (places row.now.children) known) → term ≡ capped (combine row.now.shape (map known (places row.now.children)) n)) }
{
    match row.shape {
        Shape::Union => Ok(sum_of(row.children.as_slice(), series, n)),
        Shape::Product => {
            let lasts = next_tails(alloc, row.children.as_slice(), series, tails)?;
            Ok(lasts[row.children.len()])
        }
        Shape::Atom(size) => Ok(if n == size as usize {
            Term::Exact(1)
        } else {
            Term::Exact(0)
        }),
        Shape::Nothing => Ok(Term::Exact(0)),
    }
}
