ghost use Rattle.std.specs.Prelude.{◌≡◌, ◌+◌, ◌*◌, ◌-◌, ◌<◌, ◌≤◌, ℕ, [], length, slice_index_or};
ghost use Rattle.css_terms.specs.Terms.{capped};
ghost use Rattle.css_terms.specs.Series.{ShowsAll, ShowsAt, items_of, convolution};

use crate::term::Term;

/// The term at a length, which is 0 past the end.
pub fn term_at(series: &[Term], n: usize) -> Term
    ensures { result ≡ slice_index_or series.now n (Term.Exact 0) }
{
    if n < series.len() {
        series[n]
    } else {
        Term::Exact(0)
    }
}

/// The series at a place.
pub fn series_at(series: &[Vec<Term>], place: usize) -> &[Term]
    requires { place < length series.now }
    ensures { result.now ≡ slice_index_or (items_of series.now) place [] }
{
    let at = &series[place];
    at.as_slice()
}

/// The term at a length of the product of the last children of a row, `back` of them: one of those that
/// are kept, or the last one.
fn tail_at(tails: &[Vec<Term>], back: usize, last: Term, n: usize) -> Term
    requires { n ≤ length tails.now }
    ensures { (g : ℕ → ℕ) → ShowsAt (items_of tails.now) (length tails.now) back g → last ≡ capped (g (length tails.now)) → result ≡ capped (g n) }
{
    if n < tails.len() {
        term_at(series_at(tails, n), back)
    } else {
        last
    }
}

/// The sum of the products of a term of the child and a term of the children behind it, `back` of them,
/// whose lengths add up to the one after those that are kept.
pub fn convolution_at(child: &[Term], tails: &[Vec<Term>], back: usize, last: Term) -> Term
    ensures { (f g : ℕ → ℕ) → ShowsAll child.now f → ShowsAt (items_of tails.now) (length tails.now) back g → last ≡ capped (g (length tails.now)) → result ≡ capped (convolution f g (length tails.now)) }
{
    let n = tails.len();
    let mut total = Term::Exact(0);
    for k in 0..n + 1 {
        total = total.plus(term_at(child, k).times(tail_at(tails, back, last, n - k)));
    }
    total
}
