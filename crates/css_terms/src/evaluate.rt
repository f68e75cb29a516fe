ghost use Rattle.std.specs.Prelude.{◌≡◌, ◌+◌, ◌<◌, ◌≤◌, ◌^◌, ℕ, [], length, slice_index_or, IfOk, OnOk};
ghost use Rattle.css_domain.specs.declared.shape.Shape.TheVariants.{Product};
ghost use Rattle.css_terms.specs.Series.{Knows, ShowsTails, AreBelow, items_of, lists_of, places, is_big};
ghost use Rattle.css_terms.specs.Rows.{AreRowCounts, AllShow, AreTails, AreGoodRows, AreNear, AreLowerDone, IsExtended, IsInOrderOfRank, AreAt, StillShow, AreTermsOf};

use crate::order::in_order_of_rank;
use crate::rows::Row;
use crate::series::{series_at, term_at};
use crate::term::Term;
use crate::value::{next_tails, value_of};
use css_domain::Shape;
use std::alloc::{AllocError, Global};

/// Adds the term of a row at n to its series, where it isn't there yet.
fn add_term(
    alloc: Global,
    rows: &[Row],
    series: &mut Vec<Vec<Term>>,
    tails: &[Vec<Vec<Term>>],
    place: usize,
    n: usize,
) -> Result<(), AllocError>
    requires rows { AreGoodRows rows.now }
    requires within { place < length rows.now }
    requires tails { AreTails rows.now (lists_of tails.now) n }
    requires as_many { length series.old.items ≡ length rows.now }
    requires near { AreNear (items_of series.old.items) n }
    requires lower { AreLowerDone rows.now (items_of series.old.items) place n }
    ensures { OnOk result (IsExtended rows.now (items_of series.old.items) (items_of series.new.items) place n) }
{
    if series[place].len() > n {
        return Ok(());
    }
    let kept = tails[place].as_slice();
    let term = value_of(alloc, &rows[place], series.as_slice(), kept, n)?;
    let at = &mut series[place];
    at.push(term)?;
    Ok(())
}

/// Adds the terms of all rows at n, which are evaluated in the given order.
fn add_terms(
    alloc: Global,
    rows: &[Row],
    order: &[(u32, u32)],
    series: &mut Vec<Vec<Term>>,
    tails: &[Vec<Vec<Term>>],
    n: usize,
) -> Result<(), AllocError>
    requires rows { AreGoodRows rows.now }
    requires tails { AreTails rows.now (lists_of tails.now) n }
    requires order { IsInOrderOfRank rows.now order.now }
    requires before { AreAt (items_of series.old.items) (length rows.now) n }
    ensures after { OnOk result (AreAt (items_of series.new.items) (length rows.now) (n + 1)) }
    ensures shown { OnOk result (StillShow rows.now (items_of series.old.items) (items_of series.new.items)) }
{
    for pair in order {
        add_term(alloc, rows, series, tails, pair.1 as usize, n)?;
    }
    Ok(())
}

/// Adds to the tails of a product those of the next length, at which all series have their terms.
fn add_tail(
    alloc: Global,
    row: &Row,
    series: &[Vec<Term>],
    tails: &mut Vec<Vec<Term>>,
) -> Result<(), AllocError>
    requires below { AreBelow (length series.now) (places row.now.children) }
    ensures one { OnOk result (row.now.shape ≡ Product → length tails.new.items ≡ length tails.old.items + 1) }
    ensures shown { OnOk result ((known : ℕ → ℕ → ℕ) → Knows (items_of series.now) known → row.now.shape ≡ Product → ShowsTails (items_of tails.old.items) (length tails.old.items) (places row.now.children) known → ShowsTails (items_of tails.new.items) (length tails.old.items + 1) (places row.now.children) known) }
{
    if let Shape::Product = row.shape {
        let lasts = next_tails(alloc, row.children.as_slice(), series, tails.as_slice())?;
        tails.push(lasts)?;
    }
    Ok(())
}

/// Adds the tails of all products at n.
fn add_tails(
    alloc: Global,
    rows: &[Row],
    series: &[Vec<Term>],
    tails: &mut Vec<Vec<Vec<Term>>>,
    n: usize,
) -> Result<(), AllocError>
    requires rows { AreGoodRows rows.now }
    requires series { AreAt (items_of series.now) (length rows.now) (n + 1) }
    requires shown { (count : ℕ → ℕ → ℕ) → AreRowCounts rows.now count → AllShow (items_of series.now) count }
    requires before { AreTails rows.now (lists_of tails.old.items) n }
    ensures { OnOk result (AreTails rows.now (lists_of tails.new.items) (n + 1)) }
{
    for place in 0..rows.len() {
        add_tail(alloc, &rows[place], series, &mut tails[place])?;
    }
    Ok(())
}

fn empty_tails(alloc: Global, rows: &[Row]) -> Result<Vec<Vec<Vec<Term>>>, AllocError>
    ensures { IfOk result (λ tails. AreTails rows.now (lists_of tails.items) 0) }
{
    let mut tails = Vec::with_capacity(alloc, rows.len())?;
    for row in rows {
        let _ = row;
        tails.push(Vec::new(alloc))?;
    }
    Ok(tails)
}

fn empty_series(alloc: Global, rows: usize) -> Result<Vec<Vec<Term>>, AllocError>
    requires { rows < 2 ^ 28 }
    ensures { IfOk result (λ series. AreAt (items_of series.items) rows 0) }
{
    let mut series = Vec::with_capacity(alloc, rows)?;
    for row in 0..rows {
        let _ = row;
        series.push(Vec::new(alloc))?;
    }
    Ok(series)
}

fn is_first_big(series: &[Vec<Term>], n: usize) -> bool
    requires { 0 < length series.now }
    ensures { result ≡ is_big (slice_index_or (slice_index_or (items_of series.now) 0 []) n (Term.Exact 0)) }
{
    match term_at(series_at(series, 0), n) {
        Term::Exact(_) => false,
        Term::Big => true,
    }
}

fn first_of(mut series: Vec<Vec<Term>>) -> Vec<Term>
    requires { 0 < length series.items }
    ensures { result.items ≡ slice_index_or (items_of series.items) 0 [] }
{
    series.swap_remove(0)
}

/// The capped counts of the first row for the lengths from 0 to `last`, as far as the first Big
/// (docs/RULES.md, "Terms"). There is a row, each child is one, each same-length child has a smaller rank,
/// and `last` is at most 200. Each flag must tell truly that its child has no member of length 0: only then
/// are the rows' counts what the answer is about. The refusal is want of memory.
pub fn terms_of_rows(alloc: Global, rows: &[Row], last: u32) -> Result<Vec<Term>, AllocError>
    requires some { 0 < length rows.now }
    requires few { length rows.now < 2 ^ 28 }
    requires rows { AreGoodRows rows.now }
    requires short { last ≤ 200 }
    ensures terms { IfOk result (λ terms. AreTermsOf rows.now last terms.items) }
{
    let order = in_order_of_rank(alloc, rows)?;
    let mut series = empty_series(alloc, rows.len())?;
    let mut tails = empty_tails(alloc, rows)?;
    for n in 0..last as usize + 1 {
        let kept = tails.as_slice();
        add_terms(alloc, rows, order.as_slice(), &mut series, kept, n)?;
        let terms = series.as_slice();
        if is_first_big(terms, n) {
            return Ok(first_of(series));
        }
        add_tails(alloc, rows, terms, &mut tails, n)?;
    }
    Ok(first_of(series))
}
