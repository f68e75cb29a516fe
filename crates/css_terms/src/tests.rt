ghost use Rattle.std.specs.Prelude.{◌≡◌, [], length, IfOk};
ghost use Rattle.css_domain.specs.declared.shape.Shape.TheVariants.{Atom};
ghost use Rattle.css_terms.specs.Rows.{AreGoodRows};

use crate::evaluate::terms_of_rows;
use crate::rows::Row;
use crate::term::Term;
use css_domain::Shape;
use sequences::Sequence;
use std::alloc::{AllocError, Global};
use std::test::Fail;

#[test]
fn caps_of_sums_and_products(rt: HostRuntime) {
    let half = 1u128 << 64;
    assert_eq!(rt; Term::Exact(0).times(Term::Big), Term::Exact(0));
    assert_eq!(rt; Term::Exact(1).times(Term::Big), Term::Big);
    assert_eq!(rt; Term::Exact(half).times(Term::Exact(half)), Term::Big);
    assert_eq!(rt; Term::Exact(u128::MAX).plus(Term::Exact(1)), Term::Big);
    assert_eq!(rt;
        Term::Exact(1u128 << 127).plus(Term::Exact((1u128 << 127) - 1)),
        Term::Exact(u128::MAX)
    );
}

/// A row for the atom of a length.
fn atom(alloc: Global, size: u8) -> Row
    ensures { result ≡ record { shape = Atom size; children = []; rank = 1 } }
{
    Row {
        shape: Shape::Atom(size),
        children: Sequence::of(Vec::new(alloc)),
        rank: 1,
    }
}

/// The rows of the avoiders of 12 and 21, which are the empty permutation and the point.
fn worked_rows(alloc: Global) -> Result<Vec<Row>, AllocError>
    ensures three { IfOk result (λ rows. length rows.items ≡ 3) }
    ensures good { IfOk result (λ rows. AreGoodRows rows.items) }
{
    let children = vec![in alloc; (1u32, false), (2, true)]?;
    let mut rows = Vec::with_capacity(alloc, 3)?;
    rows.push(Row {
        shape: Shape::Union,
        children: Sequence::of(children),
        rank: 2,
    })?;
    rows.push(atom(alloc, 0))?;
    rows.push(atom(alloc, 1))?;
    Ok(rows)
}

#[test]
fn terms_of_the_worked_rows(rt: HostRuntime) -> Result<(), Fail> {
    let alloc = rt.alloc();
    let rows = worked_rows(alloc)?;
    let terms = terms_of_rows(alloc, rows.as_slice(), 3)?;
    let expected = [
        Term::Exact(1),
        Term::Exact(1),
        Term::Exact(0),
        Term::Exact(0),
    ];
    assert_eq!(rt; terms.as_slice(), expected.as_slice());
    Ok(())
}

/// The rows of a class whose members are the empty one, and a point with two members side by side.
fn split_rows(alloc: Global) -> Result<Vec<Row>, AllocError>
    ensures four { IfOk result (λ rows. length rows.items ≡ 4) }
    ensures good { IfOk result (λ rows. AreGoodRows rows.items) }
{
    let either = vec![in alloc; (1u32, false), (2, true)]?;
    let parts = vec![in alloc; (3u32, true), (0, false), (0, false)]?;
    let mut rows = Vec::with_capacity(alloc, 4)?;
    rows.push(Row {
        shape: Shape::Union,
        children: Sequence::of(either),
        rank: 3,
    })?;
    rows.push(atom(alloc, 0))?;
    rows.push(Row {
        shape: Shape::Product,
        children: Sequence::of(parts),
        rank: 2,
    })?;
    rows.push(atom(alloc, 1))?;
    Ok(rows)
}

/// The Catalan numbers.
#[test]
fn terms_of_a_product(rt: HostRuntime) -> Result<(), Fail> {
    let alloc = rt.alloc();
    let rows = split_rows(alloc)?;
    let terms = terms_of_rows(alloc, rows.as_slice(), 6)?;
    let expected = [
        Term::Exact(1),
        Term::Exact(1),
        Term::Exact(2),
        Term::Exact(5),
        Term::Exact(14),
        Term::Exact(42),
        Term::Exact(132),
    ];
    assert_eq!(rt; terms.as_slice(), expected.as_slice());
    Ok(())
}

/// The 69th Catalan number is below 2^128, the next is not.
#[test]
fn terms_end_with_the_first_big_one(rt: HostRuntime) -> Result<(), Fail> {
    let alloc = rt.alloc();
    let rows = split_rows(alloc)?;
    let terms = terms_of_rows(alloc, rows.as_slice(), 200)?;
    let last = Term::Exact(337485502510215975556783793455058624700);
    assert_eq!(rt; terms.len(), 71);
    assert_eq!(rt; terms.get(69), Some(&last));
    assert_eq!(rt; terms.get(70), Some(&Term::Big));
    Ok(())
}
